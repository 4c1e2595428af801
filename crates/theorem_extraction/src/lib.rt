// What a tree of accepted transcripts gives away: definitions in specs/, the theorems about them in proofs/. No code.

#![tactic(auto)]
