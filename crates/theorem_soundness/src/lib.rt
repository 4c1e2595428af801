// What an acceptance is worth: definitions in specs/, the theorems about them in proofs/. No code.

#![tactic(auto)]
