// The protocol from witness to verdict: definitions in specs/, the theorems about them in proofs/. No code.

#![tactic(auto)]
