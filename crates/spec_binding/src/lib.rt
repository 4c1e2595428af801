// What two openings of one commitment give away (document 02, Item 13): definitions in specs/, the theorems about them in proofs/. No code.

#![tactic(auto)]
