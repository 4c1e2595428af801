// Projection worked by runs of witness vectors (document 02, Item 10): definitions in specs/, the theorems about them in proofs/. No code.

#![tactic(auto)]
