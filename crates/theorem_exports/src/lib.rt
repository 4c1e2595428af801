// Theorems over the structs that the exported calls answer: demand 3, loads, openings, ranges, forks, and runs of witness vectors. No code.

#![tactic(auto)]
