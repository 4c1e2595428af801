// Mathematics that knows nothing of the papers: lists as functions of an index, commutative rings with R[X]/(X^d + 1), and the transform of length 64 over any
// of them; definitions in specs/, laws in proofs/. No code.

#![tactic(auto)]
