// The sections of each slice by name, counted from 0.

// Of the job, after section one: a', φ' and b0 of the constant-term constraints.
pub const CONSTANT_A: usize = 0;

pub const CONSTANT_PHI: usize = 1;

pub const CONSTANT_B: usize = 2;

// a, φ and b of the ring constraints.
pub const RING_A: usize = 3;

pub const RING_PHI: usize = 4;

pub const RING_B: usize = 5;

// The matrices.
pub const MATRIX_A: usize = 6;

pub const MATRIX_B: usize = 7;

pub const MATRIX_C: usize = 8;

pub const MATRIX_D: usize = 9;

// Of the randomness.
pub const PROJECTION: usize = 0;

pub const PSI: usize = 1;

pub const OMEGA: usize = 2;

pub const ALPHA: usize = 3;

pub const BETA: usize = 4;

pub const SIGNS: usize = 5;

pub const SHUFFLES: usize = 6;

// Of the transcript.
pub const U1: usize = 0;

pub const P: usize = 1;

pub const B_DOUBLE_PRIME: usize = 2;

pub const U2: usize = 3;

pub const Z: usize = 4;

pub const T: usize = 5;

pub const G: usize = 6;

pub const H: usize = 7;
