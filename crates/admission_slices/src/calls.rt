// The calls of the prover.
ghost use Rattle.std.specs.Prelude.{◌≡◌, ◌+◌, ◌≤◌};
ghost use Rattle.admission_slices.specs.Admission.{call_of};

// The whole call, and the five rounds.
#[derive(Clone, Copy)]
pub enum Call {
    Whole,
    Round1,
    Round2,
    Round3,
    Round4,
    Round5,
}

// The transcript's sections that a call makes: how many, from which on.
#[derive(Clone, Copy)]
pub struct Made {
    pub from: usize,
    pub makes: usize,
}

// "A round's randomness slice ends after the first 0, 1, 3, 5 or 7 sections."
pub fn handed(call: Call) -> usize
    ensures { (result ≡ (call_of call).handed) × (result ≤ 7) }
{
    match call {
        Call::Whole => 7,
        Call::Round1 => 0,
        Call::Round2 => 1,
        Call::Round3 => 3,
        Call::Round4 => 5,
        Call::Round5 => 7,
    }
}

// "five rounds, whose outputs are u1; p; b''; u2; then z, t, g, h"
pub fn makes(call: Call) -> Made
    ensures { (result.from ≡ (call_of call).from) × (result.makes ≡ (call_of call).makes) × (result.from + result.makes ≤ 8) }
{
    match call {
        Call::Whole => Made { from: 0, makes: 8 },
        Call::Round1 => Made { from: 0, makes: 1 },
        Call::Round2 => Made { from: 1, makes: 1 },
        Call::Round3 => Made { from: 2, makes: 1 },
        Call::Round4 => Made { from: 3, makes: 1 },
        Call::Round5 => Made { from: 4, makes: 4 },
    }
}
