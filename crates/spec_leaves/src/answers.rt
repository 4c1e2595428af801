// Why the engine's calls refuse, and what they find. `Answer` in specs/ gives each case document 01's number and its values.
ghost use Rattle.std.specs.Prelude.{◌≡◌};
ghost use Rattle.spec_leaves.specs.declared.answers.Rejection.TheVariants.{Refused, Failed};
ghost use Rattle.spec_leaves.specs.Answer.{of_verdict, of_judged};

// Why a call refuses its input. The number held is the place.
#[derive(Clone, Copy, Debug, PartialEq, Eq)]
pub enum Refusal {
    ScratchTooShort(usize),
    OutputTooShort(usize),
    JobLayout(usize),
    ParameterOutOfLimits(usize),
    TooFewAggregations(usize),
    JobWord(usize),
    RandomnessLayout(usize),
    RandomnessWord(usize),
    TranscriptLayout(usize),
    TranscriptWord(usize),
    WitnessLayout(usize),
    WitnessWord(usize),
    WitnessNorm(usize),
    DigitsOfT,
    DigitsOfG,
    DigitsOfH,
}

// The verifier's check that fails first.
#[derive(Clone, Copy, Debug, PartialEq, Eq)]
pub enum FailedCheck {
    ProjectionNorm {
        norm: u128,
        limit: u128,
    },
    B0Mismatch {
        index: usize,
        sent: u32,
        computed: u32,
    },
    NormSum {
        sum: u128,
        limit: u128,
    },
    Az,
    ZInner,
    Phi,
    Relation,
    OuterCommitU1,
    OuterCommitU2,
}

// Why a transcript is not accepted: its input is refused, or a check fails.
#[derive(Clone, Copy, Debug, PartialEq, Eq)]
pub enum Rejection {
    Refused(Refusal),
    Failed(FailedCheck),
}

impl From<Refusal> for Rejection {
    ghost from_gives = { λ refusal rejection. rejection ≡ Refused refusal };

    fn from(refusal: Refusal) -> Rejection {
        Rejection::Refused(refusal)
    }
}

impl From<FailedCheck> for Rejection {
    ghost from_gives = { λ check rejection. rejection ≡ Failed check };

    fn from(check: FailedCheck) -> Rejection {
        Rejection::Failed(check)
    }
}

// What the verifier answers: document 01, "the last two carry their own choice of cases". An acceptance holds the number of cells of t, g and h with a coefficient that
// has something left after its digits.
#[derive(Clone, Copy, Debug, PartialEq, Eq)]
pub enum Verdict {
    Accepted(usize),
    Refused(Refusal),
    Failed(FailedCheck),
}

impl From<Result<usize, Rejection>> for Verdict {
    ghost from_gives = { λ judged verdict. of_verdict verdict ≡ of_judged judged };

    fn from(judged: Result<usize, Rejection>) -> Verdict {
        match judged {
            Ok(cells) => Verdict::Accepted(cells),
            Err(Rejection::Refused(refusal)) => Verdict::Refused(refusal),
            Err(Rejection::Failed(check)) => Verdict::Failed(check),
        }
    }
}

// What the digit rule gives of a number: its digits in 32 places, and the size left over.
#[derive(Clone, Copy, Debug, PartialEq, Eq)]
pub struct Decomposed {
    pub digits: [u32; 32],
    pub left: u32,
}

// Why a leaf call refuses its operands. The number held is the place among them.
#[derive(Clone, Copy, Debug, PartialEq, Eq)]
pub enum OperandError {
    ParameterOutOfLimits(u32),
    Word(u32),
    SignWord(u32),
    BaseOrParts(u32),
}
