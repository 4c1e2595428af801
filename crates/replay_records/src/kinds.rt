// The kinds of records.
use std::fmt;

// The leaf calls, by the kinds of their records.
#[derive(Clone, Copy)]
pub enum LeafCall {
    ZqAdd,
    ZqSub,
    ZqMul,
    ZqNeg,
    ZqCentre,
    ZqDigits,
    ProjectionEntry,
    RqAdd,
    RqSub,
    RqMul,
    RqScale,
    RqConj,
    RqNorm,
    RqDigits,
    Challenge,
    RqLeft,
}

impl LeafCall {
    // The call of a record's kind.
    pub fn of_kind(kind: u32) -> Option<LeafCall> {
        match kind {
            1 => Some(LeafCall::ZqAdd),
            2 => Some(LeafCall::ZqSub),
            3 => Some(LeafCall::ZqMul),
            4 => Some(LeafCall::ZqNeg),
            5 => Some(LeafCall::ZqCentre),
            6 => Some(LeafCall::ZqDigits),
            7 => Some(LeafCall::ProjectionEntry),
            8 => Some(LeafCall::RqAdd),
            9 => Some(LeafCall::RqSub),
            10 => Some(LeafCall::RqMul),
            11 => Some(LeafCall::RqScale),
            12 => Some(LeafCall::RqConj),
            13 => Some(LeafCall::RqNorm),
            14 => Some(LeafCall::RqDigits),
            15 => Some(LeafCall::Challenge),
            16 => Some(LeafCall::RqLeft),
            _ => None,
        }
    }

    fn name(self) -> &'static str {
        match self {
            LeafCall::ZqAdd => "zq_add",
            LeafCall::ZqSub => "zq_sub",
            LeafCall::ZqMul => "zq_mul",
            LeafCall::ZqNeg => "zq_neg",
            LeafCall::ZqCentre => "zq_centre",
            LeafCall::ZqDigits => "zq_digits",
            LeafCall::ProjectionEntry => "projection_entry",
            LeafCall::RqAdd => "rq_add",
            LeafCall::RqSub => "rq_sub",
            LeafCall::RqMul => "rq_mul",
            LeafCall::RqScale => "rq_scale",
            LeafCall::RqConj => "rq_conj",
            LeafCall::RqNorm => "rq_norm",
            LeafCall::RqDigits => "rq_digits",
            LeafCall::Challenge => "challenge",
            LeafCall::RqLeft => "rq_left",
        }
    }
}

// What a record holds, by its kind. A kind that no call has is kept by its number.
#[derive(Clone, Copy)]
pub enum Kind {
    // words put into a slice
    Put,
    // a slice's length
    Length,
    // a call on whole slices
    Call,
    // the last record, whose body counts the others
    End,
    Leaf(u32),
}

impl From<u32> for Kind {
    fn from(number: u32) -> Kind {
        match number {
            32 => Kind::Put,
            33 => Kind::Length,
            34 => Kind::Call,
            63 => Kind::End,
            _ => Kind::Leaf(number),
        }
    }
}

// The name that the report gives a kind.
impl fmt::Display for Kind {
    fn fmt<W: fmt::Write>(&self, f: &mut fmt::Formatter<W>) -> fmt::Result {
        let name = match *self {
            Kind::Call => "call",
            Kind::Leaf(kind) => LeafCall::of_kind(kind).map_or("unknown", |call| call.name()),
            _ => "unknown",
        };
        write!(f, "{name}")
    }
}
