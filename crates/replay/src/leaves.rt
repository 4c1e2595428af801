// The leaf calls by the kinds of their records.
use crate::{elements, numbers};
use replay_records::kinds::LeafCall;

// Whether the call of a record's kind gives the recorded answer; false of a kind that no leaf call has.
pub fn same(kind: u32, body: &[u8]) -> bool {
    match LeafCall::of_kind(kind) {
        Some(call) => same_call(call, body),
        None => false,
    }
}

fn same_call(call: LeafCall, body: &[u8]) -> bool {
    match call {
        LeafCall::ZqAdd => numbers::add(body),
        LeafCall::ZqSub => numbers::sub(body),
        LeafCall::ZqMul => numbers::mul(body),
        LeafCall::ZqNeg => numbers::neg(body),
        LeafCall::ZqCentre => numbers::centre(body),
        LeafCall::ZqDigits => numbers::digits(body),
        LeafCall::ProjectionEntry => numbers::projection_entry(body),
        LeafCall::RqAdd => elements::add(body),
        LeafCall::RqSub => elements::sub(body),
        LeafCall::RqMul => elements::mul(body),
        LeafCall::RqScale => elements::scale(body),
        LeafCall::RqConj => elements::conj(body),
        LeafCall::RqNorm => elements::norm(body),
        LeafCall::RqDigits => elements::digit_rows(body),
        LeafCall::Challenge => elements::challenge(body),
        LeafCall::RqLeft => elements::left_over(body),
    }
}
