// The leaf calls on elements: whether each gives the recorded answer.
use crate::answers;
use labrador::elements::ChallengeWords;
use labrador::{digits, elements};
use replay_records::words;

pub fn add(body: &[u8]) -> bool {
    let answer = elements::labrador_rq_add(words::element(body, 0), words::element(body, 64));
    answers::same_rq(body, 128, answer)
}

pub fn sub(body: &[u8]) -> bool {
    let answer = elements::labrador_rq_sub(words::element(body, 0), words::element(body, 64));
    answers::same_rq(body, 128, answer)
}

pub fn mul(body: &[u8]) -> bool {
    let answer = elements::labrador_rq_mul(words::element(body, 0), words::element(body, 64));
    answers::same_rq(body, 128, answer)
}

pub fn scale(body: &[u8]) -> bool {
    let answer = elements::labrador_rq_scale(words::element(body, 0), words::at(body, 64));
    answers::same_rq(body, 65, answer)
}

pub fn conj(body: &[u8]) -> bool {
    answers::same_rq(
        body,
        64,
        elements::labrador_rq_conj(words::element(body, 0)),
    )
}

pub fn norm(body: &[u8]) -> bool {
    let answer = elements::labrador_rq_norm(words::element(body, 0));
    answers::same_refusal(body, 64, answer.number, answer.place)
        && answer.lo == words::at_64(body, 66)
        && answer.hi == words::at_64(body, 68)
}

// The rows are compared over a buffer that the call must overwrite.
pub fn digit_rows(body: &[u8]) -> bool {
    let mut rows = [1u32; 2048];
    let answer = digits::labrador_rq_digits(
        words::at(body, 0),
        words::at(body, 1),
        words::element(body, 2),
        &mut rows,
    );
    answers::same_refusal(body, 66, answer.number, answer.place) && words::same(body, 68, &rows)
}

pub fn left_over(body: &[u8]) -> bool {
    let answer = digits::labrador_rq_left(
        words::at(body, 0),
        words::at(body, 1),
        words::element(body, 2),
    );
    answers::same_rq(body, 66, answer)
}

pub fn challenge(body: &[u8]) -> bool {
    let mut drawn = [0u32; 104];
    words::copy(body, 0, &mut drawn);
    let answer = elements::labrador_challenge(ChallengeWords { words: drawn });
    answers::same_rq(body, 104, answer)
}
