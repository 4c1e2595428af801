// The leaf calls on numbers: whether each gives the recorded answer.
use crate::answers;
use labrador::numbers;
use replay_records::words;

pub fn add(body: &[u8]) -> bool {
    answers::same_zq(
        body,
        2,
        numbers::labrador_zq_add(words::at(body, 0), words::at(body, 1)),
    )
}

pub fn sub(body: &[u8]) -> bool {
    answers::same_zq(
        body,
        2,
        numbers::labrador_zq_sub(words::at(body, 0), words::at(body, 1)),
    )
}

pub fn mul(body: &[u8]) -> bool {
    answers::same_zq(
        body,
        2,
        numbers::labrador_zq_mul(words::at(body, 0), words::at(body, 1)),
    )
}

pub fn neg(body: &[u8]) -> bool {
    answers::same_zq(body, 1, numbers::labrador_zq_neg(words::at(body, 0)))
}

pub fn centre(body: &[u8]) -> bool {
    let answer = numbers::labrador_zq_centre(words::at(body, 0));
    answers::same_refusal(body, 1, answer.number, answer.place)
        && answer.value == words::at_centre(body, 3)
}

pub fn digits(body: &[u8]) -> bool {
    let answer = numbers::labrador_zq_digits(
        words::at(body, 0),
        words::at(body, 1),
        words::at(body, 2),
    );
    answers::same_refusal(body, 3, answer.number, answer.place)
        && words::same(body, 5, &answer.digits)
        && answer.left == words::at(body, 37)
}

pub fn projection_entry(body: &[u8]) -> bool {
    answers::same_zq(
        body,
        1,
        numbers::labrador_projection_entry(words::at(body, 0)),
    )
}
