// What a leaf call finds of its operands (document 01, "Leaves").
ghost use Rattle.std.specs.Prelude.{◌≡◌, Result, [], ◌∷◌, ◌++◌, ◌≤◌, length};
ghost use Rattle.spec_leaves.specs.Answer.{of_operands};
ghost use Rattle.spec_leaves.specs.Leaf.{canonical_words, limited, digit_operands};

use crate::scan;
use ring_rq::rq::Rq;
use spec_leaves::answers::OperandError;
use spec_leaves::modulus;

// One number.
pub fn number(a: u32) -> Result<(), OperandError>
    ensures { of_operands result ≡ canonical_words (a ∷ []) }
{
    scan::words_from(&[a], 0)
}

// Two numbers.
pub fn numbers(a: u32, b: u32) -> Result<(), OperandError>
    ensures { of_operands result ≡ canonical_words (a ∷ b ∷ []) }
{
    scan::words_from(&[a, b], 0)
}

// One element.
pub fn element(a: Rq) -> Result<(), OperandError>
    ensures { of_operands result ≡ canonical_words a.coeffs }
{
    scan::words_from(&a.coeffs, 0)
}

// Two elements.
pub fn elements(a: Rq, b: Rq) -> Result<(), OperandError>
    ensures { of_operands result ≡ canonical_words (a.coeffs ++ b.coeffs) }
{
    element(a)?;
    scan::words_from(&b.coeffs, 64)
}

// An element and a number.
pub fn element_and_number(a: Rq, c: u32) -> Result<(), OperandError>
    ensures { of_operands result ≡ canonical_words (a.coeffs ++ (c ∷ [])) }
{
    scan::words_from(&a.coeffs, 0)?;
    scan::words_from(&[c], 64)
}

// A parameter from its least to its greatest value.
pub fn limited(least: u32, greatest: u32, place: u32, x: u32) -> Result<(), OperandError>
    ensures { of_operands result ≡ limited least greatest place x }
{
    if (least..=greatest).contains(&x) {
        Ok(())
    } else {
        Err(OperandError::ParameterOutOfLimits(place))
    }
}

// A base and a number of parts, then words.
pub fn digit_operands(base: u32, parts: u32, words: &[u32]) -> Result<(), OperandError>
    requires { length words.now ≤ 64 }
    ensures { of_operands result ≡ digit_operands base parts words.now }
{
    limited(2, modulus::TOP, 0, base)?;
    limited(1, 32, 1, parts)?;
    scan::words_from(words, 2)
}
