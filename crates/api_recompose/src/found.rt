// What the two calls find of their operands.
ghost use Rattle.std.specs.Prelude.{◌≡◌, Result};
ghost use Rattle.spec_leaves.specs.Answer.{of_operands};
ghost use Rattle.spec_leaves.specs.Recompose.{base_found, digits_found, recompose_operands};

use api_operands::scan;
use spec_leaves::answers::OperandError;
use spec_leaves::modulus;

// A base outside its limits is refused with 31 at place 0.
pub fn base_found(base: u32) -> Result<(), OperandError>
    ensures { of_operands result ≡ base_found base }
{
    if (2..=modulus::TOP).contains(&base) {
        Ok(())
    } else {
        Err(OperandError::BaseOrParts(0))
    }
}

// A number of digits outside its limits is refused with 31 at place 1, and they are not read; a digit that is not canonical with 6 at its place.
pub fn digits_found(digits: &[u32]) -> Result<(), OperandError>
    ensures { of_operands result ≡ digits_found digits.now }
{
    if (1..=32).contains(&digits.len()) {
        scan::words_from(digits, 2)
    } else {
        Err(OperandError::BaseOrParts(1))
    }
}

// The base, then the digits.
pub fn recompose_operands(base: u32, digits: &[u32]) -> Result<(), OperandError>
    ensures { of_operands result ≡ recompose_operands base digits.now }
{
    base_found(base)?;
    digits_found(digits)
}
