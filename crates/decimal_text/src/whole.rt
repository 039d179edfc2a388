//! Whole numbers, read.
ghost use Rattle.std.specs.Prelude.{IfOk, IfErr};
ghost use Rattle.decimal_text.specs.Space.{trimmed};
ghost use Rattle.decimal_text.specs.Whole.{WholeGrammar, IsWholeText, IsWideWhole};
ghost use Rattle.decimal_text.specs.Fault.{RefusesText};

use crate::count::MOST_COUNT;
use crate::digits::{number, split_digits, split_sign};
use crate::fault::DecimalFault;
use crate::space::trim;
use fraction::signed;

/// The whole number that the text writes: an optional sign and digits, white space round them dropped (XML Schema
/// part 2, integer). `Wide` where its size passes `2^63 - 1`.
pub fn read_whole(text: &[u8]) -> Result<i64, DecimalFault>
    ensures ok { IfOk result (λ z. IsWholeText text.now z) }
    ensures err { IfErr result (RefusesText WholeGrammar (IsWideWhole text.now) (trimmed text.now)) }
{
    let core = trim(text);
    let (is_negative, unsigned) = split_sign(core);
    let (digits, rest) = split_digits(unsigned);
    if digits.is_empty() || !rest.is_empty() {
        return Err(DecimalFault::NotNumber {
            at: core.len() - rest.len(),
        });
    }
    match number(digits, MOST_COUNT) {
        Some(size) => Ok(signed(is_negative, size) as i64),
        None => Err(DecimalFault::Wide),
    }
}
