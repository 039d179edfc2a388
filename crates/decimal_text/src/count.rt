//! Counts, read.
ghost use Rattle.std.specs.Prelude.{IfOk, IfErr};
ghost use Rattle.decimal_text.specs.Space.{trimmed};
ghost use Rattle.decimal_text.specs.Count.{CountGrammar, IsCount, IsWideCount};
ghost use Rattle.decimal_text.specs.Fault.{RefusesText};

use crate::digits::{number, split_digits, strip};
use crate::fault::DecimalFault;
use crate::space::trim;

/// The greatest count, `2^63 - 1`.
pub const MOST_COUNT: u128 = (1 << 63) - 1;

/// The count that the text writes: an optional `+` and digits, white space round them dropped (XML Schema part 2,
/// nonNegativeInteger). `Wide` above `2^63 - 1`.
pub fn read_count(text: &[u8]) -> Result<u64, DecimalFault>
    ensures ok { IfOk result (λ n. IsCount text.now n) }
    ensures err { IfErr result (RefusesText CountGrammar (IsWideCount text.now) (trimmed text.now)) }
{
    let core = trim(text);
    let (_, unsigned) = strip(core, b'+');
    let (digits, rest) = split_digits(unsigned);
    if digits.is_empty() || !rest.is_empty() {
        return Err(DecimalFault::NotNumber {
            at: core.len() - rest.len(),
        });
    }
    match number(digits, MOST_COUNT) {
        Some(n) => Ok(n as u64),
        None => Err(DecimalFault::Wide),
    }
}
