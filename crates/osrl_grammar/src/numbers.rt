//! The numbers of items.

ghost use Rattle.std.specs.Prelude.{ℕ, List, IfOk, IfErr, pos};
ghost use Rattle.rational.specs.Ratio.{whole};
ghost use Rattle.fraction.specs.Frac.{ratio};
ghost use Rattle.decimal_text.specs.Fault.{RefusesRatio};
ghost use Rattle.osrl_grammar.specs.Numbers.{Index, Turn, Whole, Exact, IsNumberText, WritesNumber, IsNot};

use crate::pieces::is_free;
use decimal_text::{DecimalFault, read_ratio};
use fraction::Frac;
use tag_tests::Unread;

/// What is wrong with a text that isn't a ratio.
fn unread(fault: DecimalFault) -> Unread
    ensures { (text : List ℕ) → RefusesRatio text fault → IsNot Exact text result }
{
    match fault {
        DecimalFault::Wide => Unread::Wide,
        DecimalFault::NotNumber { at: _ } => Unread::NotNumber,
        DecimalFault::NotDecimal | DecimalFault::Memory => Unread::NotNumber,
    }
}

/// The fraction that the text is.
pub(crate) fn read_exact(text: &[u8]) -> Result<Frac, Unread>
    ensures ok { IfOk result (λ x. IsNumberText Exact text.now (ratio x)) }
    ensures err { IfErr result (IsNot Exact text.now) }
{
    match read_ratio(text) {
        Ok(x) => Ok(x),
        Err(fault) => Err(unread(fault)),
    }
}

/// The whole number that the text is. One with a `/` is none, however great.
pub(crate) fn read_whole(text: &[u8]) -> Result<i128, Unread>
    ensures ok { IfOk result (λ k. IsNumberText Whole text.now (whole k)) }
    ensures err { IfErr result (IsNot Whole text.now) }
{
    if !is_free(text, b'/') {
        return Err(Unread::NotNumber);
    }
    match read_exact(text) {
        Ok(x) => Ok(x.numer()),
        Err(unread) => Err(unread),
    }
}

/// The whole number from 0 on that the text is.
fn read_size(text: &[u8]) -> Result<u128, Unread>
    ensures ok { IfOk result (λ n. WritesNumber Index text.now (whole (pos n))) }
    ensures index { IfErr result (IsNot Index text.now) }
    ensures turn { IfErr result (IsNot Turn text.now) }
{
    if !is_free(text, b'-') {
        return Err(Unread::NotNumber);
    }
    match read_whole(text) {
        Ok(k) => Ok(k.unsigned_abs()),
        Err(unread) => Err(unread),
    }
}

/// The column, node or limit that the text is.
pub(crate) fn read_index(text: &[u8]) -> Result<u32, Unread>
    ensures ok { IfOk result (λ n. IsNumberText Index text.now (whole (pos n))) }
    ensures err { IfErr result (IsNot Index text.now) }
{
    match read_size(text) {
        Ok(n) if n <= u32::MAX as u128 => Ok(n as u32),
        Ok(_) => Err(Unread::Wide),
        Err(unread) => Err(unread),
    }
}

/// The turn that the text is.
pub(crate) fn read_turn(text: &[u8]) -> Result<u64, Unread>
    ensures ok { IfOk result (λ n. IsNumberText Turn text.now (whole (pos n))) }
    ensures err { IfErr result (IsNot Turn text.now) }
{
    match read_size(text) {
        Ok(n) if n <= u64::MAX as u128 => Ok(n as u64),
        Ok(_) => Err(Unread::Wide),
        Err(unread) => Err(unread),
    }
}
