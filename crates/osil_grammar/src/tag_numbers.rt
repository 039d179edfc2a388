//! The numbers of a start tag.

ghost use Rattle.std.specs.Prelude.{◌≡◌, None, MatchResult, pos, codes};
ghost use Rattle.osil_grammar.specs.Grammars.{nought};
ghost use Rattle.fraction.specs.Frac.{ratio};
ghost use Rattle.decimal_text.specs.Decimal.{IsDecimal};
ghost use Rattle.decimal_text.specs.Bound.{SaysEnd};
ghost use Rattle.decimal_text.specs.Whole.{IsWholeText};
ghost use Rattle.osil_grammar.specs.Grammars as grammars;
ghost use Rattle.osil_grammar.specs.Grammars.{ReadsSo, IsDeclared, IsTimes, IsUnread};
ghost use Rattle.osil_grammar.specs.Reading.{told_refusal};
ghost use Rattle.osil_grammar.specs.Stepping.{unread_refusal, number_or_unread};

use crate::domains::zero;
use crate::fault::Refusal;
use decimal_text::{DecimalFault, read_bound, read_count, read_decimal, read_whole};
use element_tree::Attributes;
use fraction::{End, Frac};
use tag_tests::{Unread, value};

/// The number that was read of a text.
fn number<T>(read: Result<T, DecimalFault>) -> Result<T, Unread>
    ensures { result ≡ number_or_unread read }
{
    match read {
        Ok(x) => Ok(x),
        Err(DecimalFault::Wide) => Err(Unread::Wide),
        Err(_) => Err(Unread::NotNumber),
    }
}

/// The decimal that a text says.
pub(crate) fn decimal_of(text: &[u8]) -> Result<Frac, Unread>
    ensures { MatchResult result (λ x. IsDecimal text.now (ratio x)) (λ u. IsUnread u grammars.decimal text.now) }
{
    number(read_decimal(text))
}

/// The whole number that a text says.
pub(crate) fn whole_of(text: &[u8]) -> Result<i64, Unread>
    ensures { MatchResult result (λ z. IsWholeText text.now z) (λ u. IsUnread u grammars.whole text.now) }
{
    number(read_whole(text))
}

/// The refusal for a number that isn't read.
pub(crate) fn refusal(unread: Unread) -> Refusal
    ensures { told_refusal result ≡ unread_refusal unread }
{
    match unread {
        Unread::NotNumber => Refusal::Number,
        Unread::Wide => Refusal::Wide,
    }
}

/// An attribute that is a count, if it is there.
pub(crate) fn count(attributes: &Attributes<'_>, name: &[u8]) -> Result<Option<u64>, Unread>
    ensures { ReadsSo attributes.now name.now grammars.count result (λ x. x ≡ None) IsDeclared }
{
    match value(attributes, name) {
        None => Ok(None),
        Some(text) => match number(read_count(text)) {
            Ok(n) => Ok(Some(n)),
            Err(e) => Err(e),
        },
    }
}

/// For how many items an element stands: its attribute `mult`, 1 without it.
pub(crate) fn times(attributes: &Attributes<'_>) -> Result<u64, Unread>
    ensures { ReadsSo attributes.now (codes "mult") grammars.times result (λ m. m ≡ 1) IsTimes }
{
    match value(attributes, b"mult") {
        None => Ok(1),
        Some(text) => match number(read_count(text)) {
            Ok(0) => Err(Unread::NotNumber),
            Ok(n) => Ok(n),
            Err(e) => Err(e),
        },
    }
}

/// An attribute that is a bound, or an end where it isn't there.
pub(crate) fn bound(attributes: &Attributes<'_>, name: &[u8], default: End) -> Result<End, Unread>
    ensures { ReadsSo attributes.now name.now grammars.bound result (λ x. x ≡ default) SaysEnd }
{
    match value(attributes, name) {
        None => Ok(default),
        Some(text) => number(read_bound(text)),
    }
}

/// An attribute that is a decimal, 0 without it.
pub(crate) fn decimal(attributes: &Attributes<'_>, name: &[u8]) -> Result<Frac, Unread>
    ensures { ReadsSo attributes.now name.now grammars.decimal result (λ x. x ≡ nought) (λ text x. IsDecimal text (ratio x)) }
{
    match value(attributes, name) {
        None => Ok(zero()),
        Some(text) => number(read_decimal(text)),
    }
}

/// An attribute that is a whole number, 0 without it.
pub(crate) fn whole(attributes: &Attributes<'_>, name: &[u8]) -> Result<i64, Unread>
    ensures { ReadsSo attributes.now name.now grammars.whole result (λ x. x ≡ pos 0) IsWholeText }
{
    match value(attributes, name) {
        None => Ok(0),
        Some(text) => number(read_whole(text)),
    }
}
