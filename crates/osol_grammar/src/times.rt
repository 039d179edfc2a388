//! The time that a job may be searched for, as a document says it.

ghost use Rattle.std.specs.Prelude.{◌≡◌, ℕ, pos, MatchOption, true, false, List, codes};
ghost use Rattle.rational.specs.Ratio as numbers;
ghost use Rattle.fraction.specs.Frac.{ratio};
ghost use Rattle.fraction.specs.declared.frac.Frac as fractions;
ghost use Rattle.document_tags.specs.Elements.{value_of};
ghost use Rattle.osol_grammar.specs.Times.{unit_named, IsAmount, IsTime, SaysTime};

use decimal_text::{read_decimal, read_ratio};
use element_tree::Attributes;
use fraction::{Frac, signed};
use std::cmp::Ordering;
use tag_tests::value;

/// The most seconds.
const MOST_SECONDS: u64 = 9_223_372_036_854_775_807;

/// The seconds of the unit that a start tag names.
pub(crate) fn unit_of(attributes: &Attributes<'_>) -> Option<u32>
    ensures { result ≡ unit_named (value_of (codes "unit") attributes.now) }
{
    let Some(name) = value(attributes, b"unit") else {
        return Some(1);
    };
    if name == b"second".as_slice() {
        Some(1)
    } else if name == b"minute".as_slice() {
        Some(60)
    } else if name == b"hour".as_slice() {
        Some(3_600)
    } else {
        None
    }
}

/// The number that a text is.
pub(crate) fn read_amount(text: &[u8]) -> Option<Frac>
    ensures { MatchOption result ((x : fractions.Frac) → IsAmount text.now x → ⊥) (λ x. IsAmount text.now x) }
{
    match read_ratio(text) {
        Ok(amount) => Some(amount),
        Err(_) => match read_decimal(text) {
            Ok(amount) => Some(amount),
            Err(_) => None,
        },
    }
}

/// So many seconds.
pub fn whole_seconds(n: u64) -> Frac
    ensures { ratio result ≡ numbers.whole (pos n) }
{
    let numer = signed(false, u128::from(n));
    Frac { numer, denom: 1 }
}

/// Whether so many seconds are a time.
fn is_time(seconds: Frac) -> bool
    ensures yes { result ≡ true → IsTime seconds }
    ensures no { result ≡ false → IsTime seconds → ⊥ }
{
    match seconds.cmp(&whole_seconds(0)) {
        Ordering::Less => false,
        _ => match seconds.cmp(&whole_seconds(MOST_SECONDS)) {
            Ordering::Greater => false,
            _ => true,
        },
    }
}

/// So many units of so many seconds, if that is a time.
fn seconds_of(amount: Frac, unit: u32) -> Option<Frac>
    ensures { (text : List ℕ) → IsAmount text amount → MatchOption result ((s : fractions.Frac) → SaysTime unit text s → ⊥) (λ s. SaysTime unit text s) }
{
    let Ok(seconds) = amount.mul(whole_seconds(u64::from(unit))) else {
        return None;
    };
    if is_time(seconds) {
        Some(seconds)
    } else {
        None
    }
}

/// The seconds that a text says, in units of so many.
pub(crate) fn time_of(text: &[u8], unit: u32) -> Option<Frac>
    ensures { MatchOption result ((s : fractions.Frac) → SaysTime unit text.now s → ⊥) (λ s. SaysTime unit text.now s) }
{
    match read_amount(text) {
        Some(amount) => seconds_of(amount, unit),
        None => None,
    }
}
