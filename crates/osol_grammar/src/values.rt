//! The values of the point that a search begins with.

ghost use Rattle.std.specs.Prelude.{◌≡◌, ◌<◌, ◌↔◌, ℕ, IsTrue, IfOk, MatchOption};
ghost use Rattle.fraction.specs.declared.frac.Frac as fractions;
ghost use Rattle.osol_grammar.specs.FirstValues as first;

use crate::times::read_amount;
use decimal_text::read_count;
use element_tree::Attributes;
use fraction::Frac;
use items::Items;
use os_io::Memory;
use tag_tests::value;

/// The most variables that an instance may have.
const MOST_VARIABLES: u64 = 1_000;

/// A value, or none, for each variable up to the last that has one.
pub type Values = Items<Option<Frac>>;

/// The variable that a start tag gives a value for.
pub(crate) fn index_of(attributes: &Attributes<'_>) -> Option<usize>
    ensures { MatchOption result ((n : ℕ) → first.SaysIndex attributes.now n → ⊥) (λ n. first.SaysIndex attributes.now n) }
{
    let text = value(attributes, b"idx")?;
    let index = read_count(text).ok()?;
    if index >= MOST_VARIABLES {
        return None;
    }
    Some(index as usize)
}

/// The value that it gives.
pub(crate) fn value_of(attributes: &Attributes<'_>) -> Option<Frac>
    ensures { MatchOption result ((x : fractions.Frac) → first.SaysValue attributes.now x → ⊥) (λ x. first.SaysValue attributes.now x) }
{
    read_amount(value(attributes, b"value")?)
}

/// Whether there is a value of this index.
pub(crate) fn is_said(values: &[Option<Frac>], index: usize) -> bool
    ensures { IsTrue result ↔ first.IsSaid values.now index }
{
    index < values.len() && values[index].is_some()
}

/// The values with one more.
pub(crate) fn with_value(values: Values, index: usize, value: Frac) -> Result<Values, Memory>
    ensures { IfOk result (λ vs. vs ≡ first.with_value values index value) }
{
    let mut list = values.into_vec();
    while list.len() <= index {
        list.push(None)?;
    }
    list[index] = Some(value);
    Ok(Items::of(list))
}
