//! The options of limits, as start tags say them.

ghost use Rattle.std.specs.Prelude.{◌≡◌, ◌≤◌, ◌↔◌, ℕ, IsTrue, IfSome, MatchOption, codes};
ghost use Rattle.document_tags.specs.Elements.{value_of};
ghost use Rattle.osol_grammar.specs.declared.limit.Limit as kinds;
ghost use Rattle.osol_grammar.specs.Limits as table;
ghost use Rattle.osol_grammar.specs.Options.{IsOption, IsGapOption, SaysAmount};
ghost use Rattle.decimal_text.specs.Count.{IsCount};

use crate::limit::{LIMITS, Limit};
use decimal_text::read_count;
use element_tree::Attributes;
use tag_tests::value;

/// The limit whose option has this name, if there is one.
fn limit_named(name: &[u8]) -> Option<Limit>
    ensures { MatchOption result ((l : kinds.Limit) → name.now ≡ (table.limit_row l).name → ⊥) (λ l. name.now ≡ (table.limit_row l).name) }
{
    for limit in LIMITS {
        if name == limit.row().name {
            return Some(limit);
        }
    }
    None
}

/// Whether an option is meant for each solver or for this one.
fn is_meant(attributes: &Attributes<'_>) -> bool
    ensures { IsTrue result ↔ IfSome (value_of (codes "solver") attributes.now) (λ s. s ≡ codes "os_cert") }
{
    match value(attributes, b"solver") {
        Some(solver) => solver == b"os_cert".as_slice(),
        None => true,
    }
}

/// The limit whose option has these attributes, if there is one.
pub(crate) fn limit_of(attributes: &Attributes<'_>) -> Option<Limit>
    ensures { MatchOption result ((l : kinds.Limit) → IsOption l attributes.now → ⊥) (λ l. IsOption l attributes.now) }
{
    if !is_meant(attributes) {
        return None;
    }
    match value(attributes, b"name") {
        Some(name) => limit_named(name),
        None => None,
    }
}

/// Whether an option with these attributes is that of the gap.
pub(crate) fn is_gap(attributes: &Attributes<'_>) -> bool
    ensures { IsTrue result ↔ IsGapOption attributes.now }
{
    if !is_meant(attributes) {
        return false;
    }
    match value(attributes, b"name") {
        Some(name) => name == b"gap".as_slice(),
        None => false,
    }
}

/// The form that a word says, if it says one.
fn form_of(word: &[u8]) -> Option<u32>
    ensures { MatchOption result ((n : ℕ) → table.IsFormWord word.now n → ⊥) (λ n. table.IsFormWord word.now n × (n ≤ 1)) }
{
    if word == b"whole".as_slice() {
        return Some(0);
    }
    if word == b"rows".as_slice() {
        return Some(1);
    }
    None
}

/// The count that a text is, if it is one that the limit may have.
fn count_of(text: &[u8], limit: Limit) -> Option<u32>
    ensures { MatchOption result ((n : ℕ) → IsCount text.now n → (table.limit_row limit).least ≤ n → n ≤ (table.limit_row limit).most → ⊥) (λ n. IsCount text.now n × ((table.limit_row limit).least ≤ n) × (n ≤ (table.limit_row limit).most)) }
{
    let amount = read_count(text).ok()?;
    let row = limit.row();
    if amount < u64::from(row.least) || amount > u64::from(row.most) {
        return None;
    }
    Some(amount as u32)
}

/// The amount that an option says, if it says one that the limit may have.
pub(crate) fn amount_of(attributes: &Attributes<'_>, limit: Limit) -> Option<u32>
    ensures { MatchOption result ((n : ℕ) → SaysAmount limit attributes.now n → ⊥) (λ n. SaysAmount limit attributes.now n) }
{
    let text = value(attributes, b"value")?;
    match limit {
        Limit::Form => form_of(text),
        Limit::Nodes | Limit::Turns | Limit::Rounds | Limit::Names | Limit::Bound => {
            count_of(text, limit)
        }
    }
}
