//! How near the best point has to be to the bound for a search to stop.

ghost use Rattle.std.specs.Prelude.{◌≡◌, MatchOption, IfOk};
ghost use Rattle.osol_grammar.specs.declared.gaps.Gap as kinds;
ghost use Rattle.osol_grammar.specs.Gaps as said;

use crate::times::read_amount;
use decimal_text::write_ratio;
use element_tree::Attributes;
use fraction::Frac;
use os_io::{Memory, Text};
use std::alloc::Global;
use tag_tests::value;

/// A number from 0 on, or so many hundredths of the size of the best point's value.
#[derive(Clone, Copy, PartialEq, Eq)]
pub struct Gap {
    pub number: Frac,
    pub is_percent: bool,
}

/// Whether a text ends with the sign of hundredths, and what stands before it, or else the text.
fn before_percent(text: &[u8]) -> (bool, &[u8])
    ensures { said.IsBeforePercent result.0 result.1.now text.now }
{
    match text.strip_suffix(b"%") {
        Some(digits) => (true, digits),
        None => (false, text),
    }
}

/// The gap that a text says.
fn read_gap(text: &[u8]) -> Option<Gap>
    ensures { MatchOption result ((g : kinds.Gap) → said.IsGapText text.now g → ⊥) (λ g. said.IsGapText text.now g) }
{
    let (is_percent, digits) = before_percent(text);
    let Some(number) = read_amount(digits) else {
        return None;
    };
    if number.numer < 0 {
        return None;
    }
    Some(Gap { number, is_percent })
}

/// The gap that an option says, if it says one.
pub(crate) fn gap_of(attributes: &Attributes<'_>) -> Option<Gap>
    ensures { MatchOption result ((g : kinds.Gap) → said.SaysGap attributes.now g → ⊥) (λ g. said.SaysGap attributes.now g) }
{
    read_gap(value(attributes, b"value")?)
}

/// The text of a gap.
pub(crate) fn gap_text(alloc: Global, gap: Gap) -> Result<Text, Memory>
    ensures { IfOk result (λ text. text ≡ said.gap_text gap) }
{
    let mut text = Text::new(alloc);
    write_ratio(gap.number, &mut text)?;
    if gap.is_percent {
        text.extend(b"%")?;
    }
    Ok(text)
}
