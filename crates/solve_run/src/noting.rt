//! The job's message about what its options say and isn't taken.
ghost use Rattle.std.specs.Prelude.{◌≡◌, IfOk};
ghost use Rattle.branch_bound.specs.Walks.{best as best_of};
ghost use Rattle.solve_run.specs.Firsts as specs;

use branch_bound::Found;
use os_io::{Memory, Text};
use osol_grammar::Options;
use std::alloc::Global;

/// What is said of the first values of the options, where they say some, and the search doesn't begin with them.
fn first_note(
    alloc: Global,
    options: &Options,
    first: &Option<Found>,
) -> Result<Option<Text>, Memory>
    ensures { IfOk result (λ note. note ≡ specs.first_note options.now.first (best_of first.now)) }
{
    if options.first.is_none() || first.is_some() {
        return Ok(None);
    }
    Ok(Some(Text::from_slice(
        alloc,
        b"initialVariableValues passed over: no feasible point",
    )?))
}

/// Two messages as one, the second behind the first.
fn both_notes(first: Option<Text>, second: Option<Text>) -> Result<Option<Text>, Memory>
    ensures { IfOk result (λ note. note ≡ specs.both_notes first second) }
{
    match first {
        None => Ok(second),
        Some(first) => match second {
            None => Ok(Some(first)),
            Some(second) => {
                let mut text = first;
                text.extend(b"; ")?;
                text.extend(second.as_slice())?;
                Ok(Some(text))
            }
        },
    }
}

/// What is said of a result that is handed in, and then of first values.
pub fn whole_note(
    alloc: Global,
    handed: Option<Text>,
    options: &Options,
    first: &Option<Found>,
) -> Result<Option<Text>, Memory>
    ensures { IfOk result (λ note. note ≡ specs.both_notes handed (specs.first_note options.now.first (best_of first.now))) }
{
    both_notes(handed, first_note(alloc, options, first)?)
}
