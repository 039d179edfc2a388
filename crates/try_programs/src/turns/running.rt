//! A case, run.
ghost use Rattle.std.specs.Prelude.{◌≡◌, ◌<◌, length};
ghost use Rattle.simplex.specs.Memory.{width_in, height_in};

use super::reading::Case;
use super::telling::put_end;
use dictionary::Steps;
use memory_ends::MemWatch;
use os_io::{Memory, Text};
use simplex::Work;
use std::alloc::Global;
use std::marker::Brand;
use std::sync::ledger::{Blank, Ledger};
use tableaus::put_count;

/// The end of a case's run, the turns done then, and its looks.
fn run_case<L: Ledger>(alloc: Global, case: Case, blank: Blank) -> Result<Text, Memory>
    requires name { blank.name ≡ L.name }
    requires parts { blank.parts ≡ L.parts }
    requires some { 0 < blank.parts }
{
    let width = case.instance.vars().len();
    let height = case.instance.rows().len();
    if case.cuts.len() != width {
        return Text::from_slice(alloc, b"no cuts");
    }
    let mut steps = Steps::<L>::new(blank);
    let mut turns = case.turns;
    let mut watch = MemWatch::new(alloc, case.stops.as_slice())?;
    let mut work = Work::for_size(alloc, width as u32, height as u32)?;
    let end = work.run(
        &case.instance,
        &case.cuts,
        case.zero_goal,
        &mut turns,
        &mut watch,
        &mut steps,
    );
    let mut text = Text::new(alloc);
    put_end(&mut text, end, &work, width as u32, height as u32)?;
    text.extend(b" after ")?;
    put_count(&mut text, turns.done)?;
    text.extend(b" with ")?;
    put_count(&mut text, watch.looks())?;
    text.extend(b" looks")?;
    Ok(text)
}

/// The end of a case's run, as a text.
pub fn tell_run(alloc: Global, case: Case) -> Result<Text, Memory> {
    run_case::<Brand>(alloc, case, Blank::new(1))
}
