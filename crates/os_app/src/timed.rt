//! A time in place of a job's own, as a text of options.
ghost use Rattle.std.specs.Prelude.{IfOk};
ghost use Rattle.os_app.specs.Timed.{IsTimedOrNone};

use os_io::{Memory, Text};
use osol_grammar::{OsolFault, whole_seconds};
use std::alloc::{AllocError, Global};

/// The text of a job's options with so many seconds in place of their own time, where they are read.
pub(crate) fn timed_options(
    alloc: Global,
    osol: &[u8],
    seconds: u64,
) -> Result<Option<Text>, Memory>
    ensures { IfOk result (IsTimedOrNone osol.now seconds) }
{
    let options = match osol_grammar::decode(alloc, osol) {
        Ok(options) => options,
        Err(OsolFault::Memory) => return Err(AllocError),
        Err(OsolFault::Tree(_)) => return Ok(None),
        Err(OsolFault::Refused { .. }) => return Ok(None),
    };
    let mut timed = options;
    timed.seconds = Some(whole_seconds(seconds));
    Ok(Some(osol_grammar::encode(alloc, &timed)?))
}
