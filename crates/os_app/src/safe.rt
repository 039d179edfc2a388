//! The safe limit of turns of an instance, as a text of options.
ghost use Rattle.std.specs.Prelude.{IfOk};
ghost use Rattle.os_app.specs.Safe.{IsSafeOrNone};

use no_cycles::safe_limit;
use os_io::{Memory, Text};
use osil_grammar::OsilFault;
use osol_grammar::OsolFault;
use std::alloc::{AllocError, Global};

/// The text of a job's options with the safe limit in place of their own, where options and instance are read, and there is
/// such a limit.
pub(crate) fn safe_options(alloc: Global, osil: &[u8], osol: &[u8]) -> Result<Option<Text>, Memory>
    ensures { IfOk result (IsSafeOrNone osil.now osol.now) }
{
    let options = match osol_grammar::decode(alloc, osol) {
        Ok(options) => options,
        Err(OsolFault::Memory) => return Err(AllocError),
        Err(OsolFault::Tree(_)) => return Ok(None),
        Err(OsolFault::Refused { .. }) => return Ok(None),
    };
    let instance = match osil_grammar::decode(alloc, osil) {
        Ok(instance) => instance,
        Err(OsilFault::Memory) => return Err(AllocError),
        Err(OsilFault::Tree(_)) => return Ok(None),
        Err(OsilFault::Refused { .. }) => return Ok(None),
    };
    let variables = instance.vars().len() as u32;
    let rows = instance.rows().len() as u32;
    let Some(turns) = safe_limit(variables, rows) else {
        return Ok(None);
    };
    let mut safe = options;
    safe.turns = turns;
    Ok(Some(osol_grammar::encode(alloc, &safe)?))
}
