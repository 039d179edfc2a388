//! The texts of refusals.

ghost use Rattle.std.specs.Prelude.{IfOk};
ghost use Rattle.ospl_grammar.specs.Texts as spoken;

use crate::fault::OsplFault;
use doc_tree::TreeFault;
use os_io::{Memory, Text};
use std::alloc::{AllocError, Global};

/// The text of a refusal: `ospl`, its name, ` at ` and the ordinal of the root, 1, or the place in bytes of a tree's fault
/// that has one. A fault for want of memory has no text.
pub fn refusal_text(alloc: Global, fault: OsplFault) -> Result<Text, Memory>
    ensures { IfOk result (spoken.IsFaultText fault) }
{
    match fault {
        OsplFault::Memory => Err(AllocError),
        OsplFault::Tree(TreeFault::Memory) => Err(AllocError),
        _ => Ok(Text::from_vec(format!(in alloc; "{fault}")?.into_bytes())),
    }
}
