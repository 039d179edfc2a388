//! The texts of refusals.

ghost use Rattle.std.specs.Prelude.{IfOk};
ghost use Rattle.osol_grammar.specs.Texts as spoken;

use crate::fault::OsolFault;
use doc_tree::TreeFault;
use os_io::{Memory, Text};
use std::alloc::{AllocError, Global};

/// The text of a refusal: `osol`, its name, ` at ` and the ordinal of the element, or the place in bytes of a tree's fault
/// that has one. A fault for want of memory has no text.
pub fn refusal_text(alloc: Global, fault: OsolFault) -> Result<Text, Memory>
    ensures { IfOk result (spoken.IsFaultText fault) }
{
    match fault {
        OsolFault::Memory => Err(AllocError),
        OsolFault::Tree(TreeFault::Memory) => Err(AllocError),
        _ => Ok(Text::from_vec(format!(in alloc; "{fault}")?.into_bytes())),
    }
}
