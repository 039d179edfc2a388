//! The texts of refusals.

ghost use Rattle.std.specs.Prelude.{IfOk};
ghost use Rattle.osrl_grammar.specs.Texts as spoken;

use crate::fault::OsrlFault;
use doc_tree::TreeFault;
use os_io::{Memory, Text};
use std::alloc::{AllocError, Global};

/// The text of a refusal: `osrl`, its name, ` at ` and a number: the item's, or 1 for those of the whole document, or the
/// place in bytes of a tree's fault that has one. A fault for want of memory has no text.
pub fn refusal_text(alloc: Global, fault: OsrlFault) -> Result<Text, Memory>
    ensures { IfOk result (λ t. spoken.IsFaultText fault t) }
{
    match fault {
        OsrlFault::Memory => Err(AllocError),
        OsrlFault::Tree(TreeFault::Memory) => Err(AllocError),
        _ => Ok(Text::from_vec(format!(in alloc; "{fault}")?.into_bytes())),
    }
}
