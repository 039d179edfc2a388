//! What refusals tell.

ghost use Rattle.std.specs.Prelude.{◌≡◌, IfOk};
ghost use Rattle.document_tags.specs.Faults as spoken;

use os_io::{Memory, Text};
use std::alloc::Global;

/// The most bytes of a name that a refusal tells.
const MOST_TOLD: usize = 64;

/// The beginning of a name, at most 64 bytes, as far as a refusal tells it.
pub fn told_name(alloc: Global, name: &[u8]) -> Result<Text, Memory>
    ensures { IfOk result (λ t. t ≡ spoken.told_name name.now) }
{
    if name.len() <= MOST_TOLD {
        Text::from_slice(alloc, name)
    } else {
        Text::from_slice(alloc, &name[..MOST_TOLD])
    }
}
