//! Files that may be named.

ghost use Rattle.std.specs.Prelude.{◌≡◌, option_map, IfOk, IsOk, None};
ghost use Rattle.os_io.specs.Files.{CountsFiles};
ghost use Rattle.command_answers.specs.FileNames.{ReadsNamed};

use os_io::{FileFault, Files, MOST_BYTES, Text};
use std::alloc::Global;

/// Of each file so many bytes are read at most: one more than a document has, so that a file that is too long is refused.
pub const MOST_READ: u64 = MOST_BYTES + 1;

/// The first bytes of the file of this name, at most [`MOST_READ`]. Without a name no file is read, and the text is empty.
pub fn read_named<F: Files>(
    alloc: Global,
    files: &mut F,
    name: Option<&str>,
) -> Result<Text, FileFault>
    ensures held { F.held files.new ≡ F.held files.old }
    ensures counted { CountsFiles result (F.faults files.old) (F.faults files.new) }
    ensures ok { IfOk result (ReadsNamed (option_map (λ n. F.held files.old n.now) name.entry)) }
    ensures unnamed { name.entry ≡ None → IsOk result }
    ensures unread { name.entry ≡ None → files.new ≡ files.old }
{
    match name {
        Some(name) => files.read_all(alloc, name, MOST_READ),
        None => Ok(Text::new(alloc)),
    }
}
