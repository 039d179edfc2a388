//! Files that are read by name.
ghost use Rattle.std.specs.Prelude.{◌≡◌, ℕ, List, IfOk, true};
ghost use Rattle.os_io.specs.Files.{CountsFiles, Held, MayBeThere, ReadsFirst};

use crate::text::Text;
use std::alloc::Global;
use thiserror::Error;

/// Why a file wasn't read.
#[derive(Clone, Copy, PartialEq, Eq, Debug, Drop, Error)]
pub enum FileFault {
    /// The file isn't there or can't be read, and the count of faults rose, or stands at 2^64 - 1.
    #[error("the file can't be read")]
    Failed,
    /// There was no memory for its bytes.
    #[error("there was no memory")]
    Memory,
}

/// Files by name.
pub trait Files {
    /// What a name holds: a file's bytes, or no file, or nothing is told.
    ghost held: { Self → List ℕ → Held };

    /// How often a file couldn't be read, at most 2^64 - 1.
    ghost faults: { Self → ℕ };

    /// The first `most` bytes of a file. Where it is told that there is no file, it isn't read.
    fn read_all(&mut self, alloc: Global, name: &str, most: u64) -> Result<Text, FileFault>
        ensures ok { IfOk result (ReadsFirst most (held self.old name.now)) }
        ensures held { held self.new ≡ held self.old }
        ensures counted { CountsFiles result (faults self.old) (faults self.new) };

    /// Whether something with this name is seen now. Nothing is read of it, and where that can't be told, the answer is no and no fault.
    /// Where it is told that there is no file, none is seen.
    fn is_there(&self, name: &str) -> bool
        ensures { result ≡ true → MayBeThere (held self.now name.now) };
}
