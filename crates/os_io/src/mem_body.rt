//! Bodies that are kept in memory.
ghost use Rattle.std.specs.Prelude.{◌≡◌, [], true, false, List, ℕ, IfOk, OnErr};
ghost use Rattle.os_io.specs.Bodies.{TakesBehind, behind_none, behind_both, HasKept};

use crate::body::Body;
use crate::text::{Memory, Text};
use std::alloc::{AllocError, Global};

/// A body that is kept in memory. Where there was none for a piece, it keeps no more, and says so at its end.
#[derive(Drop)]
pub struct MemBody {
    text: Text,
    /// Whether there was no memory once.
    wanted: bool,
}

impl MemBody {
    /// A body of which nothing came yet.
    pub fn new(alloc: Global) -> MemBody
        ensures text { result.text ≡ [] }
        ensures wanted { result.wanted ≡ false }
    {
        MemBody {
            text: Text::new(alloc),
            wanted: false,
        }
    }

    /// All that came.
    pub fn finish(self) -> Result<Text, Memory>
        ensures ok { IfOk result (λ text. (bytes : List ℕ) → HasKept self bytes → text ≡ bytes) }
        ensures err { OnErr result (self.wanted ≡ true) }
    {
        let MemBody { text, wanted } = self;
        if wanted {
            return Err(AllocError);
        }
        Ok(text)
    }
}

impl Body for MemBody {
    ghost took = { TakesBehind HasKept };

    ghost stays = { behind_none HasKept };

    ghost joined = { behind_both HasKept };

    fn take(&mut self, piece: &[u8]) {
        if !self.wanted && self.text.extend(piece).is_err() {
            self.wanted = true;
        }
    }
}
