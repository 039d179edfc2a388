//! A head as it comes, byte by byte.
ghost use Rattle.std.specs.Prelude.{◌≡◌, ◌<◌, ◌⊎◌, ◌↔◌, ◌++◌, ◌∷◌, [], ℕ, length, drop, IsTrue, IfOk, OnOk, MatchOption};
ghost use Rattle.http_link.specs.Checks.{most_head};
ghost use Rattle.http_link.specs.Lines.{IsEmptyLine, IsOpenHead, IsWholeHead, AreEmptyLines};

use os_io::{Memory, Text};
use std::alloc::Global;

/// A head that has begun: its bytes, where its last line starts, and how many lines before that aren't empty.
#[derive(Drop)]
pub(crate) struct OpenHead {
    pub(crate) text: Text,
    start: usize,
    lines: usize,
}

impl OpenHead {
    /// Nothing has come yet.
    pub(crate) fn new(alloc: Global) -> OpenHead
        ensures begun { IsOpenHead result.text result.start result.lines }
        ensures text { result.text ≡ [] }
    {
        OpenHead {
            text: Text::new(alloc),
            start: 0,
            lines: 0,
        }
    }

    /// Adds a byte. Where the head is whole now, says how many lines its request line and its empty line have between them.
    pub(crate) fn push(&mut self, byte: u8) -> Result<Option<usize>, Memory>
        requires begun { IsOpenHead self.old.text self.old.start self.old.lines }
        requires room { length self.old.text < most_head }
        ensures text { OnOk result (self.new.text ≡ self.old.text ++ byte ∷ []) }
        ensures ok { IfOk result (λ end. MatchOption end (IsOpenHead self.new.text self.new.start self.new.lines) (λ lines. IsWholeHead self.new.text lines)) }
    {
        let empty = self.has_empty_line();
        self.text.push(byte)?;
        if byte != b'\n' {
            return Ok(None);
        }
        self.start = self.text.len();
        if !empty {
            self.lines += 1;
            Ok(None)
        } else if self.lines > 0 {
            Ok(Some(self.lines - 1))
        } else {
            Ok(None)
        }
    }

    /// Whether the line that has begun is empty so far.
    fn has_empty_line(&self) -> bool
        requires { IsOpenHead self.now.text self.now.start self.now.lines }
        ensures { IsTrue result ↔ IsEmptyLine (drop self.now.start self.now.text) }
    {
        is_empty_line(&self.text.as_slice()[self.start..])
    }

    /// Whether whole empty lines have come, and nothing else.
    pub(crate) fn is_blank(&self) -> bool
        requires { IsOpenHead self.now.text self.now.start self.now.lines }
        ensures { IsTrue result ↔ AreEmptyLines self.now.text }
    {
        self.lines == 0 && self.start == self.text.len()
    }
}

/// Whether the line, without its LF, is empty.
fn is_empty_line(line: &[u8]) -> bool
    ensures { IsTrue result ↔ IsEmptyLine line.now }
{
    matches!(line, [] | [b'\r'])
}
