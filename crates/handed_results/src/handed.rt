//! What options hand in.

ghost use Rattle.std.specs.Prelude.{◌≡◌, OnOk, IfOk};
ghost use Rattle.handed_results.specs.Marked as marked;

use decimal_text::trim;
use os_io::{Memory, Text};
use std::alloc::Global;

/// What options hand in.
#[derive(Drop)]
pub enum Handed {
    /// No result.
    Nothing,
    /// One, which has this text.
    Once(Text),
    /// Several, whose texts aren't kept.
    Twice,
}

impl Handed {
    /// A result begins.
    pub(crate) fn begin(&mut self, alloc: Global)
        ensures { self.new ≡ marked.begun self.old }
    {
        *self = match self {
            Handed::Nothing => Handed::Once(Text::new(alloc)),
            Handed::Once(_) | Handed::Twice => Handed::Twice,
        };
    }

    /// Goes past characters of the result.
    pub(crate) fn extend(&mut self, text: &[u8]) -> Result<(), Memory>
        ensures { OnOk result (self.new ≡ marked.with_text self.old text.now) }
    {
        match self {
            Handed::Once(so_far) => so_far.extend(text),
            Handed::Nothing | Handed::Twice => Ok(()),
        }
    }

    /// The same without white space round its text.
    pub(crate) fn trimmed(self, alloc: Global) -> Result<Handed, Memory>
        ensures { IfOk result (λ h. h ≡ marked.bare self) }
    {
        match self {
            Handed::Once(text) => Ok(Handed::Once(Text::from_slice(alloc, trim(text.as_slice()))?)),
            Handed::Nothing => Ok(Handed::Nothing),
            Handed::Twice => Ok(Handed::Twice),
        }
    }
}
