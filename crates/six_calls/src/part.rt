//! The parts of calls.

ghost use Rattle.std.specs.Prelude.{◌≡◌};
ghost use Rattle.six_calls.specs.Names as names;

/// A part of a call.
#[derive(Clone, Copy, PartialEq, Eq, Debug, Drop)]
pub enum Part {
    /// The instance's text. A call of which it is a part can't be made without it.
    Osil,
    /// The options' text.
    Osol,
    /// The process document's text.
    Ospl,
}

impl Part {
    /// Its name.
    pub fn name(self) -> &'static [u8]
        ensures { result.now ≡ names.part_text self }
    {
        match self {
            Part::Osil => b"osil",
            Part::Osol => b"osol",
            Part::Ospl => b"ospl",
        }
    }

    /// Whether a call of which it is a part can't be made without it.
    pub fn is_needed(self) -> bool
        ensures { result ≡ names.is_needed self }
    {
        match self {
            Part::Osil => true,
            Part::Osol | Part::Ospl => false,
        }
    }
}
