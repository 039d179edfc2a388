//! Calls.

ghost use Rattle.std.specs.Prelude.{◌≡◌};
ghost use Rattle.soap_calls.specs.Calls as calls;

use os_io::Text;
use six_calls::{CallKind, Part};

/// The texts of all parts, empty where the call doesn't have one.
#[derive(Drop)]
pub struct Parts {
    pub osil: Text,
    pub osol: Text,
    pub ospl: Text,
}

impl Parts {
    /// The text of a part.
    pub fn text(&self, part: Part) -> &Text
        ensures { result.now ≡ calls.text_of self.now part }
    {
        match part {
            Part::Osil => &self.osil,
            Part::Osol => &self.osol,
            Part::Ospl => &self.ospl,
        }
    }
}

/// A call with the texts of its parts. A part that wasn't said is the empty text, and so is one that the call doesn't have.
#[derive(Drop)]
pub struct SoapCall {
    /// Which of the six it is.
    pub kind: CallKind,
    pub parts: Parts,
}
