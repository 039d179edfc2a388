//! The parts of calls.

ghost use Rattle.std.specs.Prelude.{◌≡◌};
ghost use Rattle.soap_calls.specs.Calls as calls;

use crate::call::{Parts, SoapCall};
use os_io::Text;
use six_calls::{CallKind, Part};

/// A text that stands for a part, emptied where the call doesn't have it.
fn kept(kind: CallKind, part: Part, mut text: Text) -> Text
    ensures { result ≡ calls.kept kind part text }
{
    if !kind.has(part) {
        text.truncate(0);
    }
    text
}

/// The call with these texts, of which those are dropped that it has no part for.
pub fn call_of(kind: CallKind, parts: Parts) -> SoapCall
    ensures { result ≡ calls.call_of kind parts }
{
    let Parts { osil, osol, ospl } = parts;
    let parts = Parts {
        osil: kept(kind, Part::Osil, osil),
        osol: kept(kind, Part::Osol, osol),
        ospl: kept(kind, Part::Ospl, ospl),
    };
    SoapCall { kind, parts }
}
