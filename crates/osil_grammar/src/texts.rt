//! What is told of a refusal.

ghost use Rattle.std.specs.Prelude.{◌≡◌, ◌++◌, IfOk, OnOk};
ghost use Rattle.osil_grammar.specs.Texts as spoken;
ghost use Rattle.osil_grammar.specs.Reading.{told_refusal, IsFaultText};

use crate::fault::{OsilFault, Place, Refusal};
use doc_tree::TreeFault;
use os_io::{Memory, Text};
use std::alloc::{AllocError, Global};

/// Appends the name of the element or the attribute that a refusal is about, where it tells one.
fn put_subject(text: &mut Text, why: &Refusal) -> Result<(), Memory>
    ensures { OnOk result (text.new ≡ text.old ++ spoken.subject (told_refusal why.now)) }
{
    match why {
        Refusal::Beyond { name } => {
            text.push(b' ')?;
            text.extend(name.as_slice())
        }
        Refusal::Attribute { name } => {
            text.push(b' ')?;
            text.extend(name)
        }
        _ => Ok(()),
    }
}

/// The text of a refusal: `osil`, its name, ` at ` and the element's ordinal or the place in bytes, and then the name
/// that it tells. A fault for want of memory has no text.
pub fn refusal_text(alloc: Global, fault: &OsilFault) -> Result<Text, Memory>
    ensures { IfOk result (λ text. IsFaultText fault.now text) }
{
    match fault {
        OsilFault::Memory => Err(AllocError),
        OsilFault::Tree(TreeFault::Memory) => Err(AllocError),
        OsilFault::Tree(_) => Ok(Text::from_vec(format!(in alloc; "{fault}")?.into_bytes())),
        OsilFault::Refused { refusal, at } => {
            let place = Place { refusal, at: *at };
            let mut text = Text::from_vec(format!(in alloc; "{place}")?.into_bytes());
            put_subject(&mut text, refusal)?;
            Ok(text)
        }
    }
}
