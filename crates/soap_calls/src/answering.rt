//! Answers, as elements say them.

ghost use Rattle.std.specs.Prelude.{◌≡◌, ◌↔◌, ◌++◌, IsTrue, IfOk, bytes_eq, codes};
ghost use Rattle.tree_grammar.specs.Elements.{Element};
ghost use Rattle.document_tags.specs.Spots.{StandsAt};
ghost use Rattle.document_tags.specs.OneChild.{IsOnly};
ghost use Rattle.soap_calls.specs.Replies as replies;

use crate::envelope::{held, sole};
use crate::fault::Answer;
use document_tags::{Spot, only_child, plain_text};
use os_io::{Memory, Text};
use std::alloc::Global;

/// Two texts, one behind the other.
pub(crate) fn joined(alloc: Global, front: &[u8], end: &[u8]) -> Result<Text, Memory>
    ensures { IfOk result (λ t. t ≡ front.now ++ end.now) }
{
    let mut text = Text::from_slice(alloc, front)?;
    text.extend(end)?;
    Ok(text)
}

/// Whether an element's name is this one with that end.
fn is_called(alloc: Global, spot: Spot<'_>, name: &[u8], end: &[u8]) -> Result<bool, Memory>
    ensures { (e : Element) → StandsAt spot.entry e → IfOk result (λ r. r ≡ bytes_eq e.name (name.now ++ end.now)) }
{
    let wanted = joined(alloc, name, end)?;
    Ok(spot.name() == wanted.as_slice())
}

/// Whether a call of this name may return this text.
fn may_return(name: &[u8], text: &[u8]) -> bool
    ensures { IsTrue result ↔ replies.MayReturn name.now text.now }
{
    name != b"send".as_slice() || text == b"true".as_slice() || text == b"false".as_slice()
}

/// The text that an element returns, if it returns one.
fn read_value(alloc: Global, name: &[u8], value: Spot<'_>) -> Result<Option<Text>, Memory>
    ensures { (e : Element) → StandsAt value.entry e → IfOk result (IsOnly (replies.IsReturnedText name.now e)) }
{
    if !is_called(alloc, value, name, b"Return")? {
        return Ok(None);
    }
    let Some(text) = plain_text(alloc, value)? else {
        return Ok(None);
    };
    if may_return(name, text.as_slice()) {
        Ok(Some(text))
    } else {
        Ok(None)
    }
}

/// The answer that an element returns, if it returns a text.
fn read_return(alloc: Global, name: &[u8], spot: Spot<'_>) -> Result<Option<Answer>, Memory>
    ensures { (e : Element) → StandsAt spot.entry e → e.name ≡ name.now ++ codes "Response" → IfOk result (IsOnly (replies.IsAnswer name.now e)) }
{
    let Some(value) = sole(alloc, spot)? else {
        return Ok(None);
    };
    match read_value(alloc, name, value)? {
        Some(text) => Ok(Some(Answer::Return(text))),
        None => Ok(None),
    }
}

/// What the one child element of this name says plainly.
fn plain_child(alloc: Global, spot: Spot<'_>, name: &[u8]) -> Result<Option<Text>, Memory>
    ensures { (e : Element) → StandsAt spot.entry e → IfOk result (λ r. r ≡ replies.plain_child e name.now) }
{
    let Some(child) = only_child(alloc, spot, name)? else {
        return Ok(None);
    };
    plain_text(alloc, child)
}

/// The fault that an element is, if it is one.
fn read_fault(alloc: Global, name: &[u8], spot: Spot<'_>) -> Result<Option<Answer>, Memory>
    ensures { (e : Element) → StandsAt spot.entry e → e.name ≡ codes "Fault" → IfOk result (IsOnly (replies.IsAnswer name.now e)) }
{
    let Some(code) = plain_child(alloc, spot, b"faultcode")? else {
        return Ok(None);
    };
    let Some(text) = plain_child(alloc, spot, b"faultstring")? else {
        return Ok(None);
    };
    Ok(Some(Answer::Fault { code, text }))
}

/// The answer that an element is, if it is one.
fn read_element(alloc: Global, name: &[u8], spot: Spot<'_>) -> Result<Option<Answer>, Memory>
    ensures { (e : Element) → StandsAt spot.entry e → IfOk result (IsOnly (replies.IsAnswer name.now e)) }
{
    if is_called(alloc, spot, b"Fault", b"")? {
        return read_fault(alloc, name, spot);
    }
    if is_called(alloc, spot, name, b"Response")? {
        return read_return(alloc, name, spot);
    }
    Ok(None)
}

/// The answer in an envelope, if there is one.
pub(crate) fn read_answer(
    alloc: Global,
    name: &[u8],
    root: Spot<'_>,
) -> Result<Option<Answer>, Memory>
    ensures { (e : Element) → StandsAt root.entry e → IfOk result (IsOnly (replies.IsAnswerIn name.now e)) }
{
    let Some(spot) = held(alloc, root)? else {
        return Ok(None);
    };
    read_element(alloc, name, spot)
}
