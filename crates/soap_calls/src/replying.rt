//! Writes what answers a call.

ghost use Rattle.std.specs.Prelude.{◌≡◌, ◌++◌, [], OnOk, IfOk, codes};
ghost use Rattle.document_tags.specs.Telling.{Told, whole_element};
ghost use Rattle.soap_calls.specs.Writing as writing;

use crate::answering::joined;
use crate::telling::{close_frame, open_frame, open_ours};
use document_tags::{close, leaf, open, told_text};
use element_tree::TreeBuilder;
use os_io::{Memory, Text};
use std::alloc::Global;

/// Tells the envelope of a response of this name, whose one element has that name and this text.
fn tell_response(
    b: &mut TreeBuilder,
    response: &[u8],
    value: &[u8],
    text: &[u8],
) -> Result<(), Memory>
    requires { b.old.attributes ≡ [] }
    ensures { OnOk result (Told b.old b.new (whole_element (writing.frame (writing.response_nodes response.now value.now text.now)))) }
{
    open_frame(b)?;
    open_ours(b, response)?;
    leaf(b, value, text)?;
    close(b, response)?;
    close_frame(b)
}

/// The text of the reply to the call of this name that returns this text.
pub fn write_reply(alloc: Global, name: &[u8], text: &[u8]) -> Result<Text, Memory>
    ensures { IfOk result (λ reply. reply ≡ writing.reply_text name.now text.now) }
{
    let response = joined(alloc, name, b"Response")?;
    let value = joined(alloc, name, b"Return")?;
    let mut b = TreeBuilder::new(alloc);
    tell_response(&mut b, response.as_slice(), value.as_slice(), text)?;
    told_text(alloc, b)
}

/// Tells the envelope of a fault with this code and this text.
fn tell_fault(b: &mut TreeBuilder, code: &[u8], text: &[u8]) -> Result<(), Memory>
    requires { b.old.attributes ≡ [] }
    ensures { OnOk result (Told b.old b.new (whole_element (writing.frame (writing.fault_nodes code.now text.now)))) }
{
    open_frame(b)?;
    open(b, b"soap:Fault")?;
    leaf(b, b"faultcode", code)?;
    leaf(b, b"faultstring", text)?;
    close(b, b"soap:Fault")?;
    close_frame(b)
}

/// The text of the fault with this code, behind `soap:`, and this text.
pub fn write_fault(alloc: Global, code: &[u8], text: &[u8]) -> Result<Text, Memory>
    ensures { IfOk result (λ fault. fault ≡ writing.fault_text code.now text.now) }
{
    let code = joined(alloc, b"soap:", code)?;
    let mut b = TreeBuilder::new(alloc);
    tell_fault(&mut b, code.as_slice(), text)?;
    told_text(alloc, b)
}
