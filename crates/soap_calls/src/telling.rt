//! Writes calls.

ghost use Rattle.std.specs.Prelude.{◌≡◌, [], OnOk, IfOk, codes};
ghost use Rattle.tree_grammar.specs.Elements.{none, nodes_events};
ghost use Rattle.document_tags.specs.Telling.{Told, whole_element, opening};
ghost use Rattle.document_tags.specs.Writing.{leaf, only};
ghost use Rattle.soap_calls.specs.Writing as writing;

use crate::call::SoapCall;
use document_tags::{close, leaf, open, open_with, told_text};
use element_tree::TreeBuilder;
use os_io::{Memory, Text};
use six_calls::Part;
use std::alloc::Global;

/// Begins an envelope and its body.
pub(crate) fn open_frame(b: &mut TreeBuilder) -> Result<(), Memory>
    requires { b.old.attributes ≡ [] }
    ensures { OnOk result (Told b.old b.new writing.frame_opening) }
{
    open_with(
        b,
        b"soap:Envelope",
        b"xmlns:soap",
        b"http://schemas.xmlsoap.org/soap/envelope/",
    )?;
    open(b, b"soap:Body")
}

/// Ends them.
pub(crate) fn close_frame(b: &mut TreeBuilder) -> Result<(), Memory>
    requires { b.old.attributes ≡ [] }
    ensures { OnOk result (Told b.old b.new writing.frame_closing) }
{
    close(b, b"soap:Body")?;
    close(b, b"soap:Envelope")
}

/// Begins an element of this name in the namespace of the Optimization Services.
pub(crate) fn open_ours(b: &mut TreeBuilder, name: &[u8]) -> Result<(), Memory>
    requires { b.old.attributes ≡ [] }
    ensures { OnOk result (Told b.old b.new (opening name.now writing.ours)) }
{
    open_with(b, name, b"xmlns", b"os.optimizationservices.org")
}

/// Tells a part, where the call has it.
fn tell_part(b: &mut TreeBuilder, call: &SoapCall, part: Part) -> Result<(), Memory>
    requires { b.old.attributes ≡ [] }
    ensures { OnOk result (Told b.old b.new (nodes_events (writing.part_node call.now part none))) }
{
    if !call.kind.has(part) {
        return Ok(());
    }
    leaf(b, part.name(), call.parts.text(part).as_slice())
}

/// Tells the parts of a call.
fn tell_parts(b: &mut TreeBuilder, call: &SoapCall) -> Result<(), Memory>
    requires { b.old.attributes ≡ [] }
    ensures { OnOk result (Told b.old b.new (nodes_events (writing.part_nodes call.now))) }
{
    tell_part(b, call, Part::Osil)?;
    tell_part(b, call, Part::Ospl)?;
    tell_part(b, call, Part::Osol)
}

/// Tells the envelope of a call.
fn tell_call(b: &mut TreeBuilder, call: &SoapCall, name: &[u8]) -> Result<(), Memory>
    requires { b.old.attributes ≡ [] }
    ensures { OnOk result (Told b.old b.new (whole_element (writing.frame (writing.ours_around name.now (writing.part_nodes call.now))))) }
{
    open_frame(b)?;
    open_ours(b, name)?;
    tell_parts(b, call)?;
    close(b, name)?;
    close_frame(b)
}

/// The text of the envelope of a call, with all parts that it has, an empty one too.
pub fn write_call(alloc: Global, call: &SoapCall) -> Result<Text, Memory>
    ensures { IfOk result (λ text. text ≡ writing.call_text call.now) }
{
    let mut b = TreeBuilder::new(alloc);
    tell_call(&mut b, call, call.kind.name())?;
    told_text(alloc, b)
}
