//! Writes a tree, part by part.

ghost use Rattle.std.specs.Prelude.{◌≡◌, ◌+◌, ◌<◌, ◌≤◌, ◌++◌, [], ◌∷◌, Some, flat_map, length, take, IfOk};
ghost use Rattle.os_io.specs.Laws.{part_whole};
ghost use Rattle.os_io.specs.Streams.{Writes, sink_tells};
ghost use Rattle.tree_grammar.specs.Elements.{Element, events};
ghost use Rattle.tree_grammar.specs.WrittenText.{tag_end, element_end, written_attributes, escaped, escaped_value, written};
ghost use Rattle.tree_writing.specs.Escapes.{escaped_by};
ghost use Rattle.element_tree.specs.Items.{event_at, attributes_of};
ghost use Rattle.tree_writing.specs.TextParts.{is_open_behind, event_text};

use crate::escaping::reference;
use element_tree::{Item, Tree};
use os_io::{Failed, Memory, Sink, Stream, Text, write_all};
use std::alloc::{AllocError, Global};
use tree_grammar::written_in_document_order;

/// What stands before the element.
pub(crate) const DECLARATION: &[u8] = b"<?xml version=\"1.0\" encoding=\"UTF-8\"?>";

/// Writes bytes.
fn put<S: Sink>(bytes: &[u8], sink: &mut S) -> Result<(), Failed>
    ensures { Writes result bytes.now (S.tells sink.old) (S.tells sink.new) }
{
    write_all(sink, bytes)
}

/// How many characters at the front are written as they are.
fn plain_length(bytes: &[u8], in_value: bool) -> usize
    ensures within { result ≤ length bytes.now }
    ensures plain { flat_map (escaped_by in_value) (take result bytes.now) ≡ take result bytes.now }
{
    for i in 0..bytes.len() {
        if reference(bytes[i], in_value).is_some() {
            return i;
        }
    }
    bytes.len()
}

/// The characters at the front that are written as they are, and the rest.
fn plain_front(bytes: &[u8], in_value: bool) -> (&[u8], &[u8])
    ensures text { flat_map (escaped_by in_value) bytes.now ≡ result.0.now ++ flat_map (escaped_by in_value) result.1.now }
    ensures length { length result.0.now + length result.1.now ≡ length bytes.now }
{
    bytes.split_at(plain_length(bytes, in_value))
}

/// Writes a character, escaped.
fn put_character<S: Sink>(byte: u8, in_value: bool, sink: &mut S) -> Result<(), Failed>
    ensures { Writes result (escaped_by in_value byte) (S.tells sink.old) (S.tells sink.new) }
{
    match reference(byte, in_value) {
        Some(text) => put(text, sink),
        None => put(&[byte], sink),
    }
}

/// Writes characters, escaped.
fn put_escaped<S: Sink>(bytes: &[u8], in_value: bool, sink: &mut S) -> Result<(), Failed>
    ensures { Writes result (flat_map (escaped_by in_value) bytes.now) (S.tells sink.old) (S.tells sink.new) }
{
    let mut rest = bytes;
    while let Some((first, behind)) = rest.split_first() {
        let (run, more) = plain_front(rest, in_value);
        if run.is_empty() {
            put_character(*first, in_value, sink)?;
            rest = behind;
        } else {
            put(run, sink)?;
            rest = more;
        }
    }
    Ok(())
}

/// The end of a start tag, if one is open.
fn end_of_tag(is_open: bool) -> &'static [u8]
    ensures { result.now ≡ tag_end is_open [] }
{
    if is_open { b">" } else { b"" }
}

/// Writes the beginning of a start tag, behind one that is open.
pub(crate) fn put_tag<S: Sink>(is_open: bool, name: &[u8], sink: &mut S) -> Result<(), Failed>
    ensures { Writes result (tag_end is_open (60 ∷ name.now)) (S.tells sink.old) (S.tells sink.new) }
{
    put(end_of_tag(is_open), sink)?;
    put(b"<", sink)?;
    put(name, sink)
}

/// Writes an attribute.
pub(crate) fn put_attribute<S: Sink>(name: &[u8], value: &[u8], sink: &mut S) -> Result<(), Failed>
    ensures { Writes result (32 ∷ (name.now ++ (61 ∷ 34 ∷ (escaped_value value.now ++ (34 ∷ []))))) (S.tells sink.old) (S.tells sink.new) }
{
    put(b" ", sink)?;
    put(name, sink)?;
    put(b"=\"", sink)?;
    put_escaped(value, true, sink)?;
    put(b"\"", sink)
}

/// Writes the attributes of the event at an index.
fn put_attributes<S: Sink>(tree: &Tree, i: usize, sink: &mut S) -> Result<(), Failed>
    requires { i < length tree.now }
    ensures { Writes result (written_attributes (attributes_of (event_at tree.now i)) []) (S.tells sink.old) (S.tells sink.new) }
{
    for k in 0..tree.attribute_count(i) {
        let (name, value) = tree.attribute(i, k);
        put_attribute(name, value, sink)?;
    }
    Ok(())
}

/// Writes characters, behind a start tag that is open.
pub(crate) fn put_chars<S: Sink>(is_open: bool, text: &[u8], sink: &mut S) -> Result<(), Failed>
    ensures { Writes result (tag_end is_open (escaped text.now)) (S.tells sink.old) (S.tells sink.new) }
{
    put(end_of_tag(is_open), sink)?;
    put_escaped(text, false, sink)
}

/// Writes the end of an element, whose start tag may still be open.
pub(crate) fn put_element_end<S: Sink>(
    is_open: bool,
    name: &[u8],
    sink: &mut S,
) -> Result<(), Failed>
    ensures { Writes result (element_end is_open name.now []) (S.tells sink.old) (S.tells sink.new) }
{
    if is_open {
        return put(b"/>", sink);
    }
    put(b"</", sink)?;
    put(name, sink)?;
    put(b">", sink)
}

/// Writes the event at an index, and says whether a start tag is open behind it.
fn put_event<S: Sink>(tree: &Tree, i: usize, is_open: bool, sink: &mut S) -> Result<bool, Failed>
    requires { i < length tree.now }
    ensures writes { Writes result (event_text is_open (event_at tree.now i)) (S.tells sink.old) (S.tells sink.new) }
    ensures open { IfOk result (λ then. then ≡ is_open_behind (event_at tree.now i)) }
{
    match tree.event(i) {
        Item::Open { name } => {
            put_tag(is_open, name, sink)?;
            put_attributes(tree, i, sink)?;
            Ok(true)
        }
        Item::Chars { text } => {
            put_chars(is_open, text, sink)?;
            Ok(false)
        }
        Item::Close { name } => {
            put_element_end(is_open, name, sink)?;
            Ok(false)
        }
    }
}

/// Writes the text of a tree: a declaration and the element, without white space of its own. An element without
/// children is an empty-element tag. After [`Failed`] a first part of the text was written. Takes no memory.
pub fn write_to<S: Sink>(tree: &Tree, sink: &mut S) -> Result<(), Failed>
    ensures { (e : Element) → tree.now ≡ events e → Writes result (written e) (S.tells sink.old) (S.tells sink.new) }
{
    // By it what the loop writes is the element's text.
    written_in_document_order();
    put(DECLARATION, sink)?;
    let mut is_open = false;
    for i in 0..tree.len() {
        is_open = put_event(tree, i, is_open, sink)?;
    }
    Ok(())
}

/// A text that grows with what is written, which is handed on at once. A fault is want of memory.
#[derive(Drop)]
pub(crate) struct Growing {
    pub(crate) text: Text,
    pub(crate) faults: u64,
}

impl Stream for Growing {
    ghost tells = { λ s. sink_tells (Some s.text) (Some s.text) s.faults };
}

impl Sink for Growing {
    fn write(&mut self, bytes: &[u8]) -> Result<usize, Failed> {
        if self.text.extend(bytes).is_err() {
            self.faults = self.faults.saturating_add(1);
            return Err(Failed);
        }
        Ok(bytes.len())
    }

    fn flush(&mut self) -> Result<(), Failed> {
        Ok(())
    }

    ghost handed_on_is_written = { λ s. part_whole s.text };
}

/// The text of a tree, as [`write_to`] writes it.
pub fn write(alloc: Global, tree: &Tree) -> Result<Text, Memory>
    ensures { IfOk result (λ text. (e : Element) → tree.now ≡ events e → text ≡ written e) }
{
    let room = DECLARATION.len().saturating_add(tree.written_length());
    let mut out = Growing {
        text: Text::from_vec(Vec::with_capacity(alloc, room)?),
        faults: 0,
    };
    match write_to(tree, &mut out) {
        Ok(()) => Ok(out.text),
        Err(Failed) => Err(AllocError),
    }
}
