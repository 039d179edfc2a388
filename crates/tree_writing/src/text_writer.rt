//! Writes a text event by event, within what a document may have.

ghost use Rattle.std.specs.Prelude.{◌≡◌, ◌<◌, ◌≤◌, ◌++◌, [], ◌∷◌, List, ℕ, length, IfOk, OnOk, Ok, MatchOption};
ghost use Rattle.os_io.specs.Limits.{most_bytes};
ghost use Rattle.tree_grammar.specs.Elements.{Attribute, Element, Chars, Close, events};
ghost use Rattle.tree_grammar.specs.WrittenText.{written};
ghost use Rattle.tree_writing.specs.Awaiting.{IsFront, Awaits, WritesEvent, BeginsTag, AddsAttributes};

use crate::writing::{DECLARATION, Growing, put_attribute, put_chars, put_element_end, put_tag};
use os_io::{Failed, MOST_BYTES, Memory, Text};
use std::alloc::{AllocError, Global};
use tree_grammar::written_in_document_order;

/// The text of an element that is told event by event. Nothing is held but the text so far, of at most
/// [`MOST_BYTES`], and nothing where it is longer. After want of memory it is of no use.
pub struct TextWriter {
    out: Growing,
    /// Whether a start tag is open.
    is_open: bool,
    /// Whether the text is too long.
    passed: bool,
}

impl Drop for TextWriter {
    // By hand, so that letting a writer go is a call.
    fn drop(self) {
        let TextWriter {
            out: _,
            is_open: _,
            passed: _,
        } = self;
    }
}

/// A text that grows fails for want of memory alone.
fn memory(wrote: Result<(), Failed>) -> Result<(), Memory>
    ensures { OnOk result (wrote ≡ Ok tt) }
{
    match wrote {
        Ok(()) => Ok(()),
        Err(Failed) => Err(AllocError),
    }
}

impl TextWriter {
    /// The beginning of a text: its declaration.
    pub fn new(alloc: Global) -> Result<TextWriter, Memory>
        ensures { IfOk result (λ w. (e : Element) → Awaits w (events e) (written e)) }
    {
        // By it the text that is awaited is the element's.
        written_in_document_order();
        let text = Text::from_slice(alloc, DECLARATION)?;
        Ok(TextWriter {
            out: Growing { text, faults: 0 },
            is_open: false,
            passed: false,
        })
    }

    /// Looks whether the text is too long now. Of one that is nothing is kept.
    fn look(&mut self)
        ensures same { self.new.is_open ≡ self.old.is_open }
        ensures before { (rest text : List ℕ) → text ≡ self.old.out.text ++ rest → IsFront self.new.passed self.new.out.text rest text }
    {
        self.passed = self.out.text.len() as u64 > MOST_BYTES;
        if self.passed {
            self.out.text.truncate(0);
        }
    }

    /// Begins an element, whose attributes come next.
    pub fn begin(&mut self, name: &[u8]) -> Result<(), Memory>
        ensures { OnOk result (BeginsTag self.old self.new name.now) }
    {
        if self.passed {
            return Ok(());
        }
        memory(put_tag(self.is_open, name, &mut self.out))?;
        self.is_open = true;
        self.look();
        Ok(())
    }

    /// Writes an attribute of the element that was begun last.
    pub fn attribute(&mut self, name: &[u8], value: &[u8]) -> Result<(), Memory>
        ensures { OnOk result (AddsAttributes self.old self.new (record { name = name.now; value = value.now } ∷ [])) }
    {
        if self.passed {
            return Ok(());
        }
        memory(put_attribute(name, value, &mut self.out))?;
        self.look();
        Ok(())
    }

    /// Writes characters.
    pub fn chars(&mut self, text: &[u8]) -> Result<(), Memory>
        ensures { OnOk result (WritesEvent self.old self.new (Chars text.now)) }
    {
        if self.passed {
            return Ok(());
        }
        memory(put_chars(self.is_open, text, &mut self.out))?;
        self.is_open = false;
        self.look();
        Ok(())
    }

    /// Ends an element of this name.
    pub fn end(&mut self, name: &[u8]) -> Result<(), Memory>
        ensures { OnOk result (WritesEvent self.old self.new (Close name.now)) }
    {
        if self.passed {
            return Ok(());
        }
        memory(put_element_end(self.is_open, name, &mut self.out))?;
        self.is_open = false;
        self.look();
        Ok(())
    }

    /// The whole text, or none where it is too long.
    pub fn finish(self) -> Option<Text>
        ensures { (text : List ℕ) → Awaits self [] text → MatchOption result (most_bytes < length text) (λ t. (t ≡ text) × (length t ≤ most_bytes)) }
    {
        let TextWriter {
            out,
            is_open: _,
            passed,
        } = self;
        if passed { None } else { Some(out.text) }
    }
}
