//! What the marks of an options document so far leave.

ghost use Rattle.std.specs.Prelude.{◌≡◌, OnOk, codes};
ghost use Rattle.document_tags.specs.Elements.{value_of};
ghost use Rattle.handed_results.specs.Marked as marked;

use crate::handed::Handed;
use element_tree::Attributes;
use mark_folds::MarkFold;
use os_io::Memory;
use std::alloc::{AllocError, Global};
use tag_tests::value;

/// An element that is read.
#[derive(Clone, Copy, Drop)]
pub(crate) enum Place {
    Outside,
    InRoot,
    InGeneral,
    InOthers,
    InResult,
}

/// The element that is read and that the marks end in, how many elements are open in it that are passed over, and what was
/// handed in. Nothing else of the document is held.
#[derive(Drop)]
pub(crate) struct ParseState {
    pub place: Place,
    pub over: u64,
    pub handed: Handed,
}

/// Whether an `other` holds a result.
fn holds_result(attributes: &Attributes<'_>) -> bool
    ensures { result ≡ marked.is_result_name (value_of (codes "name") attributes.now) }
{
    match value(attributes, b"name") {
        Some(name) => name == b"os_cert.result".as_slice(),
        None => false,
    }
}

/// The element that one stands in.
fn around(place: Place) -> Place
    ensures { result ≡ marked.around place }
{
    match place {
        Place::Outside | Place::InRoot => Place::Outside,
        Place::InGeneral => Place::InRoot,
        Place::InOthers => Place::InGeneral,
        Place::InResult => Place::InOthers,
    }
}

impl ParseState {
    /// Before all marks.
    pub(crate) fn new() -> ParseState
        ensures { result ≡ marked.start }
    {
        ParseState {
            place: Place::Outside,
            over: 0,
            handed: Handed::Nothing,
        }
    }

    /// Goes past the start tag of an element that is passed over. There are never too many of them to be counted.
    fn go_over(&mut self) -> Result<(), Memory>
        ensures { OnOk result (self.new ≡ marked.passed self.old) }
    {
        if self.over == u64::MAX {
            return Err(AllocError);
        }
        self.over += 1;
        Ok(())
    }

    /// Goes past a start tag, into its element if it has the name that is wanted.
    fn go_into(&mut self, name: &[u8], wanted: &[u8], place: Place) -> Result<(), Memory>
        ensures { OnOk result (self.new ≡ marked.into_or_over wanted.now place self.old name.now) }
    {
        if name != wanted {
            return self.go_over();
        }
        self.place = place;
        Ok(())
    }

    /// Goes past a start tag in the further options.
    fn begin_other(
        &mut self,
        alloc: Global,
        name: &[u8],
        attributes: &Attributes<'_>,
    ) -> Result<(), Memory>
        ensures { OnOk result (self.new ≡ marked.other_begun self.old name.now attributes.now) }
    {
        if name != b"other".as_slice() {
            return self.go_over();
        }
        if !holds_result(attributes) {
            return self.go_over();
        }
        self.place = Place::InResult;
        self.handed.begin(alloc);
        Ok(())
    }

    /// Goes past a start tag where none is passed over. The root's name is for the reader of options.
    fn begin(
        &mut self,
        alloc: Global,
        name: &[u8],
        attributes: &Attributes<'_>,
    ) -> Result<(), Memory>
        ensures { OnOk result (self.new ≡ marked.begins_in self.old.place self.old name.now attributes.now) }
    {
        match self.place {
            Place::Outside => {
                self.place = Place::InRoot;
                Ok(())
            }
            Place::InRoot => self.go_into(name, b"general", Place::InGeneral),
            Place::InGeneral => self.go_into(name, b"otherOptions", Place::InOthers),
            Place::InOthers => self.begin_other(alloc, name, attributes),
            Place::InResult => self.go_over(),
        }
    }

    /// Goes past a start tag.
    fn go_in(
        &mut self,
        alloc: Global,
        name: &[u8],
        attributes: &Attributes<'_>,
    ) -> Result<(), Memory>
        ensures { OnOk result (self.new ≡ marked.begins_over self.old.over self.old name.now attributes.now) }
    {
        if self.over > 0 {
            return self.go_over();
        }
        self.begin(alloc, name, attributes)
    }

    /// Goes past characters where none is passed over.
    fn hear_here(&mut self, text: &[u8]) -> Result<(), Memory>
        ensures { OnOk result (self.new ≡ marked.heard_in self.old.place self.old text.now) }
    {
        match self.place {
            Place::InResult => self.handed.extend(text),
            Place::Outside | Place::InRoot | Place::InGeneral | Place::InOthers => Ok(()),
        }
    }

    /// Goes past characters. A result's are those that stand in its element itself.
    fn hear(&mut self, text: &[u8]) -> Result<(), Memory>
        ensures { OnOk result (self.new ≡ marked.heard_over self.old.over self.old text.now) }
    {
        if self.over > 0 {
            return Ok(());
        }
        self.hear_here(text)
    }

    /// Goes past an end tag.
    fn end(&mut self)
        ensures { self.new ≡ marked.ends_over self.old.over self.old }
    {
        if self.over > 0 {
            self.over -= 1;
        } else {
            self.place = around(self.place);
        }
    }
}

impl MarkFold for ParseState {
    ghost use Rattle.handed_results.specs.Marked.{left_by};

    ghost after = { left_by };

    fn enter(
        &mut self,
        alloc: Global,
        name: &[u8],
        attributes: &Attributes<'_>,
    ) -> Result<(), Memory> {
        self.go_in(alloc, name, attributes)
    }

    fn chars(&mut self, text: &[u8]) -> Result<(), Memory> {
        self.hear(text)
    }

    fn close(&mut self, _name: &[u8]) {
        self.end();
    }
}
