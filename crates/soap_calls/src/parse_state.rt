//! What the marks of a call's envelope so far leave.

ghost use Rattle.std.specs.Prelude.{◌≡◌, OnOk, IfOk};
ghost use Rattle.soap_calls.specs.Marked as marked;

use crate::call::{Parts, SoapCall};
use crate::fault::SoapFault;
use document_tags::told_name;
use os_io::{Memory, Text};
use six_calls::{CallKind, Part};
use std::alloc::{AllocError, Global};

/// What was said of a part.
#[derive(Drop)]
pub(crate) enum Told {
    /// It doesn't stand there.
    Nothing,
    /// It stands there once, with this text so far.
    Plainly(Text),
    /// It stands there twice, or has an element in it. Its text isn't kept.
    Badly,
}

/// What was said of all parts.
#[derive(Drop)]
pub(crate) struct PartsTold {
    pub osil: Told,
    pub osol: Told,
    pub ospl: Told,
}

/// What was found in an envelope.
#[derive(Drop)]
pub(crate) enum Found {
    /// No body.
    NoBody,
    /// One body, with no element in it.
    NoElement,
    /// In the one body the one element, which isn't one of the six calls: the beginning of its name.
    Other(Text),
    /// In the one body the one element, which is this call.
    Call(CallKind, PartsTold),
    /// The root is no envelope, or there are several bodies, or several elements in the one.
    NoEnvelope,
}

/// An element that is read.
#[derive(Clone, Copy, Drop)]
pub(crate) enum Place {
    Outside,
    InEnvelope,
    InBody,
    InElement,
    InPart(Part),
}

/// The element that is read and that the marks end in, how many elements are open in it that are passed over, and what was
/// found. Nothing else of the envelope is held, and of a part's text nothing twice.
#[derive(Drop)]
pub(crate) struct ParseState {
    pub place: Place,
    pub over: u64,
    pub found: Found,
}

impl Told {
    /// The part begins once more.
    fn begin(&mut self, alloc: Global)
        ensures { self.new ≡ marked.begun self.old }
    {
        *self = match self {
            Told::Nothing => Told::Plainly(Text::new(alloc)),
            Told::Plainly(_) | Told::Badly => Told::Badly,
        };
    }

    /// There are these characters in it.
    fn extend(&mut self, text: &[u8]) -> Result<(), Memory>
        ensures { OnOk result (self.new ≡ marked.longer text.now self.old) }
    {
        match self {
            Told::Plainly(so_far) => so_far.extend(text),
            Told::Nothing | Told::Badly => Ok(()),
        }
    }

    /// The part's text, if it stands as it may: the empty one where it doesn't stand there and isn't needed.
    fn text(self, alloc: Global, is_needed: bool) -> Option<Text>
        ensures { result ≡ marked.text_told is_needed self }
    {
        match self {
            Told::Nothing => {
                if is_needed {
                    None
                } else {
                    Some(Text::new(alloc))
                }
            }
            Told::Plainly(text) => Some(text),
            Told::Badly => None,
        }
    }
}

impl PartsTold {
    fn nothing() -> PartsTold
        ensures { result ≡ marked.nothing_told }
    {
        PartsTold {
            osil: Told::Nothing,
            osol: Told::Nothing,
            ospl: Told::Nothing,
        }
    }

    /// A part begins once more.
    fn begin(&mut self, alloc: Global, part: Part)
        ensures { self.new ≡ marked.changed part marked.begun self.old }
    {
        match part {
            Part::Osil => self.osil.begin(alloc),
            Part::Osol => self.osol.begin(alloc),
            Part::Ospl => self.ospl.begin(alloc),
        }
    }

    /// There are these characters in a part.
    fn extend(&mut self, part: Part, text: &[u8]) -> Result<(), Memory>
        ensures { OnOk result (self.new ≡ marked.changed part (marked.longer text.now) self.old) }
    {
        match part {
            Part::Osil => self.osil.extend(text),
            Part::Osol => self.osol.extend(text),
            Part::Ospl => self.ospl.extend(text),
        }
    }

    /// There is an element in a part.
    fn spoil(&mut self, part: Part)
        ensures { self.new ≡ marked.changed part marked.spoilt self.old }
    {
        match part {
            Part::Osil => self.osil = Told::Badly,
            Part::Osol => self.osol = Told::Badly,
            Part::Ospl => self.ospl = Told::Badly,
        }
    }

    /// The texts of the parts of a call, or the first part that doesn't stand as it may.
    fn parts(self, alloc: Global, kind: CallKind) -> Result<Parts, Part>
        ensures { result ≡ marked.parts_told kind self }
    {
        let PartsTold { osil, osol, ospl } = self;
        let Some(osil) = part_text(alloc, kind, Part::Osil, osil) else {
            return Err(Part::Osil);
        };
        let Some(osol) = part_text(alloc, kind, Part::Osol, osol) else {
            return Err(Part::Osol);
        };
        let Some(ospl) = part_text(alloc, kind, Part::Ospl, ospl) else {
            return Err(Part::Ospl);
        };
        Ok(Parts { osil, osol, ospl })
    }
}

/// The text of a part of a call, if it stands as it may; the empty text of one that the call doesn't have.
fn part_text(alloc: Global, kind: CallKind, part: Part, told: Told) -> Option<Text>
    ensures { result ≡ marked.part_told kind part told }
{
    if kind.has(part) {
        told.text(alloc, part.is_needed())
    } else {
        Some(Text::new(alloc))
    }
}

/// Whether an element of this name is this part of a call.
fn is_part(kind: CallKind, name: &[u8], part: Part) -> bool
    ensures { result ≡ marked.is_part kind name.now part }
{
    kind.has(part) && name == part.name()
}

/// The part of a call that an element of this name is, if it is one.
fn part_named(kind: CallKind, name: &[u8]) -> Option<Part>
    ensures { result ≡ marked.part_named kind name.now }
{
    if is_part(kind, name, Part::Osil) {
        Some(Part::Osil)
    } else if is_part(kind, name, Part::Osol) {
        Some(Part::Osol)
    } else if is_part(kind, name, Part::Ospl) {
        Some(Part::Ospl)
    } else {
        None
    }
}

/// What an element of this name in a body is, before what stands in it.
fn element_named(alloc: Global, name: &[u8]) -> Result<Found, Memory>
    ensures { IfOk result (λ found. found ≡ marked.element_named name.now) }
{
    match CallKind::named(name) {
        Some(kind) => Ok(Found::Call(kind, PartsTold::nothing())),
        None => Ok(Found::Other(told_name(alloc, name)?)),
    }
}

impl Found {
    /// A body begins.
    fn begin_body(&mut self)
        ensures { self.new ≡ marked.body_begun self.old }
    {
        *self = match self {
            Found::NoBody => Found::NoElement,
            Found::NoElement | Found::Other(_) | Found::Call(..) | Found::NoEnvelope => {
                Found::NoEnvelope
            }
        };
    }

    /// This element begins in a body.
    fn begin_element(&mut self, element: Found)
        ensures { self.new ≡ marked.element_begun element self.old }
    {
        *self = match self {
            Found::NoElement => element,
            Found::NoBody | Found::Other(_) | Found::Call(..) | Found::NoEnvelope => {
                Found::NoEnvelope
            }
        };
    }

    /// The part that an element of this name in the element is, if it is one.
    fn part(&self, name: &[u8]) -> Option<Part>
        ensures { result ≡ marked.part_in self.now name.now }
    {
        match self {
            Found::Call(kind, _) => part_named(*kind, name),
            Found::NoBody | Found::NoElement | Found::Other(_) | Found::NoEnvelope => None,
        }
    }

    /// A part begins once more.
    fn begin_part(&mut self, alloc: Global, part: Part)
        ensures { self.new ≡ marked.with_part part marked.begun self.old }
    {
        if let Found::Call(_, told) = self {
            told.begin(alloc, part);
        }
    }

    /// There are these characters in a part.
    fn extend_part(&mut self, part: Part, text: &[u8]) -> Result<(), Memory>
        ensures { OnOk result (self.new ≡ marked.with_part part (marked.longer text.now) self.old) }
    {
        match self {
            Found::Call(_, told) => told.extend(part, text),
            Found::NoBody | Found::NoElement | Found::Other(_) | Found::NoEnvelope => Ok(()),
        }
    }

    /// There is an element in a part.
    fn spoil_part(&mut self, part: Part)
        ensures { self.new ≡ marked.with_part part marked.spoilt self.old }
    {
        if let Found::Call(_, told) = self {
            told.spoil(part);
        }
    }

    /// The call that it is, or why it is none.
    pub(crate) fn call(self, alloc: Global) -> Result<SoapCall, SoapFault>
        ensures { result ≡ marked.call_found self }
    {
        match self {
            Found::Call(kind, told) => match told.parts(alloc, kind) {
                Ok(parts) => Ok(SoapCall { kind, parts }),
                Err(part) => Err(SoapFault::Part { part }),
            },
            Found::Other(name) => Err(SoapFault::Call { name }),
            Found::NoBody | Found::NoElement | Found::NoEnvelope => Err(SoapFault::Envelope),
        }
    }
}

/// The element that one stands in.
fn around(place: Place) -> Place
    ensures { result ≡ marked.around place }
{
    match place {
        Place::Outside | Place::InEnvelope => Place::Outside,
        Place::InBody => Place::InEnvelope,
        Place::InElement => Place::InBody,
        Place::InPart(_) => Place::InElement,
    }
}

impl ParseState {
    /// Before all marks.
    pub(crate) fn new() -> ParseState
        ensures { result ≡ marked.start }
    {
        ParseState {
            place: Place::Outside,
            over: 0,
            found: Found::NoBody,
        }
    }

    /// Goes past the start tag of an element that is passed over. There are never too many of them to be counted.
    fn go_over(&mut self) -> Result<(), Memory>
        ensures { OnOk result (self.new ≡ marked.passed self.old) }
    {
        if self.over == u64::MAX {
            return Err(AllocError);
        }
        self.over += 1;
        Ok(())
    }

    /// Goes past the start tag of the root.
    fn begin_root(&mut self, name: &[u8])
        ensures { self.new ≡ marked.root_begun self.old name.now }
    {
        self.place = Place::InEnvelope;
        if name != b"Envelope".as_slice() {
            self.found = Found::NoEnvelope;
        }
    }

    /// Goes past a start tag in the envelope.
    fn begin_child(&mut self, name: &[u8]) -> Result<(), Memory>
        ensures { OnOk result (self.new ≡ marked.child_begun self.old name.now) }
    {
        if name != b"Body".as_slice() {
            return self.go_over();
        }
        self.place = Place::InBody;
        self.found.begin_body();
        Ok(())
    }

    /// Goes past a start tag in a body.
    fn begin_element(&mut self, alloc: Global, name: &[u8]) -> Result<(), Memory>
        ensures { OnOk result (self.new ≡ marked.held_begun self.old name.now) }
    {
        let element = element_named(alloc, name)?;
        self.place = Place::InElement;
        self.found.begin_element(element);
        Ok(())
    }

    /// Goes past a start tag in the element in a body.
    fn begin_part(&mut self, alloc: Global, name: &[u8]) -> Result<(), Memory>
        ensures { OnOk result (self.new ≡ marked.part_begun self.old (marked.part_in self.old.found name.now)) }
    {
        let Some(part) = self.found.part(name) else {
            return self.go_over();
        };
        self.place = Place::InPart(part);
        self.found.begin_part(alloc, part);
        Ok(())
    }

    /// Goes past a start tag in a part.
    fn spoil_part(&mut self, part: Part) -> Result<(), Memory>
        ensures { OnOk result (self.new ≡ marked.part_spoilt self.old part) }
    {
        self.found.spoil_part(part);
        self.go_over()
    }

    /// Goes past a start tag where none is passed over.
    fn begin(&mut self, alloc: Global, name: &[u8]) -> Result<(), Memory>
        ensures { OnOk result (self.new ≡ marked.begins_in self.old.place self.old name.now) }
    {
        match self.place {
            Place::Outside => {
                self.begin_root(name);
                Ok(())
            }
            Place::InEnvelope => self.begin_child(name),
            Place::InBody => self.begin_element(alloc, name),
            Place::InElement => self.begin_part(alloc, name),
            Place::InPart(part) => self.spoil_part(part),
        }
    }
}

impl ParseState {
    /// Goes past a start tag.
    pub(crate) fn enter(&mut self, alloc: Global, name: &[u8]) -> Result<(), Memory>
        ensures { OnOk result (self.new ≡ marked.begins_over self.old.over self.old name.now) }
    {
        if self.over > 0 {
            return self.go_over();
        }
        self.begin(alloc, name)
    }

    /// Goes past characters.
    pub(crate) fn say(&mut self, text: &[u8]) -> Result<(), Memory>
        ensures { OnOk result (self.new ≡ marked.said self.old text.now) }
    {
        if self.over > 0 {
            return Ok(());
        }
        match self.place {
            Place::InPart(part) => self.found.extend_part(part, text),
            Place::Outside | Place::InEnvelope | Place::InBody | Place::InElement => Ok(()),
        }
    }

    /// Goes past an end tag.
    pub(crate) fn end(&mut self)
        ensures { self.new ≡ marked.ends_over self.old.over self.old }
    {
        if self.over > 0 {
            self.over -= 1;
        } else {
            self.place = around(self.place);
        }
    }
}
