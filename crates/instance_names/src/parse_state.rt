//! What the marks of an instance's document so far leave.

ghost use Rattle.std.specs.Prelude.{◌≡◌, OnOk, IfOk, codes};
ghost use Rattle.document_tags.specs.Elements.{value_of};
ghost use Rattle.instance_names.specs.Reading as names;
ghost use Rattle.instance_names.specs.Marked as marked;

use element_tree::Attributes;
use items::Items;
use mark_folds::MarkFold;
use os_io::{Memory, Text};
use osrl_writing::NameLists;
use std::alloc::{AllocError, Global};
use tag_tests::value;

/// What was said of a part, whose items are variables or rows.
#[derive(Drop)]
pub(crate) enum PartNames {
    /// It doesn't stand there.
    Nothing,
    /// It stands there once, with these names of its items so far, each of which stands for one.
    Plainly(Items<Option<Text>>),
    /// It stands there twice, or an item in it stands for several. Its names aren't kept.
    Badly,
}

/// An element that is read.
#[derive(Clone, Copy, Drop)]
pub(crate) enum Place {
    Outside,
    InRoot,
    InData,
    InVariables,
    InRows,
}

/// The element that is read and that the marks end in, how many elements are open in it that are passed over, whether data
/// began, and what was said of the two parts. Nothing else of the document is held.
#[derive(Drop)]
pub(crate) struct ParseState {
    pub place: Place,
    pub over: u64,
    pub has_data: bool,
    pub variables: PartNames,
    pub rows: PartNames,
}

/// Whether an element stands for one variable or row.
fn is_single(attributes: &Attributes<'_>) -> bool
    ensures { result ≡ names.is_one (value_of (codes "mult") attributes.now) }
{
    match value(attributes, b"mult") {
        Some(text) => text == b"1".as_slice(),
        None => true,
    }
}

/// The name that an element gives, if it gives one.
fn name_in(alloc: Global, attributes: &Attributes<'_>) -> Result<Option<Text>, Memory>
    ensures { IfOk result (λ name. name ≡ value_of (codes "name") attributes.now) }
{
    match value(attributes, b"name") {
        Some(name) => Ok(Some(Text::from_slice(alloc, name)?)),
        None => Ok(None),
    }
}

impl PartNames {
    /// The part begins once more.
    fn begin(&mut self, alloc: Global)
        ensures { self.new ≡ marked.begun self.old }
    {
        *self = match self {
            PartNames::Nothing => PartNames::Plainly(Items::new(alloc)),
            PartNames::Plainly(_) | PartNames::Badly => PartNames::Badly,
        };
    }

    /// An item begins in it.
    fn begin_item(&mut self, alloc: Global, attributes: &Attributes<'_>) -> Result<(), Memory>
        ensures { OnOk result (self.new ≡ marked.with_item attributes.now self.old) }
    {
        let PartNames::Plainly(so_far) = self else {
            return Ok(());
        };
        if is_single(attributes) {
            so_far.push(name_in(alloc, attributes)?)
        } else {
            *self = PartNames::Badly;
            Ok(())
        }
    }

    /// The names of its items in the end.
    fn labels(self, alloc: Global) -> Items<Option<Text>>
        ensures { result ≡ marked.labels self }
    {
        match self {
            PartNames::Plainly(names) => names,
            PartNames::Nothing | PartNames::Badly => Items::new(alloc),
        }
    }
}

/// The element that one stands in.
fn around(place: Place) -> Place
    ensures { result ≡ marked.around place }
{
    match place {
        Place::Outside | Place::InRoot => Place::Outside,
        Place::InData => Place::InRoot,
        Place::InVariables | Place::InRows => Place::InData,
    }
}

impl ParseState {
    /// Before all marks.
    pub(crate) fn new() -> ParseState
        ensures { result ≡ marked.start }
    {
        ParseState {
            place: Place::Outside,
            over: 0,
            has_data: false,
            variables: PartNames::Nothing,
            rows: PartNames::Nothing,
        }
    }

    /// Goes past the start tag of an element that is passed over. There are never too many of them to be counted.
    fn go_over(&mut self) -> Result<(), Memory>
        ensures { OnOk result (self.new ≡ marked.passed self.old) }
    {
        if self.over == u64::MAX {
            return Err(AllocError);
        }
        self.over += 1;
        Ok(())
    }

    /// Goes past a start tag in the root. Of what stands in several data no name is kept.
    fn begin_child(&mut self, name: &[u8]) -> Result<(), Memory>
        ensures { OnOk result (self.new ≡ marked.child_begun self.old name.now) }
    {
        if name != b"instanceData".as_slice() {
            return self.go_over();
        }
        self.place = Place::InData;
        if self.has_data {
            self.variables = PartNames::Badly;
            self.rows = PartNames::Badly;
        }
        self.has_data = true;
        Ok(())
    }

    /// Goes past a start tag in data.
    fn begin_part(&mut self, alloc: Global, name: &[u8]) -> Result<(), Memory>
        ensures { OnOk result (self.new ≡ marked.part_begun self.old name.now) }
    {
        if name == b"variables".as_slice() {
            self.place = Place::InVariables;
            self.variables.begin(alloc);
        } else if name == b"constraints".as_slice() {
            self.place = Place::InRows;
            self.rows.begin(alloc);
        } else {
            self.go_over()?;
        }
        Ok(())
    }

    /// Goes past a start tag where none is passed over.
    fn begin(
        &mut self,
        alloc: Global,
        name: &[u8],
        attributes: &Attributes<'_>,
    ) -> Result<(), Memory>
        ensures { OnOk result (self.new ≡ marked.begins_in self.old.place self.old name.now attributes.now) }
    {
        match self.place {
            Place::Outside => {
                self.place = Place::InRoot;
                Ok(())
            }
            Place::InRoot => self.begin_child(name),
            Place::InData => self.begin_part(alloc, name),
            Place::InVariables => self.begin_variable(alloc, name, attributes),
            Place::InRows => self.begin_row(alloc, name, attributes),
        }
    }

    /// Goes past a start tag in the variables.
    fn begin_variable(
        &mut self,
        alloc: Global,
        name: &[u8],
        attributes: &Attributes<'_>,
    ) -> Result<(), Memory>
        ensures { OnOk result (self.new ≡ marked.passed (record self.old { variables = marked.item_begun (codes "var") name.now attributes.now self.old.variables })) }
    {
        if name == b"var".as_slice() {
            self.variables.begin_item(alloc, attributes)?;
        }
        self.go_over()
    }

    /// Goes past a start tag in the rows.
    fn begin_row(
        &mut self,
        alloc: Global,
        name: &[u8],
        attributes: &Attributes<'_>,
    ) -> Result<(), Memory>
        ensures { OnOk result (self.new ≡ marked.passed (record self.old { rows = marked.item_begun (codes "con") name.now attributes.now self.old.rows })) }
    {
        if name == b"con".as_slice() {
            self.rows.begin_item(alloc, attributes)?;
        }
        self.go_over()
    }

    /// Goes past a start tag.
    fn go_in(
        &mut self,
        alloc: Global,
        name: &[u8],
        attributes: &Attributes<'_>,
    ) -> Result<(), Memory>
        ensures { OnOk result (self.new ≡ marked.begins_over self.old.over self.old name.now attributes.now) }
    {
        if self.over > 0 {
            return self.go_over();
        }
        self.begin(alloc, name, attributes)
    }

    /// Goes past an end tag.
    fn end(&mut self)
        ensures { self.new ≡ marked.ends_over self.old.over self.old }
    {
        if self.over > 0 {
            self.over -= 1;
        } else {
            self.place = around(self.place);
        }
    }

    /// The names that were found.
    pub(crate) fn names(self, alloc: Global) -> NameLists
        ensures { result ≡ marked.found self }
    {
        let ParseState {
            variables,
            rows,
            ..
        } = self;
        NameLists {
            variables: variables.labels(alloc),
            rows: rows.labels(alloc),
        }
    }
}

impl MarkFold for ParseState {
    ghost use Rattle.instance_names.specs.Marked.{left_by};

    ghost after = { left_by };

    fn enter(
        &mut self,
        alloc: Global,
        name: &[u8],
        attributes: &Attributes<'_>,
    ) -> Result<(), Memory> {
        self.go_in(alloc, name, attributes)
    }

    fn chars(&mut self, _text: &[u8]) -> Result<(), Memory> {
        Ok(())
    }

    fn close(&mut self, _name: &[u8]) {
        self.end();
    }
}
