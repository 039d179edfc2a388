//! The reader's state, and its step over a byte whose line ends are normal.

ghost use Rattle.std.specs.Prelude.{◌≡◌, ◌↔◌, [], ◌∷◌, List, IsTrue, OnOk, IfOk, IsErrOf, MatchBool, MatchOption};
ghost use Rattle.doc_tree.specs.Relieved.{Relieved, NoMarkWaits};
ghost use Rattle.doc_tree.specs.Marks.{Mark};
ghost use Rattle.doc_tree.specs.Rests.{TreeTerms};
ghost use Rattle.doc_tree.specs.Completions.{view, Good, GoodGoal, RestsAt, ReachesGoal, FollowsByte, Stuck, ReachesState, RunsOn, Completes, IsDeep, IsOther, IsDoctype, IsPlainByte};

mod asides;
mod attributes;
mod content;
mod fields;
mod outside;
mod references;
mod tags;
mod walks;

use crate::builder::Telling;
use crate::declaration::{Field, is_encoding, is_utf8_name};
use crate::fault::StepFault;
use crate::keys::Keys;
use crate::names::{Part, is_name_start};
use crate::visitor::Visitor;
use os_io::Memory;
use std::alloc::{AllocError, Global};
use tree_grammar::DEPTH;

/// Where in the document the reader stands.
#[derive(Clone, Copy, PartialEq, Eq)]
pub(crate) enum Place {
    /// Before the first byte.
    Start,
    /// Behind the byte order mark.
    Marked,
    /// Behind a `<` where the declaration may begin.
    FirstLess,
    /// Before the root.
    Prolog,
    /// Behind a `<` before the root.
    PrologLess,
    /// Behind `<?xml`, or behind a field of the declaration.
    FieldGap,
    /// Behind white space in the declaration.
    FieldSpace,
    /// Behind a field's word.
    FieldEquals,
    /// Behind a field's `=`.
    FieldQuote,
    /// In a field's value.
    FieldValue,
    /// In a fixed text, whose rest is still to come.
    Word,
    /// In a start tag's name.
    TagName,
    /// Behind a name or a value in a start tag.
    TagAfter,
    /// Behind white space in a start tag.
    TagSpace,
    /// In an attribute's name.
    Key,
    /// Behind an attribute's name.
    KeyEquals,
    /// Behind an attribute's `=`.
    KeyQuote,
    /// In an attribute's value.
    Value,
    /// In the content of an element.
    Content,
    /// Behind a `<` in the content of an element.
    ContentLess,
    /// Behind a `<` behind the root.
    EpilogLess,
    /// Behind `<!`.
    Bang,
    /// In a comment.
    Comment,
    /// In a comment, behind `-`.
    CommentDash,
    /// In a CDATA section.
    Section,
    /// Behind a `<?` where the declaration may begin.
    FirstQuestion,
    /// In a name that may be that of the declaration.
    FirstName,
    /// Behind `<?`.
    Question,
    /// In an instruction's name.
    PiName,
    /// In an instruction's text.
    PiText,
    /// In an instruction's text, behind `?`.
    PiMark,
    /// Behind the name of an end tag.
    EndSpace,
    /// Behind `&`.
    Ampersand,
    /// Behind `&a`.
    AmpersandA,
    /// Behind `&#`.
    Hash,
    /// Before the first digit of a reference.
    NoDigit,
    /// Behind a digit of a reference.
    Digit,
    /// Behind the root.
    Epilog,
}

/// What comes when a fixed text is whole.
#[derive(Clone, Copy, PartialEq, Eq)]
pub(crate) enum Goal {
    /// The byte order mark.
    Marked,
    /// A field's word.
    Field,
    /// `?>` of the declaration.
    Prolog,
    /// `/>`.
    EmptyTag,
    /// `</` and the element's name.
    EndName,
    /// `<!--`.
    Comment,
    /// `<![CDATA[`.
    Section,
    /// The end of a comment or an instruction.
    Around,
    /// A reference to an entity.
    Entity,
}

/// Where a comment or an instruction stands.
#[derive(Clone, Copy, PartialEq, Eq)]
pub(crate) enum Round {
    Prolog,
    Content,
    Epilog,
}

/// The reader's state.
#[derive(Drop)]
pub(crate) struct Machine {
    alloc: Global,
    place: Place,
    /// Of the comment or the instruction that is read.
    round: Round,
    /// The qualified names of the open elements, the outermost first.
    names: Vec<Vec<u8>>,
    /// The last field of the declaration.
    field: Field,
    /// The fixed text that is read, how much of it has come, and what comes then.
    word: Vec<u8>,
    matched: usize,
    goal: Goal,
    /// Of the start tag that is read: its name, and the names of its attributes.
    name: Vec<u8>,
    keys: Keys,
    /// The name that is read.
    part: Part,
    /// Of the attribute or field that is read.
    key: Vec<u8>,
    quote: u8,
    value: Vec<u8>,
    /// How many `]` of a run of characters, up to two, stand just before.
    brackets: u8,
    /// Of the reference that is read: whether it stands in a value, its character, its radix.
    in_value: bool,
    number: u32,
    radix: u32,
    /// What was read and is still to be told. No tree is built here.
    builder: Telling,
}

/// Puts bytes in place of those that stand in a buffer, in its room.
fn refill(buffer: &mut Vec<u8>, bytes: &[u8]) -> Result<(), AllocError>
    ensures { OnOk result (buffer.new.items ≡ bytes.now) }
{
    buffer.clear();
    buffer.extend_from_slice(bytes)
}

/// Puts one byte in place of those that stand in a buffer, in its room.
fn restart(buffer: &mut Vec<u8>, b: u8) -> Result<(), AllocError>
    ensures { OnOk result (buffer.new.items ≡ b ∷ []) }
{
    buffer.clear();
    buffer.push(b)?;
    Ok(())
}

impl Machine {
    pub(crate) fn new(alloc: Global) -> Self
        ensures { RunsOn (view result) [] }
    {
        Machine {
            alloc,
            place: Place::Start,
            round: Round::Prolog,
            names: Vec::new(alloc),
            field: Field::Before,
            word: Vec::new(alloc),
            matched: 0,
            goal: Goal::Marked,
            name: Vec::new(alloc),
            keys: Keys::new(alloc),
            part: Part::First,
            key: Vec::new(alloc),
            quote: 0,
            value: Vec::new(alloc),
            brackets: 0,
            in_value: false,
            number: 0,
            radix: 10,
            builder: Telling::new(alloc),
        }
    }

    /// Whether the document is over.
    pub(crate) fn is_over(&self) -> bool
        requires { Good self.now.place (view self.now) }
        ensures { MatchBool result ((t : TreeTerms) (says : List Mark) → Completes (view self.now) t [] says ↔ (says ≡ (view self.now).marks)) ((t : TreeTerms) (says : List Mark) → Completes (view self.now) t [] says → ⊥) }
    {
        matches!(self.place, Place::Epilog)
    }

    /// Tells a visitor what waits, where no tag is begun.
    pub(crate) fn hand_on<V: Visitor>(&mut self, visitor: &mut V) -> Result<(), Memory>
        ensures told { OnOk result (Relieved (view self.old) (view self.new) (V.had visitor.old visitor.new)) }
        ensures none { OnOk result (NoMarkWaits (view self.new)) }
    {
        self.builder.hand_on(visitor)
    }

    /// Whether enough waits to be told.
    pub(crate) fn is_full(&self) -> bool {
        self.builder.is_full()
    }

    /// Tells a visitor all that waits.
    pub(crate) fn hand_over<V: Visitor>(self, visitor: &mut V) -> Result<(), Memory>
        ensures { OnOk result (V.had visitor.old visitor.new (view self).marks) }
    {
        self.builder.hand_over(visitor)
    }

    /// Takes a byte.
    pub(crate) fn step(&mut self, b: u8) -> Result<(), StepFault>
        requires good { Good self.old.place (view self.old) }
        requires plain { IsPlainByte (view self.old) b }
        ensures follows { OnOk result (FollowsByte (view self.old).marks (RestsAt self.old.place (view self.old)) b (view self.new)) }
        ensures stuck { IsErrOf result StepFault.Refused → Stuck (RestsAt self.old.place (view self.old)) b }
    {
        match self.place {
            Place::Start => self.start(b),
            Place::Marked => self.marked(b),
            Place::FirstLess => self.first_less(b),
            Place::Prolog => self.prolog(b),
            Place::PrologLess => self.prolog_less(b),
            Place::FieldGap => self.field_gap(b),
            Place::FieldSpace => self.field_space(b),
            Place::FieldEquals => self.equals(b, Place::FieldQuote),
            Place::FieldQuote => self.quote(b, Place::FieldValue),
            Place::FieldValue => self.field_value(b),
            Place::Word => self.word(b),
            Place::TagName => self.tag_name(b),
            Place::TagAfter => self.tag_after(b),
            Place::TagSpace => self.tag_space(b),
            Place::Key => self.key(b),
            Place::KeyEquals => self.equals(b, Place::KeyQuote),
            Place::KeyQuote => self.quote(b, Place::Value),
            Place::Value => self.value(b),
            Place::Content => self.content(b),
            Place::ContentLess => self.content_less(b),
            Place::EndSpace => self.end_space(b),
            Place::Ampersand => self.ampersand(b),
            Place::AmpersandA => self.ampersand_a(b),
            Place::Hash => self.hash(b),
            Place::NoDigit => self.digit(b),
            Place::Digit => self.number(b),
            Place::Epilog => self.epilog(b),
            Place::EpilogLess => self.epilog_less(b),
            Place::Bang => self.bang(b),
            Place::Comment => self.comment(b),
            Place::CommentDash => self.comment_dash(b),
            Place::Section => self.section(b),
            Place::FirstQuestion => self.question(b, Place::FirstName),
            Place::FirstName => self.first_name(b),
            Place::Question => self.question(b, Place::PiName),
            Place::PiName => self.pi_name(b),
            Place::PiText => self.pi_text(b),
            Place::PiMark => self.pi_mark(b),
        }
    }

    /// Whether an element that is too deep begins with this byte.
    pub(crate) fn is_deep(&self, b: u8) -> bool
        ensures { IsTrue result ↔ IsDeep (view self.now) b }
    {
        if self.place != Place::ContentLess {
            return false;
        }
        if self.names.len() < DEPTH {
            return false;
        }
        is_name_start(b)
    }

    /// Whether the declaration's encoding ends with this byte, and isn't one that is read.
    pub(crate) fn is_other(&self, b: u8) -> bool
        ensures { IsTrue result ↔ IsOther (view self.now) b }
    {
        if self.place != Place::FieldValue {
            return false;
        }
        if self.field != Field::Encoding {
            return false;
        }
        if b != self.quote {
            return false;
        }
        if !is_encoding(self.value.as_slice()) {
            return false;
        }
        !is_utf8_name(self.value.as_slice())
    }

    /// Whether a document type begins, of which this byte is the `D`.
    pub(crate) fn is_doctype(&self, b: u8) -> bool
        ensures { IsTrue result ↔ IsDoctype (view self.now) b }
    {
        if self.place != Place::Bang {
            return false;
        }
        if self.round != Round::Prolog {
            return false;
        }
        b == b'D'
    }

    /// Goes on with a fixed text.
    fn expect(&mut self, word: &[u8], goal: Goal) -> Result<(), AllocError>
        ensures { OnOk result (view self.new ≡ record (view self.old) { place = Place.Word; left = word.now; goal = goal }) }
    {
        refill(&mut self.word, word)?;
        self.await_word(goal);
        Ok(())
    }

    /// Goes on with the fixed text that was set, from its start.
    fn await_word(&mut self, goal: Goal)
        ensures { view self.new ≡ record (view self.old) { place = Place.Word; left = self.old.word.items; goal = goal } }
    {
        self.matched = 0;
        self.goal = goal;
        self.place = Place::Word;
    }

    fn word(&mut self, b: u8) -> Result<(), StepFault>
        requires place { self.old.place ≡ Place.Word }
        requires good { Good Place.Word (view self.old) }
        ensures follows { OnOk result (FollowsByte (view self.old).marks (RestsAt Place.Word (view self.old)) b (view self.new)) }
        ensures stuck { IsErrOf result StepFault.Refused → Stuck (RestsAt Place.Word (view self.old)) b }
    {
        if self.matched >= self.word.len() {
            return Err(StepFault::Refused);
        }
        if self.word[self.matched] != b {
            return Err(StepFault::Refused);
        }
        self.matched += 1;
        if self.matched < self.word.len() {
            return Ok(());
        }
        self.reach()?;
        Ok(())
    }

    /// The fixed text is whole.
    fn reach(&mut self) -> Result<(), AllocError>
        requires { GoodGoal self.old.goal (view self.old) }
        ensures { OnOk result (ReachesState (view self.old).marks (ReachesGoal self.old.goal (view self.old)) (view self.new)) }
    {
        match self.goal {
            Goal::Marked => self.place = Place::Marked,
            Goal::Field => self.place = Place::FieldEquals,
            Goal::Prolog => self.place = Place::Prolog,
            Goal::EmptyTag => return self.empty_tag(),
            Goal::EndName => self.place = Place::EndSpace,
            Goal::Comment => self.place = Place::Comment,
            Goal::Section => {
                self.brackets = 0;
                self.place = Place::Section;
            }
            Goal::Around => self.around(),
            Goal::Entity => return self.emit(),
        }
        Ok(())
    }
}
