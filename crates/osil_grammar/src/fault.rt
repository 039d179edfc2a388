//! Why a document is no instance, and why an instance has no text.

use bstr::BStr;
use doc_tree::TreeFault;
use os_io::{Memory, Text};
use std::alloc::{AllocError, AllocFailed};
use std::fmt;
use thiserror::Error;

/// What is wrong with an OSiL document. At one tag the first of these is told.
#[derive(Debug, Drop, Error)]
pub enum Refusal {
    /// The root isn't `osil`.
    Root,
    /// An element ends without one that must stand in it.
    Missing,
    /// An element that may not stand there, or a further part of `instanceData` in which an element stands. `name` is
    /// the beginning of its name, at most 64 bytes.
    Beyond { name: Text },
    /// An attribute is wanting, may not stand there, or has a value that isn't among those it may have.
    Attribute { name: &'static [u8] },
    /// An attribute or a text isn't of its grammar, or a `mult` is 0.
    Number,
    /// A number, or a stated sum of numbers, is too great.
    Wide,
    /// A count attribute isn't the number of its items, or there are not as many indices as values.
    Count,
    /// An index is out of range.
    Index,
    /// The starts don't divide the values into the rows or columns.
    Start,
    /// A variable's type is none of `C`, `B`, `I`, `D` and `J`.
    VarType,
    /// A lower end is infinity, or an upper one minus infinity.
    Bound,
    /// There are more than eight objectives.
    ManyObjectives,
    /// There are more variables, rows, starts, indices or values than there may be.
    TooBig,
}

/// Why bytes are no instance.
#[derive(Debug, Drop, Error)]
pub enum OsilFault {
    /// They are no document within the limits.
    Tree(TreeFault),
    /// They are a document that is refused. `at` is the ordinal of the element: the root is 1, each start tag counts.
    Refused { refusal: Refusal, at: u64 },
    /// There was no memory.
    Memory,
}

/// Why an instance has no text.
#[derive(Clone, Copy, PartialEq, Eq, Debug, Drop, Error)]
pub enum EncodeFault {
    /// A number of it has no decimal.
    #[error("a number has no decimal")]
    NotDecimal,
    /// Its text is longer than a document may be.
    #[error("the text is too long")]
    Long,
    /// There was no memory.
    #[error("there was no memory")]
    Memory,
}

impl fmt::Display for Refusal {
    ghost use Rattle.std.specs.Prelude.{Some};
    ghost use Rattle.osil_grammar.specs.Texts.{refusal_name};
    ghost use Rattle.osil_grammar.specs.Reading.{told_refusal};

    ghost output = { λ r. Some (refusal_name (told_refusal r)) };

    fn fmt<W: fmt::Write>(&self, f: &mut fmt::Formatter<W>) -> fmt::Result {
        match self {
            Refusal::Root => write!(f, "Root"),
            Refusal::Missing => write!(f, "Missing"),
            Refusal::Beyond { .. } => write!(f, "Beyond"),
            Refusal::Attribute { .. } => write!(f, "Attribute"),
            Refusal::Number => write!(f, "Number"),
            Refusal::Wide => write!(f, "Wide"),
            Refusal::Count => write!(f, "Count"),
            Refusal::Index => write!(f, "Index"),
            Refusal::Start => write!(f, "Start"),
            Refusal::VarType => write!(f, "VarType"),
            Refusal::Bound => write!(f, "Bound"),
            Refusal::ManyObjectives => write!(f, "ManyObjectives"),
            Refusal::TooBig => write!(f, "TooBig"),
        }
    }
}

/// A refusal and the ordinal of its element, without the name that it tells.
#[derive(Clone, Copy, Drop)]
pub(crate) struct Place<'a> {
    pub(crate) refusal: &'a Refusal,
    pub(crate) at: u64,
}

impl<'a> fmt::Display for Place<'a> {
    ghost use Rattle.std.specs.Prelude.{Some, codes};
    ghost use Rattle.document_tags.specs.Faults.{refusal_at};
    ghost use Rattle.osil_grammar.specs.Texts.{refusal_name};
    ghost use Rattle.osil_grammar.specs.Reading.{told_refusal};

    ghost output = { λ p. Some (refusal_at (codes "osil") (refusal_name (told_refusal p.refusal.now)) p.at) };

    fn fmt<W: fmt::Write>(&self, f: &mut fmt::Formatter<W>) -> fmt::Result {
        write!(f, "osil {} at {}", self.refusal, self.at)
    }
}

impl fmt::Display for OsilFault {
    ghost use Rattle.std.specs.Prelude.{Some};
    ghost use Rattle.osil_grammar.specs.Reading.{fault_words};

    ghost output = { λ f. Some (fault_words f) };

    // Of a name, bytes that are no text are written as U+FFFD.
    fn fmt<W: fmt::Write>(&self, f: &mut fmt::Formatter<W>) -> fmt::Result {
        match self {
            OsilFault::Tree(fault) => write!(f, "osil {fault}"),
            OsilFault::Refused { refusal, at } => {
                let place = Place { refusal, at: *at };
                match refusal {
                    Refusal::Beyond { name } => write!(f, "{place} {name}"),
                    Refusal::Attribute { name } => write!(f, "{place} {}", BStr::new(*name)),
                    _ => write!(f, "{place}"),
                }
            }
            OsilFault::Memory => write!(f, "there was no memory"),
        }
    }
}

impl From<AllocError> for OsilFault {
    ghost from_gives = { λ _ e. e ≡ Memory };

    ghost use Rattle.std.specs.Prelude.{◌≡◌};
    ghost use Rattle.osil_grammar.specs.declared.fault.OsilFault.TheVariants.{Memory};

    fn from(_e: AllocError) -> OsilFault {
        OsilFault::Memory
    }
}

impl<T: Drop> From<AllocFailed<T>> for OsilFault {
    ghost from_gives = { λ _ e. e ≡ Memory };

    ghost use Rattle.std.specs.Prelude.{◌≡◌};
    ghost use Rattle.osil_grammar.specs.declared.fault.OsilFault.TheVariants.{Memory};

    fn from(_e: AllocFailed<T>) -> OsilFault {
        OsilFault::Memory
    }
}

impl From<AllocError> for EncodeFault {
    ghost from_gives = { λ _ e. e ≡ Memory };

    ghost use Rattle.std.specs.Prelude.{◌≡◌};
    ghost use Rattle.osil_grammar.specs.declared.fault.EncodeFault.TheVariants.{Memory};

    fn from(_e: AllocError) -> EncodeFault {
        EncodeFault::Memory
    }
}
