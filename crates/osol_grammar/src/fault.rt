//! Why bytes say no options.

use doc_tree::TreeFault;
use std::alloc::AllocError;
use std::fmt;
use thiserror::Error;

/// What is wrong with an options document. At one tag the first of these is told.
#[derive(Clone, Copy, PartialEq, Eq, Debug, Drop, Error)]
pub enum Refusal {
    /// The root isn't `osol`.
    Root,
    /// There is a further `jobID`.
    JobTwice,
    /// There is a further `maxTime`.
    TimeTwice,
    /// The time has a unit that isn't a second, a minute or an hour.
    BadUnit,
    /// The time isn't a number from 0 on, or is past 2^63 - 1 seconds.
    BadTime,
    /// A first value's index is wanting, isn't a count, or is past the last variable that an instance may have.
    BadIndex,
    /// There is a further first value of this index.
    IndexTwice,
    /// A first value is wanting, or isn't a number that fits.
    BadValue,
    /// The value of a limit's option is wanting, isn't a count, or of the form one of its words, or isn't one that the limit may have.
    BadLimit,
    /// The gap is wanting, isn't a number that fits, or is below 0.
    BadGap,
    /// The job's name, without the white space round it, has more than 256 bytes.
    LongJob,
}

/// Why bytes say no options.
#[derive(Clone, Copy, PartialEq, Debug, Drop, Error)]
pub enum OsolFault {
    /// They are no document within the limits.
    Tree(TreeFault),
    /// They are a document that is refused. `at` is the ordinal of the element: the root is 1, each start tag counts.
    Refused { refusal: Refusal, at: u64 },
    /// There was no memory.
    Memory,
}

impl fmt::Display for Refusal {
    ghost use Rattle.std.specs.Prelude.{Some};
    ghost use Rattle.osol_grammar.specs.Texts.{refusal_name};

    ghost output = { λ r. Some (refusal_name r) };

    fn fmt<W: fmt::Write>(&self, f: &mut fmt::Formatter<W>) -> fmt::Result {
        match self {
            Refusal::Root => write!(f, "Root"),
            Refusal::JobTwice => write!(f, "JobTwice"),
            Refusal::TimeTwice => write!(f, "TimeTwice"),
            Refusal::BadUnit => write!(f, "BadUnit"),
            Refusal::BadTime => write!(f, "BadTime"),
            Refusal::BadIndex => write!(f, "BadIndex"),
            Refusal::IndexTwice => write!(f, "IndexTwice"),
            Refusal::BadValue => write!(f, "BadValue"),
            Refusal::BadLimit => write!(f, "BadLimit"),
            Refusal::BadGap => write!(f, "BadGap"),
            Refusal::LongJob => write!(f, "LongJob"),
        }
    }
}

impl fmt::Display for OsolFault {
    ghost use Rattle.std.specs.Prelude.{Some};
    ghost use Rattle.osol_grammar.specs.Texts.{fault_words};

    ghost output = { λ f. Some (fault_words f) };

    fn fmt<W: fmt::Write>(&self, f: &mut fmt::Formatter<W>) -> fmt::Result {
        match self {
            OsolFault::Tree(fault) => write!(f, "osol {fault}"),
            OsolFault::Refused { refusal, at } => write!(f, "osol {refusal} at {at}"),
            OsolFault::Memory => write!(f, "there was no memory"),
        }
    }
}

impl From<AllocError> for OsolFault {
    ghost from_gives = { λ _ e. e ≡ Memory };

    ghost use Rattle.std.specs.Prelude.{◌≡◌};
    ghost use Rattle.osol_grammar.specs.declared.fault.OsolFault.TheVariants.{Memory};

    fn from(_e: AllocError) -> OsolFault {
        OsolFault::Memory
    }
}
