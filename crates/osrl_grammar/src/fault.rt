//! Why bytes are no report.

use doc_tree::TreeFault;
use std::fmt;
use thiserror::Error;

/// Why bytes are no report. Where several stand together, `Root` comes first, then the first item with a fault, of whose
/// faults `Item` comes first and `Wide` last, then `Count`, then `Missing`. Items are those of a certificate's parts,
/// counted from 1 over the whole document in its order.
#[derive(Clone, Copy, PartialEq, Debug, Drop, Error)]
pub enum OsrlFault {
    /// They are no document within the limits.
    Tree(TreeFault),
    /// The root isn't `osrl`.
    Root,
    /// There is no general status, no job status of the six, a solution without a status of the five, or without a part
    /// that its status needs.
    Missing,
    /// The n-th item isn't of its shape, or begins a level out of order, or is of a tree and has the word of a level before
    /// its first space where the solution's status is `infeasible`.
    Item { n: u64 },
    /// There are two solutions, or two parts of one name, or a part has more or fewer items than it may have.
    Count,
    /// A number of the n-th item isn't one.
    Number { n: u64 },
    /// A number of the n-th item is too great.
    Wide { n: u64 },
    /// There was no memory.
    Memory,
}

impl fmt::Display for OsrlFault {
    ghost use Rattle.std.specs.Prelude.{Some};
    ghost use Rattle.osrl_grammar.specs.Texts.{fault_words};

    ghost output = { λ f. Some (fault_words f) };

    fn fmt<W: fmt::Write>(&self, f: &mut fmt::Formatter<W>) -> fmt::Result {
        match self {
            OsrlFault::Tree(fault) => write!(f, "osrl {fault}"),
            OsrlFault::Root => write!(f, "osrl Root at {}", 1u64),
            OsrlFault::Missing => write!(f, "osrl Missing at {}", 1u64),
            OsrlFault::Item { n } => write!(f, "osrl Item at {n}"),
            OsrlFault::Count => write!(f, "osrl Count at {}", 1u64),
            OsrlFault::Number { n } => write!(f, "osrl Number at {n}"),
            OsrlFault::Wide { n } => write!(f, "osrl Wide at {n}"),
            OsrlFault::Memory => write!(f, "there was no memory"),
        }
    }
}
