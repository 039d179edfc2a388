//! Why bytes say no process.

use doc_tree::TreeFault;
use std::alloc::AllocError;
use std::fmt;
use thiserror::Error;

/// Why bytes say no process. Where several stand together, the first of these is told.
#[derive(Clone, Copy, PartialEq, Debug, Drop, Error)]
pub enum OsplFault {
    /// They are no document within the limits.
    Tree(TreeFault),
    /// The root isn't `ospl`.
    Root,
    /// There is no request, and no statistics are whole.
    Missing,
    /// There was no memory.
    Memory,
}

impl fmt::Display for OsplFault {
    ghost use Rattle.std.specs.Prelude.{Some};
    ghost use Rattle.ospl_grammar.specs.Texts.{fault_words};

    ghost output = { λ f. Some (fault_words f) };

    fn fmt<W: fmt::Write>(&self, f: &mut fmt::Formatter<W>) -> fmt::Result {
        match self {
            OsplFault::Tree(fault) => write!(f, "ospl {fault}"),
            OsplFault::Root => write!(f, "ospl Root at {}", 1u64),
            OsplFault::Missing => write!(f, "ospl Missing at {}", 1u64),
            OsplFault::Memory => write!(f, "there was no memory"),
        }
    }
}

impl From<AllocError> for OsplFault {
    ghost from_gives = { λ _ e. e ≡ Memory };

    ghost use Rattle.std.specs.Prelude.{◌≡◌};
    ghost use Rattle.ospl_grammar.specs.declared.fault.OsplFault.TheVariants.{Memory};

    fn from(_e: AllocError) -> OsplFault {
        OsplFault::Memory
    }
}
