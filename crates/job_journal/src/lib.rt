//! A journal of what moves of a table of jobs change: each effect is on the disk before it is acknowledged.
//!
//! The file is records, each behind an open gate 1, and then a gate that isn't 1. [`Journal::put`] writes a record with a closed
//! gate behind it, syncs, opens the gate before it, and syncs. [`open_journal`] reads the records of a file that a crash may have left,
//! makes their effects again, and cuts what follows the first gate that isn't 1. It holds 32 MB of the file at most.
//!
//! After a crash at any moment, within a call too, the file stands for the effects that were put, in order and none in part: all
//! that were acknowledged, and at most one more ([`Journal::put`]; where [`Journal::put_each`] puts several, a crash before it answers
//! leaves a first part of these). [`open_journal`] makes the table of exactly these, and a crash while it opens leaves a file that stands for them too. It answers that a file is damaged only where
//! it is, and never of one that stands for effects that are possible and accepted. So it is for every [`Disk`](disks::Disk) that
//! tells what it holds, every [`Replay`](effects::Replay) and every [`Sieve`]. A journal is a [`Store`](effects::Store), whose word for
//! these effects is that it keeps them. [`OpenFault`] is why a file wasn't opened, and [`NotStored`] why an effect wasn't stored.
//!
//! [`compact`] writes a journal again, as a new one that gives the same table, without what jobs had that are gone.
#![tactic(auto)]

mod ahead;
mod compacting;
mod contents;
mod draft;
mod faults;
mod journal;
mod opening;
mod pieces;
mod repairs;
mod scanning;
mod stored;

pub use compacting::compact;
pub use effects::NotStored;
pub use faults::CompactFault;
pub use journal::Journal;
pub use opening::open_journal;
pub use scanning::{OpenFault, Sieve};
