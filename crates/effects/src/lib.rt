//! What moves of a table of jobs change, as records in a file, and what they leave, one after the other.
//!
//! An [`Effect`] is what one move changes: a number given, texts sent, a document kept; `Begin` says with which number numbers
//! begin. [`encode`] writes its record: a kind, and behind it numbers in 8 bytes and texts behind their lengths in 4, the highest
//! byte first. [`decode`] reads one, and answers none exactly where the bytes begin with no record whose texts have at most
//! 4,194,304 bytes. In a file each record stands behind a gate byte 1, and no file is cut into records in two ways
//! ([`records_are_cut_in_one_way`]).
//!
//! `specs/Fold.antt` says in which order effects are possible, and what they leave. [`Replay`] is what they are made in again, and
//! [`Store`] what keeps them, or says that one is [`NotStored`]; [`NoStore`] keeps none. [`MOST_JOBS`], [`LAST_NUMBER`] and
//! [`MOST_FIRST`] are the limits of a table.
#![tactic(auto)]

mod kinds;
mod laws;
mod limits;
mod reading;
mod replay;
mod store;
mod writing;

pub use kinds::{Document, Effect};
pub use laws::records_are_cut_in_one_way;
pub use limits::{LAST_NUMBER, MOST_FIRST, MOST_JOBS};
pub use reading::decode;
pub use replay::Replay;
pub use store::{NoStore, NotStored, Store};
pub use writing::{encode, size};
