//! Why a search was stopped, told by what wraps its watch.
//!
//! A search needs to know whether to stop, and nothing in it depends on why: a look at its [`Watch`](os_io::Watch) answers yes or no. So
//! a reason stays behind the look. [`Until`] is a watch around another one: it asks that one first, and where that one goes on it asks a
//! [`Deadline`]. Each look has its answer from one of the two ([`Reason`], `CameUntil`), and how often it was the time is counted, so that
//! whoever wrapped the watch can say behind the search why it ended. Without a limit the time stops nothing. What a clock tells is in no
//! clause.
//!
//! [`Told`] is a watch around another one that tells whoever waits how the search stands: a line each time that a time is over.
#![tactic(auto)]

mod told;
mod until;

pub use told::Told;
pub use until::{Deadline, Reason, Until};
