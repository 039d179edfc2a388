//! Workers: who runs the jobs of a desk's table beside its other movers.
//!
//! [`work_one_by_seat`] claims one job that waits, runs it and finishes it, by moves of one seat; [`work_loop`] does so until there is
//! nothing to wait for. Each says of the seat's moves that they are these and no others (`Works` of `job_runs`, `WorksThrough`).
//! A worker sleeps between jobs: [`wake_pair`] makes the two ends of a channel of empty tokens, [`Wake`] rings and [`WakeSignals`]
//! waits. A token tells nothing; that it comes, and when, is said by no contract. Whether one was sent is known by the answer of a
//! ring alone ([`Bell`]).
//!
//! [`work_closing_shift`] is the shift of whoever closes the desk, who doesn't sleep: behind it no job waits.
//!
//! [`DeskWatch`] is what a run looks at: it asks the desk whether its job is to stop, and a [`Gate`] is passed before each look.
//! A [`Gated`] mover has such a gate before its looks, and an [`OpenGate`] holds nobody.
#![tactic(auto)]

mod closing_shift;
mod gate;
mod wake;
mod work;

pub use closing_shift::work_closing_shift;
pub use gate::{DeskWatch, Gate, Gated, OpenGate};
pub use wake::{Bell, Wake, WakeSignals, wake_pair};
pub use work::{work_loop, work_one_by_seat};
