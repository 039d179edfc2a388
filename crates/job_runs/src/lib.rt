//! Runs of jobs of the table, whoever makes the moves and whatever runs a job.
//!
//! [`work_one`] claims a job that waits, runs it and finishes it; [`solve`] enters one, runs it, finishes it and retrieves it.
//! Either says of the moves that it made that they are these and no others: between the move that gave the job and its finish
//! stand the looks of its run alone, the document is right for the job's texts, and the finish says that the job was asked to
//! stop exactly where the last of these looks did. [`run_given`] runs and finishes a job that a move has given.
//!
//! What runs a job is a [`Runner`], which looks at a watch that it is given and makes no move itself. What makes the moves is
//! anyone who may (`job_table::Mover`).
//!
//! In every history each such finish is kept, where its effect is stored ([`finishes_are_kept`]).
#![tactic(auto)]

mod laws;
mod runner;
mod solving;
mod work;

pub use laws::finishes_are_kept;
pub use runner::Runner;
pub use solving::solve;
pub use work::{run_given, work_one};
