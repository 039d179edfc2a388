//! The job table: what each move of it answers, and what it leaves.
//!
//! A job gets a number, is sent its texts, waits until somebody claims it, runs, and is finished with a document; or it is
//! entered with its texts and runs at once. Whoever runs it looks whether it is asked to stop. A kill of a job that doesn't run
//! yet ends it, of one that runs asks it to stop, of one that is over gives up its record. [`Table`] has one method for each of
//! these, as the calls of Optimization Services ask for (Optimization Services manual, the calls `getJobID`, `send`, `solve`,
//! `kill`, `retrieve` and `knock`), and [`moves`] has each as a value with its own type of answer. Contracts see the jobs in
//! order of issue, the number with which numbers begin, how many were given, and how many workers are enlisted; histories have
//! each move as a [`TableMove`] with its [`Reply`], and for each one row of `specs/Steps.antt` says what it answers and what it
//! leaves.
//!
//! A [`Job`] is what whoever runs one is given, [`Phase`] how far one has come, with what the table keeps of it, and
//! [`State`] without that. A document of a job is right where [`Verdicts`] says so, and a finish asks for one that is.
//! [`Mover`] is who makes moves: a table's owner, or one of many who share it; [`MoverWatch`] asks them whether a job is to
//! stop. [`write_id`] and [`read_id`] know the texts that name jobs. What holds of every history of moves is said by four
//! laws, [`given_jobs_run`], [`numbers_are_given_once`], [`first_finish_is_kept`] and [`documents_are_right`].
//!
//! [`Table::plan`] tells what a move would change, as an effect that can be kept (`effects`); what that leads to is what the move
//! leaves ([`plans_are_so`]). A move may be made once its effect is stored (`make_kept` of [`moves::Move`]). [`Remade`] makes such
//! effects again, and gives the table that goes on from them.
//!
//! Only `knock` goes over the jobs, and at times the giving of a number, which lets the places of jobs that were given up go once
//! they are more than half. Room for a job's record and for its place among those that wait is taken where its number is
//! given, and texts have two owners from the start ([`Twin`]), so that `send`, `claim`, `look`, `finish` and `kill` take no memory.
#![tactic(auto)]

mod entries;
mod ids;
mod job;
mod jobs;
mod laws;
mod mover;
pub mod moves;
mod phases;
mod plans;
mod remade;
mod table;
mod texts;
mod waiting;
mod watch;

pub use entries::{
    Finishing, IssueFault, Killing, NumberedStates, Reply, Retrieved, Statistics, TableMove,
    Verdicts,
};
pub use ids::{read_id, write_id};
pub use job::{Job, Phase, State};
pub use laws::{documents_are_right, first_finish_is_kept, given_jobs_run, numbers_are_given_once};
pub use mover::Mover;
pub use plans::plans_are_so;
pub use remade::Remade;
pub use table::Table;
pub use texts::{SharedText, Twin};
pub use watch::MoverWatch;
