//! What solves the jobs of a table, whoever makes its moves.
//!
//! [`Solver`] runs a job by [`solve_run::run_job`]: its looks and the document that comes of it are those of the search of the
//! job's instance under its options (`specs/Runs.antt`). [`SolvedJobs`] says which documents are right: those that answer the
//! job's texts. So what a table of such jobs shows is proved, in every history of its moves from an empty table on:
//! [`shown_documents_are_proved`] joins what the table says of its documents, which finish brought them and for which texts, with
//! what the solver says of its answers, which claims the checker accepts and which are true.
//!
//! [`open_jobs`] opens the journal of such a table (`job_journal`). Of the documents that it keeps those are accepted that claim
//! nothing, and those whose claims the checker accepts ([`DocumentSieve`]). [`compact_jobs`] writes it again. What moves put into it
//! opens again ([`puts_stay_sound`], [`right_documents_are_accepted`]).
//!
//! The rules are in `docs/rules/jobs.md` and `docs/rules/runs.md`.
#![tactic(auto)]

mod compacting;
mod laws;
mod opening;
mod sieve;
mod solver;

pub use compacting::compact_jobs;
pub use laws::{
    puts_stay_sound, right_documents_are_accepted, shown_documents_are_proved,
    shown_documents_are_proved_from_tables,
};
pub use opening::open_jobs;
pub use sieve::DocumentSieve;
pub use solver::{SolvedJobs, Solver};
