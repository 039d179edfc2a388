//! Runs of the simplex method for linear programs with bounded columns, in exact fractions.
//!
//! [`Work::run`] solves one linear program: an instance with what [`Cuts`] say beside it, as a node of a search has them: the
//! [`Ends`] of its variables, rows beside its own ([`Added`]), and which of its goals is asked. It goes from the first basis, in
//! which the rows are basic, by Bland's rule of least indices in both phases (Bland, New finite pivoting rules for the simplex
//! method, 1977), with flips of bounded columns (Chvátal, Linear Programming, 1983, chapters 3 and 8), to an [`LpEnd`]. What a run
//! is stands in `simplex_rules` as definitions that read the one dictionary of each basis. The contract says that the answer is the end of that run, for each program that has
//! these ends: the point, the multipliers and the direction are the run's, `done` of [`Turns`] rises by its turns, and the
//! looks of the watch are its looks. By the laws there a run has one end, and what the end says is true of the program, so
//! an answer that decides nothing names its true cause: the limit of turns, the first step at which a number doesn't fit,
//! or the look that said to stop.
//!
//! A moment of a run is a list of statuses, one for each column, beside the dictionary of the basis. A turn is chosen before
//! anything changes (`choosing`), then made, counted and maybe looked at (`turning`). Each turn forms those values of columns anew
//! that the last one changed, looks at the columns that are basic, a set of bits, and at one row, and pivots rows in place.
//! [`Work`] is the state of a run: what holds of it between turns is one predicate, and what turns change one relation.
//!
//! A run that ends at a best point leaves its last basis: [`Work::entry_at`] and [`Work::side_at`] (a [`Side`]) read it.
//!
//! Only [`Work::for_size`], [`Cuts::of`] and [`Cuts::add`] take memory; a run waits only where its watch does, and it ends, since turns are
//! limited.
#![tactic(auto)]

mod answer;
mod beginning;
mod bounding;
mod choosing;
mod cuts;
mod ends;
mod finish;
mod going;
mod helping;
mod keeping;
mod laws;
mod limits;
mod loading;
mod opening;
mod reporting;
mod turning;
mod valued;
mod work;

pub use answer::{LpEnd, Side, Turns};
pub use cuts::{Added, Cuts};
pub use ends::Ends;
pub use laws::first_values_are_listed;
pub use work::Work;
