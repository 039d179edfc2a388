//! Instances of linear and integer programs, and which points they allow.
//!
//! An [`Instance`] has variables ([`Var`]) and rows ([`Row`]), each between two ends, the entries of its matrix, and one to
//! eight goals in order ([`Goal`], each with [`Costs`] and a [`Sense`]). [`Instance::of`] makes one of its parts exactly where
//! they are valid, and its readers lend them again; contracts see the instance as these parts. What it means is a problem in
//! `evidence`'s sense: columns are the variables and then the rows, an infinite end asks nothing, a whole variable has whole
//! values (Chvátal, Linear Programming, 1983), one that may be 0 is 0 or between its ends (Beale, 1979), and a goal is asked
//! of the points that are best by those before it.
//!
//! [`Instance::feasible`], which answers [`Feas`], and [`Instance::objective_at`] are exact: each number is a fraction of
//! 128 bits, and the answer is `Wide` exactly where a stated sum doesn't fit. A sum goes from its start over its terms in
//! ascending order; a term with a factor 0 is left out. No call takes memory.
#![tactic(auto)]

mod checks;
mod constants;
mod ends;
mod feasible;
mod instance;
mod laws;
mod parts;
mod rows;
mod sums;

pub use checks::are_ends;
pub use constants::{one, zero};
pub use ends::is_between;
pub use feasible::Feas;
pub use instance::{Instance, MAX_ENTRIES, MAX_GOALS, MAX_ROWS, MAX_VARS};
pub use laws::{problems_have_numbers, programs_have_numbers};
pub use parts::{Costs, Goal, Row, Sense, Var};
pub use sums::{add_product, sum_entries, sum_products};
