//! Whether a claim about an instance is shown by what it carries.
//!
//! [`check`] reads a claim beside its instance and trusts nobody who made it. Its answer is `Ok` exactly where
//! `evidence` accepts the claim, whose law says that what is accepted is true; else it is the first of the reasons for
//! which the claim is [`Refused`], in the order in which `specs` states the checks: the point, its values, the rounds, how
//! many certificates there are, and then level by level the tree of cases, node by node, or the direction. Each number
//! is a fraction of 128 bits, and a sum that doesn't fit is a reason too.
//!
//! A round and a goal that is reached are each one more row of the program at hand, which has the
//! instance's rows and then those that were added; all else goes over its rows, whichever they are. [`Added`] is such a row and
//! [`put`] makes one; [`round_sum`] and [`ceiling`] give its lower end to whoever derives rounds; [`shown_number`] is what multipliers
//! show of a case. The tree is walked
//! in a loop: the cuts of the case at hand are kept beside what they replaced, and undone on the way back. The walk has one list of
//! columns, the rows behind the variables, and cuts either in one way; a row may be split where its sum is whole. All of it stands in
//! room that [`Scratch`] has from before. A leaf costs time in proportion to the variables and to the coefficients of
//! the rows that its multipliers name. `check` takes no memory.
//!
//! Both are in memory here, and no document is read: `document_checker` does that.
#![tactic(auto)]

mod added;
mod at_hand;
mod certs;
mod checking;
mod clash;
mod columns;
mod forms;
mod grids;
mod laws;
mod leaf;
mod levels;
mod pairs;
mod point;
mod ray;
mod refused;
mod rounds;
mod row_leaves;
mod row_rounds;
mod scratch;
mod shown;
mod slots;
mod sums;
mod walk;
mod whole_rows;

pub use added::put;
pub use at_hand::Added;
pub use checking::check;
pub use laws::{
    claims_have_one_refusal, refused_is_not_accepted, shown_is_refused_for_width_alone,
};
pub use refused::{Refused, Unshown};
pub use rounds::{ceiling, round_sum};
pub use scratch::Scratch;
pub use shown::shown_number;
