//! The cases of a tree, one after the other, with an instance's variables cut in place.
//!
//! A tree of cases divides a whole variable's values (Land and Doig, 1960), or those of a variable that is 0 or between its
//! ends (Beale, 1979). A walk through it has one list of variables as the case at hand has them, and, for each [`Branch`]
//! above that case, what the branch's variable was before. [`is_branch`] says where one may be, [`enter`] goes to the first
//! case of a branch, [`back`] to the next second case that is still to come. Contracts see the cases that are still to come
//! as instances, whatever rows the instance at hand has: a branch puts two in place of one. A step costs the branches that it
//! goes back over, and takes no memory.
//!
//! `numbers` compares fractions, and turns values of the goal, as both a checker and a search do.
#![tactic(auto)]

mod cuts;
mod laws;
mod numbers;
mod path;

pub use cuts::{Cut, Division, is_branch, is_zero_branch, uncut};
pub use laws::cases_come_of_branches_above;
pub use numbers::{is_at_most, is_below, is_same, turned, whole};
pub use path::{Branch, back, enter};
