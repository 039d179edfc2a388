//! Instances that are generated, one for each number of variables, and the line that says what is claimed of one.
//!
//! [`make`] makes the instance: groups of four variables from 0 to 3, those of the first group whole, with the costs 1,
//! 2, 3 and 4; a row for each group, in which twice the sum of its variables is at most 7; and the greatest sum of the
//! costs. It is valid ([`generated_is_valid`]). Its numbers have decimals and its text is short
//! ([`generated_is_encoded`]), so it has one unless there is no memory, which is that of no other instance
//! ([`generated_is_read_back`]). [`line_of`] says in a line what is claimed of it, and whether a checker accepts that.
#![tactic(auto)]

mod instances;
mod laws;
mod lines;

pub use instances::make;
pub use laws::{generated_is_encoded, generated_is_read_back, generated_is_valid};
pub use lines::line_of;
