//! The search of an instance for a point that is best by its goals in their order.
//!
//! [`search`] asks one goal after the other, each of the points that reach the values of those before (lexicographic
//! optimisation): a level has one more row for each goal before it. On each level it runs the case at hand, divides it at the
//! least variable whose value isn't as it must be, and goes through the cases with an explicit stack, the lower case first (Land and
//! Doig, An automatic method of solving discrete programming problems, 1960; Beale, Branch and bound methods for mathematical
//! programming systems, 1979; Wolsey, Integer Programming, 1998, chapter 7). Of an instance with one goal rounding cuts are
//! derived before the first branch, as many as it is told (Gomory, Outline of an algorithm for integer solutions to linear programs,
//! 1958). Its claim, which a [`Searched`] has with the turns that were done, tells the outcome of the search that `search_rules`
//! states for the same limits, stopped by the first look that said to stop; what showed each level stands in the claim's
//! certificates. Want of memory ends the search with the best point so far, and is a cause like others. A case costs its simplex
//! run and as much as the variables and the columns; the branches above it cost room alone, but where a direction is met. [`search_from`] begins with a best point, as [`first_point`]
//! makes one of values that are given.
#![tactic(auto)]

mod along;
mod asking;
mod bounds;
mod carried;
mod claims;
mod cutting;
mod ended;
mod found;
mod gap;
mod level;
mod limits;
mod meeting;
mod open;
mod points;
mod rays;
mod relaxation;
mod rounds;
mod searching;
mod standing;
mod start;
mod state;
mod values;
mod visit;
mod walk;

pub use found::Found;
pub use gap::Gap;
pub use limits::Limits;
pub use searching::{Searched, search, search_from};
pub use start::first_point;
