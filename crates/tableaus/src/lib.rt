//! Programs as texts, the exchanges of their dictionaries' columns, and what the dictionaries then say: for the programs that
//! try dictionaries, runs and searches, and time them.
//!
//! Rows are parted by `;`, their entries by spaces, each `COLUMN:VALUE`; costs by spaces; exchanges by `;`, each the basic
//! column that leaves and the one that enters ([`Exchange`]). Ends of rows and variables are parted by `;` too, and so are goals, each
//! `min` or `max` and a constant, with their costs.
#![tactic(auto)]

mod programs;
mod reading;
mod telling;
mod turning;

pub use programs::{read_counts, read_program, read_var};
pub use reading::{Exchange, read_column, read_exchanges, read_factor, read_numbers, read_tableau};
pub use telling::put_count;
pub use turning::{tell_goal, tell_turned, tell_values};
