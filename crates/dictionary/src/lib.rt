//! The dictionary of a basis in memory, in exact fractions: what the simplex method reads and turns.
//!
//! A linear program's columns are its variables, its rows' sums, and its goal, which is one more row. [`Dict::load`] makes
//! the dictionary in which the rows are basic, [`Dict::set_row`] gives one of them other entries, and [`Dict::pivot`] exchanges a
//! basic column for another one (Chvátal, Linear Programming, 1983, chapter 2). Contracts speak of columns alone: `basic_of` says
//! which are basic, and `entry_of` each entry; what a dictionary is, and that a basis has one, is said in `bases`. A loaded
//! dictionary is that of its basis for the rows that were loaded, goal included (`Holds`).
//!
//! Each number is a fraction of 128 bits, and an answer is `Wide` exactly where one of the stated products, quotients and
//! sums doesn't fit. Only [`Dict::with_size`] and [`Places::with_size`] take memory: each row has a number for each column, for
//! its common form, and room for as many fractions as there are variables; the columns with an entry are marked.
//!
//! [`Steps`] counts the entries of rows that are read and written. It takes no bytes and does nothing at run time.
#![tactic(auto)]

mod basis;
mod changing;
mod dict;
mod finding;
mod fractions;
mod laws;
mod loading;
mod numbers;
mod pivoting;
mod places;
mod replacing;
mod row;
mod scratch;
mod settling;
mod solving;
mod steps;
mod value;

pub use dict::Dict;
pub use laws::{dictionaries_of_equal_rows, first_dictionaries_are_loaded, orders_go_through};
pub use places::Places;
pub use steps::Steps;
