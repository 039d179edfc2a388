//! Dictionaries of bases, with no code: what they are, and what holds of them.
//!
//! The columns of a program are its variables, then its rows' sums, and last its goal, which is one more row. Some of the
//! columns are basic: as many as there are rows with the goal. A dictionary has for each basic column its entries at the
//! others, such that the values of all columns that solve these equations are those that solve the rows (Chvátal, Linear
//! Programming, 1983, chapter 2). Everything is said by columns: entries stand for numbers in lowest terms and are 0
//! wherever a basis has none, so that a set of basic columns has one dictionary, and it is one function of two columns.
//!
//! Each function here is a law: its contract is the statement, and its body is empty.
#![tactic(auto)]

mod laws;

pub use laws::{
    bases_have_one_dictionary, dictionaries_have_forms, order_is_free, pivots_are_dictionaries,
    rows_are_a_dictionary,
};
