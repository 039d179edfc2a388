//! Tables of cases: what a call is given, and what it must answer, as data that a program goes through.
//!
//! A table is a text of lines. An empty line and one that begins with `#` say nothing. Any other is a case: what the
//! call is given, in one field or more, and what it must answer, with a tab between each two. In a field `\n`, `\r`,
//! `\t`, `\\` and `\x` with two hexadecimal digits stand for one byte, so a field can hold any bytes.
//!
//! [`Answers`] is what answers cases, and [`DocumentCases`] answers those for [`Documents`] of a kind, which are read and
//! written.
//!
//! [`try_table`] has each case of a table answered, writes a line for each whose answer is another and for each line that is
//! no case, and counts the cases; [`try_file`] does so for the table in a file. [`gather`] and [`compare`] go through a table
//! whose cases are answered together. [`Tables`] are the files of a program, which says last how many cases they had. The
//! other functions are what the answers of many tables need.
#![tactic(auto)]

mod documents;
mod escapes;
mod gathered;
mod shared;
mod table;
mod tables;

pub use documents::{DocumentCases, Documents};
pub use gathered::{compare, gather};
pub use shared::{bytes_of, count_left, number_of, repeated};
pub use table::{Answers, try_file, try_table};
pub use tables::Tables;
