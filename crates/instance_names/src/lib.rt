//! The names that the document of an instance gives its variables and rows (Optimization Services instance language).
//!
//! An instance in memory has no names: nothing that is solved or checked rests on them. [`read_names`] reads them off the
//! marks of the document as they come, for those who tell a result with names, and holds nothing but names;
//! [`names_are_of_characters`] says that they may be written.
#![tactic(auto)]

mod laws;
mod parse_state;
mod reading;

pub use laws::names_are_of_characters;
pub use reading::read_names;
