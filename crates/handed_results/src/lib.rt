//! The result that options hand in (Optimization Services option language, the element `other`).
//!
//! Whoever asks for a job may have a result of its instance already, from whatever solver. It stands in the options' document, as
//! the text of an element `general/otherOptions/other` whose attribute `name` is `os_cert.result`. [`read_handed`] reads it off
//! the marks of the document as they come, and holds nothing else of it; [`options_hand_in_one`] says that a text of options
//! hands in one thing, and [`written_options_hand_in_nothing`] that options in memory have no result. Whether a result is right
//! is for others to say.
#![tactic(auto)]

mod handed;
mod laws;
mod parse_state;
mod reading;

pub use handed::Handed;
pub use laws::{options_hand_in_one, written_options_hand_in_nothing};
pub use reading::read_handed;
