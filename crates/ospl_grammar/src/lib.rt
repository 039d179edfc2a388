//! Process documents (Optimization Services process language, in this project's profile): what a client asks of the
//! service's jobs, and how far they have come.
//!
//! [`decode`] gives the [`Process`] that a document says, or why it says none ([`OsplFault`]). [`JobStates`] are the jobs that
//! statistics tell, each a [`StatedJob`] with its [`JobState`]. [`encode`] writes a process as a document, and [`comes_back`]
//! says that this process is read from it, if it can come back (`specs/Back.antt`). [`refusal_text`] says in words why a
//! document is refused.
//!
//! The grammar is a table, `specs/Table.antt`: what may stand in what, and what each mark (a start tag, a character, an end
//! tag) leaves of what is asked, and of the parts of statistics. A reader goes from mark to mark and holds no tree.
#![tactic(auto)]

mod fault;
mod laws;
mod parse_state;
mod parts;
mod place;
mod process;
mod reading;
mod texts;
mod words;
mod writing;

pub use fault::OsplFault;
pub use laws::{
    comes_back, document_has_one_process, document_has_one_refusal, process_is_not_refused,
};
pub use process::{JobState, JobStates, Process, StatedJob};
pub use reading::decode;
pub use texts::refusal_text;
pub use writing::encode;
