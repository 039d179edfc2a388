//! Options documents (Optimization Services option language, in this project's profile): what a job asks for beside its
//! instance.
//!
//! [`decode`] gives the [`Options`] that a document says, or why it says none ([`OsolFault`]): the [`Refusal`] of the first tag
//! at which something is wrong, with the ordinal of its element. [`encode`] writes options as a document, and [`comes_back`]
//! says that those options are read from it, if they can come back (`specs/Back.antt`), as options that were read can
//! ([`read_options_come_back`]). [`refusal_text`] says in words why a document is refused.
//!
//! The grammar is a table, `specs/Table.antt`: what may stand in what, the test that each kind of mark (a start tag, a
//! character, an end tag) has to pass, and what it leaves. A reader goes from mark to mark and holds no tree.
#![tactic(auto)]

mod amounts;
mod fault;
mod gaps;
mod laws;
mod limit;
mod options;
mod parse_state;
mod place;
mod reading;
mod texts;
mod times;
mod values;
mod writing;

pub use fault::{OsolFault, Refusal};
pub use gaps::Gap;
pub use laws::{
    comes_back, document_has_one_refusal, document_says_one, options_are_not_refused,
    options_have_names, read_options_come_back,
};
pub use options::Options;
pub use reading::decode;
pub use texts::refusal_text;
pub use times::whole_seconds;
pub use values::Values;
pub use writing::encode;
