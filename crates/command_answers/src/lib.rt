//! What commands share: their statuses, a file that may be named, and how an answer is sent.
//!
//! [`read_named`] reads the first bytes of a file, one more than a document may have, or gives the empty text where none is
//! named. [`send_answer`] writes a [`StatusText`] and hands it on; the run's status is then the answer's, or says that a write failed.
//! [`send_number`] writes a line that ends with a number.
#![tactic(auto)]

mod answer;
mod lines;
mod named;
pub mod status;

pub use answer::{StatusText, send_answer};
pub use lines::send_number;
pub use named::{MOST_READ, read_named};
