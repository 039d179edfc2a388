//! Messages of HTTP/1.1 on a link, of a server and of a client: read from a source, written to a sink (RFC 9112).
//!
//! What is read is read from a source, a head byte by byte: a source whose reads cost much reads ahead itself.
//!
//! [`read_request_into`] takes one request and not a byte more. It says what its bytes were ([`Incoming`]): a [`Head`] that is
//! accepted with a body of its length, a head that is refused with the first [`Refusal`] in the order of the checks, or a cut. A
//! head has at most 16,384 bytes, the empty lines before it among them, and 64 field lines, a body at most 4,194,304 bytes. The
//! body goes in pieces of at most 4,096 bytes to a [`Body`](os_io::Body), and nobody holds it whole.
//!
//! Bytes begin with one request at most, and bytes that are cut or end between requests begin with none; laws say so.
//! So where no read fails and there is memory, the bytes alone decide what [`read_request_into`] answers. Where a read fails, it
//! has taken a first part of that request, and where there is no memory a first part of its head, or all of that, and not a byte
//! more ([`LinkFault`]).
//!
//! [`write_answer`], [`write_fault_answer`] and [`write_refusal`] write a response whole, or a first part of it where a
//! write fails, and [`write_request`] a client's request. They take no memory.
//!
//! [`read_response`] takes what a client reads of the bytes that come, and not a byte more: a head, and a body with 200 and
//! 500. It keeps those bytes, and says which [`Response`] they are, exactly where they are one ([`Came`]). The bytes that come
//! decide which of them are read; what is written here is read back.
#![tactic(auto)]

mod checks;
mod laws;
mod outgoing;
mod refusal;
mod replies;
mod requests;
mod responses;
mod scan;

pub use checks::Accepted;
pub use laws::{
    answers_are_read_back, begun_request_is_not_whole, bytes_are_one_reply,
    cut_input_holds_no_request, ended_input_holds_no_request, one_head_comes_first,
    one_reply_comes_first, one_request_comes_first, part_is_of_the_first_reply,
    part_is_of_the_first_request, pieces_are_their_bytes, refusals_are_read_back,
    requests_are_read_back, what_came_is_a_part,
};
pub use outgoing::write_request;
pub use refusal::Refusal;
pub use replies::{Came, Response, read_response};
pub use requests::{Head, Incoming, LinkFault, read_request_into};
pub use responses::{write_answer, write_fault_answer, write_refusal};
