//! The six calls of the Optimization Services from a client's side, over any link that is open (SOAP 1.1 over HTTP/1.1), and the
//! command `call`, which makes one.
//!
//! Each call writes one request, hands it on, and reads what comes. [`Text`](os_io::Text) or `bool` is what the call
//! returns; [`CallFault`] says why it returned nothing: a fault that the peer tells, another status, bytes that are no reply,
//! which are kept, or a read, a write or memory that failed. The bytes that came decide the answer, each exactly; what
//! came are those that a client reads (`http_link::read_response`). A call is lent its link as an [`OpenLink`](open_links::OpenLink),
//! which only a link that is open can become and which nobody can close who is lent it.
//!
//! [`make_call`] reads the files that its [`CallWords`] name, connects, makes the call over the link, gives the link back, and writes
//! what the bytes that came on it say: the text that the call returns, a line for a fault or another status of HTTP, or those bytes
//! where they are no reply. Its contract is one definition, `CallEnds`: each way to end has its status and its cause.
//!
//! Laws: bytes have one answer; what a server writes for a call is answered with the text that it returns, and is told as the server
//! meant it; and a status of HTTP is told with the digits that came.
#![tactic(auto)]

mod agent;
mod command;
mod fault;
mod laws;
mod parts;
mod reading;
mod telling;

pub use agent::{
    call, call_get_job_id, call_kill, call_knock, call_retrieve, call_send, call_solve,
};
pub use command::make_call;
pub use command_line::CallWords;
pub use fault::CallFault;
pub use laws::{
    bytes_have_one_answer, requests_are_calls, statuses_are_told_as_they_came,
    written_answers_are_heard, written_answers_are_told,
};
