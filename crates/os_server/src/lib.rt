//! The server of the six calls of the Optimization Services: what is asked on a connection, and how it is answered.
//!
//! [`serve_one`] reads the requests of a link one after another, [`serve_ends`] those of an input, and [`turn_away`] answers where there is
//! no memory to begin. Their contracts say by `Serves` what one definition, `Talk`, is made of: the bytes read are requests and a last
//! part, the moves of the table of jobs that are made are those that the requests ask, in their order, and the bytes written are the
//! answers, each a function of its request and of the table's replies. Behind each answer that is 200 or 500 a claim is made, and a job
//! that it gives is run. Each way in which a conversation ends comes exactly where the definition says. No byte is read past a
//! conversation, and where a read fails, each whole request that was read was answered: what a link reads ahead is its own business.
//! A request's body is read as a call while it comes, and its bytes aren't held beside what is read of it.
//! Without a fault, and with memory, the bytes that come decide how they are cut into requests, and with the table's replies they
//! decide the bytes written; laws say so.
//! Whoever makes the moves may be a table's owner or one of many who share it, and whatever runs the jobs is a [`Server`].
//! [`Conversations`] has the conversation on each of many links, as a [`link_service::Service`].
//! [`Served`] is how a conversation ended, [`Order`] what a request asks, and [`ReplyEnvelope`] the envelope that answers it; where that is a
//! fault, a [`FaultCode`] is its code.
//!
//! The rules are in `docs/rules/conversations.md`.
#![tactic(auto)]

mod asking;
mod conversations;
mod doing;
mod fault;
mod laws;
mod order;
mod processes;
mod reply;
mod results;
mod saying;
mod serve;
mod server;

pub use conversations::Conversations;
pub use fault::FaultCode;
pub use laws::{
    bytes_and_replies_decide_the_answers, bytes_are_cut_one_way, conversations_are_kept,
};
pub use order::Order;
pub use saying::ReplyEnvelope;
pub use serve::{Served, serve_ends, serve_one, turn_away};
pub use server::Server;
