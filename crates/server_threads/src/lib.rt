//! A server of links, in threads.
//!
//! [`serve_loop`] accepts links and has each served in a thread of its own, by moves of a seat of its own of one desk, beside
//! workers that run the jobs of the desk's table. All links that came are given back, perhaps in another order, and of each a
//! conversation is known: between what the link told when it came and when it was given back stand the moves of one seat, whose
//! number no other link has. The desk's first seat then has met these seats and those of the workers, and knows their moves.
//!
//! Who has the conversation is handed in, as a [`Service`]: it serves an [`OpenLink`], which only a link that is open can become, and
//! gives it back. How much is served is said by [`ServeLimits`], and why serving ended before all links were served by a [`ServeFault`].
//!
//! Threads of links stand in a scope inside that of the workers, each in one of so many places. The one whose conversation is over
//! first makes room first: as its last act a thread says which place it leaves, and is joined before the next link is taken, so that
//! no link waits for an older one that still talks. Each closes its link ([`os_io::Close`]) when the conversation is over, so that no
//! peer waits for the threads of others. That threads run side by side is said by no contract.
//!
//! The way of a link: [`serve_loop`] opens the scope of the workers and `serve_beside` that of the links, `take_links` takes one link
//! after another, and `serve_link` serves each in a thread: the one place where a link is served.
#![tactic(auto)]

mod links;
mod means;
mod places;
mod promise;
mod serve;
mod staff;

pub use link_service::Service;
pub use means::{ServeFault, ServeLimits};
pub use open_links::OpenLink;
pub use serve::serve_loop;
