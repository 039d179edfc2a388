//! The ends in memory: forms of the outside that tell all, and fail where they are told to.
//!
//! A [`MemSource`] gives the bytes that it was made of, a [`MemSink`] keeps those that are written, and a [`MemLink`] does both.
//! [`MemFiles`] are files that were put there, a [`MemListener`] gives links that were added, and a [`MemWatch`] is asked whether to
//! stop. An [`UnreadClock`] can't be read.
//!
//! Each counts its calls from 1, and the calls of given numbers fail, or say to stop. What has a room of a fixed size fails where it
//! is full. So whoever goes through cases can have each call fail once, and see all that was written.
#![tactic(auto)]

mod mem_files;
mod mem_link;
mod mem_listener;
mod mem_watch;
mod memory;
mod parts;
mod unread_clock;

pub use mem_files::MemFiles;
pub use mem_link::MemLink;
pub use mem_listener::MemListener;
pub use mem_watch::MemWatch;
pub use memory::{MemSink, MemSource};
pub use unread_clock::UnreadClock;
