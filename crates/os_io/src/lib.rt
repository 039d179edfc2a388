//! The outside: bytes that come and go, files, listeners and looks at whether to stop, each with its count.
//!
//! Bytes come on a [`Source`], go on a [`Sink`], and do both on a [`Link`]. [`Files`] are read by name, a [`Listener`] gives
//! links, and a [`Watch`] is asked whether to stop: [`Never`] says no, and [`Halt`] says yes once there is a file. A [`Text`] is
//! a list of bytes that grows, and [`Memory`] the error where there was none.
//!
//! What an object tells of its bytes is part of each contract: a read says which bytes it took, a write which it
//! added, a flush that all that was written was handed on. A call answers [`Failed`] only where the object's count of
//! faults rose in that call, so whoever counts can see why. Real inputs and outputs tell nothing of their bytes; what is
//! kept in memory can tell all.
//!
//! A link that a listener gives is open until it is closed ([`Close`]), and a listener tells at which hosts and ports it listened and
//! to which it connected, so that whoever serves can be asked to serve links that are open, where it was told to.
//!
//! Bytes that come in pieces go to a [`Body`], whose relation says of all of them which they are, in whatever pieces.
//!
//! Where one call after another writes, `Writes` says of all of them which text was written, or a first part of it at a
//! fault, and that nothing else was touched.
#![tactic(auto)]

mod body;
mod close;
mod disk;
mod faults;
mod files;
mod halt;
mod limits;
mod listener;
mod mem_body;
mod never;
mod standard;
mod streams;
mod text;
mod watch;

pub use body::Body;
pub use close::Close;
pub use disk::DiskFiles;
pub use faults::count_fault;
pub use files::{FileFault, Files};
pub use halt::Halt;
pub use limits::{MOST_BYTES, MOST_REPLY};
pub use listener::Listener;
pub use mem_body::MemBody;
pub use never::Never;
pub use standard::{StdSink, StdSource};
pub use streams::{Failed, Link, Sink, Source, Stream, send_all, write_all};
pub use text::{Memory, Text};
pub use watch::{Standing, Watch};
