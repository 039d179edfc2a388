//! A clock that can't be read.

use std::io;
use std::time::{Clock, Duration};

/// A clock that can't be read: by it no time is over but one of no seconds.
#[derive(Clone, Copy)]
pub struct UnreadClock;

impl Clock for UnreadClock {
    fn monotonic(&self) -> io::Result<Duration> {
        Err(io::Error::from(io::ErrorKind::Unsupported))
    }

    fn since_1970(&self) -> io::Result<Duration> {
        Err(io::Error::from(io::ErrorKind::Unsupported))
    }
}
