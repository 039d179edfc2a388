//! The early ends of a search.

use crate::found::Found;
use certificate::{Cause, Ray};

/// How a search ends before all its cases are closed.
#[derive(Drop)]
pub enum Ended {
    /// From this point on along the ray there is no best one.
    Unbounded { found: Found, ray: Ray },
    /// It is given up, with the best point so far.
    Early { best: Option<Found>, cause: Cause },
}
