//! The points that a search finds.
use certificate::{Point, Values};

/// A point with its values of all goals, in their order.
#[derive(Drop)]
pub struct Found {
    pub point: Point,
    pub values: Values,
}
