//! Sets of small numbers, a bit each.
//!
//! [`Marks`] is a set of numbers below a size. Whether it has one is told at once, and [`Marks::next`] tells the first from a number on,
//! 64 at a step where there are none. To go over all that it has in ascending order is a [`Walk`], which keeps a word of bits:
//! [`Marks::next_by`] goes over those of one set, [`Marks::next_of_either`] over those of two, and [`Marks::next_of_both`] over those
//! that two have in common. Numbers that were passed may be taken in or out meanwhile. What goes through many numbers at once reads a word
//! of 64 ([`Marks::word`]), goes over its bits ([`take_first`]), and gives it back changed ([`Marks::set_word`]). Only [`Marks::with_size`] takes memory.
#![tactic(auto)]

mod bit;
mod marks;
mod walk;
mod words;

pub use bit::{has_bit, keep, take_first};
pub use marks::Marks;
pub use walk::Walk;
