//! Sizes cut to their 31 leading binary digits, by which choices are compared: no sum, product or quotient of such is ever wide.
//!
//! A [`Score`] is a number of 31 binary digits, or 0, times a power of 2. Each operation cuts what comes of it again, without rounding.
#![tactic(auto)]

mod score;

pub use score::Score;
