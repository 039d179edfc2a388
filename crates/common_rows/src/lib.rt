//! Rows of fractions over one denominator, in numbers of 64 bits.
//!
//! A row whose numbers fit is changed by another one with two products, a sum and one exact quotient an entry, by a [`Divisor`],
//! and nothing that is stated of its fractions passes 128 bits ([`changes_are_stated`]); `dictionary` does so. [`plus_product`] and
//! [`times`] change one entry, and answer as the fractions' own operations do: whole numbers have the denominator 1, and where the
//! parts of fractions have 64 bits, a product and a sum are reduced once, at their end. An [`Accumulator`] adds up products over a
//! common denominator of their terms, and reduces their sum once.
#![tactic(auto)]

mod accumulator;
mod divisor;
mod form;
mod laws;
mod product;
mod whole;

pub use accumulator::Accumulator;
pub use divisor::Divisor;
pub use laws::changes_are_stated;
pub use whole::{plus_product, times};
