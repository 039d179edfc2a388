//! The texts of numbers, both ways.
//!
//! Decimals have the lexical form of a double (XML Schema part 2, section 3.2.5), bounds the infinities besides;
//! counts and whole numbers are that page's nonNegativeInteger and integer. White space round these is dropped. Ratios
//! are this project's own form, `-2/3`, in lowest terms and without white space. A value is exact or refused, never
//! rounded, and digits of any length are read without a wider number. A text that is none is refused, by a [`DecimalFault`],
//! where its longest prefix ends that begins some text of the grammar. Reading takes no memory. A fraction is
//! written as a ratio, as a whole decimal text where it has one, or cut towards zero to twelve decimals; after an error
//! the text that was to be written to is as before. What was written as a ratio or a whole decimal is read as the same
//! fraction, and the digits of a count or a whole number as that number.
#![tactic(auto)]

mod count;
mod decimal;
mod digits;
mod exact;
mod expand;
mod fault;
mod laws;
mod parts;
mod places;
mod plain;
mod power;
mod ratio;
mod space;
mod whole;

pub use count::read_count;
pub use decimal::{read_bound, read_decimal};
pub use exact::read_ratio;
pub use fault::DecimalFault;
pub use laws::{
    counts_are_read_back, decimals_are_read_back, decimals_have_one_text, ratios_are_read_back,
    wholes_are_read_back,
};
pub use places::write_decimal;
pub use plain::write_cut12;
pub use ratio::write_ratio;
pub use space::trim;
pub use whole::read_whole;
