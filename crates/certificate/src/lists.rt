//! Lists of numbers: points, values, directions, and multipliers of columns.

use fraction::Frac;
use items::Items;

/// A multiplier: a factor of one column. Columns are the variables, the rows, and then the rows that a certificate adds.
#[derive(Clone, Copy, PartialEq, Eq, Debug)]
pub struct Mult {
    pub col: u32,
    pub value: Frac,
}

/// A point: a value for each variable.
pub type Point = Items<Frac>;

/// A value for each goal, in order.
pub type Values = Items<Frac>;

/// A direction: a movement for each variable.
pub type Ray = Items<Frac>;

/// Multipliers of columns.
pub type Mults = Items<Mult>;
