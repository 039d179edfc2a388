//! Where columns stand, and how they move.
/// Where a column stands: in the basis, at its lower or its upper end, or at 0 where it has neither (Chvátal, Linear
/// Programming, 1983, chapter 8).
#[derive(Clone, Copy, PartialEq, Eq)]
pub enum Status {
    Basic,
    Lower,
    Upper,
    Zero,
}

/// The two ways in which a value moves.
#[derive(Clone, Copy, PartialEq, Eq)]
pub enum Way {
    Rise,
    Fall,
}
