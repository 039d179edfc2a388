//! The six calls of the Optimization Services and their parts, by their names.
//!
//! [`CallKind::named`] gives the call of a name, [`CallKind::name`] its name, and [`CallKind::has`] says which of the three
//! [`Part`]s it has.
#![tactic(auto)]

mod call;
mod part;

pub use call::CallKind;
pub use part::Part;
