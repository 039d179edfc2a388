//! What a run of the simplex method is, with no code: the rules that name each turn, and the laws that a run has one end,
//! and that the end says something true of the program.
//!
//! A linear program's columns are its variables and the activities of its rows, each between two ends. A run begins with
//! the rows basic and each variable at an end, brings the first column that is out of its ends back, then lets the goal
//! fall, by least indices in both phases (Bland, New finite pivoting rules for the simplex method, 1977), and comes to an
//! end: a clash of two ends, multipliers that rule out every point, a best point with multipliers that bound it, a
//! direction without end, a limit of turns, a number that doesn't fit, or a look that stops it. The names are those of
//! Chvátal, Linear Programming (1983), chapters 3 and 8.
//!
//! `specs` has the rules: `Statuses` what a basis is and what it makes of the columns' values, `Turns` which columns a turn
//! takes, `Widths` where its numbers fit, `Runs` the moments of a run and what comes after each, `Ends` the ends and what
//! they say, `Reports` the multipliers, points and directions that they carry, and `Looks` what the looks of a run
//! answered. They read the one dictionary of each basis; no rule says how a dictionary is made. [`Status`] is where a column
//! stands, and [`Way`] whether a value rises or falls. Each function here is a law.
//!
//! What such a run leaves open can be chosen otherwise: how it begins, which columns a turn takes, and whether a bound is
//! enough. `Rules` has these choices as a record of relations to what a run sees, what is asked of them for an end to be true
//! (`AreLegalRules`) and for a run to have one (`AreSingleRules`), and least indices as one of them (`bland`); `RuleRuns` is the
//! run by any rules, `Fast` the rules by which it goes on from the dictionary before, and `NamedRules` those with a name, over which
//! laws range.
#![tactic(auto)]

mod columns;
mod laws;
mod names;

pub use columns::{Status, Way};
pub use laws::{
    moments_have_one_next, runs_are_by_least_indices, runs_are_sound, runs_by_rules_are_sound,
    runs_by_rules_have_one_end, runs_end_at_one_basis, runs_have_one_end,
};
pub use names::RuleName;
