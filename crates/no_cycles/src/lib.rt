//! That the second phase of a run of the simplex method comes to an end, and within how many turns.
//!
//! While a run improves the goal it never comes to one basis twice with the same places of the other columns (Bland, New
//! finite pivoting rules for the simplex method, 1977; Chvátal, Linear Programming, 1983, chapter 3), even where no turn
//! makes the goal better. Each of n + m columns is basic or has one of three places, so there are fewer than `4 ^ (n + m)` such
//! turns. Where the first values of the variables keep each row between its ends, all turns are such; so with a limit of
//! that many turns neither a run nor a search without whole variables ends at the limit. [`safe_limit`] is that limit, where
//! it is small enough to be waited for. Of the first phase nothing is said.
//!
//! Within whatever limits, a run has an end and a search an outcome: each basis that a run comes to has a dictionary and values, and
//! each moment a next one, or it is the last.
//!
//! `specs/Phase.antt` says what the second phase is, `specs/Beginning.antt` where it begins at once, and `specs/Searches.antt` which
//! outcomes are of the limit. The functions of `laws` have an empty body: their contracts are the statements, over the
//! runs and searches of `simplex_rules` and `search_rules`, whatever code makes them.
#![tactic(auto)]

mod laws;
mod limit;

pub use laws::{
    feasible_beginnings_are_settled, limit_never_comes, no_basis_twice,
    plain_searches_stay_within_turns, runs_have_an_end, safe_limits_are_enough,
    safe_limits_are_enough_from_points, searches_have_an_outcome, second_phase_stays,
    turns_are_few,
};
pub use limit::safe_limit;
