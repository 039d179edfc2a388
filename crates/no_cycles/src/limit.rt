//! How many turns are enough.
ghost use Rattle.std.specs.Prelude.{◌≡◌};
ghost use Rattle.no_cycles.specs.Limit as says;

/// How many turns are enough to improve the goal of a program with so many variables and rows to its end: `4 ^ (variables + rows)`,
/// where both together are at most 13, else none is told. That is enough where the run has no first phase.
pub fn safe_limit(variables: u32, rows: u32) -> Option<u32>
    ensures { result ≡ says.safe_limit variables rows }
{
    if variables <= 13 && rows <= 13 - variables {
        Some(4_u32.pow(variables + rows))
    } else {
        None
    }
}
