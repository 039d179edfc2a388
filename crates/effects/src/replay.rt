//! Effects, made again.

ghost use Rattle.std.specs.Prelude.{◌≡◌, Some, None, is_some, if◌then◌else◌, IfOk};
ghost use Rattle.std.specs.Option.{option_copied};
ghost use Rattle.effects.specs.Records.{deed_of};
ghost use Rattle.effects.specs.Fold.{Ledger, after, osil_in, stage_of};

use crate::kinds::Effect;
use os_io::Memory;

/// What effects are made in again, as a table of jobs.
pub trait Replay {
    /// What it holds.
    ghost holds: { Self → Ledger };

    /// Makes an effect, or answers false where it isn't possible there.
    fn apply(&mut self, effect: &Effect) -> Result<bool, Memory>
        ensures { IfOk result (λ made. after (deed_of effect.now) (holds self.old) ≡ (if made then Some (holds self.new) else None)) };

    /// The text of the instance of a job that a finish may name.
    fn osil(&self, number: u64) -> Option<&[u8]>
        ensures { option_copied result ≡ osil_in (stage_of number (holds self.now)) };

    /// Whether it has a job of that number.
    fn has_job(&self, number: u64) -> bool
        ensures { result ≡ is_some (stage_of number (holds self.now)) };
}
