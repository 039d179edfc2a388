//! How the state of a run begins.
ghost use Rattle.std.specs.Prelude.{◌≡◌, ◌+◌, None, Option, length, MatchOption};
ghost use Rattle.fraction.specs.declared.frac.Frac as numbers;
ghost use Rattle.evidence.specs.Instance as Of;
ghost use Rattle.evidence.specs.Instance.{minimising};
ghost use Rattle.simplex_rules.specs.Statuses.{IsFirstBasis};
ghost use Rattle.simplex_rules.specs.Runs.{HasNoClash, IsFirstEmpty};
ghost use Rattle.dictionary.specs.Dict.{HaveOneSize};
ghost use Rattle.simplex.specs.Cuts.{Suits, IsCutBy};
ghost use Rattle.simplex.specs.Loads.{IsStart};
ghost use Rattle.simplex.specs.Memory.{width_in, height_in, statuses_in};
ghost use Rattle.simplex.specs.States.{IsUnderWay, IsOf};

use crate::beginning::{first_clash, set_ends, set_first};
use crate::cuts::Cuts;
use crate::keeping::forget_all;
use crate::loading::load;
use crate::valued::set_rest;
use crate::work::Work;
use dictionary::Steps;
use instance::Instance;
use std::sync::ledger::Ledger;

impl<L: Ledger> Work<L> {
    /// Makes the first basis, with the dictionary of the rows and the goal, no value being known; or answers the first column whose
    /// ends pass each other.
    pub fn begin(
        &mut self,
        instance: &Instance,
        cuts: &Cuts,
        zero_goal: bool,
        steps: &mut Steps<L>,
    ) -> Option<u32>
        requires vars { width_in self.old ≡ length instance.now.vars }
        requires rows { height_in self.old ≡ length instance.now.rows + length cuts.now.rows }
        requires cuts { Suits instance.now cuts.now }
        ensures size { HaveOneSize self.old.dict self.new.dict }
        ensures clash { (I : Of.Instance) → IsCutBy instance.now cuts.now I → MatchOption result (HasNoClash I) (IsFirstEmpty I) }
        ensures state { result ≡ None → IsUnderWay self.new }
        ensures fresh { result ≡ None → (I : Of.Instance) → IsCutBy instance.now cuts.now I → IsFirstBasis I (statuses_in self.new) }
        ensures of { (I : Of.Instance) (start : Option numbers.Frac) → IsCutBy instance.now cuts.now I → IsStart zero_goal (minimising I I.goal.constant) start → IsOf I zero_goal start self.new }
    {
        let goal = self.goal;
        let ends = self.ends.as_mut_slice();
        let statuses = self.statuses.as_mut_slice();
        load(&mut self.dict, instance, cuts, zero_goal, goal, steps);
        set_ends(cuts.as_slice(), instance.rows(), cuts.rows(), ends);
        if let Some(col) = first_clash(ends, goal) {
            return Some(col);
        }
        set_first(ends, cuts.len(), statuses);
        set_rest(ends, statuses, &mut self.rest, goal);
        forget_all(&mut self.unknown, goal);
        None
    }
}
