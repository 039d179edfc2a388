//! The turns of a run, one after the other.
ghost use Rattle.std.specs.Prelude.{◌≡◌, ℕ, ◌-◌, ◌^◌, ◌<◌, None, Some, IfSome};
ghost use Rattle.simplex.specs.Memory.{statuses_in};
ghost use Rattle.simplex.specs.States.{IsUnderWay, Changes};
ghost use Rattle.simplex.specs.Finishes.{IsLeft, CountsTurn};

use crate::answer::Turns;
use crate::choosing::{Choice, choose};
use crate::finish::Finish;
use crate::keeping::{expect_flip, expect_swap};
use crate::turning::{flip_turn, swap_turn};
use crate::work::Work;
use dictionary::Steps;
use fraction::Frac;
use os_io::Watch;
use std::sync::ledger::Ledger;

impl<L: Ledger> Work<L> {
    /// From a moment to the next, or to the end of the run. None where the run goes on.
    fn make_turn<W: Watch>(
        &mut self,
        start: Option<Frac>,
        turns: &mut Turns,
        watch: &mut W,
        steps: &mut Steps<L>,
    ) -> Option<Finish>
        requires state { IsUnderWay self.old }
        requires stops { W.stops watch.old < 2 ^ 64 - 1 }
        ensures state { result ≡ None → IsUnderWay self.new }
        ensures left { IfSome result (λ f. IsLeft self.new.dict (statuses_in self.new) f) }
        ensures counted { CountsTurn turns.old turns.new result }
        ensures stops { result ≡ None → W.stops watch.new ≡ W.stops watch.old }
        ensures changes { Changes start (W.came watch.old watch.new) self.old self.new turns.old turns.new result }
    {
        let goal = self.goal;
        let ends = self.ends.as_slice();
        let statuses = self.statuses.as_mut_slice();
        let values = self.values.as_mut_slice();
        match choose(
            &self.dict,
            ends,
            statuses,
            &self.rest,
            values,
            &mut self.unknown,
            start,
            goal,
            steps,
        ) {
            Choice::Swap(swap) => {
                expect_swap(
                    &self.dict,
                    ends,
                    statuses,
                    &mut self.rest,
                    &mut self.unknown,
                    swap,
                    goal,
                );
                swap_turn(&mut self.dict, statuses, swap, turns, watch, steps)
            }
            Choice::Flip(flip) => {
                expect_flip(
                    &self.dict,
                    ends,
                    statuses,
                    &mut self.rest,
                    &mut self.unknown,
                    flip,
                    goal,
                );
                flip_turn(&self.dict, statuses, flip, turns, watch)
            }
            Choice::Done(finish) => Some(finish),
        }
    }

    /// The turns of a run, up to its end.
    pub fn make_turns<W: Watch>(
        &mut self,
        start: Option<Frac>,
        turns: &mut Turns,
        watch: &mut W,
        steps: &mut Steps<L>,
    ) -> Finish
        requires state { IsUnderWay self.old }
        requires stops { W.stops watch.old < 2 ^ 64 - 1 }
        ensures left { IsLeft self.new.dict (statuses_in self.new) result }
        ensures changes { Changes start (W.came watch.old watch.new) self.old self.new turns.old turns.new (Some result) }
    {
        loop {
            if let Some(finish) = self.make_turn(start, turns, watch, steps) {
                return finish;
            }
        }
    }
}
