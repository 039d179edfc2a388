//! Memory for runs, and a run over it.
ghost use Rattle.std.specs.Prelude.{◌≡◌, ◌≢◌, ℕ, ◌+◌, ◌-◌, ◌^◌, ◌<◌, ◌≤◌, true, None, length, vec_len, IfSome, IfOk};
ghost use Rattle.fraction.specs.Frac.{ratio};
ghost use Rattle.evidence.specs.Instance as Of;
ghost use Rattle.marks.specs.Marks.{size_of};
ghost use Rattle.dictionary.specs.Dict.{width_of, height_of, count_of};
ghost use Rattle.simplex_rules.specs.Ends.{Terms, Clock};
ghost use Rattle.simplex_rules.specs.Statuses.{HasDictionary, status_at};
ghost use Rattle.simplex_rules.specs.Runs.{Run, IsRun, EndsAtBasis};
ghost use Rattle.no_cycles.specs.Phase.{BeginsSettled, HasNoneTwice, came_through};
ghost use Rattle.simplex_rules.specs.Looks.{answers, AgreesWith, looks_after};
ghost use Rattle.simplex.specs.Answers.{side_of};

use crate::answer::{LpEnd, Side, Turns};
use crate::beginning::start;
use crate::cuts::Cuts;
use crate::ends::Ends;
use crate::loading::goal_at;
use crate::reporting::report;
use dictionary::{Dict, Places, Steps};
use fraction::{End, Frac};
use instance::{Instance, zero};
use marks::Marks;
use os_io::Watch;
use simplex_rules::Status;
use std::alloc::{AllocError, Global};
use std::sync::ledger::Ledger;

/// Memory for runs of one size: the state of a run, and what the last of them found. The entries of its dictionary are read and
/// written on the ledger `L` alone.
///
/// Of a run there are the dictionary of its basis, the ends and statuses of the columns, the values of those that aren't basic
/// (`rest`), and each column's value, where it isn't unknown. The goal's column is the last one of the dictionary.
pub struct Work<L: Ledger> {
    pub(crate) dict: Dict<L>,
    pub(crate) ends: Vec<Ends>,
    pub(crate) statuses: Vec<Status>,
    pub(crate) rest: Places,
    pub(crate) values: Vec<Frac>,
    pub(crate) unknown: Marks,
    pub(crate) factors: Vec<Frac>,
    pub(crate) movements: Vec<Frac>,
    pub(crate) goal: u32,
    ghost few: { width_of dict + (height_of dict + 1) ≤ 2 ^ 32 },
    ghost goal_is: { goal ≡ width_of dict + height_of dict },
    ghost ends_long: { vec_len ends ≡ width_of dict + height_of dict },
    ghost statuses_long: { vec_len statuses ≡ width_of dict + height_of dict },
    ghost rest_long: { count_of rest ≡ width_of dict + height_of dict },
    ghost values_long: { vec_len values ≡ width_of dict + height_of dict },
    ghost unknown_room: { width_of dict + height_of dict ≤ size_of unknown },
    ghost factors_long: { vec_len factors ≡ width_of dict + height_of dict },
    ghost movements_long: { vec_len movements ≡ width_of dict },
}

impl<L: Ledger> Drop for Work<L> {
    // By hand, so that letting one go is a call. What is derived would be taken apart wherever one is let go.
    fn drop(self) {
        let Work {
            dict: _,
            ends: _,
            statuses: _,
            rest: _,
            values: _,
            unknown: _,
            factors: _,
            movements: _,
            goal: _,
        } = self;
    }
}

/// The place of a column that isn't basic.
fn side_of(status: Status) -> Option<Side>
    ensures { result ≡ side_of status }
{
    match status {
        Status::Basic => None,
        Status::Lower => Some(Side::Lower),
        Status::Upper => Some(Side::Upper),
        Status::Zero => Some(Side::Zero),
    }
}

impl<L: Ledger> Work<L> {
    ghost use Rattle.simplex.specs.Cuts.{Suits, IsCutBy};
    ghost use Rattle.simplex.specs.Memory.{width_in, height_in, point_in, factor_in, movement_in, statuses_in, entries_in, ended_with, IsAtBasis, IsEntryOf};
    ghost use Rattle.simplex.specs.Answers.{was_stopped, was_best};
    ghost use Rattle.simplex.specs.declared.answer.LpEnd.TheVariants as Has;

    /// Memory for runs of so many variables and rows, those beside an instance's own counted.
    pub fn for_size(alloc: Global, n: u32, m: u32) -> Result<Work<L>, AllocError>
        ensures width { IfOk result (λ w. width_in w ≡ n) }
        ensures height { IfOk result (λ w. height_in w ≡ m) }
        ensures few { IfOk result (λ _. n + (m + 1) ≤ 2 ^ 32) }
    {
        let vars = n as usize;
        let columns = vars + m as usize;
        let dict = Dict::with_size(alloc, n, m)?;
        let free = Ends {
            lb: End::NegInf,
            ub: End::Inf,
        };
        let ends = vec![in alloc; free; columns]?;
        let statuses = vec![in alloc; Status::Basic; columns]?;
        let rest = Places::with_size(alloc, columns)?;
        let none = zero();
        let values = vec![in alloc; none; columns]?;
        let unknown = Marks::with_size(alloc, columns)?;
        let factors = vec![in alloc; none; columns]?;
        let movements = vec![in alloc; none; vars]?;
        Ok(Work {
            dict,
            ends,
            statuses,
            rest,
            values,
            unknown,
            factors,
            movements,
            goal: n + m,
        })
    }

    /// Runs the linear program of an instance with these ends of its variables, these rows beside its own and this goal, from the
    /// first basis to its end. That some variables are to be whole is nothing to it; with `zero_goal` the goal is 0, so
    /// that any point within all ends is best.
    ///
    /// The answer is the end of the run for each such program, with the point, the multipliers and the direction that
    /// [`Work::point_at`], [`Work::mult_at`] and [`Work::ray_at`] tell then; columns past the instance's are those of the rows beside
    /// its own, in their order. Where it is [`LpEnd::Best`], [`Work::entry_at`] and [`Work::side_at`] tell of the run's last
    /// basis. `turns.done` counts the turns of the whole search: it rises by the run's turns, at most to `turns.most`, and
    /// after each turn whose number is a multiple of 64 there is a look. The run ends by [`LpEnd::Stopped`] exactly where one of
    /// its looks said to stop, which is then the last. `steps` counts each entry of the dictionary that is read or written.
    ///
    /// While it improves the goal it comes to no basis twice with the same places (Bland, 1977). So where no column is out at the
    /// first basis, and as many turns are left as there are ways for each column to be basic or to have one of three places, it
    /// doesn't end by [`LpEnd::TurnLimit`].
    pub fn run<W: Watch>(
        &mut self,
        instance: &Instance,
        cuts: &Cuts,
        zero_goal: bool,
        turns: &mut Turns,
        watch: &mut W,
        steps: &mut Steps<L>,
    ) -> LpEnd
        requires vars { width_in self.old ≡ length instance.now.vars }
        requires rows { height_in self.old ≡ length instance.now.rows + length cuts.now.rows }
        requires cuts { Suits instance.now cuts.now }
        requires stops { W.stops watch.old < 2 ^ 64 - 1 }
        ensures width { width_in self.new ≡ width_in self.old }
        ensures height { height_in self.new ≡ height_in self.old }
        ensures most { turns.new.most ≡ turns.old.most }
        ensures more { turns.old.done ≤ turns.new.done }
        ensures within { turns.old.done ≤ turns.old.most → turns.new.done ≤ turns.old.most }
        ensures run { (n : ℕ) × W.came watch.old watch.new (answers n (was_stopped result)) × ((I : Of.Instance) (t : Terms) (looks : ℕ) → IsCutBy instance.now cuts.now I → t.turns ≡ turns.old.most → AgreesWith t.stop looks n (was_stopped result) → Run I zero_goal t (record { turns = turns.old.done; looks = looks }) (ended_with result self.new) (record { turns = turns.new.done; looks = looks_after looks n (was_stopped result) }) × (was_best result ≡ true → EndsAtBasis I zero_goal t (record { turns = turns.old.done; looks = looks }) (ended_with result self.new) (record { turns = turns.new.done; looks = looks_after looks n (was_stopped result) }) (statuses_in self.new))) }
        ensures basis { was_best result ≡ true → IsAtBasis self.new × ((I : Of.Instance) → IsCutBy instance.now cuts.now I → HasDictionary I zero_goal (statuses_in self.new) (entries_in self.new)) }
        ensures once { (I : Of.Instance) (t : Terms) (c d : Clock) → Of.IsInstance I → IsCutBy instance.now cuts.now I → (run : IsRun I zero_goal t c (ended_with result self.new) d) → HasNoneTwice I zero_goal (came_through run.comes) }
        ensures enough { (I : Of.Instance) → Of.IsInstance I → IsCutBy instance.now cuts.now I → BeginsSettled I zero_goal → turns.old.done + 4 ^ (Of.width I + Of.height I) ≤ turns.old.most → result ≢ Has.TurnLimit }
    {
        if let Some(col) = self.begin(instance, cuts, zero_goal, steps) {
            return LpEnd::Clash { col };
        }
        let asked = goal_at(instance, cuts.goal());
        let start = start(zero_goal, asked.sense, asked.constant);
        let finish = self.make_turns(start, turns, watch, steps);
        report(
            &self.dict,
            self.statuses.as_slice(),
            finish,
            self.factors.as_mut_slice(),
            self.movements.as_mut_slice(),
            self.goal,
            steps,
        )
    }

    /// The value of variable j at the last point: that of [`LpEnd::Best`], or the one from which [`LpEnd::Endless`] goes on.
    pub fn point_at(&self, j: u32) -> Frac
        requires { j < width_in self.now }
        ensures { ratio result ≡ point_in self.now j }
    {
        self.values[j as usize]
    }

    /// The multiplier of a column, of the variables and then the rows: of [`LpEnd::Best`] or of [`LpEnd::Empty`].
    pub fn mult_at(&self, col: u32) -> Frac
        requires { col < width_in self.now + height_in self.now }
        ensures { ratio result ≡ factor_in self.now col }
    {
        self.factors[col as usize]
    }

    /// The movement of variable j along the direction of [`LpEnd::Endless`].
    pub fn ray_at(&self, j: u32) -> Frac
        requires { j < width_in self.now }
        ensures { ratio result ≡ movement_in self.now j }
    {
        self.movements[j as usize]
    }

    /// The entry of a column that isn't basic in the equation of a basic one, at the basis by which the last run ended. None exactly
    /// where the first column isn't basic, or the second is, or one isn't there.
    pub fn entry_at(&self, basic: u32, nonbasic: u32, steps: &mut Steps<L>) -> Option<Frac>
        requires { IsAtBasis self.now }
        ensures none { result ≡ None → IsEntryOf self.now basic nonbasic → ⊥ }
        ensures entry { IfSome result (λ x. IsEntryOf self.now basic nonbasic × (ratio x ≡ entries_in self.now basic nonbasic)) }
    {
        let is_row = (basic as usize) < self.statuses.len() && self.side_at(basic).is_none();
        if !is_row || self.side_at(nonbasic).is_none() {
            return None;
        }
        Some(self.dict.entry(basic, nonbasic, steps))
    }

    /// Where a column stands that isn't basic, where the last run ended. None exactly where it is basic, or isn't there.
    pub fn side_at(&self, col: u32) -> Option<Side>
        ensures { result ≡ side_of (status_at (statuses_in self.now) col) }
    {
        if col as usize >= self.statuses.len() {
            return None;
        }
        side_of(self.statuses[col as usize])
    }
}
