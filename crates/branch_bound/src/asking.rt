//! From a level whose cases are closed to the next goal.
ghost use Rattle.std.specs.Prelude.{◌≡◌, ◌⊎◌, ℕ, ◌+◌, ◌<◌, ◌≤◌, ◌^◌, ◌-◌, Bool, Option, None, Some, List, length, map, get_or, IfOk, OnErr, MatchOption};
ghost use Rattle.rational.specs.Ratio.{negative};
ghost use Rattle.rational.specs.Width.{SumFits};
ghost use Rattle.fraction.specs.Frac.{ratio, ratios};
ghost use Rattle.evidence.specs.Instance as Of;
ghost use Rattle.evidence.specs.AddedRows.{with_row};
ghost use Rattle.evidence.specs.Rounds.{Certificate};
ghost use Rattle.evidence.specs.Levels.{IsReachedEnd, next_level};
ghost use Rattle.evidence.specs.Point.{value_at};
ghost use Rattle.instance.specs.Program.{goal as meaning, goals, program, variable};
ghost use Rattle.case_tree.specs.Cuts.{cut_variable};
ghost use Rattle.cert_checker.specs.Programs.{AreUncut};
ghost use Rattle.simplex_rules.specs.Looks.{answers, AgreesWith, looks_after};
ghost use Rattle.search_rules.specs.Search.{SearchMoment, Out, nodes_so_far};
ghost use Rattle.certificate.specs.declared.causes.Cause.{Cause};
ghost use Rattle.branch_bound.specs.declared.ended.Ended.TheVariants.{Early};
ghost use Rattle.branch_bound.specs.declared.found.Found as points;
ghost use Rattle.branch_bound.specs.Walks.{best as best_of, IsWalk};
ghost use Rattle.branch_bound.specs.Levels.{IsGiven, IsAtLevel};
ghost use Rattle.branch_bound.specs.Bounds.{CarriesNone};
ghost use Rattle.branch_bound.specs.Trials.{IsFreshWalk};
ghost use Rattle.branch_bound.specs.Cases.{terms, HasSize, SuitsLevel, outcome_of, was_killed, clock_at, HaveValues};
ghost use Rattle.branch_bound.specs.States.{IsUnderWay, Changes};
ghost use Rattle.branch_bound.specs.Asking.{turned_by, EndsWide, HasBegunLevel};

use crate::carried::carry;
use crate::claims::give_up;
use crate::ended::Ended;
use crate::found::Found;
use crate::level::Level;
use crate::limits::Limits;
use crate::relaxation::{Relaxation, add_row};
use crate::rounds::entries_of;
use crate::state::SearchState;
use crate::walk::Walk;
use case_tree::{Cut, turned, uncut};
use certificate::{Cause, Cert, Nodes, Place, Rounds, Step};
use fraction::{End, Frac, Wide};
use instance::{Goal, Instance, Var};
use os_io::Watch;
use simplex::{Added, Ends};
use std::alloc::{AllocError, Global};
use std::mem;
use std::sync::ledger::Ledger;

/// The value that the next level's row has to reach: the best one, turned so that less is better, without the goal's constant.
fn reached_end(goal: &Goal, value: Frac) -> Result<Frac, Wide>
    ensures ok { IfOk result (λ e. (L : Of.Instance) → L.goal ≡ meaning goal.now → IsReachedEnd L (ratio value) (ratio e)) }
    ensures wide { OnErr result ((L : Of.Instance) → L.goal ≡ meaning goal.now → SumFits (Of.minimising L (ratio value)) (negative (Of.minimising L L.goal.constant)) → ⊥) }
{
    turned(goal.sense, value).sub(turned(goal.sense, goal.constant))
}

/// The costs of a goal, turned so that less is better.
fn turned_costs(alloc: Global, goal: &Goal) -> Result<Vec<Frac>, AllocError>
    ensures { IfOk result (λ numbers. ratios numbers.items ≡ map (turned_by goal.now.sense) goal.now.costs) }
{
    let costs = goal.costs.as_slice();
    let mut numbers = Vec::with_capacity(alloc, costs.len())?;
    for cost in costs {
        numbers.push(turned(goal.sense, *cost))?;
    }
    Ok(numbers)
}

/// Adds the row of the goal that was reached, between equal ends.
fn add_goal_row<L: Ledger>(
    alloc: Global,
    instance: &Instance,
    relaxation: &mut Relaxation<L>,
    goal: &Goal,
    end: Frac,
) -> Result<(), AllocError>
    requires size { HasSize instance.now relaxation.old }
    requires costs { length goal.now.costs ≡ length instance.now.vars }
    ensures size { IfOk result (λ _. HasSize instance.now relaxation.new) }
    ensures given { IfOk result (λ _. (D : Of.Instance) → IsGiven instance.now relaxation.old.ends D → D.goal ≡ meaning goal.now → IsGiven instance.now relaxation.new.ends (with_row D (record { lb = Some (ratio end); ub = Some (ratio end) }) (λ j. Of.minimising D (Of.cost_at D j)))) }
    ensures turns { relaxation.new.turns ≡ relaxation.old.turns }
{
    let row = (instance.rows().len() + relaxation.ends.rows().len()) as u32;
    let numbers = turned_costs(alloc, goal)?;
    let entries = entries_of(alloc, row, numbers.as_slice())?;
    let lb = End::At(end);
    let ub = End::At(end);
    let ends = Ends { lb, ub };
    add_row(alloc, instance, relaxation, Added { ends, entries })
}

/// Makes the variables as they are before any branch.
fn uncut_each(cuts: &mut [Cut], vars: &[Var])
    requires { length cuts.old ≡ length vars.now }
    ensures { map cut_variable cuts.new ≡ map variable vars.now }
{
    for j in 0..vars.len() {
        cuts[j] = uncut(vars[j]);
    }
}

/// Begins the walk anew, with its best point and with what is carried.
fn begin_again(instance: &Instance, walk: &mut Walk)
    requires { length walk.old.cuts.items ≡ length instance.now.vars }
    ensures uncut { AreUncut (program instance.now) walk.new.cuts.items }
    ensures next { walk.new.next ≡ Some 0 }
    ensures ray { walk.new.ray ≡ None }
    ensures nodes { walk.new.nodes ≡ walk.old.nodes }
    ensures best { walk.new.best ≡ walk.old.best }
    ensures keeps { walk.new.keeps ≡ walk.old.keeps }
    ensures carried { walk.new.carried ≡ walk.old.carried }
{
    uncut_each(walk.cuts.as_mut_slice(), instance.vars());
    walk.next = Some(0);
    walk.ray = None;
}

/// Asks the next goal of the points that reach this end.
fn ask_next<L: Ledger>(
    alloc: Global,
    instance: &Instance,
    relaxation: &mut Relaxation<L>,
    level: &mut Level,
    walk: &mut Walk,
    goal: &Goal,
    end: Frac,
) -> Result<(), AllocError>
    requires suits { SuitsLevel instance.now relaxation.old level.old }
    requires later { level.old.goal + 1 < length instance.now.goals }
    requires goal { meaning goal.now ≡ get_or (goals instance.now.goals) level.old.goal Of.no_goal }
    requires costs { length goal.now.costs ≡ length instance.now.vars }
    requires width { length walk.old.cuts.items ≡ length instance.now.vars }
    requires few { level.old.before + length walk.old.nodes < 2 ^ 64 }
    requires few_goals { length instance.now.goals ≤ 8 }
    ensures suits { IfOk result (λ _. SuitsLevel instance.now relaxation.new level.new) }
    ensures fresh { IfOk result (λ _. IsFreshWalk instance.now walk.new) }
    ensures walk { IfOk result (λ _. IsWalk (length instance.now.vars) walk.new) }
    ensures keeps { IfOk result (λ _. walk.new.keeps ≡ walk.old.keeps) }
    ensures carried { IfOk result (λ _. CarriesNone walk.new) }
    ensures goal { IfOk result (λ _. level.new.goal ≡ level.old.goal + 1) }
    ensures before { IfOk result (λ _. level.new.before ≡ level.old.before + length walk.old.nodes) }
    ensures begun { IfOk result (λ _. (L D : Of.Instance) → IsAtLevel instance.now relaxation.old level.old L D → HasBegunLevel instance.now level.old walk.old (next_level L (ratio end) (get_or (goals instance.now.goals) level.new.goal Of.no_goal)) relaxation.new level.new walk.new) }
    ensures best { walk.new.best ≡ walk.old.best }
    ensures turns { relaxation.new.turns ≡ relaxation.old.turns }
{
    carry(walk.keeps, &mut walk.carried, 0, None)?;
    add_goal_row(alloc, instance, relaxation, goal, end)?;
    level.before += walk.nodes.len();
    let nodes = mem::replace(&mut walk.nodes, Nodes::new(alloc));
    let rounds = mem::replace(&mut level.rounds, Rounds::new(alloc));
    level.certs.push(Cert { rounds, nodes })?;
    level.goal += 1;
    relaxation.ends.ask(level.goal);
    begin_again(instance, walk);
    Ok(())
}

/// Gives the search up where the end of the next level's row doesn't fit, which is told at that level's first node, once the limit of
/// nodes and the look before it are asked.
fn end_is_wide<W: Watch, L: Ledger>(
    limits: Limits,
    relaxation: &Relaxation<L>,
    level: &Level,
    walk: &mut Walk,
    watch: &mut W,
) -> Ended
    requires few { level.now.before + length walk.old.nodes < 2 ^ 64 }
    requires stops { W.stops watch.old < 2 ^ 64 - 1 }
    ensures is { (k : Cause) × (result ≡ Early walk.old.best k) }
    ensures rest { walk.new ≡ record walk.old { best = None } }
    ensures next { (n : ℕ) × (killed : Bool) × (was_killed result ≡ killed) × W.came watch.old watch.new (answers n killed) × ((P : Of.Problem) (m : SearchMoment) (looks : ℕ) (stop : Option ℕ) (cs : List Certificate) → m.clock ≡ clock_at relaxation.now looks → m.best ≡ best_of walk.old.best → nodes_so_far m ≡ level.now.before + length walk.old.nodes → AgreesWith stop looks n killed → EndsWide P (terms limits stop) m (Out (outcome_of cs result) (clock_at relaxation.now (looks_after looks n killed)))) }
{
    if level.before + walk.nodes.len() >= limits.nodes as usize {
        return give_up(walk, Cause::NodeLimit(limits.nodes));
    }
    if watch.look() {
        return give_up(walk, Cause::Killed);
    }
    let turn = relaxation.turns.done;
    let step = Step::Values;
    give_up(
        walk,
        Cause::Wide(Place {
            node: 1,
            turn,
            step,
        }),
    )
}

impl<L: Ledger> SearchState<L> {
    /// Goes on to the next goal from a level whose cases are closed, with this value of its own goal.
    pub fn next_goal<W: Watch>(
        &mut self,
        alloc: Global,
        instance: &Instance,
        limits: Limits,
        value: Frac,
        watch: &mut W,
    ) -> Result<(), Ended>
        requires state { IsUnderWay instance.now limits self.old }
        requires later { self.old.level.goal + 1 < length instance.now.goals }
        requires closed { self.old.walk.next ≡ None }
        requires value { (f : points.Found) × (self.old.walk.best ≡ Some f) × (value_at (ratios f.values) self.old.level.goal ≡ ratio value) }
        requires stops { W.stops watch.old < 2 ^ 64 - 1 }
        ensures state { IfOk result (λ _. IsUnderWay instance.now limits self.new) }
        ensures goal { IfOk result (λ _. self.new.level.goal ≡ self.old.level.goal + 1) }
        ensures moments { Changes instance.now limits (W.came watch.old watch.new) self.old self.new result }
    {
        let goals = instance.goals();
        let k = self.level.goal as usize;
        let goal = &goals[k];
        let end = match reached_end(goal, value) {
            Ok(end) => end,
            Err(_) => {
                return Err(end_is_wide(
                    limits,
                    &self.relaxation,
                    &self.level,
                    &mut self.walk,
                    watch,
                ))
            }
        };
        match ask_next(
            alloc,
            instance,
            &mut self.relaxation,
            &mut self.level,
            &mut self.walk,
            goal,
            end,
        ) {
            Ok(()) => Ok(()),
            Err(_) => Err(give_up(&mut self.walk, Cause::Memory)),
        }
    }
}

/// The best value of the level's goal, where another goal is to be asked and a point was found.
pub fn value_to_reach(instance: &Instance, level: &Level, best: &Option<Found>) -> Option<Frac>
    requires { HaveValues instance.now best.now }
    ensures { MatchOption result (best.now ≡ None ⊎ length instance.now.goals < level.now.goal + 2) (λ value. (f : points.Found) × (best.now ≡ Some f) × (level.now.goal + 1 < length instance.now.goals) × (value_at (ratios f.values) level.now.goal ≡ ratio value)) }
{
    if level.goal as usize + 1 >= instance.goals().len() {
        return None;
    }
    match best {
        Some(found) => Some(found.values.as_slice()[level.goal as usize]),
        None => None,
    }
}
