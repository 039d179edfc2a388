//! The search, case by case.
ghost use Rattle.std.specs.Prelude.{◌≡◌, ◌⊎◌, ℕ, ◌+◌, ◌-◌, ◌^◌, ◌<◌, ◌≤◌, Bool, not, ◌&&◌, Option, None, Some, List, [], true, length, map, IfOk};
ghost use Rattle.rational.specs.Ratio.{Ratio};
ghost use Rattle.fraction.specs.Frac.{ratio, ratios};
ghost use Rattle.evidence.specs.Point.{value_at};
ghost use Rattle.evidence.specs.ProvedBounds as says;
ghost use Rattle.instance.specs.Program.{program, problem, variable};
ghost use Rattle.certificate.specs.declared.causes.Cause.TheVariants as causes;
ghost use Rattle.case_tree.specs.Cuts.{cut_variable};
ghost use Rattle.simplex.specs.Answers.{was_stopped};
ghost use Rattle.simplex_rules.specs.Looks.{answers, AgreesWith, looks_after};
ghost use Rattle.simplex_rules.specs.Ends.{Terms, Clock};
ghost use Rattle.search_rules.specs.Search as rules;
ghost use Rattle.search_rules.specs.Search.{Outcome, IsSearchAnswer};
ghost use Rattle.search_rules.specs.Asked.{IsAskedAnswer};
ghost use Rattle.search_rules.specs.Beginnings.{IsFirstBest};
ghost use Rattle.search_rules.specs.Outcomes.{IsPlain, HaveOneRange};
ghost use Rattle.no_cycles.specs.Beginning.{BeginsFeasible};
ghost use Rattle.branch_bound.specs.Claims.{ClaimTells, ClaimTellsWith, TellsStop, claimed_cause, is_killed, is_want};
ghost use Rattle.branch_bound.specs.Bounds.{asked, HoldsAt, CarriesNone};
ghost use Rattle.branch_bound.specs.Walks.{best as best_of, IsWalk};
ghost use Rattle.branch_bound.specs.Trials.{IsFreshWalk};
ghost use Rattle.branch_bound.specs.declared.found.Found as points;
ghost use Rattle.branch_bound.specs.Cases.{terms, HasSize, HaveValues, GoesFurther, AnswersSo, was_killed};
ghost use Rattle.branch_bound.specs.States.{IsUnderWay, IsBegun, Changes};

use crate::asking::value_to_reach;
use crate::bounds::bound_of;
use crate::carried::{CarriedList, keep};
use crate::claims::{all_closed, claim_early, claim_endless, give_up};
use crate::ended::Ended;
use crate::found::Found;
use crate::gap::is_near;
use crate::level::Level;
use crate::limits::Limits;
use crate::relaxation::{Relaxation, make_work, run_case};
use crate::standing::look;
use crate::state::SearchState;
use crate::visit::visit;
use crate::walk::Walk;
use case_tree::{Cut, uncut};
use certificate::{Cause, Certs, Claim, Nodes, Rounds};
use dictionary::Steps;
use fraction::Frac;
use instance::{Instance, Var};
use os_io::Watch;
use search_rules::searches_of_which_nothing_is_asked_are_searches;
use simplex::{Cuts, LpEnd, Turns};
use std::alloc::{AllocError, Global};
use std::marker::Brand;
use std::sync::ledger::{Blank, Ledger};

/// What a search claims, and how many turns its runs have done.
#[derive(Drop)]
pub struct Searched {
    pub claim: Claim,
    pub turns: u64,
}

/// Whether a look stopped the run.
fn is_stop(end: LpEnd) -> bool
    ensures { result ≡ was_stopped end }
{
    matches!(end, LpEnd::Stopped)
}

impl<L: Ledger> SearchState<L> {
    /// Searches the case at hand.
    fn step<W: Watch>(
        &mut self,
        alloc: Global,
        instance: &Instance,
        limits: Limits,
        depth: usize,
        watch: &mut W,
    ) -> Result<(), Ended>
        requires state { IsUnderWay instance.now limits self.old }
        requires at { self.old.walk.next ≡ Some depth }
        requires stops { W.stops watch.old < 2 ^ 64 - 1 }
        ensures state { IfOk result (λ _. IsUnderWay instance.now limits self.new) }
        ensures further { IfOk result (λ _. GoesFurther limits self.old.level self.new.level self.old.walk self.new.walk) }
        ensures moments { Changes instance.now limits (W.came watch.old watch.new) self.old self.new result }
    {
        if self.level.before + self.walk.nodes.len() >= limits.nodes as usize {
            return Err(give_up(&mut self.walk, Cause::NodeLimit(limits.nodes)));
        }
        if is_near(instance, limits, &self.level, &self.walk, depth) {
            return Err(give_up(&mut self.walk, Cause::Gap));
        }
        if look(watch, instance, &self.level, &self.walk, depth) {
            return Err(give_up(&mut self.walk, Cause::Killed));
        }
        let zero_goal = self.walk.ray.is_some();
        let end = run_case(
            instance,
            &mut self.relaxation,
            self.walk.cuts.as_slice(),
            zero_goal,
            watch,
        );
        if is_stop(end) {
            return Err(give_up(&mut self.walk, Cause::Killed));
        }
        visit(
            alloc,
            instance,
            limits,
            &mut self.relaxation,
            &mut self.level,
            end,
            &mut self.walk,
            depth,
        )
    }

    /// Searches the cases of a level, one after the other.
    fn search_level<W: Watch>(
        &mut self,
        alloc: Global,
        instance: &Instance,
        limits: Limits,
        watch: &mut W,
    ) -> Result<(), Ended>
        requires state { IsUnderWay instance.now limits self.old }
        requires stops { W.stops watch.old < 2 ^ 64 - 1 }
        ensures state { IfOk result (λ _. IsUnderWay instance.now limits self.new) }
        ensures closed { IfOk result (λ _. self.new.walk.next ≡ None) }
        ensures goal { IfOk result (λ _. self.new.level.goal ≡ self.old.level.goal) }
        ensures moments { Changes instance.now limits (W.came watch.old watch.new) self.old self.new result }
    {
        while let Some(depth) = self.walk.next {
            match self.step(alloc, instance, limits, depth, watch) {
                Ok(()) => {}
                Err(ended) => return Err(ended),
            }
        }
        Ok(())
    }

    /// Asks the next goal, and searches its level.
    fn search_next<W: Watch>(
        &mut self,
        alloc: Global,
        instance: &Instance,
        limits: Limits,
        value: Frac,
        watch: &mut W,
    ) -> Result<(), Ended>
        requires state { IsUnderWay instance.now limits self.old }
        requires later { self.old.level.goal + 1 < length instance.now.goals }
        requires closed { self.old.walk.next ≡ None }
        requires value { (f : points.Found) × (self.old.walk.best ≡ Some f) × (value_at (ratios f.values) self.old.level.goal ≡ ratio value) }
        requires stops { W.stops watch.old < 2 ^ 64 - 1 }
        ensures state { IfOk result (λ _. IsUnderWay instance.now limits self.new) }
        ensures closed { IfOk result (λ _. self.new.walk.next ≡ None) }
        ensures goal { IfOk result (λ _. self.new.level.goal ≡ self.old.level.goal + 1) }
        ensures moments { Changes instance.now limits (W.came watch.old watch.new) self.old self.new result }
    {
        match self.next_goal(alloc, instance, limits, value, watch) {
            Ok(()) => self.search_level(alloc, instance, limits, watch),
            Err(ended) => Err(ended),
        }
    }

    /// Searches the levels after one whose cases are closed, one after the other, up to the last or to one without a point.
    fn search_later<W: Watch>(
        &mut self,
        alloc: Global,
        instance: &Instance,
        limits: Limits,
        watch: &mut W,
    ) -> Result<(), Ended>
        requires state { IsUnderWay instance.now limits self.old }
        requires closed { self.old.walk.next ≡ None }
        requires stops { W.stops watch.old < 2 ^ 64 - 1 }
        ensures closed { IfOk result (λ _. self.new.walk.next ≡ None) }
        ensures last { IfOk result (λ _. self.new.walk.best ≡ None ⊎ length instance.now.goals < self.new.level.goal + 2) }
        ensures moments { Changes instance.now limits (W.came watch.old watch.new) self.old self.new result }
    {
        while let Some(value) = value_to_reach(instance, &self.level, &self.walk.best) {
            match self.search_next(alloc, instance, limits, value, watch) {
                Ok(()) => {}
                Err(ended) => return Err(ended),
            }
        }
        Ok(())
    }

    /// Searches the levels, from the first one on.
    fn search_levels<W: Watch>(
        &mut self,
        alloc: Global,
        instance: &Instance,
        limits: Limits,
        watch: &mut W,
    ) -> Result<(), Ended>
        requires state { IsUnderWay instance.now limits self.old }
        requires stops { W.stops watch.old < 2 ^ 64 - 1 }
        ensures closed { IfOk result (λ _. self.new.walk.next ≡ None) }
        ensures last { IfOk result (λ _. self.new.walk.best ≡ None ⊎ length instance.now.goals < self.new.level.goal + 2) }
        ensures moments { Changes instance.now limits (W.came watch.old watch.new) self.old self.new result }
    {
        match self.search_level(alloc, instance, limits, watch) {
            Ok(()) => self.search_later(alloc, instance, limits, watch),
            Err(ended) => Err(ended),
        }
    }
}

/// Whether memory was wanting.
fn is_memory(cause: &Cause) -> bool
    ensures { result ≡ is_want cause.now }
{
    matches!(cause, Cause::Memory)
}

/// Whether a bound is told of a search that is given up for this cause: where one is asked for, and memory wasn't wanting.
fn tells_bound(limits: Limits, cause: &Cause) -> bool
    ensures { result ≡ limits.bound && not (is_want cause.now) }
{
    limits.bound && !is_memory(cause)
}

/// The claim of a search that ends before all its cases are closed: where a bound is asked for, and memory wasn't wanting, with that of
/// its last moment. Where memory for the bound is wanting, that is the cause.
fn end_early<L: Ledger>(
    alloc: Global,
    instance: &Instance,
    limits: Limits,
    relaxation: &Relaxation<L>,
    level: Level,
    mut walk: Walk,
    ended: Ended,
) -> Claim
    requires ended { (t : Terms) × (start : Option rules.Found) × (c : Clock) × AnswersSo instance.now t (asked limits) start relaxation.now level walk ended c }
    ensures { (o : Outcome) × (b : Option says.ProvedBound) × ClaimTellsWith result o b × TellsStop limits.bound (was_killed ended) o × ((t : Terms) (start : Option rules.Found) (c : Clock) → AnswersSo instance.now t (asked limits) start relaxation.now level walk ended c → IsAskedAnswer (problem instance.now) t (asked limits) start o b c) }
{
    match ended {
        Ended::Unbounded { found, ray } => claim_endless(found, ray, level.certs),
        Ended::Early { best, cause } => {
            if !tells_bound(limits, &cause) {
                return claim_early(best, cause, None);
            }
            let _some = instance.goals();
            walk.ray = None;
            let rows = relaxation.rows.as_slice();
            match bound_of(alloc, instance, rows, level, walk, &best) {
                Ok(bound) => claim_early(best, cause, bound),
                Err(_) => claim_early(best, Cause::Memory, None),
            }
        }
    }
}

/// Searches an instance's levels from this best point on, if any, and claims what that shows.
fn explore<W: Watch, L: Ledger>(
    alloc: Global,
    instance: &Instance,
    limits: Limits,
    mut state: SearchState<L>,
    first: Option<Found>,
    watch: &mut W,
) -> Searched
    requires begun { IsBegun instance.now limits state }
    requires values { HaveValues instance.now first }
    requires first { (gs : Option (List (Option Ratio))) × IsFirstBest (problem instance.now) gs (best_of first) }
    requires stops { W.stops watch.old < 2 ^ 64 - 1 }
    ensures { (n : ℕ) × (killed : Bool) × (o : Outcome) × (b : Option says.ProvedBound) × ClaimTellsWith result.claim o b × TellsStop limits.bound killed o × W.came watch.old watch.new (answers n killed) × ((stop : Option ℕ) → AgreesWith stop 0 n killed → IsAskedAnswer (problem instance.now) (terms limits stop) (asked limits) (best_of first) o b (record { turns = result.turns; looks = looks_after 0 n killed })) }
{
    state.walk.best = first;
    match state.search_levels(alloc, instance, limits, watch) {
        Ok(()) => {
            let SearchState {
                relaxation,
                level,
                walk,
            } = state;
            Searched {
                turns: relaxation.turns.done,
                claim: all_closed(walk.best, walk.nodes, level),
            }
        }
        Err(ended) => {
            let SearchState {
                relaxation,
                level,
                walk,
            } = state;
            Searched {
                turns: relaxation.turns.done,
                claim: end_early(alloc, instance, limits, &relaxation, level, walk, ended),
            }
        }
    }
}

/// Memory for the runs of a search that begins.
fn relax<L: Ledger>(
    alloc: Global,
    instance: &Instance,
    turns: u32,
    steps: Steps<L>,
) -> Result<Relaxation<L>, AllocError>
    ensures size { IfOk result (λ r. HasSize instance.now r) }
    ensures ends { IfOk result (λ r. r.ends.rows ≡ []) }
    ensures goal { IfOk result (λ r. r.ends.goal ≡ 0) }
    ensures rows { IfOk result (λ r. r.rows.items ≡ []) }
    ensures turns { IfOk result (λ r. r.turns ≡ record { done = 0; most = turns }) }
{
    let vars = instance.vars();
    let work = make_work(alloc, instance, 0)?;
    let ends = Cuts::of(alloc, vars)?;
    let turns = Turns {
        done: 0,
        most: u64::from(turns),
    };
    let rows = Vec::new(alloc);
    let slots = vec![in alloc; None; vars.len()]?;
    Ok(Relaxation {
        work,
        ends,
        turns,
        rows,
        slots,
        steps,
    })
}

/// The variables before any branch.
fn uncut_all(alloc: Global, vars: &[Var]) -> Result<Vec<Cut>, AllocError>
    ensures { IfOk result (λ cuts. map cut_variable cuts.items ≡ map variable vars.now) }
{
    let mut cuts = Vec::with_capacity(alloc, vars.len())?;
    for var in vars {
        cuts.push(uncut(*var))?;
    }
    Ok(cuts)
}

/// What the first case carries, which is nothing.
fn first_carried(alloc: Global, keeps: bool) -> Result<CarriedList, AllocError>
    ensures { IfOk result (λ list. keeps ≡ true → HoldsAt list.items 0 None) }
{
    let mut list = Vec::new(alloc);
    if keeps {
        keep(&mut list, 0, None)?;
    }
    Ok(list)
}

/// The walk before its first case, which is the instance itself.
fn first_walk(alloc: Global, instance: &Instance, keeps: bool) -> Result<Walk, AllocError>
    ensures walk { IfOk result (λ w. IsWalk (length instance.now.vars) w) }
    ensures fresh { IfOk result (λ w. IsFreshWalk instance.now w) }
    ensures first { IfOk result (λ w. (w.best ≡ None) × (w.ray ≡ None)) }
    ensures keeps { IfOk result (λ w. w.keeps ≡ keeps) }
    ensures carried { IfOk result CarriesNone }
{
    Ok(Walk {
        cuts: uncut_all(alloc, instance.vars())?,
        branches: Vec::new(alloc),
        next: Some(0),
        nodes: Nodes::new(alloc),
        best: None,
        ray: None,
        keeps,
        carried: first_carried(alloc, keeps)?,
    })
}

/// The search before its first case.
fn begin<L: Ledger>(
    alloc: Global,
    instance: &Instance,
    limits: Limits,
    steps: Steps<L>,
) -> Result<SearchState<L>, AllocError>
    ensures { IfOk result (λ s. IsBegun instance.now limits s) }
{
    let level = Level {
        goal: 0,
        certs: Certs::new(alloc),
        rounds: Rounds::new(alloc),
        before: 0,
    };
    Ok(SearchState {
        relaxation: relax(alloc, instance, limits.turns, steps)?,
        level,
        walk: first_walk(alloc, instance, limits.keeps())?,
    })
}

/// Searches an instance's levels from this best point on, if any, with a count of steps on this ledger.
fn search_on<W: Watch, L: Ledger>(
    alloc: Global,
    instance: &Instance,
    limits: Limits,
    first: Option<Found>,
    watch: &mut W,
    blank: Blank,
) -> Searched
    requires name { blank.name ≡ L.name }
    requires parts { blank.parts ≡ L.parts }
    requires some { 0 < blank.parts }
    requires values { HaveValues instance.now first }
    requires first { (gs : Option (List (Option Ratio))) × IsFirstBest (problem instance.now) gs (best_of first) }
    requires stops { W.stops watch.old < 2 ^ 64 - 1 }
    ensures { (n : ℕ) × (killed : Bool) × (o : Outcome) × (b : Option says.ProvedBound) × ClaimTellsWith result.claim o b × TellsStop limits.bound killed o × W.came watch.old watch.new (answers n killed) × ((stop : Option ℕ) → AgreesWith stop 0 n killed → IsAskedAnswer (problem instance.now) (terms limits stop) (asked limits) (best_of first) o b (record { turns = result.turns; looks = looks_after 0 n killed })) }
{
    match begin(alloc, instance, limits, Steps::<L>::new(blank)) {
        Ok(state) => explore(alloc, instance, limits, state, first, watch),
        Err(_) => Searched {
            claim: claim_early(first, Cause::Memory, None),
            turns: 0,
        },
    }
}

/// Searches an instance for a point that is best by its goals in their order, within at most `nodes` cases, and `turns` turns in
/// all runs; of an instance with one goal at most `rounds` rounding cuts are derived before the first branch. The watch is asked
/// once before each run of a case, be it the first or one with a cut more, and after each 64th turn.
///
/// Where an instance has one goal, no variable is whole or may be 0 besides, and the variables' first values keep each row between its
/// ends, a limit of as many turns as there are ways for each column to be basic or to have one of three places is never what
/// the search is given up for (Bland, 1977).
pub fn search<W: Watch>(
    alloc: Global,
    instance: &Instance,
    nodes: u32,
    turns: u32,
    rounds: u32,
    watch: &mut W,
) -> Searched
    requires { W.stops watch.old < 2 ^ 64 - 1 }
    ensures answer { (n : ℕ) × (o : Outcome) × ClaimTells result.claim o × W.came watch.old watch.new (answers n (is_killed o)) × ((stop : Option ℕ) → AgreesWith stop 0 n (is_killed o) → IsSearchAnswer (problem instance.now) (record { nodes = nodes; turns = turns; rounds = rounds; stop = stop }) o (record { turns = result.turns; looks = looks_after 0 n (is_killed o) })) }
    ensures enough { length instance.now.goals ≡ 1 → IsPlain (program instance.now) → HaveOneRange (program instance.now) → BeginsFeasible (program instance.now) → 4 ^ (length instance.now.vars + length instance.now.rows) ≤ turns → (n : ℕ) → claimed_cause result.claim ≡ Some (causes.TurnLimit n) → ⊥ }
{
    searches_of_which_nothing_is_asked_are_searches();
    let limits = Limits {
        nodes,
        turns,
        rounds,
        bound: false,
        gap: None,
    };
    search_on::<W, Brand>(alloc, instance, limits, None, watch, Blank::new(1))
}

/// Searches an instance as [`search`] does within these limits, from this best point on, if any.
///
/// The point is one that [`first_point`](crate::first_point) gave: what the search ends with is shown where it is one of the instance.
/// Where the limits say so, a search that is given up has the bound of its open cases, each closed by the multipliers of the nearest
/// run above it that had a best point. With a gap the search of an instance with one goal is given up before the first node at which
/// the best point is within that gap of the values of those runs.
pub fn search_from<W: Watch>(
    alloc: Global,
    instance: &Instance,
    limits: Limits,
    first: Option<Found>,
    watch: &mut W,
) -> Searched
    requires values { HaveValues instance.now first }
    requires first { (gs : Option (List (Option Ratio))) × IsFirstBest (problem instance.now) gs (best_of first) }
    requires stops { W.stops watch.old < 2 ^ 64 - 1 }
    ensures { (n : ℕ) × (killed : Bool) × (o : Outcome) × (b : Option says.ProvedBound) × ClaimTellsWith result.claim o b × TellsStop limits.bound killed o × W.came watch.old watch.new (answers n killed) × ((stop : Option ℕ) → AgreesWith stop 0 n killed → IsAskedAnswer (problem instance.now) (terms limits stop) (asked limits) (best_of first) o b (record { turns = result.turns; looks = looks_after 0 n killed })) }
{
    search_on::<W, Brand>(alloc, instance, limits, first, watch, Blank::new(1))
}
