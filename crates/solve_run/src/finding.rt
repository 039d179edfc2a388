//! The search of a job's instance.
ghost use Rattle.std.specs.Prelude.{◌≡◌, ℕ, ◌-◌, ◌^◌, ◌<◌, Bool, Option, IfOk};
ghost use Rattle.evidence.specs.ProvedBounds.{ProvedBound};
ghost use Rattle.instance.specs.Program.{problem};
ghost use Rattle.simplex_rules.specs.Looks.{answers, AgreesWith, looks_after};
ghost use Rattle.search_rules.specs.Search.{Outcome};
ghost use Rattle.search_rules.specs.Asked.{IsAskedAnswer};
ghost use Rattle.branch_bound.specs.Bounds.{gap_or_none};
ghost use Rattle.branch_bound.specs.Walks.{best as best_of};
ghost use Rattle.branch_bound.specs.Cases.{HaveValues};
ghost use Rattle.branch_bound.specs.Claims.{ClaimTellsWith};
ghost use Rattle.solve_run.specs.Firsts.{IsFirstOf};
ghost use Rattle.solve_run.specs.Asking.{search_gap, job_asked};
ghost use Rattle.solve_run.specs.Untils.{job_terms, by_time, timed_claim, named, FindsUntil};

use branch_bound::{Found, Gap, Limits, Searched, first_point, search_from};
use certificate::{Cause, Claim};
use fraction::Frac;
use instance::Instance;
use os_io::{Memory, Watch};
use osol_grammar::Options;
use std::alloc::Global;
use std::time::Clock;
use stop_reasons::{Deadline, Until};

/// The point that the options begin the search with, where they say values, and these are a point of the instance.
pub fn first_of(
    alloc: Global,
    instance: &Instance,
    options: &Options,
) -> Result<Option<Found>, Memory>
    ensures { IfOk result (λ first. IsFirstOf (problem instance.now) options.now (best_of first)) }
{
    match &options.first {
        Some(given) => first_point(alloc, instance, given.as_slice()),
        None => Ok(None),
    }
}

/// The gap of the options, as a search takes it.
fn gap_of(options: &Options) -> Option<Gap>
    ensures { gap_or_none result ≡ search_gap options.now.gap }
{
    match options.gap {
        None => None,
        Some(gap) => {
            if gap.is_percent {
                Some(Gap::Percent(gap.number))
            } else {
                Some(Gap::Number(gap.number))
            }
        }
    }
}

/// Searches an instance within the options' limits, but for their time, and with what they ask of it, from this point on, if from one.
fn find<W: Watch>(
    alloc: Global,
    instance: &Instance,
    options: &Options,
    first: Option<Found>,
    watch: &mut W,
) -> Searched
    requires values { HaveValues instance.now first }
    requires first { IsFirstOf (problem instance.now) options.now (best_of first) }
    requires stops { W.stops watch.old < 2 ^ 64 - 1 }
    ensures { (n : ℕ) × (killed : Bool) × (o : Outcome) × (b : Option ProvedBound) × ClaimTellsWith result.claim o b × W.came watch.old watch.new (answers n killed) × ((stop : Option ℕ) → AgreesWith stop 0 n killed → IsAskedAnswer (problem instance.now) (job_terms options.now stop) (job_asked options.now) (best_of first) o b (record { turns = result.turns; looks = looks_after 0 n killed })) }
{
    let limits = Limits {
        nodes: options.nodes,
        turns: options.turns,
        rounds: options.rounds,
        bound: options.bound == 1,
        gap: gap_of(options),
    };
    search_from(alloc, instance, limits, first, watch)
}

/// The time that was over in place of a look that stopped the search, and each other cause as it is.
fn by_time(seconds: Frac, cause: Cause) -> Cause
    ensures { result ≡ by_time seconds cause }
{
    match cause {
        Cause::Killed => Cause::TimeLimit(seconds),
        cause => cause,
    }
}

/// A claim of a search that was stopped for a time: its cause is the time, and its bound stays.
fn timed_claim(seconds: Frac, mut claim: Claim) -> Claim
    ensures { result ≡ timed_claim seconds claim }
{
    match &mut claim {
        Claim::BestSoFar { cause, .. } => *cause = by_time(seconds, *cause),
        Claim::Unsure { cause, .. } => *cause = by_time(seconds, *cause),
        _ => {}
    }
    claim
}

/// A claim that a search found, with the time that was over as its cause, where it was the time that stopped it.
fn named(was_time: bool, seconds: Option<Frac>, claim: Claim) -> Claim
    ensures { result ≡ named was_time seconds claim }
{
    if !was_time {
        return claim;
    }
    match seconds {
        Some(seconds) => timed_claim(seconds, claim),
        None => claim,
    }
}

/// Searches an instance within the options' limits, from this point on, if from one, and until their time is over by this clock, where they say one. The watch is asked at
/// each look, and the clock where the watch says to go on.
pub fn find_until<W: Watch, T: Clock>(
    alloc: Global,
    instance: &Instance,
    options: &Options,
    first: Option<Found>,
    clock: &T,
    watch: &mut W,
) -> Searched
    requires values { HaveValues instance.now first }
    requires first { IsFirstOf (problem instance.now) options.now (best_of first) }
    requires stops { W.stops watch.old < 2 ^ 64 - 1 }
    ensures { FindsUntil instance.now options.now (best_of first) (W.came watch.old watch.new) result.claim result.turns }
{
    let mut until = Until {
        watch,
        deadline: Deadline::new(clock, options.seconds),
        times: 0,
    };
    let Searched { claim, turns } = find(alloc, instance, options, first, &mut until);
    let was_time = until.times > 0;
    let Until {
        watch: _watch,
        deadline: _,
        times: _,
    } = until;
    Searched {
        claim: named(was_time, options.seconds, claim),
        turns,
    }
}
