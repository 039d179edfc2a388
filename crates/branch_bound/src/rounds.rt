//! A rounding cut before the first branch.
ghost use Rattle.std.specs.Prelude.{◌≡◌, ◌↔◌, ℕ, ◌+◌, ◌-◌, ◌^◌, ◌<◌, ◌≤◌, ◌++◌, pos, neg_ℤ, ◌≤ℤ◌, false, Option, None, Some, List, [], ◌∷◌, length, IsTrue, IfOk, IfErr};
ghost use Rattle.std.specs.List.{All};
ghost use Rattle.rational.specs.Ratio.{Ratio, whole as whole_of};
ghost use Rattle.rational.specs.Width.{most};
ghost use Rattle.fraction.specs.Frac.{ratio, ratios};
ghost use Rattle.fraction.specs.declared.frac.Frac as fracs;
ghost use Rattle.fraction.specs.declared.ends.Entry as listed;
ghost use Rattle.fraction.specs.declared.ends.End.TheVariants.{At, Inf};
ghost use Rattle.cert_checker.specs.Programs.{coefficient, with_rows, AreUncut, HoldsRow, numerators};
ghost use Rattle.evidence.specs.Instance as Of;
ghost use Rattle.evidence.specs.Instance.{entry_at};
ghost use Rattle.evidence.specs.OneDenominator.{number_at};
ghost use Rattle.evidence.specs.Point.{value_at};
ghost use Rattle.evidence.specs.Rounds.{RoundBy, derive};
ghost use Rattle.instance.specs.Parts.{IsAscending};
ghost use Rattle.certificate.specs.Meanings as Means;
ghost use Rattle.simplex.specs.Cuts.{range_of, IsAdded};
ghost use Rattle.case_tree.specs.Cuts.{cut};
ghost use Rattle.simplex_rules.specs.Ends as runs;
ghost use Rattle.simplex_rules.specs.Ends.{Terms, Clock, Best};
ghost use Rattle.simplex_rules.specs.Runs.{EndsAtBasis};
ghost use Rattle.simplex.specs.Memory.{point_of, statuses_in, IsAtBasis};
ghost use Rattle.instance.specs.Program.{entries, program, problem, row as row_of};
ghost use Rattle.search_rules.specs.Cuts.{TriesBasis};
ghost use Rattle.search_rules.specs.Search.{To, Out, GoesFromTrial};
ghost use Rattle.branch_bound.specs.declared.limits.Limits as limits;
ghost use Rattle.branch_bound.specs.Walks.{case, rest, IsAt};
ghost use Rattle.branch_bound.specs.Divisions.{IsOpenAt};
ghost use Rattle.branch_bound.specs.Levels.{moment, IsGiven, IsAtLevel};
ghost use Rattle.branch_bound.specs.Trials.{tried, HoldsCut, RanTo, IsFreshWalk, TriesAt};
ghost use Rattle.branch_bound.specs.Cases.{outcome_of, was_killed, HasSize, SuitsLevel, IsWalkReady, HasGoneOn, clock_at, OrMemory, StaysAt, ImprovesAt, HaveValues};
ghost use Rattle.branch_bound.specs.declared.carried.Carried as kept;
ghost use Rattle.branch_bound.specs.Bounds.{HasCarried, Leaves};

use crate::carried::{Carried, carry};
use crate::claims::{branch, give_up, too_wide};
use crate::cutting::{Trial, try_cut};
use crate::ended::Ended;
use crate::level::Level;
use crate::limits::Limits;
use crate::meeting::take_point;
use crate::open::{Open, first_open};
use crate::relaxation::{Relaxation, add_row};
use crate::walk::Walk;
use case_tree::whole;
use cert_checker::{Added as Checked, put};
use certificate::{Cause, Mults, Round, Step};
use fraction::{End, Entry, Frac};
use instance::{Instance, Row, zero};
use items::Items;
use simplex::{Added, Ends};
use std::alloc::{AllocError, Global};
use std::sync::ledger::Ledger;

/// Whether one more cut may be derived: at the first case of an instance of one goal, where there are fewer than the most.
pub fn may_cut(instance: &Instance, limits: Limits, level: &Level, walk: &Walk) -> bool
    ensures { IsTrue result ↔ ((length instance.now.goals ≡ 1) × (walk.now.nodes ≡ []) × (length level.now.rounds < limits.rounds)) }
{
    let is_first = instance.goals().len() == 1 && walk.nodes.len() == 0;
    is_first && level.rounds.len() < limits.rounds as usize
}

/// Adds an entry, unless it is 0.
fn add_entry(entries: &mut Items<Entry>, row: u32, col: u32, value: Frac) -> Result<(), AllocError>
    ensures none { IfOk result (λ _. value.numer ≡ pos 0 → entries.new ≡ entries.old) }
    ensures some { IfOk result (λ _. (value.numer ≡ pos 0 → ⊥) → entries.new ≡ entries.old ++ record { row = row; col = col; value = value } ∷ []) }
{
    if value.numer == 0 {
        return Ok(());
    }
    entries.push(Entry { row, col, value })
}

/// The entries of a row of these coefficients: those that aren't 0.
pub fn entries_of(alloc: Global, row: u32, numbers: &[Frac]) -> Result<Items<Entry>, AllocError>
    requires { length numbers.now < 2 ^ 32 }
    ensures own { IfOk result (λ es. All (λ (e : listed.Entry). e.row ≡ row) es) }
    ensures ascending { IfOk result IsAscending }
    ensures inside { IfOk result (All (λ (e : listed.Entry). e.col < length numbers.now)) }
    ensures nonzero { IfOk result (All (λ (e : listed.Entry). e.value.numer ≡ pos 0 → ⊥)) }
    ensures values { IfOk result (λ es. (j : ℕ) → j < length numbers.now → entry_at (entries es) row j ≡ value_at (ratios numbers.now) j) }
{
    let mut entries = Items::new(alloc);
    for j in 0..numbers.len() {
        add_entry(&mut entries, row, j as u32, numbers[j])?;
    }
    Ok(entries)
}

/// The row of a cut, whose coefficients the slots have.
fn cut_row(alloc: Global, slots: &[Option<Frac>], low: i128) -> Result<Checked, AllocError>
    requires { neg_ℤ (pos most) ≤ℤ low }
    ensures ends { IfOk result (λ r. (x : fracs.Frac) × (r.ends ≡ record { lb = At x; ub = Inf }) × (ratio x ≡ whole_of low)) }
    ensures wide { IfOk result (λ r. length r.coefficients.items ≡ length slots.now) }
    ensures row { IfOk result (λ r. (n : ℕ) (f : ℕ → Ratio) → n ≤ length slots.now → HoldsRow n f slots.now → (j : ℕ) → j < n → coefficient r j ≡ f j) }
{
    let lb = End::At(whole(low));
    let ub = End::Inf;
    let none = zero();
    let mut row = Checked {
        ends: Row { lb, ub },
        coefficients: vec![in alloc; none; slots.len()]?,
    };
    put(&mut row, Row { lb, ub }, slots);
    Ok(row)
}

/// The row of a cut as runs are given it.
fn added_row(alloc: Global, place: u32, row: &Checked) -> Result<Added, AllocError>
    requires few { length row.now.coefficients.items < 2 ^ 32 }
    requires ends { (x : fracs.Frac) × (row.now.ends ≡ record { lb = At x; ub = Inf }) }
    ensures added { IfOk result (IsAdded (length row.now.coefficients.items) place) }
    ensures ends { IfOk result (λ r. range_of r.ends ≡ row_of row.now.ends) }
    ensures values { IfOk result (λ r. (j : ℕ) → j < length row.now.coefficients.items → entry_at (entries r.entries) place j ≡ coefficient row.now j) }
{
    let entries = entries_of(alloc, place, row.coefficients.as_slice())?;
    let ends = Ends {
        lb: row.ends.lb,
        ub: row.ends.ub,
    };
    Ok(Added { ends, entries })
}

/// Adds the row of a cut, whose coefficients the slots have, for runs and for the cuts after it.
fn add_cut<L: Ledger>(
    alloc: Global,
    instance: &Instance,
    relaxation: &mut Relaxation<L>,
    level: &mut Level,
    mults: Mults,
    low: i128,
) -> Result<(), AllocError>
    requires suits { SuitsLevel instance.now relaxation.old level.old }
    requires one { length instance.now.goals ≡ 1 }
    requires holds { HoldsRow (length instance.now.vars) (λ j. whole_of (number_at (numerators relaxation.old.slots.items) j)) relaxation.old.slots.items }
    requires low { neg_ℤ (pos most) ≤ℤ low }
    ensures suits { IfOk result (λ _. SuitsLevel instance.now relaxation.new level.new) }
    ensures turns { relaxation.new.turns ≡ relaxation.old.turns }
    ensures level { (level.new.goal ≡ level.old.goal) × (level.new.before ≡ level.old.before) }
    ensures rounds { IfOk result (λ _. Means.rounds level.new.rounds ≡ Means.rounds level.old.rounds ++ RoundBy (Means.multipliers mults) ∷ []) }
    ensures certs { level.new.certs ≡ level.old.certs }
    ensures at { IfOk result (λ _. (L D : Of.Instance) → IsAtLevel instance.now relaxation.old level.old L D → IsAtLevel instance.now relaxation.new level.new L (derive D (numerators relaxation.old.slots.items) low)) }
{
    let row = cut_row(alloc, relaxation.slots.as_slice(), low)?;
    let place = (instance.rows().len() + relaxation.rows.len()) as u32;
    let added = added_row(alloc, place, &row)?;
    add_row(alloc, instance, relaxation, added)?;
    relaxation.rows.push(row)?;
    level.rounds.push(Round::Whole(mults))
}

/// Tries a cut at the run's last basis; the slots have its coefficients then.
fn try_at<L: Ledger>(
    alloc: Global,
    instance: &Instance,
    relaxation: &mut Relaxation<L>,
    walk: &Walk,
) -> Result<Trial, AllocError>
    requires size { HasSize instance.now relaxation.old }
    requires width { length walk.now.cuts.items ≡ length instance.now.vars }
    requires uncut { AreUncut (program instance.now) walk.now.cuts.items }
    requires beside { length relaxation.old.rows.items ≡ length relaxation.old.ends.rows }
    requires stands { IsAtBasis relaxation.old.work }
    requires ran { (e : runs.End) × RanTo (with_rows (program instance.now) relaxation.old.rows.items) e relaxation.old.work }
    ensures tries { IfOk result (λ trial. TriesBasis (with_rows (program instance.now) relaxation.old.rows.items) (point_of relaxation.old.work) (statuses_in relaxation.old.work) (tried trial relaxation.new.slots.items)) }
    ensures holds { IfOk result (λ trial. HoldsCut (length instance.now.vars) trial relaxation.new.slots.items) }
    ensures slots { length relaxation.new.slots.items ≡ length relaxation.old.slots.items }
    ensures work { relaxation.new.work ≡ relaxation.old.work }
    ensures ends { relaxation.new.ends ≡ relaxation.old.ends }
    ensures turns { relaxation.new.turns ≡ relaxation.old.turns }
    ensures rows { relaxation.new.rows.items ≡ relaxation.old.rows.items }
{
    try_cut(
        alloc,
        instance,
        &relaxation.work,
        relaxation.rows.as_slice(),
        walk.cuts.as_slice(),
        relaxation.slots.as_mut_slice(),
        &mut relaxation.steps,
    )
}

/// Goes on from what came of trying a cut: where there is one, the case is searched anew with it, and else it is divided.
fn go_on<L: Ledger>(
    alloc: Global,
    instance: &Instance,
    relaxation: &mut Relaxation<L>,
    level: &mut Level,
    walk: &mut Walk,
    depth: usize,
    at: Open,
    carried: Carried,
    trial: Trial,
) -> Result<(), Ended>
    requires suits { SuitsLevel instance.now relaxation.old level.old }
    requires at { IsAt (length instance.now.vars) walk.old depth }
    requires few { length walk.old.nodes < 2 ^ 32 - 1 }
    requires one { length instance.now.goals ≡ 1 }
    requires fresh { IsFreshWalk instance.now walk.old }
    requires divides { (D : Of.Instance) → IsOpenAt (cut D walk.old.cuts.items) (point_of relaxation.old.work) at.col at.by }
    requires holds { HoldsCut (length instance.now.vars) trial relaxation.old.slots.items }
    requires values { HaveValues instance.now walk.old.best }
    requires carried { HasCarried walk.old }
    ensures carried { IfOk result (λ _. HasCarried walk.new) }
    ensures leaves { IfOk result (λ _. (new : List (Option kept.Carried)) × All (λ y. y ≡ Some carried) new × Leaves walk.old walk.new depth new) }
    ensures on { IfOk result (λ _. (l : limits.Limits) → IsWalkReady instance.now l relaxation.old level.old walk.old depth → length level.old.rounds < l.rounds → HasGoneOn instance.now l level.old walk.old relaxation.new level.new walk.new) }
    ensures turns { relaxation.new.turns ≡ relaxation.old.turns }
    ensures ok { IfOk result (λ _. (L D : Of.Instance) (t : Terms) (c : Clock) → IsAtLevel instance.now relaxation.old level.old L D → (E : Of.Instance) × IsAtLevel instance.now relaxation.new level.new L E × GoesFromTrial (problem instance.now) t (case D walk.old depth) (rest D walk.old depth) (moment instance.now L D level.old walk.old c) (point_of relaxation.old.work) (tried trial relaxation.old.slots.items) (To (moment instance.now L E level.new walk.new c))) }
    ensures err { IfErr result (λ ended. OrMemory walk.old ended ((L D : Of.Instance) (t : Terms) (looks : ℕ) → let c = clock_at relaxation.old looks in GoesFromTrial (problem instance.now) t (case D walk.old depth) (rest D walk.old depth) (moment instance.now L D level.old walk.old c) (point_of relaxation.old.work) (tried trial relaxation.old.slots.items) (Out (outcome_of (Means.certificates level.old.certs) ended) c))) }
    ensures certs { level.new.certs ≡ level.old.certs }
    ensures stays { IfErr result (StaysAt relaxation.old level.old walk.old relaxation.new level.new walk.new) }
    ensures went_on { IfErr result (λ ended. was_killed ended ≡ false) }
{
    match trial {
        Trial::NoCut => branch(walk, depth, at, Some(carried)),
        Trial::WideCut => Err(too_wide(walk, relaxation.turns.done, Step::Round)),
        Trial::Cut { mults, low } => {
            match add_cut(alloc, instance, relaxation, level, mults, low) {
                Ok(()) => {}
                Err(_) => return Err(give_up(walk, Cause::Memory)),
            }
            match carry(walk.keeps, &mut walk.carried, depth, Some(carried)) {
                Ok(()) => Ok(()),
                Err(_) => Err(give_up(walk, Cause::Memory)),
            }
        }
    }
}

/// Tries a cut before the case at hand is divided; where there is one, the case is searched anew with it.
fn cut_or_branch<L: Ledger>(
    alloc: Global,
    instance: &Instance,
    relaxation: &mut Relaxation<L>,
    level: &mut Level,
    walk: &mut Walk,
    depth: usize,
    at: Open,
    carried: Carried,
) -> Result<(), Ended>
    requires suits { SuitsLevel instance.now relaxation.old level.old }
    requires at { IsAt (length instance.now.vars) walk.old depth }
    requires few { length walk.old.nodes < 2 ^ 32 - 1 }
    requires one { length instance.now.goals ≡ 1 }
    requires fresh { IsFreshWalk instance.now walk.old }
    requires divides { (D : Of.Instance) → IsOpenAt (cut D walk.old.cuts.items) (point_of relaxation.old.work) at.col at.by }
    requires stands { IsAtBasis relaxation.old.work }
    requires ran { (e : runs.End) × ((D : Of.Instance) → IsGiven instance.now relaxation.old.ends D → RanTo (cut D walk.old.cuts.items) e relaxation.old.work) }
    requires values { HaveValues instance.now walk.old.best }
    requires carried { HasCarried walk.old }
    ensures carried { IfOk result (λ _. HasCarried walk.new) }
    ensures leaves { IfOk result (λ _. (new : List (Option kept.Carried)) × All (λ y. y ≡ Some carried) new × Leaves walk.old walk.new depth new) }
    ensures on { IfOk result (λ _. (l : limits.Limits) → IsWalkReady instance.now l relaxation.old level.old walk.old depth → length level.old.rounds < l.rounds → HasGoneOn instance.now l level.old walk.old relaxation.new level.new walk.new) }
    ensures turns { relaxation.new.turns ≡ relaxation.old.turns }
    ensures ok { IfOk result (λ _. (L D : Of.Instance) (t : Terms) (c : Clock) → IsAtLevel instance.now relaxation.old level.old L D → (E : Of.Instance) × IsAtLevel instance.now relaxation.new level.new L E × TriesAt instance.now L D level.old walk.old depth t c (point_of relaxation.old.work) (statuses_in relaxation.old.work) (To (moment instance.now L E level.new walk.new c))) }
    ensures err { IfErr result (λ ended. OrMemory walk.old ended ((L D : Of.Instance) (t : Terms) (looks : ℕ) → let c = clock_at relaxation.old looks in IsAtLevel instance.now relaxation.old level.old L D → TriesAt instance.now L D level.old walk.old depth t c (point_of relaxation.old.work) (statuses_in relaxation.old.work) (Out (outcome_of (Means.certificates level.old.certs) ended) c))) }
    ensures certs { level.new.certs ≡ level.old.certs }
    ensures stays { IfErr result (StaysAt relaxation.old level.old walk.old relaxation.new level.new walk.new) }
    ensures went_on { IfErr result (λ ended. was_killed ended ≡ false) }
{
    match try_at(alloc, instance, relaxation, walk) {
        Ok(trial) => go_on(
            alloc, instance, relaxation, level, walk, depth, at, carried, trial,
        ),
        Err(_) => Err(give_up(walk, Cause::Memory)),
    }
}

/// Goes on from the run's point where one more cut may be derived: takes the point, or tries a cut before the case is divided.
pub fn improve<L: Ledger>(
    alloc: Global,
    instance: &Instance,
    relaxation: &mut Relaxation<L>,
    level: &mut Level,
    mults: Mults,
    bound: Frac,
    walk: &mut Walk,
    depth: usize,
) -> Result<(), Ended>
    requires suits { SuitsLevel instance.now relaxation.old level.old }
    requires at { IsAt (length instance.now.vars) walk.old depth }
    requires few { length walk.old.nodes < 2 ^ 32 - 1 }
    requires one { length instance.now.goals ≡ 1 }
    requires fresh { IsFreshWalk instance.now walk.old }
    requires ray { walk.old.ray ≡ None }
    requires stands { IsAtBasis relaxation.old.work }
    requires ran { (b : Ratio) × ((D : Of.Instance) → IsGiven instance.now relaxation.old.ends D → RanTo (cut D walk.old.cuts.items) (Best b (point_of relaxation.old.work) (Means.multipliers mults)) relaxation.old.work) }
    requires values { HaveValues instance.now walk.old.best }
    requires carried { HasCarried walk.old }
    ensures carried { IfOk result (λ _. HasCarried walk.new) }
    ensures leaves { IfOk result (λ _. (new : List (Option kept.Carried)) × All (λ y. y ≡ Some (record { bound = bound; mults = mults })) new × Leaves walk.old walk.new depth new) }
    ensures on { IfOk result (λ _. (l : limits.Limits) → IsWalkReady instance.now l relaxation.old level.old walk.old depth → length level.old.rounds < l.rounds → HasGoneOn instance.now l level.old walk.old relaxation.new level.new walk.new) }
    ensures turns { relaxation.new.turns ≡ relaxation.old.turns }
    ensures ok { IfOk result (λ _. (L D : Of.Instance) (t : Terms) (before c : Clock) (b : Ratio) → IsAtLevel instance.now relaxation.old level.old L D → length level.old.rounds < t.rounds → EndsAtBasis (cut D walk.old.cuts.items) false t before (Best b (point_of relaxation.old.work) (Means.multipliers mults)) c (statuses_in relaxation.old.work) → (E : Of.Instance) × IsAtLevel instance.now relaxation.new level.new L E × ImprovesAt instance.now L D level.old walk.old depth t before c b (point_of relaxation.old.work) (Means.multipliers mults) (To (moment instance.now L E level.new walk.new c))) }
    ensures err { IfErr result (λ ended. OrMemory walk.old ended ((L D : Of.Instance) (t : Terms) (before : Clock) (looks : ℕ) (b : Ratio) → let c = clock_at relaxation.old looks in IsAtLevel instance.now relaxation.old level.old L D → length level.old.rounds < t.rounds → EndsAtBasis (cut D walk.old.cuts.items) false t before (Best b (point_of relaxation.old.work) (Means.multipliers mults)) c (statuses_in relaxation.old.work) → ImprovesAt instance.now L D level.old walk.old depth t before c b (point_of relaxation.old.work) (Means.multipliers mults) (Out (outcome_of (Means.certificates level.old.certs) ended) c))) }
    ensures certs { level.new.certs ≡ level.old.certs }
    ensures stays { IfErr result (StaysAt relaxation.old level.old walk.old relaxation.new level.new walk.new) }
    ensures went_on { IfErr result (λ ended. was_killed ended ≡ false) }
{
    let _few = instance.vars();
    match first_open(&relaxation.work, walk.cuts.as_slice()) {
        Some(at) => {
            let carried = Carried { bound, mults };
            cut_or_branch(alloc, instance, relaxation, level, walk, depth, at, carried)
        }
        None => take_point(alloc, instance, relaxation, mults, walk, depth),
    }
}
