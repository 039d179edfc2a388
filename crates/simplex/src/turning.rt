//! A turn, once it is chosen.
ghost use Rattle.std.specs.Prelude.{◌≡◌, ◌≢◌, ℕ, ◌+◌, ◌-◌, ◌^◌, ◌<◌, ◌≤◌, Bool, true, false, Option, None, List, length, slice_set, IfSome, IfOk, OnErr};
ghost use Rattle.evidence.specs.Instance.{Instance};
ghost use Rattle.bases.specs.Dictionary.{Entries, Values};
ghost use Rattle.bases.specs.Pivot.{IsPivoted, PivotFits};
ghost use Rattle.simplex_rules.specs.declared.columns.Status as Columns;
ghost use Rattle.simplex_rules.specs.Statuses.{is_basic, basic_in};
ghost use Rattle.simplex_rules.specs.Turns.{pivoted};
ghost use Rattle.simplex_rules.specs.Ends.{Terms};
ghost use Rattle.simplex_rules.specs.Runs.{BeginsTurn, PassesTurn};
ghost use Rattle.simplex_rules.specs.Looks.{answers, AgreesWith, looks_after};
ghost use Rattle.dictionary.specs.Dict.{Holds, HaveOneSize, entry_of};
ghost use Rattle.simplex.specs.Tables.{AreHeld};
ghost use Rattle.simplex.specs.Finishes.{stops_at, after_turn, next_at, IsLeftAt, CountsTurn, KeepsBasis, KeepsAt};
ghost use Rattle.simplex.specs.Choices.{IsSwap, IsFlip, IsSwapped};

use crate::answer::Turns;
use crate::choosing::{Flip, Swap};
use crate::finish::Finish;
use certificate::Step;
use dictionary::{Dict, Steps};
use fraction::Wide;
use os_io::Watch;
use simplex_rules::Status;
use std::sync::ledger::Ledger;

/// A turn is done: it is counted, and after each whose number is a multiple of 64 there is a look. Whether that stops the run.
fn count_turn<W: Watch>(turns: &mut Turns, watch: &mut W) -> bool
    requires more { turns.old.done < turns.old.most }
    requires stops { W.stops watch.old < 2 ^ 64 - 1 }
    ensures most { turns.new.most ≡ turns.old.most }
    ensures done { turns.new.done ≡ turns.old.done + 1 }
    ensures stops { result ≡ false → W.stops watch.new ≡ W.stops watch.old }
    ensures passes { (n : ℕ) × W.came watch.old watch.new (answers n result) × ((t : Terms) (looks : ℕ) (ss : List Columns.Status) → AgreesWith t.stop looks n result → PassesTurn t (record { turns = turns.old.done + 1; looks = looks }) ss (after_turn result ss (record { turns = turns.new.done; looks = looks_after looks n result }))) }
{
    turns.done += 1;
    if turns.done % 64 == 0 {
        return watch.look();
    }
    false
}

/// The basic column gets its status, and the other one enters the basis.
fn exchange<L: Ledger>(
    dict: &mut Dict<L>,
    statuses: &mut [Status],
    swap: Swap,
    steps: &mut Steps<L>,
) -> Result<(), Wide>
    requires held { AreHeld dict.old statuses.old }
    requires swap { IsSwap statuses.old (entry_of dict.old) swap }
    ensures size { HaveOneSize dict.old dict.new }
    ensures holds { (A : Entries) → Holds A dict.old → IfOk result (λ _. Holds A dict.new) }
    ensures statuses { IfOk result (λ _. statuses.new ≡ pivoted statuses.old swap.basic swap.nonbasic swap.status) }
    ensures held { IfOk result (λ _. AreHeld dict.new statuses.new) }
    ensures entries { IfOk result (λ _. IsPivoted (entry_of dict.old) swap.basic swap.nonbasic (entry_of dict.new)) }
    ensures fits { IfOk result (λ _. PivotFits (entry_of dict.old) swap.basic swap.nonbasic) }
    ensures wide { OnErr result (PivotFits (entry_of dict.old) swap.basic swap.nonbasic → ⊥) }
{
    dict.pivot(swap.basic, swap.nonbasic, steps)?;
    statuses[swap.basic as usize] = swap.status;
    statuses[swap.nonbasic as usize] = Status::Basic;
    Ok(())
}

/// A turn in which two columns change places. None where the run goes on.
pub fn swap_turn<W: Watch, L: Ledger>(
    dict: &mut Dict<L>,
    statuses: &mut [Status],
    swap: Swap,
    turns: &mut Turns,
    watch: &mut W,
    steps: &mut Steps<L>,
) -> Option<Finish>
    requires held { AreHeld dict.old statuses.old }
    requires swap { IsSwap statuses.old (entry_of dict.old) swap }
    requires stops { W.stops watch.old < 2 ^ 64 - 1 }
    ensures size { HaveOneSize dict.old dict.new }
    ensures most { turns.new.most ≡ turns.old.most }
    ensures counted { CountsTurn turns.old turns.new result }
    ensures stops { result ≡ None → W.stops watch.new ≡ W.stops watch.old }
    ensures left { IsLeftAt dict.new statuses.new result }
    ensures early { IfSome result (λ f. KeepsBasis f ⊥) }
    ensures swapped { result ≡ None → IsSwapped dict.old dict.new statuses.old statuses.new swap }
    ensures holds { (A : Entries) → Holds A dict.old → KeepsAt result (Holds A dict.new) }
    ensures turn { (n : ℕ) × W.came watch.old watch.new (answers n (stops_at result)) × ((I : Instance) (u : Entries) (w : Values) (t : Terms) (looks : ℕ) → t.turns ≡ turns.old.most → AgreesWith t.stop looks n (stops_at result) → BeginsTurn t (record { turns = turns.old.done; looks = looks }) (PivotFits (entry_of dict.old) swap.basic swap.nonbasic) (pivoted statuses.old swap.basic swap.nonbasic swap.status) (next_at I statuses.new u w (record { turns = turns.new.done; looks = looks_after looks n (stops_at result) }) result)) }
{
    if turns.done >= turns.most {
        return Some(Finish::TurnLimit);
    }
    match exchange(dict, statuses, swap, steps) {
        Err(_) => return Some(Finish::Wide(Step::Pivot)),
        Ok(()) => {
            if count_turn(turns, watch) {
                return Some(Finish::Stopped);
            }
            return None;
        }
    }
}

/// A turn in which a column goes to its other end. None where the run goes on.
pub fn flip_turn<W: Watch, L: Ledger>(
    dict: &Dict<L>,
    statuses: &mut [Status],
    flip: Flip,
    turns: &mut Turns,
    watch: &mut W,
) -> Option<Finish>
    requires held { AreHeld dict.now statuses.old }
    requires flip { IsFlip statuses.old flip }
    requires stops { W.stops watch.old < 2 ^ 64 - 1 }
    ensures most { turns.new.most ≡ turns.old.most }
    ensures counted { CountsTurn turns.old turns.new result }
    ensures stops { result ≡ None → W.stops watch.new ≡ W.stops watch.old }
    ensures left { IsLeftAt dict.now statuses.new result }
    ensures early { IfSome result (λ f. KeepsBasis f ⊥) }
    ensures flipped { result ≡ None → statuses.new ≡ slice_set statuses.old flip.col flip.status }
    ensures turn { (n : ℕ) × W.came watch.old watch.new (answers n (stops_at result)) × ((I : Instance) (u : Entries) (w : Values) (t : Terms) (looks : ℕ) → t.turns ≡ turns.old.most → AgreesWith t.stop looks n (stops_at result) → BeginsTurn t (record { turns = turns.old.done; looks = looks }) (Unit {0}) (slice_set statuses.old flip.col flip.status) (next_at I statuses.new u w (record { turns = turns.new.done; looks = looks_after looks n (stops_at result) }) result)) }
{
    let _dict = dict;
    if turns.done >= turns.most {
        return Some(Finish::TurnLimit);
    }
    statuses[flip.col as usize] = flip.status;
    if count_turn(turns, watch) {
        return Some(Finish::Stopped);
    }
    None
}
