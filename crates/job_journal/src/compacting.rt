//! A journal, written again without what jobs that are gone had.

ghost use Rattle.std.specs.Prelude.{◌≡◌, ◌⊎◌, ◌<◌, ◌≤◌, ◌++◌, ◌∷◌, [], List, ℕ, true, Some, if◌then◌else◌, length, IfOk, IfErr, IsErrOf, OnOk};
ghost use Rattle.disks.specs.Disks.{LeavesOnly};
ghost use Rattle.effects.specs.Records.{Deed, Killed, deed_of, AllFit, EndsBehindGate};
ghost use Rattle.effects.specs.Fold.{nothing};
ghost use Rattle.job_journal.specs.Journal.{FileRests, FileStandsFor};
ghost use Rattle.job_journal.specs.Ahead.{StandsAhead};
ghost use Rattle.job_journal.specs.Opening.{Calm};
ghost use Rattle.job_journal.specs.Drafts.{IsDrafted};
ghost use Rattle.job_journal.specs.Compacting.{GivesTable, HasNoRoom, IsShortOf, is_held, next_behind, shortened, shortened_one};
ghost use Rattle.job_journal.specs.CompactFaults.{CountsNew, CountsOld, IsOfLook, EndsAtLook, IsOfCopy, IsUnwritten, LeavesOld, OldIsDamaged};
ghost use Rattle.job_journal.specs.Copies.{Copies, IsCopiedUpTo, IsUndamaged, StopsShort};

use crate::contents::length_of;
use crate::draft::Draft;
use crate::faults::CompactFault;
use crate::journal::ROOM;
use crate::opening::open_journal;
use crate::pieces::Ahead;
use crate::scanning::{OpenFault, Sieve, behind_open, gate_and_record};
use disks::Disk;
use effects::{Effect, Replay, decode};
use std::alloc::Global;

/// Writes an effect, or leaves it out.
fn add_if<E: Disk>(draft: &mut Draft<E>, kept: bool, effect: &Effect) -> Result<(), CompactFault>
    requires drafted { E.told draft.old.disk ≡ true → (deeds : List Deed) × IsDrafted E.seen E.may_leave draft.old.disk draft.old.end deeds }
    ensures written { OnOk result ((deeds : List Deed) → E.told draft.old.disk ≡ true → IsDrafted E.seen E.may_leave draft.old.disk draft.old.end deeds
        → IsDrafted E.seen E.may_leave draft.new.disk draft.new.end (deeds ++ (if kept then deed_of effect.now ∷ [] else []))) }
    ensures any_moment { (deeds : List Deed) → E.told draft.old.disk ≡ true → IsDrafted E.seen E.may_leave draft.old.disk draft.old.end deeds
        → LeavesOnly E.moment E.left_since draft.old.disk draft.new.disk (FileStandsFor []) }
    ensures told { E.told draft.new.disk ≡ E.told draft.old.disk }
    ensures cause { CountsNew result (E.faults draft.old.disk) (E.faults draft.new.disk) }
    ensures err { IfErr result IsUnwritten }
    ensures long { (deeds : List Deed) → E.told draft.old.disk ≡ true → IsDrafted E.seen E.may_leave draft.old.disk draft.old.end deeds → IsErrOf result CompactFault.Long → HasNoRoom deeds (if kept then deed_of effect.now ∷ [] else []) }
{
    if kept {
        return draft.add(effect);
    }
    Ok(())
}

/// Writes that a job was killed, and given up.
fn add_gone<E: Disk>(
    draft: &mut Draft<E>,
    number: u64,
    given_up: &Effect,
) -> Result<(), CompactFault>
    requires drafted { E.told draft.old.disk ≡ true → (deeds : List Deed) × IsDrafted E.seen E.may_leave draft.old.disk draft.old.end deeds }
    ensures written { OnOk result ((deeds : List Deed) → E.told draft.old.disk ≡ true → IsDrafted E.seen E.may_leave draft.old.disk draft.old.end deeds
        → IsDrafted E.seen E.may_leave draft.new.disk draft.new.end (deeds ++ Killed number ∷ deed_of given_up.now ∷ [])) }
    ensures any_moment { (deeds : List Deed) → E.told draft.old.disk ≡ true → IsDrafted E.seen E.may_leave draft.old.disk draft.old.end deeds
        → LeavesOnly E.moment E.left_since draft.old.disk draft.new.disk (FileStandsFor []) }
    ensures told { E.told draft.new.disk ≡ E.told draft.old.disk }
    ensures cause { CountsNew result (E.faults draft.old.disk) (E.faults draft.new.disk) }
    ensures err { IfErr result IsUnwritten }
    ensures long { (deeds : List Deed) → E.told draft.old.disk ≡ true → IsDrafted E.seen E.may_leave draft.old.disk draft.old.end deeds → IsErrOf result CompactFault.Long → HasNoRoom deeds (Killed number ∷ deed_of given_up.now ∷ []) }
{
    match draft.add(&Effect::Killed { number }) {
        Ok(()) => draft.add(given_up),
        Err(lost) => Err(lost),
    }
}

/// Writes what an effect comes to where what jobs had that are gone is left out: of such a job stays that its number was given, and that
/// it was killed and given up. `next` is the number that is given next.
fn add_shortened<E: Disk, R: Replay>(
    draft: &mut Draft<E>,
    table: &R,
    next: u64,
    effect: &Effect,
) -> Result<(), CompactFault>
    requires drafted { E.told draft.old.disk ≡ true → (deeds : List Deed) × IsDrafted E.seen E.may_leave draft.old.disk draft.old.end deeds }
    ensures written { OnOk result ((deeds : List Deed) → E.told draft.old.disk ≡ true → IsDrafted E.seen E.may_leave draft.old.disk draft.old.end deeds
        → IsDrafted E.seen E.may_leave draft.new.disk draft.new.end (deeds ++ shortened_one (is_held (R.holds table.now)) next (deed_of effect.now))) }
    ensures any_moment { (deeds : List Deed) → E.told draft.old.disk ≡ true → IsDrafted E.seen E.may_leave draft.old.disk draft.old.end deeds
        → LeavesOnly E.moment E.left_since draft.old.disk draft.new.disk (FileStandsFor []) }
    ensures told { E.told draft.new.disk ≡ E.told draft.old.disk }
    ensures cause { CountsNew result (E.faults draft.old.disk) (E.faults draft.new.disk) }
    ensures err { IfErr result IsUnwritten }
    ensures long { (deeds : List Deed) → E.told draft.old.disk ≡ true → IsDrafted E.seen E.may_leave draft.old.disk draft.old.end deeds → IsErrOf result CompactFault.Long → HasNoRoom deeds (shortened_one (is_held (R.holds table.now)) next (deed_of effect.now)) }
{
    match effect {
        Effect::Issue => draft.add(effect),
        Effect::Begin { .. } => draft.add(effect),
        Effect::Enter { .. } => {
            if table.has_job(next) {
                return draft.add(effect);
            }
            draft.add(&Effect::Issue)
        }
        Effect::Send { number, .. } => add_if(draft, table.has_job(*number), effect),
        Effect::Finish { number, .. } => add_if(draft, table.has_job(*number), effect),
        Effect::Killed { number } => add_if(draft, table.has_job(*number), effect),
        Effect::Marked { number } => add_if(draft, table.has_job(*number), effect),
        Effect::GivenUp { number } => add_gone(draft, *number, effect),
    }
}

/// The number that is given next behind an effect.
fn next_behind(next: u64, effect: &Effect) -> u64
    ensures { result ≡ next_behind next (deed_of effect.now) }
{
    match effect {
        Effect::Begin { first } => *first,
        Effect::Issue => next.saturating_add(1),
        Effect::Enter { .. } => next.saturating_add(1),
        Effect::Send { .. } => next,
        Effect::Finish { .. } => next,
        Effect::Killed { .. } => next,
        Effect::Marked { .. } => next,
        Effect::GivenUp { .. } => next,
    }
}

/// Copies the record behind the gate at this place, and gives the number that is given next; None where that gate is the one that ends
/// the file.
fn copy_record<D: Disk, E: Disk, R: Replay>(
    disk: &mut D,
    ahead: &mut Ahead,
    draft: &mut Draft<E>,
    table: &R,
    next: u64,
) -> Result<Option<u64>, CompactFault>
    requires drafted { E.told draft.old.disk ≡ true → (deeds : List Deed) × IsDrafted E.seen E.may_leave draft.old.disk draft.old.end deeds }
    ensures copies { IfOk result (λ after. D.told disk.old ≡ true → StandsAhead (D.seen disk.old) ahead.old
        → Copies (is_held (R.holds table.now)) E.told E.seen E.may_leave (D.seen disk.old) ahead.old.place next ahead.new.place after draft.old.disk draft.new.disk draft.old.end draft.new.end) }
    ensures ahead { IfOk result (λ after. D.told disk.old ≡ true → StandsAhead (D.seen disk.old) ahead.old → StandsAhead (D.seen disk.old) ahead.new) }
    ensures less { IfOk result (λ after. (number : ℕ) → after ≡ Some number → ahead.old.place < ahead.new.place) }
    ensures within { IfOk result (λ after. ahead.new.place ≤ ahead.new.len) }
    ensures no_longer { ahead.new.len ≤ ahead.old.len }
    ensures drafted { IfOk result (λ after. E.told draft.old.disk ≡ true → (deeds : List Deed) × IsDrafted E.seen E.may_leave draft.new.disk draft.new.end deeds) }
    ensures any_moment { (deeds : List Deed) → E.told draft.old.disk ≡ true → IsDrafted E.seen E.may_leave draft.old.disk draft.old.end deeds
        → LeavesOnly E.moment E.left_since draft.old.disk draft.new.disk (FileStandsFor []) }
    ensures told { E.told draft.new.disk ≡ E.told draft.old.disk }
    ensures calm { Calm D.told D.seen D.may_leave D.moment D.left_since disk.old disk.new }

    // Of a file whose records end behind a gate it doesn't say that it is damaged.
    ensures undamaged { IfErr result (λ f. (done deeds : List Deed) → D.told disk.old ≡ true → StandsAhead (D.seen disk.old) ahead.old → AllFit done → AllFit deeds
        → IsCopiedUpTo (D.seen disk.old) ahead.old.place done → EndsBehindGate deeds (D.seen disk.old) → IsUndamaged f) }
    ensures untaken { IfErr result IsOfCopy }
    ensures long { (deeds : List Deed) → D.told disk.old ≡ true → StandsAhead (D.seen disk.old) ahead.old → E.told draft.old.disk ≡ true → IsDrafted E.seen E.may_leave draft.old.disk draft.old.end deeds → IsErrOf result CompactFault.Long
        → StopsShort (is_held (R.holds table.now)) (D.seen disk.old) ahead.old.place next deeds }
    ensures old_cause { CountsOld result (D.faults disk.old) (D.faults disk.new) }
    ensures new_cause { CountsNew result (E.faults draft.old.disk) (E.faults draft.new.disk) }
{
    match ahead.read_on(disk) {
        Ok(()) => {}
        Err(fault) => return Err(CompactFault::Old(fault)),
    }
    match behind_open(ahead.rest()) {
        None => Ok(None),
        Some(behind) => match decode(behind) {
            Some((effect, after)) => match add_shortened(draft, table, next, &effect) {
                Ok(()) => {
                    let size = gate_and_record(behind, after);
                    let next = next_behind(next, &effect);
                    ahead.pass(size);
                    Ok(Some(next))
                }
                Err(fault) => Err(fault),
            },
            // The file has become another one.
            None => Err(CompactFault::Old(OpenFault::Damaged { at: ahead.place() })),
        },
    }
}

/// Copies the records of a file that was opened.
fn copy<D: Disk, E: Disk, R: Replay>(
    alloc: Global,
    disk: &mut D,
    draft: &mut Draft<E>,
    table: &R,
) -> Result<(), CompactFault>
    requires drafted { E.told draft.old.disk ≡ true → (deeds : List Deed) × IsDrafted E.seen E.may_leave draft.old.disk draft.old.end deeds }
    ensures copied { OnOk result ((deeds : List Deed) → D.told disk.old ≡ true → E.told draft.old.disk ≡ true → AllFit deeds → EndsBehindGate deeds (D.seen disk.old) → IsDrafted E.seen E.may_leave draft.old.disk draft.old.end []
        → IsDrafted E.seen E.may_leave draft.new.disk draft.new.end (shortened (is_held (R.holds table.now)) 1 deeds)) }
    ensures any_moment { (deeds : List Deed) → E.told draft.old.disk ≡ true → IsDrafted E.seen E.may_leave draft.old.disk draft.old.end deeds
        → LeavesOnly E.moment E.left_since draft.old.disk draft.new.disk (FileStandsFor []) }
    ensures told { E.told draft.new.disk ≡ E.told draft.old.disk }
    ensures calm { Calm D.told D.seen D.may_leave D.moment D.left_since disk.old disk.new }
    ensures undamaged { IfErr result (λ f. (deeds : List Deed) → D.told disk.old ≡ true → AllFit deeds → EndsBehindGate deeds (D.seen disk.old) → IsUndamaged f) }
    ensures untaken { IfErr result IsOfCopy }
    ensures long { (deeds : List Deed) → D.told disk.old ≡ true → E.told draft.old.disk ≡ true → AllFit deeds → EndsBehindGate deeds (D.seen disk.old) → IsDrafted E.seen E.may_leave draft.old.disk draft.old.end []
        → IsErrOf result CompactFault.Long → HasNoRoom [] (shortened (is_held (R.holds table.now)) 1 deeds) }
    ensures old_cause { CountsOld result (D.faults disk.old) (D.faults disk.new) }
    ensures new_cause { CountsNew result (E.faults draft.old.disk) (E.faults draft.new.disk) }
{
    let mut ahead = match Ahead::at_front(alloc, disk) {
        Ok(ahead) => ahead,
        Err(fault) => return Err(CompactFault::Old(fault)),
    };
    let mut next = 1;
    loop {
        match copy_record(disk, &mut ahead, draft, table, next) {
            Ok(Some(after)) => next = after,
            Ok(None) => return Ok(()),
            Err(fault) => return Err(fault),
        }
    }
}

/// Looks whether a file has at most one byte.
fn look_at<E: Disk>(disk: &mut E) -> Result<(), CompactFault>
    ensures short { OnOk result (E.told disk.old ≡ true → length (E.seen disk.old) ≤ 1) }
    ensures taken { IfErr result (λ f. f ≡ CompactFault.Taken → E.told disk.old ≡ true → 1 < length (E.seen disk.old)) }
    ensures err { IfErr result IsOfLook }
    ensures calm { Calm E.told E.seen E.may_leave E.moment E.left_since disk.old disk.new }
    ensures cause { CountsNew result (E.faults disk.old) (E.faults disk.new) }
{
    match length_of(disk) {
        Ok(len) => {
            if len > 1 {
                return Err(CompactFault::Taken);
            }
            Ok(())
        }
        Err(_) => Err(CompactFault::NewFault),
    }
}

/// Writes the records of a file that was opened into one of at most one byte, which is given back.
fn write_compacted<D: Disk, E: Disk, R: Replay>(
    alloc: Global,
    disk: &mut D,
    new: E,
    table: &R,
) -> (Result<(), CompactFault>, E)
    requires short { E.told new ≡ true → length (E.seen new) ≤ 1 }
    ensures written { OnOk result.0 ((deeds : List Deed) → D.told disk.old ≡ true → E.told new ≡ true → AllFit deeds → EndsBehindGate deeds (D.seen disk.old)
        → (place : ℕ) × FileRests E.seen E.may_leave result.1 place (shortened (is_held (R.holds table.now)) 1 deeds)) }
    ensures any_moment { (deeds : List Deed) → D.told disk.old ≡ true → E.told new ≡ true → AllFit deeds → EndsBehindGate deeds (D.seen disk.old)
        → LeavesOnly E.moment E.left_since new result.1 (λ c. (E.may_leave new c ⊎ FileStandsFor [] c) ⊎ FileStandsFor (shortened (is_held (R.holds table.now)) 1 deeds) c) }
    ensures calm { Calm D.told D.seen D.may_leave D.moment D.left_since disk.old disk.new }
    ensures undamaged { IfErr result.0 (λ f. (deeds : List Deed) → D.told disk.old ≡ true → AllFit deeds → EndsBehindGate deeds (D.seen disk.old) → IsUndamaged f) }
    ensures untaken { IfErr result.0 IsOfCopy }
    ensures long { (deeds : List Deed) → D.told disk.old ≡ true → E.told new ≡ true → AllFit deeds → EndsBehindGate deeds (D.seen disk.old)
        → IsErrOf result.0 CompactFault.Long → HasNoRoom [] (shortened (is_held (R.holds table.now)) 1 deeds) }
    ensures old_cause { CountsOld result.0 (D.faults disk.old) (D.faults disk.new) }
    ensures new_cause { CountsNew result.0 (E.faults new) (E.faults result.1) }
{
    let buffer = match Vec::with_capacity(alloc, ROOM) {
        Ok(buffer) => buffer,
        Err(_) => return (Err(CompactFault::Old(OpenFault::Memory)), new),
    };
    match Draft::begun(new, buffer) {
        Ok(draft) => {
            let mut draft = draft;
            match copy(alloc, disk, &mut draft, table) {
                Ok(()) => draft.ended(),
                Err(fault) => (Err(fault), draft.into_disk()),
            }
        }
        Err(new) => (Err(CompactFault::NewFault), new),
    }
}

/// Writes a journal again, into a new file, without what jobs that are gone had: opened, that gives the same table. The old one stays.
/// Both disks are given back. A new one of more than one byte is left as it is.
pub fn compact<D: Disk, E: Disk, R: Replay, S: Sieve>(
    alloc: Global,
    old: D,
    new: E,
    table: &mut R,
    sieve: &mut S,
) -> (Result<(), CompactFault>, D, E)
    requires { R.holds table.old ≡ nothing }

    // The new one is at rest with effects that make the same table: those of the old one, without what jobs that are gone had.
    ensures written { OnOk result.0 (D.told old ≡ true → E.told new ≡ true
        → (short : List Deed) × IsShortOf S.accepted (D.seen old) (R.holds table.new) short × ((place : ℕ) × FileRests E.seen E.may_leave result.2 place short)) }

    // Who opens it gets this table.
    ensures same_table { OnOk result.0 (D.told old ≡ true → E.told new ≡ true → GivesTable S.accepted (E.seen result.2) (R.holds table.new)) }

    // A new one of more than one byte is only looked at, and the old one isn't touched then; and it is taken only where it has.
    ensures taken { E.told new ≡ true → 1 < length (E.seen new) → EndsAtLook result.0 × (result.1 ≡ old) × Calm E.told E.seen E.may_leave E.moment E.left_since new result.2 }
    ensures untaken { IfErr result.0 (λ f. f ≡ CompactFault.Taken → E.told new ≡ true → 1 < length (E.seen new)) }

    // It is too long only where one of those effects has no room behind the others.
    ensures long { IsErrOf result.0 CompactFault.Long → D.told old ≡ true → E.told new ≡ true
        → (short : List Deed) × IsShortOf S.accepted (D.seen old) (R.holds table.new) short × HasNoRoom [] short }

    // A crash at any moment leaves of the new one what it might have left before, no record, or all; and of the old one the effects that
    // it stood for.
    ensures any_moment { D.told old ≡ true → E.told new ≡ true
        → LeavesOnly E.moment E.left_since new result.2 (λ c. (E.may_leave new c ⊎ FileStandsFor [] c) ⊎ ((short : List Deed) × IsShortOf S.accepted (D.seen old) (R.holds table.new) short × FileStandsFor short c)) }
    ensures old_at_any_moment { (deeds : List Deed) → D.told old ≡ true → AllFit deeds → FileStandsFor deeds (D.seen old)
        → LeavesOnly D.moment D.left_since old result.1 (λ c. D.may_leave old c ⊎ FileStandsFor deeds c) }

    // It says of the old one that it is damaged only where it is.
    ensures damaged { IfErr result.0 (λ f. D.told old ≡ true → OldIsDamaged S.accepted (D.seen old) f) }

    // A damaged one stays as it was, and so it does where the new one has more than one byte.
    ensures old_left { IfErr result.0 (λ f. LeavesOld f → D.told old ≡ true → Calm D.told D.seen D.may_leave D.moment D.left_since old result.1) }

    // A fault of either disk is answered exactly where one was counted.
    ensures old_cause { CountsOld result.0 (D.faults old) (D.faults result.1) }
    ensures new_cause { CountsNew result.0 (E.faults new) (E.faults result.2) }
{
    let mut new = new;
    match look_at(&mut new) {
        Ok(()) => {}
        Err(fault) => return (Err(fault), old, new),
    }
    match open_journal(alloc, old, table, sieve) {
        Ok(journal) => {
            let mut old = journal.into_disk();
            let (ended, new) = write_compacted(alloc, &mut old, new, table);
            (ended, old, new)
        }
        Err((fault, old)) => (Err(CompactFault::Old(fault)), old, new),
    }
}
