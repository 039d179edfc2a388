//! The records of a file, read.

ghost use Rattle.std.specs.Prelude.{◌≡◌, ◌↔◌, ◌<◌, ◌≤◌, ◌+◌, ◌-◌, ◌^◌, ◌∷◌, List, ℕ, true, false, Some, None, if◌then◌else◌, length, IfOk, IfErr, IfSome, IfNone};
ghost use Rattle.effects.specs.Records.{deed_of};
ghost use Rattle.effects.specs.Fold.{nothing};
ghost use Rattle.job_journal.specs.Ahead.{StandsAhead};
ghost use Rattle.job_journal.specs.Opening.{Calm, CountsOpening, DamagedIn, IsAdmitted, ReadsRecords, StepsTo, StopsAt, TakesOn, TakesRecord, WasMade};
ghost use Rattle.std.specs.Option.{option_copied};

use crate::pieces::Ahead;
use disks::Disk;
use effects::{Document, Effect, Replay, decode};
use os_io::Memory;
use thiserror::Error;

/// Why a file wasn't opened.
#[derive(Clone, Copy, PartialEq, Eq, Debug, Drop, Error)]
pub enum OpenFault {
    /// The disk wasn't read.
    #[error("the disk was not read")]
    ReadFault,
    /// The disk wasn't written, cut or brought to rest.
    #[error("the disk was not written")]
    WriteFault,
    /// Behind the open gate at this place stands no record that is possible there.
    #[error("damaged at {at}")]
    Damaged { at: u64 },
    /// There was no memory.
    #[error("there was no memory")]
    Memory,
}

/// What says which documents are accepted.
pub trait Sieve {
    ghost use Rattle.std.specs.Prelude.{◌≡◌, true, ◌↔◌, List, ℕ};

    /// Of an instance's text and a document.
    ghost accepted: { List ℕ → List ℕ → Type 0 };

    /// Whether a document is accepted for an instance's text.
    fn accepts(&mut self, osil: &[u8], document: &[u8]) -> Result<bool, Memory>
        ensures { IfOk result (λ is. (is ≡ true) ↔ accepted osil.now document.now) };
}

/// Whether a document that a finish brings is accepted.
fn passes<R: Replay, S: Sieve>(table: &R, sieve: &mut S, effect: &Effect) -> Result<bool, Memory>
    ensures { IfOk result (λ is. (is ≡ true) ↔ IsAdmitted S.accepted (R.holds table.now) (deed_of effect.now)) }
{
    match effect {
        Effect::Finish { number, document } => match document {
            Document::Kept { text } => match table.osil(*number) {
                Some(osil) => sieve.accepts(osil, text),
                None => Ok(false),
            },
            Document::Missing => Ok(true),
        },
        Effect::Issue => Ok(true),
        Effect::Send { .. } => Ok(true),
        Effect::Enter { .. } => Ok(true),
        Effect::Killed { .. } => Ok(true),
        Effect::Marked { .. } => Ok(true),
        Effect::GivenUp { .. } => Ok(true),
        Effect::Begin { .. } => Ok(true),
    }
}

/// Makes an effect whose document is accepted; false where it isn't, or the effect isn't possible.
fn admit<R: Replay, S: Sieve>(table: &mut R, sieve: &mut S, effect: &Effect) -> Result<bool, Memory>
    ensures { IfOk result (λ made. StepsTo S.accepted (deed_of effect.now) (R.holds table.old) (if made then Some (R.holds table.new) else None)) }
{
    match passes(table, sieve, effect) {
        Ok(true) => table.apply(effect),
        Ok(false) => Ok(false),
        Err(lost) => Err(lost),
    }
}

/// What stands behind an open gate.
pub(crate) fn behind_open(bytes: &[u8]) -> Option<&[u8]>
    ensures some { IfSome result (λ behind. bytes.now ≡ 1 ∷ behind.now) }
    ensures none { IfNone result ((behind : List ℕ) → bytes.now ≡ 1 ∷ behind → ⊥) }
{
    match bytes {
        [1, behind @ ..] => Some(behind),
        _ => None,
    }
}

/// How many bytes a gate and the record behind it have, before what follows them.
pub(crate) fn gate_and_record(behind: &[u8], after: &[u8]) -> usize
    requires { length after.now ≤ length behind.now }
    ensures { result ≡ 1 + (length behind.now - length after.now) }
{
    1 + (behind.len() - after.len())
}

/// Makes the effect of the record that the bytes begin with, which has a gate behind it, and gives what follows the record; None
/// where there is no such record, or its effect isn't possible or accepted.
fn take_record<'a, R: Replay, S: Sieve>(
    bytes: &'a [u8],
    table: &mut R,
    sieve: &mut S,
) -> Result<Option<&'a [u8]>, Memory>
    ensures { IfOk result (λ r. TakesRecord S.accepted bytes.now (R.holds table.old) (option_copied r) (R.holds table.new)) }
{
    match decode(bytes) {
        Some((effect, after)) => {
            if after.is_empty() {
                return Ok(None);
            }
            match admit(table, sieve, &effect) {
                Ok(true) => Ok(Some(after)),
                Ok(false) => Ok(None),
                Err(lost) => Err(lost),
            }
        }
        None => Ok(None),
    }
}

/// Makes the effect of the record behind the gate at this place of the file, and goes on behind the record; false where that gate isn't
/// open.
fn pass_record<D: Disk, R: Replay, S: Sieve>(
    disk: &mut D,
    ahead: &mut Ahead,
    table: &mut R,
    sieve: &mut S,
) -> Result<bool, OpenFault>
    requires { D.told disk.old ≡ true → StandsAhead (D.seen disk.old) ahead.old }
    ensures takes { IfOk result (λ passed. D.told disk.old ≡ true → TakesOn S.accepted (D.seen disk.old) ahead.old.place (R.holds table.old) passed ahead.new.place (R.holds table.new)) }
    ensures err { IfErr result (λ fault. D.told disk.old ≡ true → StopsAt S.accepted (D.seen disk.old) ahead.old.place (R.holds table.old) fault) }
    ensures made { IfOk result (λ passed. WasMade S.accepted (R.holds table.old) → WasMade S.accepted (R.holds table.new)) }
    ensures ahead { IfOk result (λ passed. D.told disk.old ≡ true → StandsAhead (D.seen disk.old) ahead.new) }
    ensures less { IfOk result (λ passed. passed ≡ true → ahead.old.place < ahead.new.place) }
    ensures within { IfOk result (λ passed. passed ≡ true → ahead.new.place < ahead.new.len) }
    ensures stays { IfOk result (λ passed. passed ≡ false → ahead.new.place ≡ ahead.old.place) }
    ensures no_longer { ahead.new.len ≤ ahead.old.len }
    ensures calm { Calm D.told D.seen D.may_leave D.moment D.left_since disk.old disk.new }
    ensures cause { CountsOpening result (D.faults disk.old) (D.faults disk.new) }
{
    match ahead.read_on(disk) {
        Ok(()) => {}
        Err(fault) => return Err(fault),
    }
    match behind_open(ahead.rest()) {
        None => Ok(false),
        Some(behind) => match take_record(behind, table, sieve) {
            Ok(Some(after)) => {
                let size = gate_and_record(behind, after);
                ahead.pass(size);
                Ok(true)
            }
            Ok(None) => Err(OpenFault::Damaged { at: ahead.place() }),
            Err(_) => Err(OpenFault::Memory),
        },
    }
}

/// Makes the effects of the records up to the first gate that isn't 1, and gives that gate's place.
pub(crate) fn scan<D: Disk, R: Replay, S: Sieve>(
    disk: &mut D,
    ahead: &mut Ahead,
    table: &mut R,
    sieve: &mut S,
) -> Result<u64, OpenFault>
    requires empty { R.holds table.old ≡ nothing }
    requires front { (ahead.old.place ≡ 0) × (D.told disk.old ≡ true → (1 < length (D.seen disk.old)) × StandsAhead (D.seen disk.old) ahead.old) }
    ensures ok { IfOk result (λ place. D.told disk.old ≡ true → ReadsRecords S.accepted (D.seen disk.old) place (R.holds table.new)) }
    ensures made { IfOk result (λ _. WasMade S.accepted (R.holds table.new)) }
    ensures small { IfOk result (λ place. place < 2 ^ 64 - 1) }
    ensures err { IfErr result (λ fault. D.told disk.old ≡ true → DamagedIn S.accepted (D.seen disk.old) fault) }
    ensures calm { Calm D.told D.seen D.may_leave D.moment D.left_since disk.old disk.new }
    ensures cause { CountsOpening result (D.faults disk.old) (D.faults disk.new) }
{
    loop {
        match pass_record(disk, ahead, table, sieve) {
            Ok(true) => {}
            Ok(false) => return Ok(ahead.place()),
            Err(fault) => return Err(fault),
        }
    }
}
