//! A file of records that is opened by its first gate, once all of them stand behind it.

ghost use Rattle.std.specs.Prelude.{◌≡◌, ◌≤◌, ◌<◌, ◌+◌, ◌-◌, ◌^◌, ◌++◌, ◌∷◌, ◌⊎◌, [], List, ℕ, true, length, IfOk, IfErr, IsErrOf, OnOk, vec_capacity};
ghost use Rattle.os_io.specs.Streams.{Counts, HasRisen};
ghost use Rattle.disks.specs.Disks.{LeavesOnly};
ghost use Rattle.effects.specs.Records.{Deed, body, deed_of};
ghost use Rattle.job_journal.specs.Journal.{FileRests, FileStandsFor, most_record};
ghost use Rattle.job_journal.specs.Drafts.{IsDrafted};
ghost use Rattle.job_journal.specs.CompactFaults.{CountsNew, IsOfWrite, IsUnwritten};
ghost use Rattle.job_journal.specs.Compacting.{HasNoRoom};

use crate::contents::settle;
use crate::faults::CompactFault;
use crate::journal::{fill, is_too_long};
use crate::repairs::begin;
use disks::Disk;
use effects::{Effect, size};
use os_io::Failed;

/// A file in which nothing stands for a crash until it is ended: its first gate stays closed.
#[derive(Drop)]
pub(crate) struct Draft<D: Disk> {
    pub(crate) disk: D,
    /// Room for a record.
    buffer: Vec<u8>,
    /// The place of the gate that ends the file.
    pub(crate) end: u64,
    ghost room: { most_record ≤ vec_capacity buffer },
}

/// Brings a file of at most one byte to rest, and begins it anew.
fn begin_anew<D: Disk>(disk: &mut D) -> Result<(), Failed>
    requires short { D.told disk.old ≡ true → length (D.seen disk.old) ≤ 1 }
    ensures begun { OnOk result (D.told disk.old ≡ true → FileRests D.seen D.may_leave disk.new 0 []) }
    ensures any_moment { D.told disk.old ≡ true → LeavesOnly D.moment D.left_since disk.old disk.new (λ c. D.may_leave disk.old c ⊎ FileStandsFor [] c) }
    ensures told { D.told disk.new ≡ D.told disk.old }
    ensures cause { Counts result (D.faults disk.old) (D.faults disk.new) }
{
    settle(disk)?;
    begin(disk)?;
    Ok(())
}

/// Writes a record, given from its kind on with a closed gate behind it, at the gate that ends the file, and opens that gate unless it is
/// the first. Nothing is brought to rest.
fn write_record<D: Disk>(disk: &mut D, end: u64, bytes: &[u8]) -> Result<(), Failed>
    requires small { end < 2 ^ 64 - 1 }
    requires drafted { D.told disk.old ≡ true → (deeds : List Deed) × IsDrafted D.seen D.may_leave disk.old end deeds }
    ensures written { OnOk result ((deeds : List Deed) (d : Deed) → D.told disk.old ≡ true → bytes.now ≡ body d ++ 0 ∷ [] → IsDrafted D.seen D.may_leave disk.old end deeds
        → IsDrafted D.seen D.may_leave disk.new (end + length bytes.now) (deeds ++ d ∷ [])) }
    ensures any_moment { (deeds : List Deed) → D.told disk.old ≡ true → IsDrafted D.seen D.may_leave disk.old end deeds → LeavesOnly D.moment D.left_since disk.old disk.new (FileStandsFor []) }
    ensures told { D.told disk.new ≡ D.told disk.old }
    ensures cause { Counts result (D.faults disk.old) (D.faults disk.new) }
{
    disk.write_at(end + 1, bytes)?;
    if end == 0 {
        return Ok(());
    }
    disk.write_at(end, &[1])?;
    Ok(())
}

/// Brings all records to rest, and then opens the first gate.
fn open_first<D: Disk>(disk: &mut D, end: u64) -> Result<(), Failed>
    ensures stored { OnOk result ((deeds : List Deed) → D.told disk.old ≡ true → IsDrafted D.seen D.may_leave disk.old end deeds → FileRests D.seen D.may_leave disk.new end deeds) }

    // A crash at any moment leaves a file without records, or with all.
    ensures any_moment { (deeds : List Deed) → D.told disk.old ≡ true → IsDrafted D.seen D.may_leave disk.old end deeds
        → LeavesOnly D.moment D.left_since disk.old disk.new (λ c. FileStandsFor [] c ⊎ FileStandsFor deeds c) }
    ensures told { D.told disk.new ≡ D.told disk.old }
    ensures cause { Counts result (D.faults disk.old) (D.faults disk.new) }
{
    disk.sync()?;
    if end == 0 {
        return Ok(());
    }
    disk.write_at(0, &[1])?;
    disk.sync()?;
    Ok(())
}

impl<D: Disk> Draft<D> {
    /// A draft over a file of at most one byte, which is begun anew, with room for a record. Where the file wasn't begun its disk is given
    /// back.
    pub(crate) fn begun(disk: D, buffer: Vec<u8>) -> Result<Draft<D>, D>
        requires room { most_record ≤ vec_capacity buffer }
        requires short { D.told disk ≡ true → length (D.seen disk) ≤ 1 }
        ensures drafted { IfOk result (λ draft. D.told disk ≡ true → IsDrafted D.seen D.may_leave draft.disk draft.end []) }
        ensures told { IfOk result (λ draft. D.told draft.disk ≡ D.told disk) }
        ensures any_moment { IfOk result (λ draft. D.told disk ≡ true → LeavesOnly D.moment D.left_since disk draft.disk (λ c. D.may_leave disk c ⊎ FileStandsFor [] c)) }
        ensures any_moment_err { IfErr result (λ back. D.told disk ≡ true → LeavesOnly D.moment D.left_since disk back (λ c. D.may_leave disk c ⊎ FileStandsFor [] c)) }
        ensures same_faults { IfOk result (λ draft. D.faults draft.disk ≡ D.faults disk) }
        ensures more_faults { IfErr result (λ back. HasRisen (D.faults disk) (D.faults back)) }
    {
        let mut disk = disk;
        match begin_anew(&mut disk) {
            Ok(()) => Ok(Draft {
                disk,
                buffer,
                end: 0,
            }),
            Err(_) => Err(disk),
        }
    }

    /// Writes an effect behind those before it.
    pub(crate) fn add(&mut self, effect: &Effect) -> Result<(), CompactFault>
        requires drafted { D.told self.old.disk ≡ true → (deeds : List Deed) × IsDrafted D.seen D.may_leave self.old.disk self.old.end deeds }
        ensures written { OnOk result ((deeds : List Deed) → D.told self.old.disk ≡ true → IsDrafted D.seen D.may_leave self.old.disk self.old.end deeds
            → IsDrafted D.seen D.may_leave self.new.disk self.new.end (deeds ++ deed_of effect.now ∷ [])) }
        ensures any_moment { (deeds : List Deed) → D.told self.old.disk ≡ true → IsDrafted D.seen D.may_leave self.old.disk self.old.end deeds
            → LeavesOnly D.moment D.left_since self.old.disk self.new.disk (FileStandsFor []) }
        ensures told { D.told self.new.disk ≡ D.told self.old.disk }
        ensures cause { CountsNew result (D.faults self.old.disk) (D.faults self.new.disk) }
        ensures err { IfErr result IsUnwritten }
        ensures long { (deeds : List Deed) → D.told self.old.disk ≡ true → IsDrafted D.seen D.may_leave self.old.disk self.old.end deeds → IsErrOf result CompactFault.Long → HasNoRoom deeds (deed_of effect.now ∷ []) }
    {
        if is_too_long(self.end, size(effect)) {
            return Err(CompactFault::Long);
        }
        fill(&mut self.buffer, effect);
        match write_record(&mut self.disk, self.end, &self.buffer) {
            Ok(()) => {
                self.end += self.buffer.len() as u64;
                Ok(())
            }
            Err(_) => Err(CompactFault::NewFault),
        }
    }

    /// Ends it: all its records stand then. The disk is given back.
    pub(crate) fn ended(self) -> (Result<(), CompactFault>, D)
        ensures stored { OnOk result.0 ((deeds : List Deed) → D.told self.disk ≡ true → IsDrafted D.seen D.may_leave self.disk self.end deeds → (place : ℕ) × FileRests D.seen D.may_leave result.1 place deeds) }
        ensures any_moment { (deeds : List Deed) → D.told self.disk ≡ true → IsDrafted D.seen D.may_leave self.disk self.end deeds
            → LeavesOnly D.moment D.left_since self.disk result.1 (λ c. FileStandsFor [] c ⊎ FileStandsFor deeds c) }
        ensures cause { CountsNew result.0 (D.faults self.disk) (D.faults result.1) }
        ensures err { IfErr result.0 IsOfWrite }
    {
        let Draft { mut disk, end, .. } = self;
        match open_first(&mut disk, end) {
            Ok(()) => (Ok(()), disk),
            Err(_) => (Err(CompactFault::NewFault), disk),
        }
    }

    /// The disk, whose first gate is closed.
    pub(crate) fn into_disk(self) -> D
        ensures { result ≡ self.disk }
    {
        let Draft { disk, .. } = self;
        disk
    }
}
