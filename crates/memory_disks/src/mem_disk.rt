//! A disk in memory.

ghost use Rattle.std.specs.Prelude.{◌≡◌, ◌⊎◌, [], ◌∷◌, ◌++◌, length, drop, take, refl, true, false, OnOk, OnErr, IfOk, ◌≤◌, ◌-◌, ◌+◌, min, ◌^◌};
ghost use Rattle.std.proofs.Common.{inl};
ghost use Rattle.os_io.specs.Streams.{Counts};
ghost use Rattle.disks.specs.Disks.{Elapses};
ghost use Rattle.memory_disks.specs.Past.{Since, HadBeen, only_bytes};

use disks::Disk;
use os_io::{Failed, Memory, count_fault};
use std::alloc::Global;

/// A file in memory. Each of its calls is done at once, so a crash leaves what is there, and it keeps each content that it had.
/// It counts its calls from 1: those of given numbers fail, and each fails from a given one on, as if the power had been cut.
#[derive(Drop)]
pub struct MemDisk {
    alloc: Global,
    bytes: Vec<u8>,
    past: Vec<Vec<u8>>,
    calls: u64,
    fails: Vec<u64>,
    stop: u64,
    faults: u64,
}

/// Puts other bytes in the place of those that are there, which it keeps.
fn replace(
    alloc: Global,
    bytes: &mut Vec<u8>,
    past: &mut Vec<Vec<u8>>,
    next: Vec<u8>,
) -> Result<(), Memory>
    ensures ok { OnOk result (bytes.new.items ≡ next.items) }
    ensures err { OnErr result (bytes.new.items ≡ bytes.old.items) }
    ensures past { OnOk result ((v : _) × (v.items ≡ bytes.old.items) × (past.new.items ≡ past.old.items ++ v ∷ [])) }
    ensures past_err { OnErr result (past.new.items ≡ past.old.items) }
{
    past.push(bytes.to_vec(alloc)?)?;
    *bytes = next;
    Ok(())
}

/// The bytes with others over them from a place on.
fn written(alloc: Global, bytes: &[u8], at: usize, more: &[u8]) -> Result<Vec<u8>, Memory>
    requires { at ≤ length bytes.now }
    ensures { IfOk result (λ next. next.items ≡ take at bytes.now ++ more.now ++ drop (at + length more.now) bytes.now) }
{
    let mut next = bytes[..at].to_vec(alloc)?;
    next.extend_from_slice(more)?;
    if more.len() < bytes.len() - at {
        next.extend_from_slice(&bytes[at + more.len()..])?;
    }
    Ok(next)
}

/// Copies what stands from a place on to the front of the buffer.
fn copy_from(bytes: &[u8], at: usize, buf: &mut [u8]) -> usize
    ensures within { result ≤ length buf.old }
    ensures front { take result buf.new ≡ take result (drop at bytes.now) }
    ensures all { result ≡ min (length buf.old) (length bytes.now - at) }
{
    if at >= bytes.len() {
        return 0;
    }
    let left = &bytes[at..];
    let n = buf.len().min(left.len());
    buf[..n].copy_from_slice(&left[..n]);
    n
}

impl MemDisk {
    ghost use Rattle.memory_disks.specs.Memory.{disk_bytes};

    /// A file with these bytes, all of them at rest. The calls whose numbers are in `fails` fail, and all from the number
    /// `stop` on.
    pub fn new(alloc: Global, bytes: &[u8], fails: &[u64], stop: u64) -> Result<MemDisk, Memory>
        ensures bytes { IfOk result (λ d. disk_bytes d ≡ bytes.now) }
        ensures faults { IfOk result (λ d. ⟦<MemDisk as Disk>⟧.faults d ≡ 0) }
    {
        Ok(MemDisk {
            alloc,
            bytes: Vec::from_slice(alloc, bytes)?,
            past: Vec::new(alloc),
            calls: 0,
            fails: Vec::from_slice(alloc, fails)?,
            stop,
            faults: 0,
        })
    }

    /// The bytes.
    pub fn as_slice(&self) -> &[u8]
        ensures { result.now ≡ disk_bytes self.now }
    {
        &self.bytes
    }

    /// How often a call has failed.
    pub fn faults(&self) -> u64
        ensures { result ≡ ⟦<MemDisk as Disk>⟧.faults self.now }
    {
        self.faults
    }

    /// How often it was called.
    pub fn calls(&self) -> u64 {
        self.calls
    }

    /// Counts a call, and tells whether it fails.
    fn fails(&mut self) -> bool
        ensures bytes { self.new.bytes ≡ self.old.bytes }
        ensures past { self.new.past ≡ self.old.past }
        ensures faults { self.new.faults ≡ self.old.faults }
    {
        self.calls = self.calls.saturating_add(1);
        self.calls >= self.stop || self.fails.contains(&self.calls)
    }

    /// Puts other bytes in the place of those that are there, or counts a fault.
    fn take_over(&mut self, next: Result<Vec<u8>, Memory>) -> Result<(), Failed>
        ensures ok { OnOk result (IfOk next (λ v. self.new.bytes.items ≡ v.items)) }
        ensures was_ok { OnOk result (OnErr next ⊥) }
        ensures err { OnErr result (self.new.bytes.items ≡ self.old.bytes.items) }
        ensures time { Elapses (length self.old.past.items) (length self.new.past.items) (Since self.old.past.items self.old.bytes.items) (Since self.new.past.items self.new.bytes.items) (λ c. c ≡ self.new.bytes.items) }
        ensures counted { Counts result self.old.faults self.new.faults }
    {
        match next {
            Ok(next) => match replace(self.alloc, &mut self.bytes, &mut self.past, next) {
                Ok(()) => Ok(()),
                Err(_) => Err(count_fault(&mut self.faults)),
            },
            Err(_) => Err(count_fault(&mut self.faults)),
        }
    }
}

impl Disk for MemDisk {
    ghost told = { λ _. true };

    ghost seen = { λ m. m.bytes.items };

    ghost may_leave = { λ m c. c ≡ m.bytes.items };

    ghost moment = { λ m. length m.past.items };

    ghost left_since = { λ m t c. Since m.past.items m.bytes.items t c };

    ghost faults = { λ m. m.faults };

    ghost as_it_reads = { λ m told. refl };

    ghost counts_now = { λ m t c le now. inl now };

    ghost only_now = { λ m c left. only_bytes m.past.items m.bytes.items c left };

    fn len(&mut self) -> Result<u64, Failed> {
        if self.fails() {
            return Err(count_fault(&mut self.faults));
        }
        Ok(self.bytes.len() as u64)
    }

    fn read_at(&mut self, at: u64, buf: &mut [u8]) -> Result<usize, Failed> {
        if self.fails() {
            return Err(count_fault(&mut self.faults));
        }
        Ok(copy_from(&self.bytes, at as usize, buf))
    }

    fn write_at(&mut self, at: u64, bytes: &[u8]) -> Result<(), Failed> {
        if self.fails() {
            return Err(count_fault(&mut self.faults));
        }
        let next = written(self.alloc, &self.bytes, at as usize, bytes);
        self.take_over(next)
    }

    fn cut(&mut self, len: u64) -> Result<(), Failed> {
        if self.fails() {
            return Err(count_fault(&mut self.faults));
        }
        let next = self.bytes[..len as usize].to_vec(self.alloc);
        self.take_over(next)
    }

    fn sync(&mut self) -> Result<(), Failed> {
        if self.fails() {
            return Err(count_fault(&mut self.faults));
        }
        Ok(())
    }
}
