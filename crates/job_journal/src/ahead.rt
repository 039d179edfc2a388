//! A file that is read from its front on.

ghost use Rattle.std.specs.Prelude.{◌≡◌, ◌<◌, ◌≤◌, ◌+◌, ◌-◌, true, false, nat_le, length, drop, vec_len, IfOk, IfErr, OnOk};
ghost use Rattle.job_journal.specs.Opening.{Calm, CountsOpening, IsReadingFault};
ghost use Rattle.job_journal.specs.Ahead.{StandsAhead, StandsReadOn, held_of, unread};

use crate::contents::{length_of, piece_at};
use crate::pieces::Ahead;
use crate::scanning::OpenFault;
use disks::Disk;
use std::alloc::Global;

/// The most bytes of a record with its gate and the gate behind it: a kind, a number, and two texts behind their lengths.
const RECORD: usize = 8_388_627;

/// How many bytes are held at once, at most. What is moved to the front when more is read is less than a record, so a file is read in
/// time linear in its length.
const HELD: usize = 4 * RECORD;

impl Ahead {
    /// The front of the file. Nothing is read yet.
    pub(crate) fn at_front<D: Disk>(alloc: Global, disk: &mut D) -> Result<Ahead, OpenFault>
        ensures front { IfOk result (λ ahead. D.told disk.old ≡ true → StandsAhead (D.seen disk.old) ahead) }
        ensures place { IfOk result (λ ahead. ahead.place ≡ 0) }
        ensures calm { Calm D.told D.seen D.may_leave D.moment D.left_since disk.old disk.new }
        ensures cause { CountsOpening result (D.faults disk.old) (D.faults disk.new) }
        ensures err { IfErr result IsReadingFault }
    {
        let len = match length_of(disk) {
            Ok(len) => len,
            Err(_) => return Err(OpenFault::ReadFault),
        };
        let held = usize::try_from(len).unwrap_or(usize::MAX).min(HELD);
        let mut room = Vec::new(alloc);
        match room.resize(held, 0) {
            Ok(()) => Ok(Ahead {
                room,
                from: 0,
                to: 0,
                place: 0,
                len,
            }),
            Err(_) => Err(OpenFault::Memory),
        }
    }

    /// Whether the file has this many bytes at most.
    pub(crate) fn is_within(&self, most: u64) -> bool
        ensures { result ≡ nat_le self.now.len most }
    {
        self.len <= most
    }

    /// The place of the first byte that isn't passed.
    pub(crate) fn place(&self) -> u64
        ensures { result ≡ self.now.place }
    {
        self.place
    }

    /// What was read and isn't passed.
    pub(crate) fn rest(&self) -> &[u8]
        ensures { result.now ≡ held_of self.now }
    {
        &self.room[self.from..self.to]
    }

    /// Passes bytes that were read.
    pub(crate) fn pass(&mut self, n: usize)
        requires { n ≤ length (held_of self.old) }
        ensures place { self.new.place ≡ self.old.place + n }
        ensures rest { held_of self.new ≡ drop n (held_of self.old) }
        ensures len { self.new.len ≡ self.old.len }
    {
        self.from += n;
        self.place += n as u64;
    }

    /// The place behind what was read.
    fn end(&self) -> u64
        ensures { result ≡ self.now.place + (self.now.to - self.now.from) }
    {
        self.place + (self.to - self.from) as u64
    }

    /// Moves what was read to the front of the room.
    fn move_to_front(&mut self)
        ensures rest { held_of self.new ≡ held_of self.old }
        ensures from { self.new.from ≡ 0 }
        ensures place { self.new.place ≡ self.old.place }
        ensures len { self.new.len ≡ self.old.len }
    {
        self.room.copy_within(self.from..self.to, 0);
        self.to -= self.from;
        self.from = 0;
    }

    /// Reads a piece more, which has a byte at least, or finds that the file has become shorter: then it ends where what was read does.
    fn read_more<D: Disk>(&mut self, disk: &mut D) -> Result<(), OpenFault>
        requires room { self.old.to < vec_len self.old.room }
        requires left { 0 < unread self.old }
        ensures ahead { OnOk result (D.told disk.old ≡ true → StandsAhead (D.seen disk.old) self.old → StandsAhead (D.seen disk.old) self.new) }
        ensures less { OnOk result (unread self.new < unread self.old) }
        ensures place { self.new.place ≡ self.old.place }
        ensures from { self.new.from ≡ self.old.from }
        ensures no_longer { self.new.len ≤ self.old.len }
        ensures calm { Calm D.told D.seen D.may_leave D.moment D.left_since disk.old disk.new }
        ensures cause { CountsOpening result (D.faults disk.old) (D.faults disk.new) }
        ensures err { IfErr result IsReadingFault }
    {
        let end = self.end();
        let left = usize::try_from(self.len - end).unwrap_or(usize::MAX);
        let more = left.min(self.room.len() - self.to);
        match piece_at(disk, end, &mut self.room[self.to..self.to + more]) {
            // A disk gives none before the end of its file alone.
            Ok(0) => {
                self.len = end;
                Ok(())
            }
            Ok(n) => {
                self.to += n;
                Ok(())
            }
            Err(_) => Err(OpenFault::ReadFault),
        }
    }

    /// Whether there is room for more, and more to read.
    fn can_read(&self) -> bool
        ensures yes { result ≡ true → (self.now.to < vec_len self.now.room) × (0 < unread self.now) }
        ensures no { result ≡ false → self.now.from ≡ 0 → self.now.to < 8388627 → unread self.now ≡ 0 }
    {
        self.to < self.room.len() && self.end() < self.len
    }

    /// Reads on, unless all that is left of the file is here, or as much as a record can have.
    pub(crate) fn read_on<D: Disk>(&mut self, disk: &mut D) -> Result<(), OpenFault>
        ensures ahead { OnOk result (D.told disk.old ≡ true → StandsAhead (D.seen disk.old) self.old → StandsReadOn (D.seen disk.old) self.new) }
        ensures place { self.new.place ≡ self.old.place }
        ensures no_longer { self.new.len ≤ self.old.len }
        ensures calm { Calm D.told D.seen D.may_leave D.moment D.left_since disk.old disk.new }
        ensures cause { CountsOpening result (D.faults disk.old) (D.faults disk.new) }
        ensures err { IfErr result IsReadingFault }
    {
        if self.to - self.from >= RECORD {
            return Ok(());
        }
        self.move_to_front();
        while self.can_read() {
            match self.read_more(disk) {
                Ok(()) => {}
                Err(fault) => return Err(fault),
            }
        }
        Ok(())
    }
}
