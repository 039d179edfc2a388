//! What gives bytes, and what takes them.
ghost use Rattle.std.specs.Prelude.{◌≡◌, ℕ, ◌<◌, ◌≤◌, [], length, take, IfOk, OnErr, OnOk};
ghost use Rattle.os_io.specs.Streams.{Tells, BothTold, Takes, Appends, Grows, Counts, SameInput, SameOutput, Writes, Sends};

use thiserror::Error;

/// A call failed, and its object's count of faults rose, or stands at 2^64 - 1.
#[derive(Clone, Copy, PartialEq, Eq, Debug, Drop, Error)]
#[error("a call failed")]
pub struct Failed;

/// Bytes that come, or go, or both.
pub trait Stream {
    /// What it tells of its bytes, and how often it failed. One that goes one way alone tells nothing of the other.
    ghost tells: { Self → Tells };
}

/// Bytes that come. No call touches what was written.
pub trait Source: Stream {
    /// Reads some bytes to the front of the buffer; of the rest of the buffer nothing is promised. 0 with a buffer
    /// that isn't empty is the end. A read that fails takes nothing.
    fn read(&mut self, buf: &mut [u8]) -> Result<usize, Failed>
        ensures within { IfOk result (λ n. n ≤ length buf.old) }
        ensures taken { IfOk result (λ n. BothTold (Self.tells self.old).left (Self.tells self.new).left (Takes buf.new n)) }
        ensures end { IfOk result (λ n. n ≡ 0 → 0 < length buf.old → BothTold (Self.tells self.old).left (Self.tells self.new).left (λ before after. before ≡ [])) }
        ensures err { OnErr result ((Self.tells self.new).left ≡ (Self.tells self.old).left) }
        ensures counted { Counts result (Self.tells self.old).read_faults (Self.tells self.new).read_faults }
        ensures output { SameOutput (Self.tells self.old) (Self.tells self.new) };
}

/// Bytes that go. No call touches what is still to come.
pub trait Sink: Stream {
    /// Writes a first part of the bytes, which isn't empty where they aren't. A write that fails writes nothing.
    fn write(&mut self, bytes: &[u8]) -> Result<usize, Failed>
        ensures within { IfOk result (λ n. n ≤ length bytes.now) }
        ensures some { IfOk result (λ n. 0 < length bytes.now → 0 < n) }
        ensures added { IfOk result (λ n. BothTold (Self.tells self.old).written (Self.tells self.new).written (Appends (take n bytes.now))) }
        ensures err { OnErr result ((Self.tells self.new).written ≡ (Self.tells self.old).written) }
        ensures handed_on { Grows (Self.tells self.old).handed_on (Self.tells self.new).handed_on }
        ensures counted { Counts result (Self.tells self.old).write_faults (Self.tells self.new).write_faults }
        ensures input { SameInput (Self.tells self.old) (Self.tells self.new) };

    /// Hands on all that was written. Where that fails, some of it may be.
    fn flush(&mut self) -> Result<(), Failed>
        ensures written { (Self.tells self.new).written ≡ (Self.tells self.old).written }
        ensures all { OnOk result ((Self.tells self.new).handed_on ≡ (Self.tells self.new).written) }
        ensures handed_on { Grows (Self.tells self.old).handed_on (Self.tells self.new).handed_on }
        ensures counted { Counts result (Self.tells self.old).write_faults (Self.tells self.new).write_faults }
        ensures input { SameInput (Self.tells self.old) (Self.tells self.new) };

    /// Law: nothing is handed on but what was written, in its order.
    ghost handed_on_is_written: { (s : Self) → Grows (Self.tells s).handed_on (Self.tells s).written };
}

/// Bytes both ways, with a count of faults each way.
pub trait Link: Source + Sink {}

/// Writes all the bytes. After [`Failed`] a first part of them was written. Takes no memory, and doesn't flush.
pub fn write_all<S: Sink>(sink: &mut S, bytes: &[u8]) -> Result<(), Failed>
    ensures { Writes result bytes.now (S.tells sink.old) (S.tells sink.new) }
{
    let mut done = 0;
    while done < bytes.len() {
        let n = sink.write(&bytes[done..])?;
        done += n;
    }
    Ok(())
}

/// Writes all the bytes, and hands on all that was written. Takes no memory.
pub fn send_all<S: Sink>(sink: &mut S, bytes: &[u8]) -> Result<(), Failed>
    ensures { Sends result bytes.now (S.tells sink.old) (S.tells sink.new) }
{
    write_all(sink, bytes)?;
    sink.flush()
}
