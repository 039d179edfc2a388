//! What the forms in memory are made of.
ghost use Rattle.std.specs.Prelude.{◌≡◌, ℕ, ◌<◌, ◌≤◌, ◌+◌, ◌-◌, ◌^◌, List, ◌++◌, [], length, take, drop, IfOk, IfSome, IfNone, ◌==◌, min, max, vec_capacity};
ghost use Rattle.std.specs.List.{list_any};
ghost use Rattle.os_io.specs.Streams.{IsPart, Takes};
ghost use Rattle.memory_ends.specs.Memory.{input_left, output_handed, IsFresh};

use os_io::Memory;
use std::alloc::Global;

/// Calls that are numbered from 1, and the numbers of those that fail.
#[derive(Drop)]
pub(crate) struct Script {
    calls: u64,
    fails: Vec<u64>,
}

impl Script {
    pub(crate) fn new(alloc: Global, fails: &[u64]) -> Result<Script, Memory>
        ensures { IfOk result (λ s. IsFresh s fails.now) }
    {
        Ok(Script {
            calls: 0,
            fails: Vec::from_slice(alloc, fails)?,
        })
    }

    /// How often it was called, at most 2^64 - 1.
    pub(crate) fn calls(&self) -> u64
        ensures { result ≡ self.now.calls }
    {
        self.calls
    }

    /// Counts a call, and tells whether it fails.
    pub(crate) fn fails(&mut self) -> bool
        ensures calls { self.new.calls ≡ min (self.old.calls + 1) (2 ^ 64 - 1) }
        ensures fails { self.new.fails ≡ self.old.fails }
        ensures found { result ≡ list_any (λ call. call == self.new.calls) self.old.fails.items }
    {
        self.calls = self.calls.saturating_add(1);
        self.fails.contains(&self.calls)
    }
}

/// Bytes that are given in pieces.
#[derive(Drop)]
pub(crate) struct Input {
    bytes: Vec<u8>,
    at: usize,
    piece: usize,
}

impl Input {
    /// These bytes, of which one read gives at most `piece`, or one where that is 0.
    pub(crate) fn new(alloc: Global, bytes: &[u8], piece: usize) -> Result<Input, Memory>
        ensures left { IfOk result (λ i. input_left i ≡ bytes.now) }
        ensures piece { IfOk result (λ i. i.piece ≡ max piece 1) }
    {
        Ok(Input {
            bytes: Vec::from_slice(alloc, bytes)?,
            at: 0,
            piece: piece.max(1),
        })
    }

    pub(crate) fn read(&mut self, buf: &mut [u8]) -> usize
        ensures within { result ≤ length buf.old }
        ensures taken { Takes buf.new result (input_left self.old) (input_left self.new) }
        ensures end { result ≡ 0 → 0 < length buf.old → input_left self.old ≡ [] }
    {
        let at = self.at.min(self.bytes.len());
        let left = &self.bytes[at..];
        let n = buf.len().min(self.piece.max(1)).min(left.len());
        buf[..n].copy_from_slice(&left[..n]);
        self.at = at + n;
        n
    }
}

/// Bytes that grow in a room of a fixed size, and how many of them were handed on.
#[derive(Drop)]
pub(crate) struct Output {
    bytes: Vec<u8>,
    handed: usize,
}

impl Output {
    pub(crate) fn new(alloc: Global, room: usize) -> Result<Output, Memory>
        ensures empty { IfOk result (λ o. o.bytes.items ≡ []) }
        ensures handed { IfOk result (λ o. output_handed o ≡ []) }
        ensures room { IfOk result (λ o. vec_capacity o.bytes ≡ room) }
    {
        Ok(Output {
            bytes: Vec::with_capacity(alloc, room)?,
            handed: 0,
        })
    }

    pub(crate) fn as_slice(&self) -> &[u8]
        ensures { result.now ≡ self.now.bytes.items }
    {
        self.bytes.as_slice()
    }

    /// The bytes that were handed on.
    pub(crate) fn handed(&self) -> &[u8]
        ensures { result.now ≡ output_handed self.now }
    {
        &self.bytes[..self.handed.min(self.bytes.len())]
    }

    /// Hands on all bytes.
    pub(crate) fn hand_on(&mut self)
        ensures bytes { self.new.bytes ≡ self.old.bytes }
        ensures all { output_handed self.new ≡ self.new.bytes.items }
        ensures handed { IsPart (output_handed self.new) (output_handed self.old) }
    {
        self.handed = self.bytes.len();
    }

    /// Writes as many of the bytes as there is room for. None where there is none for bytes that aren't empty.
    pub(crate) fn write(&mut self, bytes: &[u8]) -> Option<usize>
        ensures within { IfSome result (λ n. n ≤ length bytes.now) }
        ensures some { IfSome result (λ n. 0 < length bytes.now → 0 < n) }
        ensures added { IfSome result (λ n. self.new.bytes.items ≡ self.old.bytes.items ++ take n bytes.now) }
        ensures none { IfNone result (self.new.bytes.items ≡ self.old.bytes.items) }
        ensures handed { IsPart (output_handed self.new) (output_handed self.old) }
    {
        let room = self.bytes.capacity().saturating_sub(self.bytes.len());
        let n = bytes.len().min(room);
        if n == 0 && !bytes.is_empty() {
            return None;
        }
        self.bytes.extend_from_slice(&bytes[..n]).ok()?;
        Some(n)
    }
}
