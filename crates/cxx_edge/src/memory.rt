ghost use Rattle.std.specs.Prelude.{◌≡◌, ℕ, ◌+◌, ◌-◌, ◌<◌, ◌≤◌, ◌==◌, if◌then◌else◌, List, length, drop, Some, IfOk, OnErr, is_err, IsOk, vec_len, vec_capacity};
ghost use Rattle.std.specs.Io.{ReadsAtMost, WritesAtMost};
ghost use Rattle.std.specs.Io.KnownBytes.{ReadConsumes};
ghost use Rattle.cxx_edge.specs.Count.{one_more, HasCause};
ghost use Rattle.cxx_edge.specs.Sink.{WritesPart, TakesSome};
ghost use Rattle.cxx_edge.specs.Memory.{SourceState, SinkState, is_listed, fresh_source, fresh_sink, next_read_fails, next_write_fails, next_read_count, next_write_count};

use super::sink::Sink;
use super::source::{Failed, Source};
use std::alloc::{AllocError, Global};
use std::marker::Model;

/// There is no memory for a source or a sink.
#[derive(Clone, Copy, Debug, PartialEq, Eq)]
pub struct OutOfMemory;

impl From<AllocError> for OutOfMemory {
    fn from(_error: AllocError) -> OutOfMemory {
        OutOfMemory
    }
}

fn copy_of<T: Copy>(alloc: Global, items: &[T]) -> Result<Vec<T>, OutOfMemory>
    ensures items { IfOk result (λ copy. copy.items ≡ items.now) }
    ensures empty { length items.now ≡ 0 → IsOk result }
{
    let mut copy = Vec::with_capacity(alloc, items.len())?;
    copy.extend_from_slice(items)?;
    Ok(copy)
}

// The calls that were made, and those that fail.
#[derive(Drop)]
struct Calls {
    failing: Vec<u64>,
    made: u64,
    faults: u64,
}

impl Calls {
    fn new(alloc: Global, failing: &[u64]) -> Result<Calls, OutOfMemory>
        ensures fresh { IfOk result (λ c. (c.failing.items ≡ failing.now) × (c.made ≡ 0) × (c.faults ≡ 0)) }
        ensures empty { length failing.now ≡ 0 → IsOk result }
    {
        Ok(Calls {
            failing: copy_of(alloc, failing)?,
            made: 0,
            faults: 0,
        })
    }

    // Begins the next call, and says whether it is one of those that fail.
    fn begin(&mut self) -> bool
        ensures listed { result ≡ is_listed self.old.failing.items (one_more self.old.made) }
        ensures made { self.new.made ≡ one_more self.old.made }
        ensures failing { self.new.failing ≡ self.old.failing }
        ensures faults { self.new.faults ≡ self.old.faults }
    {
        self.made = self.made.saturating_add(1);
        self.failing.contains(&self.made)
    }

    fn fail(&mut self) -> Failed
        ensures faults { self.new.faults ≡ one_more self.old.faults }
        ensures made { self.new.made ≡ self.old.made }
        ensures failing { self.new.failing ≡ self.old.failing }
    {
        self.faults = self.faults.saturating_add(1);
        Failed
    }
}

/// A source of bytes in memory, with calls that fail by plan.
#[derive(Drop)]
pub struct MemorySource {
    bytes: Vec<u8>,
    at: usize,
    piece: usize,
    calls: Calls,
}

impl Model for MemorySource {
    ghost Value = { SourceState };

    ghost view = { λ s. record {
      unread = drop s.at s.bytes.items;
      piece = s.piece;
      failing = s.calls.failing.items;
      calls = s.calls.made;
      faults = s.calls.faults;
    } };

    ghost invariant = { λ s. (0 < s.piece) × (s.at ≤ length s.bytes.items) };
}

impl MemorySource {
    /// The bytes, at most `piece` of them a call. The calls whose numbers, from 1, stand in
    /// `failing` fail.
    pub fn new(
        alloc: Global,
        bytes: &[u8],
        piece: usize,
        failing: &[u64],
    ) -> Result<MemorySource, OutOfMemory>
        requires { 1 ≤ piece }
        ensures fresh { IfOk result (λ s. s ≡ fresh_source bytes.now piece failing.now) }
        ensures empty { length bytes.now ≡ 0 → length failing.now ≡ 0 → IsOk result }
    {
        Ok(MemorySource {
            bytes: copy_of(alloc, bytes)?,
            at: 0,
            piece,
            calls: Calls::new(alloc, failing)?,
        })
    }
}

impl Source for MemorySource {
    ghost left = { λ s. Some s.unread };

    ghost faults = { λ s. s.faults };

    fn read(&mut self, buf: &mut [u8]) -> Result<usize, Failed>
        ensures bound { ReadsAtMost result buf.new }
        ensures bytes { ReadConsumes (Some self.old.unread) (Some self.new.unread) result buf.new }
        ensures cause { HasCause self.old.faults self.new.faults result }
        ensures listed { is_err result ≡ next_read_fails self.old }
        ensures count { IfOk result (λ n. n ≡ next_read_count self.old (length buf.old)) }
        ensures calls { self.new.calls ≡ one_more self.old.calls }
        ensures faults { self.new.faults ≡
            (if is_err result then one_more self.old.faults else self.old.faults) }
        ensures plan { (self.new.piece ≡ self.old.piece) × (self.new.failing ≡ self.old.failing) }
    {
        if self.calls.begin() {
            return Err(self.calls.fail());
        }
        let count = self.piece.min(buf.len().min(self.bytes.len() - self.at));
        buf[..count].copy_from_slice(&self.bytes[self.at..self.at + count]);
        self.at += count;
        Ok(count)
    }
}

/// A sink of bytes in memory, with room for so many and calls that fail by plan.
#[derive(Drop)]
pub struct MemorySink {
    bytes: Vec<u8>,
    room: usize,
    piece: usize,
    calls: Calls,
}

impl Model for MemorySink {
    ghost Value = { SinkState };

    ghost view = { λ s. record {
      written = s.bytes.items;
      room = s.room;
      piece = s.piece;
      failing = s.calls.failing.items;
      calls = s.calls.made;
      faults = s.calls.faults;
    } };

    ghost invariant = { λ s. (0 < s.piece) × (length s.bytes.items ≤ s.room)
        × (s.room ≤ vec_capacity s.bytes) };
}

impl MemorySink {
    /// No bytes yet and room for `room`, at most `piece` of them a call. The calls whose numbers,
    /// from 1, stand in `failing` fail.
    pub fn new(
        alloc: Global,
        room: usize,
        piece: usize,
        failing: &[u64],
    ) -> Result<MemorySink, OutOfMemory>
        requires { 1 ≤ piece }
        ensures fresh { IfOk result (λ s. s ≡ fresh_sink room piece failing.now) }
        ensures empty { room ≡ 0 → length failing.now ≡ 0 → IsOk result }
    {
        Ok(MemorySink {
            bytes: Vec::with_capacity(alloc, room)?,
            room,
            piece,
            calls: Calls::new(alloc, failing)?,
        })
    }

    /// The bytes that were taken.
    pub fn bytes(&self) -> &[u8]
        ensures { result.now ≡ self.now.written }
    {
        &self.bytes
    }
}

impl Sink for MemorySink {
    ghost taken = { λ s. Some s.written };

    ghost faults = { λ s. s.faults };

    fn write(&mut self, piece: &[u8]) -> Result<usize, Failed>
        ensures bound { WritesAtMost result piece.now }
        ensures some { TakesSome result piece.now }
        ensures bytes { WritesPart (Some self.old.written) (Some self.new.written) result piece.now }
        ensures cause { HasCause self.old.faults self.new.faults result }
        ensures listed { is_err result ≡ next_write_fails self.old }
        ensures kept { OnErr result (self.new.written ≡ self.old.written) }
        ensures count { IfOk result (λ n. n ≡ next_write_count self.old (length piece.now)) }
        ensures calls { self.new.calls ≡ one_more self.old.calls }
        ensures faults { self.new.faults ≡
            (if is_err result then one_more self.old.faults else self.old.faults) }
        ensures plan { (self.new.room ≡ self.old.room) × (self.new.piece ≡ self.old.piece)
            × (self.new.failing ≡ self.old.failing) }
    {
        if self.calls.begin() || self.room == self.bytes.len() {
            return Err(self.calls.fail());
        }
        let count = self
            .piece
            .min(piece.len().min(self.room - self.bytes.len()));
        self.bytes.extend_from_slice(&piece[..count]).unwrap();
        Ok(count)
    }
}
