ghost use Rattle.std.specs.Prelude.{◌≡◌, ◌⊎◌, ◌↔◌, ◌<◌, ◌≤◌, ◌+◌, ℕ, List, [], ◌++◌, length, take, drop, min, Some, IfOk, IsOk, IsTrue};
ghost use Rattle.std.specs.List.{Contains};
ghost use Rattle.std.specs.Io.{ReadsAtMost, WritesAtMost};
ghost use Rattle.std.specs.Io.KnownBytes.{ReadConsumes, WriteAppends};
ghost use Rattle.lt_io.specs.Causes.{HasCause};
ghost use Rattle.lt_io.specs.Streams.{Incoming, Outgoing, Takes, Puts};

use crate::sink::Sink;
use crate::source::{Failed, Memory, Source};
use std::alloc::Global;
use std::marker::Model;

/// Copies as many of the first bytes as have room in `buf`, and at most `most`.
fn move_front(bytes: &[u8], buf: &mut [u8], most: usize) -> usize
    ensures count { result ≡ min (min (length bytes.now) (length buf.new)) most }
    ensures front { take result buf.new ≡ take result bytes.now }
{
    let count = bytes.len().min(buf.len()).min(most);
    buf[..count].copy_from_slice(&bytes[..count]);
    count
}

/// A source over bytes that are lent. It never fails.
#[derive(Drop)]
pub struct SliceSource<'a> {
    left: &'a [u8],
}

impl<'a> Model for SliceSource<'a> {
    ghost Value = { List ℕ };

    ghost view = { λ s. s.left.now };
}

impl<'a> SliceSource<'a> {
    /// The source of these bytes.
    pub fn new(bytes: &'a [u8]) -> SliceSource<'a>
        ensures { result ≡ bytes.now }
    {
        SliceSource { left: bytes }
    }
}

impl Source for SliceSource<'_> {
    ghost left = { λ s. Some s };

    ghost faults = { λ _. 0 };

    fn take(&mut self, buf: &mut [u8]) -> Result<usize, Failed>
        ensures bound { ReadsAtMost result buf.new }
        ensures bytes { ReadConsumes (Some self.old) (Some self.new) result buf.new }
        ensures cause { HasCause 0 0 result }
        ensures ok { IsOk result }
        ensures count { IfOk result (λ k. k ≡ min (length self.old) (length buf.new)) }
    {
        let count = move_front(self.left, buf, self.left.len());
        self.left = &self.left[count..];
        Ok(count)
    }
}

/// A source over bytes that it owns, which gives at most `piece` bytes a call and fails at the calls whose
/// numbers, from 0, stand in `fail`.
#[derive(Drop)]
pub struct MemorySource {
    bytes: Vec<u8>,
    taken: usize,
    piece: usize,
    fail: Vec<u64>,
    calls: u64,
    faults: u64,
}

impl Model for MemorySource {
    ghost Value = { Incoming };

    ghost view = { λ s. record {
      left = drop s.taken s.bytes.items;
      piece = s.piece;
      fail = s.fail.items;
      calls = s.calls;
      faults = s.faults;
    } };

    ghost invariant = { λ s. (s.taken ≤ length s.bytes.items) × (0 < s.piece) };
}

impl MemorySource {
    /// The source of these bytes, before its call 0.
    pub fn new(bytes: Vec<u8>, piece: usize, fail: Vec<u64>) -> MemorySource
        requires { 0 < piece }
        ensures { result ≡ record { left = bytes.items; piece = piece; fail = fail.items; calls = 0; faults = 0 } }
    {
        MemorySource {
            bytes,
            taken: 0,
            piece,
            fail,
            calls: 0,
            faults: 0,
        }
    }
}

impl Source for MemorySource {
    ghost left = { λ s. Some s.left };

    ghost faults = { λ s. s.faults };

    fn take(&mut self, buf: &mut [u8]) -> Result<usize, Failed>
        ensures bound { ReadsAtMost result buf.new }
        ensures bytes { ReadConsumes (Some self.old.left) (Some self.new.left) result buf.new }
        ensures cause { HasCause self.old.faults self.new.faults result }
        ensures call { Takes self.old self.new (length buf.new) result }
    {
        let call = self.calls;
        self.calls = self.calls.saturating_add(1);
        if self.fail.contains(&call) {
            self.faults = self.faults.saturating_add(1);
            return Err(Failed);
        }
        let count = move_front(&self.bytes[self.taken..], buf, self.piece);
        self.taken += count;
        Ok(count)
    }
}

/// A sink over memory that is reserved at once. It takes at most `piece` bytes a call, and fails at the calls
/// whose numbers, from 0, stand in `fail`, and where the room is full.
#[derive(Drop)]
pub struct MemorySink {
    bytes: Vec<u8>,
    filled: usize,
    piece: usize,
    fail: Vec<u64>,
    calls: u64,
    faults: u64,
}

impl Model for MemorySink {
    ghost Value = { Outgoing };

    ghost view = { λ s. record {
      held = take s.filled s.bytes.items;
      room = length s.bytes.items;
      piece = s.piece;
      fail = s.fail.items;
      calls = s.calls;
      faults = s.faults;
    } };

    ghost invariant = { λ s. (s.filled ≤ length s.bytes.items) × (0 < s.piece) };
}

impl MemorySink {
    /// The empty sink with room for `room` bytes, before its call 0.
    pub fn new(
        alloc: Global,
        room: usize,
        piece: usize,
        fail: Vec<u64>,
    ) -> Result<MemorySink, Memory>
        requires { 0 < piece }
        ensures { IfOk result (λ s. s ≡ record {
          held = [];
          room = room;
          piece = piece;
          fail = fail.items;
          calls = 0;
          faults = 0;
        }) }
    {
        match vec![in alloc; 0u8; room] {
            Ok(bytes) => Ok(MemorySink {
                bytes,
                filled: 0,
                piece,
                fail,
                calls: 0,
                faults: 0,
            }),
            Err(_) => Err(Memory),
        }
    }

    /// The bytes written.
    pub fn bytes(&self) -> &[u8]
        ensures { result.now ≡ self.now.held }
    {
        &self.bytes[..self.filled]
    }
}

/// Whether a call is one of those that fail, or bytes meet no room.
fn is_refused(fail: &[u64], call: u64, room: usize, bytes: &[u8]) -> bool
    ensures { IsTrue result ↔ (Contains fail.now call ⊎ ((room ≡ 0) × (0 < length bytes.now))) }
{
    fail.contains(&call) || (room == 0 && !bytes.is_empty())
}

/// Writes bytes over those that stand from place `start` on.
pub fn put_at(all: &mut [u8], start: usize, bytes: &[u8])
    requires { start + length bytes.now ≤ length all.old }
    ensures front { take (start + length bytes.now) all.new ≡ take start all.old ++ bytes.now }
    ensures len { length all.new ≡ length all.old }
{
    all[start..start + bytes.len()].copy_from_slice(bytes);
}

impl Sink for MemorySink {
    ghost held = { λ s. Some s.held };

    ghost faults = { λ s. s.faults };

    fn put(&mut self, bytes: &[u8]) -> Result<usize, Failed>
        ensures bound { WritesAtMost result bytes.now }
        ensures some { IfOk result (λ k. 0 < length bytes.now → 0 < k) }
        ensures bytes { WriteAppends (Some self.old.held) (Some self.new.held) result bytes.now }
        ensures cause { HasCause self.old.faults self.new.faults result }
        ensures call { Puts self.old self.new bytes.now result }
    {
        let call = self.calls;
        self.calls = self.calls.saturating_add(1);
        let room = self.bytes.len() - self.filled;
        if is_refused(&self.fail, call, room, bytes) {
            self.faults = self.faults.saturating_add(1);
            return Err(Failed);
        }
        let count = bytes.len().min(room).min(self.piece);
        put_at(&mut self.bytes, self.filled, &bytes[..count]);
        self.filled += count;
        Ok(count)
    }
}
