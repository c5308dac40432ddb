ghost use Rattle.std.specs.Prelude.{◌≡◌, ◌↔◌, ◌<◌, ◌≤◌, ◌-◌, [], List, ℕ, length, take, drop, IfOk, OnOk, IsTrue};
ghost use Rattle.std.specs.List.{Contains};
ghost use Rattle.std.specs.Io.{WritesAtMost};
ghost use Rattle.std.specs.Io.KnownBytes.{Keeps, WriteAppends, append_known};
ghost use Rattle.lt_io.specs.Causes.{HasCause};
ghost use Rattle.lt_io.specs.Streams.{Gathered};

use crate::memory::put_at;
use crate::sink::{Sink, put_some};
use crate::source::Failed;
use std::marker::Model;

/// The room for bytes that wait.
const ROOM: usize = 4096;

/// A sink that gathers the pieces of a line and gives them to another sink together. It holds what the other
/// sink holds, and then the bytes that wait; bytes with a line feed never wait.
#[derive(Drop)]
pub struct LineSink<K> {
    sink: K,
    bytes: [u8; ROOM],
    start: usize,
    end: usize,
}

impl<K> Model for LineSink<K> {
    ghost Value = { Gathered K };

    ghost view = { λ s. record { sink = s.sink; waiting = drop s.start (take s.end s.bytes) } };

    ghost invariant = { λ s. (s.start ≤ s.end) × (s.end ≤ 4096) };
}

impl<K: Sink + Drop> LineSink<K> {
    /// The sink over another one, where no byte waits.
    pub fn new(sink: K) -> LineSink<K>
        ensures { result ≡ record { sink = sink; waiting = [] } }
    {
        LineSink {
            sink,
            bytes: [0; ROOM],
            start: 0,
            end: 0,
        }
    }
}

/// The bytes from place `start` to before place `end`.
fn part(bytes: &[u8], start: usize, end: usize) -> &[u8]
    requires start { start ≤ end }
    requires end { end ≤ length bytes.now }
    ensures { result.now ≡ drop start (take end bytes.now) }
{
    &bytes[start..end]
}

/// Whether bytes may wait where there is room for so many.
fn may_wait(bytes: &[u8], room: usize) -> bool
    ensures { IsTrue result ↔ ((length bytes.now ≤ room) × (Contains bytes.now 10 → ⊥)) }
{
    bytes.len() <= room && !bytes.contains(&b'\n')
}

impl<K: Sink> LineSink<K> {
    /// Gives the bytes that wait to the other sink.
    fn pass_on(&mut self) -> Result<(), Failed>
        ensures same { Keeps (append_known (K.held self.old.sink) self.old.waiting)
            (append_known (K.held self.new.sink) self.new.waiting) }
        ensures none { OnOk result (self.new.waiting ≡ []) }
        ensures cause { HasCause (K.faults self.old.sink) (K.faults self.new.sink) result }
    {
        let taken = put_some(&mut self.sink, part(&self.bytes, self.start, self.end));
        self.start += taken;
        if self.start < self.end {
            return Err(Failed);
        }
        self.start = 0;
        self.end = 0;
        Ok(())
    }
}

impl<K: Sink> Sink for LineSink<K> {
    ghost held = { λ s. append_known (K.held s.sink) s.waiting };

    ghost faults = { λ s. K.faults s.sink };

    fn put(&mut self, bytes: &[u8]) -> Result<usize, Failed>
        ensures bound { WritesAtMost result bytes.now }
        ensures some { IfOk result (λ k. 0 < length bytes.now → 0 < k) }
        ensures bytes { WriteAppends (append_known (K.held self.old.sink) self.old.waiting)
            (append_known (K.held self.new.sink) self.new.waiting) result bytes.now }
        ensures cause { HasCause (K.faults self.old.sink) (K.faults self.new.sink) result }
        ensures passed { OnOk result (Contains bytes.now 10 → self.new.waiting ≡ []) }
    {
        if may_wait(bytes, ROOM - self.end) {
            put_at(&mut self.bytes, self.end, bytes);
            self.end += bytes.len();
            return Ok(bytes.len());
        }
        self.pass_on()?;
        self.sink.put(bytes)
    }
}
