ghost use Rattle.std.specs.Prelude.{◌≡◌, ◌↔◌, ◌<◌, ◌≤◌, ◌+◌, [], length, take, Some, IfOk, IsErr, IsTrue};
ghost use Rattle.std.specs.Io.{WritesAtMost};
ghost use Rattle.std.specs.Io.KnownBytes.{WriteAppends};
ghost use Rattle.lt_io.specs.Causes.{HasCause};
ghost use Rattle.lt_io.specs.Bytes.{Wrote};
ghost use Rattle.lt_io.specs.Streams.{Waiting};

use crate::memory::put_at;
use crate::sink::{Sink, write_all};
use crate::source::Failed;
use std::marker::Model;

/// The room of a block.
const ROOM: usize = 8192;

/// A sink of 8192 bytes in itself, for bytes that go to another sink together. It takes bytes whole, and fails
/// where they have no room.
#[derive(Drop)]
pub struct Block {
    bytes: [u8; ROOM],
    end: usize,
    faults: u64,
}

impl Model for Block {
    ghost Value = { Waiting };

    ghost view = { λ s. record { held = take s.end s.bytes; faults = s.faults } };

    ghost invariant = { λ s. s.end ≤ 8192 };
}

impl Block {
    /// The empty block.
    pub fn new() -> Block
        ensures { result ≡ record { held = []; faults = 0 } }
    {
        Block {
            bytes: [0; ROOM],
            end: 0,
            faults: 0,
        }
    }

    /// The number of bytes that wait.
    pub fn len(&self) -> usize
        ensures { result ≡ length self.now.held }
    {
        self.end
    }

    /// Whether there is room for 4096 bytes more.
    pub fn is_roomy(&self) -> bool
        ensures { IsTrue result ↔ (length self.now.held ≤ 4096) }
    {
        self.end <= ROOM / 2
    }

    /// Keeps only the first bytes.
    pub fn cut(&mut self, len: usize)
        requires { len ≤ length self.old.held }
        ensures { self.new.held ≡ take len self.old.held }
    {
        self.end = len;
    }

    /// Gives the bytes that wait to another sink; none waits then, even where that sink fails.
    pub fn pass_on<K: Sink>(&mut self, sink: &mut K) -> Result<(), Failed>
        ensures bytes { Wrote (K.held sink.old) (K.held sink.new) result self.old.held }
        ensures none { self.new.held ≡ [] }
        ensures cause { HasCause (K.faults sink.old) (K.faults sink.new) result }
    {
        let result = write_all(sink, &self.bytes[..self.end]);
        self.end = 0;
        result
    }
}

impl Sink for Block {
    ghost held = { λ s. Some s.held };

    ghost faults = { λ s. s.faults };

    fn put(&mut self, bytes: &[u8]) -> Result<usize, Failed>
        ensures bound { WritesAtMost result bytes.now }
        ensures some { IfOk result (λ k. 0 < length bytes.now → 0 < k) }
        ensures bytes { WriteAppends (Some self.old.held) (Some self.new.held) result bytes.now }
        ensures cause { HasCause self.old.faults self.new.faults result }
        ensures whole { IfOk result (λ k. k ≡ length bytes.now) }
        ensures fails { IsErr result ↔ (8192 < length self.old.held + length bytes.now) }
    {
        if bytes.len() > ROOM - self.end {
            self.faults = self.faults.saturating_add(1);
            return Err(Failed);
        }
        put_at(&mut self.bytes, self.end, bytes);
        self.end += bytes.len();
        Ok(bytes.len())
    }
}
