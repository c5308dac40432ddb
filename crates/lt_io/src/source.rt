ghost use Rattle.std.specs.Prelude.{◌≡◌, ◌<◌, ◌≤◌, ◌+◌, ℕ, List, ◌++◌, length, IfOk, IfErr};
ghost use Rattle.std.specs.declared.option.Option.{Option};
ghost use Rattle.std.specs.Io.{ReadsAtMost};
ghost use Rattle.std.specs.Io.KnownBytes.{ReadConsumes, Consumes, IsAtEnd};
ghost use Rattle.lt_io.specs.Causes.{HasCause};
ghost use Rattle.lt_io.specs.Whole.{Gains, WhyNot, ReadsAll, WhyNotAll};
ghost use Rattle.lt_io.specs.declared.source.ReadAllError.TheVariants.{Memory as WantOfMemory};

use std::alloc::{AllocError, Global};
use thiserror::Error;

/// A read or a write that failed, and took or gave nothing.
#[derive(Clone, Copy, Debug, PartialEq, Eq, Drop)]
pub struct Failed;

/// Want of memory.
#[derive(Clone, Copy, Debug, PartialEq, Eq, Drop)]
pub struct Memory;

/// Where bytes come from. Some sources tell what they have left, some don't.
pub trait Source {
    /// The bytes left, where they are told.
    ghost left: { Self → Option (List ℕ) };

    /// How often the source has failed.
    ghost faults: { Self → ℕ };

    /// Moves the next bytes into the front of `buf` and answers their number. 0 for a buffer that isn't
    /// empty is the end.
    fn take(&mut self, buf: &mut [u8]) -> Result<usize, Failed>
        ensures bound { ReadsAtMost result buf.new }
        ensures bytes { ReadConsumes (left self.old) (left self.new) result buf.new }
        ensures cause { HasCause (faults self.old) (faults self.new) result };
}

/// Why `read_all` gave no bytes.
#[derive(Clone, Copy, Debug, PartialEq, Eq, Drop, Error)]
pub enum ReadAllError {
    /// The source failed.
    #[error("the source failed")]
    Failed,
    /// More bytes were left than the limit.
    #[error("the input is too long")]
    TooLong,
    /// Want of memory.
    #[error("out of memory")]
    Memory,
}

impl From<AllocError> for ReadAllError {
    ghost from_gives = { λ _ e. e ≡ WantOfMemory };

    fn from(_: AllocError) -> Self {
        ReadAllError::Memory
    }
}

/// Takes some of the next bytes to the end of `bytes`, at most `most`. False at the end of the source.
fn take_some<S: Source>(
    source: &mut S,
    bytes: &mut Vec<u8>,
    most: usize,
) -> Result<bool, ReadAllError>
    requires { 0 < most }
    ensures more { IfOk result (λ more. Gains (S.left source.old) (S.left source.new) bytes.old.items bytes.new.items
        most more) }
    ensures why { IfErr result (WhyNot (S.faults source.old) (S.faults source.new)) }
    ensures later { S.faults source.old ≤ S.faults source.new }
{
    let mut buf = [0u8; 4096];
    let size = most.min(4096);
    match source.take(&mut buf[..size]) {
        Ok(count) => {
            bytes.extend_from_slice(&buf[..count])?;
            Ok(count > 0)
        }
        Err(Failed) => Err(ReadAllError::Failed),
    }
}

/// All the bytes that are left, where they are at most `limit`.
pub fn read_all<S: Source>(
    alloc: Global,
    source: &mut S,
    limit: usize,
) -> Result<Vec<u8>, ReadAllError>
    // All that was left, and no more than the limit.
    ensures read { IfOk result (λ bytes. ReadsAll (S.left source.old) (S.left source.new) bytes.items limit) }
    // One byte more than the limit, or a fault that the source counts, or want of memory.
    ensures why { IfErr result (WhyNotAll (S.left source.old) (S.left source.new) (S.faults source.old)
        (S.faults source.new) limit) }
    ensures later { S.faults source.old ≤ S.faults source.new }
{
    let mut bytes = Vec::new(alloc);
    while bytes.len() < limit {
        let room = limit - bytes.len();
        if !take_some(source, &mut bytes, room)? {
            return Ok(bytes);
        }
    }
    let mut more = [0u8; 1];
    match source.take(&mut more) {
        Ok(0) => Ok(bytes),
        Ok(_) => Err(ReadAllError::TooLong),
        Err(Failed) => Err(ReadAllError::Failed),
    }
}
