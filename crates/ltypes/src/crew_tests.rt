//! Several workers: how many types they find, and that several are in the middle of a crossing at once.

use super::{OpenGate, ltypes};
use lt_core::Atlas;
use lt_crew::{Gate, enumerate};
use lt_io::{MemorySink, SliceSource};
use std::alloc::{AllocError, Global};
use std::sync::Wait;
use std::sync::atomic::{AtomicU64, Ordering};
use std::test::Fail;
use std::thread::Threads;

/// A gate at which the positions below `held` wait until position `awaited` has passed, for at most 2^30 turns each.
#[derive(Drop)]
struct Holding {
    held: u64,
    awaited: u64,
    /// 1 where the awaited position has passed.
    passed: AtomicU64,
    /// How many positions gave up.
    missed: AtomicU64,
}

impl Holding {
    fn new(held: u64, awaited: u64) -> Holding {
        Holding {
            held,
            awaited,
            passed: AtomicU64::new(0),
            missed: AtomicU64::new(0),
        }
    }

    /// Whether each position that waited saw the awaited one.
    fn saw(&self) -> bool {
        self.passed.load(Ordering::SeqCst) == 1 && self.missed.load(Ordering::SeqCst) == 0
    }
}

impl Gate for Holding {
    fn pass(&self, _worker: u32, position: u64) {
        if position == self.awaited {
            self.passed.store(1, Ordering::SeqCst);
        }
        if position < self.held {
            for _ in 0..1_u64 << 30 {
                if self.passed.load(Ordering::SeqCst) == 1 {
                    return;
                }
            }
            self.missed.store(1, Ordering::SeqCst);
        }
    }
}

/// Out and the status of the words, at a gate.
fn told<R: Threads + Wait + Sync, G: Gate>(
    rt: &R,
    alloc: Global,
    words: &[&str],
    gate: &G,
) -> Result<(MemorySink, u8), AllocError> {
    let (Ok(mut out), Ok(mut err)) = (
        MemorySink::new(alloc, 60_000, 5000, Vec::new(alloc)),
        MemorySink::new(alloc, 100, 100, Vec::new(alloc)),
    ) else {
        return Err(AllocError);
    };
    let mut source = SliceSource::new(b"");
    let code = ltypes(rt, alloc, words, &mut source, &mut out, &mut err, gate).code;
    Ok((out, code))
}

/// The number of lines that begin so.
fn lines(text: &[u8], start: &str) -> usize {
    let start = start.as_bytes();
    text.split(|byte| *byte == b'\n')
        .filter(|line| line.starts_with(start))
        .count()
}

#[test]
fn workers_find_the_types_of_dimension_4(rt: HostRuntime) -> Result<(), Fail> {
    let words = ["run", "4", "--workers", "4"];
    let (out, code) = told(&rt, rt.alloc(), &words, &OpenGate)?;
    assert!(rt; code == 0 && lines(out.bytes(), "entries 3") == 1);
    assert!(rt; lines(out.bytes(), "simplices 12") == 3 && lines(out.bytes(), "cross ") == 30);
    Ok(())
}

#[test]
fn workers_stop_at_the_step_limit(rt: HostRuntime) -> Result<(), Fail> {
    let words = ["run", "5", "--steps", "15", "--workers", "8"];
    let (out, code) = told(&rt, rt.alloc(), &words, &OpenGate)?;
    assert!(rt; code == 1);
    assert!(rt; lines(out.bytes(), "entries 2") == 1 && lines(out.bytes(), "cross 1 ") == 15);
    Ok(())
}

/// Two workers, or three, are in the middle of a crossing at once.
#[test]
fn workers_cross_side_by_side(rt: HostRuntime) -> Result<(), Fail> {
    let alloc = rt.alloc();
    let gate = Holding::new(1, 1);
    let ended = enumerate(&rt, alloc, Atlas::start(alloc, 2)?, 2, 3, &gate);
    assert!(rt; gate.saw() && ended.claims >= 3 && ended.done == 3);
    let gate = Holding::new(2, 2);
    let (_, code) = told(&rt, alloc, &["run", "2", "--workers", "3"], &gate)?;
    assert!(rt; gate.saw() && code == 0);
    let gate = Holding::new(1, 2);
    let ended = enumerate(&rt, alloc, Atlas::start(alloc, 4)?, 2, 3, &gate);
    assert!(rt; gate.saw() && ended.atlas.entries() == 2);
    assert!(rt; ended.atlas.entry(1).origin == Some((0, 1)));
    Ok(())
}
