//! What workers pass in the middle of a crossing.

use std::marker::Sync;

/// What a worker passes in the middle of its work on a facet: behind the flip, outside the lock, and before the known types are tried.
pub trait Gate: Sync {
    /// The worker with this number, from 0, passes at this position of the queue. It passes once for each crossing.
    fn pass(&self, worker: u32, position: u64);
}

/// A gate that does nothing.
#[derive(Clone, Copy, Debug, Drop)]
pub struct OpenGate;

impl Gate for OpenGate {
    fn pass(&self, _worker: u32, _position: u64) {}
}
