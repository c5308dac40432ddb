//! Marks of facets, entries and events.

ghost use Rattle.std.specs.Prelude.{◌≡◌, IsTrue, ◌↔◌};
ghost use Rattle.lt_model.specs.Atlases.{open_mark};
ghost use Rattle.lt_core.specs.Refusals.{IsHeavyMark};
ghost use Rattle.lt_core.specs.Marks.{mark_of};

use lt_lattice::Matrix;
use lt_lp::Cone;
use lt_triang::{Class, Triangulation};

/// What is known of a facet.
#[derive(Drop)]
pub enum Mark {
    /// Nothing yet.
    Open,
    /// The matrix carries the triangulation across onto the entry with this number.
    Cross {
        /// The number of the entry.
        target: u32,
        /// A unimodular matrix of d rows of d numbers.
        matrix: Matrix,
    },
    /// The triangulation across has a class whose span is above the limit.
    Wide {
        /// The first such class.
        class: Class,
        /// Its span.
        span: u64,
    },
    /// The weight of the triangulation across isn't below 2^112.
    Heavy {
        /// The weight, at most 2^120.
        weight: u128,
    },
}

impl Mark {
    /// Whether nothing is known yet.
    pub fn is_open(&self) -> bool
        ensures { IsTrue result ↔ (mark_of self.now ≡ open_mark) }
    {
        match self {
            Mark::Open => true,
            Mark::Cross { .. } => false,
            Mark::Wide { .. } => false,
            Mark::Heavy { .. } => false,
        }
    }

    /// Whether the weight was too large.
    pub fn is_heavy(&self) -> bool
        ensures { IsTrue result ↔ IsHeavyMark self.now }
    {
        match self {
            Mark::Open => false,
            Mark::Cross { .. } => false,
            Mark::Wide { .. } => false,
            Mark::Heavy { .. } => true,
        }
    }

    /// The same mark again.
    pub fn copy(&self) -> Mark
        ensures { mark_of result ≡ mark_of self.now }
    {
        match self {
            Mark::Open => Mark::Open,
            Mark::Cross { target, matrix } => Mark::Cross {
                target: *target,
                matrix: matrix.copy(),
            },
            Mark::Wide { class, span } => Mark::Wide {
                class: class.copy(),
                span: *span,
            },
            Mark::Heavy { weight } => Mark::Heavy { weight: *weight },
        }
    }
}

/// A triangulation with its cone, and the entry and facet across which it was found.
#[derive(Drop)]
pub struct Entry {
    /// The classes.
    pub triangulation: Triangulation,
    /// The regulators with their certificates.
    pub cone: Cone,
    /// The number of an earlier entry and of a facet of it; none for the principal type.
    pub origin: Option<(u32, u32)>,
}

/// One recording.
#[derive(Drop)]
pub struct Event {
    /// The position of the queue at which it stands.
    pub position: u64,
    /// The mark that was written.
    pub mark: Mark,
    /// Whether an entry was appended.
    pub fresh: bool,
}
