//! The answers of a walk.

use lt_lattice::{Normal, Point};
use lt_model::Memory;
use lt_triang::Triangulation;

/// The triangulation of a form, and how many facets were crossed to it from the principal one.
#[derive(Drop)]
pub struct Located {
    /// The Delaunay triangulation of the form.
    pub triangulation: Triangulation,
    /// The number of crossings.
    pub crossed: u32,
}

/// Why a walk stopped on the way.
#[derive(Drop)]
pub enum WalkStop {
    /// As many facets as may be were crossed.
    Steps,
    /// The span of the next triangulation is above the limit.
    Wide {
        /// The span of the first of its classes above the limit.
        span: i64,
    },
    /// The weight of the regulators is at least 2^112.
    Heavy {
        /// The weight, at most 2^120.
        weight: i128,
    },
}

/// Why no triangulation is answered.
#[derive(Drop)]
pub enum LocateError {
    /// The form isn't positive definite.
    NotPositive {
        /// The first edge at which its value is not positive.
        x: Point,
    },
    /// The form lies on a wall, so it has no Delaunay triangulation.
    OnWall {
        /// The first facet that is 0 at the form.
        facet: Normal,
    },
    /// The walk stopped.
    Stopped {
        /// The number of crossings until then.
        crossed: u32,
        /// Why.
        why: WalkStop,
    },
    /// Memory was refused.
    Memory,
}

impl From<Memory> for LocateError {
    ghost use Rattle.std.specs.Prelude.{◌≡◌};
    ghost use Rattle.lt_locate.specs.declared.answers.LocateError.TheVariants as variant;

    ghost from_gives = { λ _ e. e ≡ variant.Memory };

    fn from(_refused: Memory) -> LocateError {
        LocateError::Memory
    }
}
