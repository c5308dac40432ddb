//! The answers of a cover.

use lt_lattice::Point;
use lt_model::Memory;
use lt_num::Fraction;

/// The squared covering radius, and the first member that has it as its squared circumradius.
#[derive(Drop)]
pub struct Cover {
    /// The squared circumradius.
    pub radius: Fraction,
    /// The place of the member.
    pub class: usize,
}

/// Why no covering radius is answered.
#[derive(Drop)]
pub enum CoverError {
    /// An edge has a value above the span limit.
    LongEdge {
        /// The first such edge.
        x: Point,
        /// Its value.
        length: i128,
    },
    /// Memory was refused.
    Memory,
}

impl From<Memory> for CoverError {
    ghost use Rattle.std.specs.Prelude.{◌≡◌};
    ghost use Rattle.lt_cover.specs.declared.answers.CoverError.TheVariants as variant;

    ghost from_gives = { λ _ e. e ≡ variant.Memory };

    fn from(_refused: Memory) -> CoverError {
        CoverError::Memory
    }
}
