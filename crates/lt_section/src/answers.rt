//! The answers of a section.

use arrayvec::ArrayVec;
use lt_lattice::{Form, Point};
use lt_model::Memory;

/// The restricted normals, one for each row, in ascending order.
#[derive(Drop)]
pub struct Section {
    /// The rows.
    pub rows: Vec<SectionRow>,
}

/// A restricted normal with the verdict on it.
#[derive(Drop)]
pub struct SectionRow {
    /// The values of a regulator at the forms, in the order of the forms, divided by their greatest common divisor.
    pub normal: ArrayVec<i128, 21>,
    /// The verdict on it.
    pub verdict: SectionVerdict,
}

/// Why a restricted normal is a facet of the section, live or dead, or why it is none.
#[derive(Drop)]
pub enum SectionVerdict {
    /// A facet with a positive definite form at each of its walls.
    Live {
        /// A wall: one number for each form, divided by their greatest common divisor. The normal is 0 there, each other
        /// one positive.
        at: ArrayVec<i128, 21>,
        /// The form at the wall: the sum of its numbers times the forms.
        form: Form,
    },
    /// A facet with one point at which the forms at all of its walls are 0.
    Dead {
        /// A wall: one number for each form, divided by their greatest common divisor unless all are 0.
        at: ArrayVec<i128, 21>,
        /// The form at the wall.
        form: Form,
        /// The first edge at which the form is 0; so are the forms at all walls.
        x: Point,
    },
    /// No facet: the scale times the normal is the sum of the terms.
    Combination {
        /// Positive.
        scale: i128,
        /// Places of other rows, in ascending order, and positive coefficients.
        terms: ArrayVec<(usize, i128), 21>,
    },
}

/// Why no section is answered.
#[derive(Debug, Drop)]
pub enum SectionError {
    /// The weight of the restricted normals, filled up with zeros to the numbers of a form, is at least 2^112.
    Heavy {
        /// The weight, at most 2^120.
        weight: i128,
    },
    /// Memory was refused.
    Memory,
}

impl From<Memory> for SectionError {
    ghost use Rattle.std.specs.Prelude.{◌≡◌};
    ghost use Rattle.lt_section.specs.declared.answers.SectionError.TheVariants as variant;

    ghost from_gives = { λ _ e. e ≡ variant.Memory };

    fn from(_refused: Memory) -> SectionError {
        SectionError::Memory
    }
}
