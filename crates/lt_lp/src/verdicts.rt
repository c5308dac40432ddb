//! Verdicts, rows and cones.

use arrayvec::ArrayVec;
use lt_lattice::{Form, Normal};
use std::marker::Model;

/// Why a normal of a list is a facet, or why it is none.
#[derive(Drop)]
pub enum Verdict {
    /// A form at which that normal is 0 and each other one is positive.
    Wall(Form),
    /// The scale times that normal is the sum of the terms: places of the list, in ascending order, with their coefficients.
    Combination {
        /// Positive.
        scale: i128,
        /// Places and positive coefficients.
        terms: ArrayVec<(usize, i128), 21>,
    },
}

/// Why there is no verdict.
#[derive(Debug, Drop)]
pub enum LpError {
    /// The weight of the normals is at least 2^112.
    Heavy {
        /// The weight, at most 2^120.
        weight: i128,
    },
    /// Memory was refused.
    Memory,
}

/// A normal of a list with its verdict.
#[derive(Drop)]
pub struct Row {
    /// The normal.
    pub normal: Normal,
    /// The verdict on it.
    pub verdict: Verdict,
}

impl Model for Row {
    ghost use Rattle.lt_model.specs.Cones.{Row as RowModel};
    ghost use Rattle.lt_lp.specs.Verdicts.{verdict_of};

    ghost Value = { RowModel };

    ghost view = { λ r. record { normal = r.normal; verdict = verdict_of r.verdict } };
}

/// The normals of a list with their verdicts, and a form.
#[derive(Drop)]
pub struct Cone {
    /// The rows.
    pub rows: Vec<Row>,
    /// The form.
    pub form: Form,
}

impl Model for Cone {
    ghost use Rattle.lt_model.specs.Cones.{Cone as ConeModel};

    ghost Value = { ConeModel };

    ghost view = { λ c. record { rows = c.rows.items; form = c.form } };
}
