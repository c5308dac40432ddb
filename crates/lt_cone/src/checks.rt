//! The test of a cone against a triangulation.

ghost use Rattle.std.specs.Prelude.{◌≡◌, ◌<◌, ◌≤◌, ℕ, ℤ, List, [], length, get_or, IsTrue, ◌↔◌, IfOk, IfErr};
ghost use Rattle.lt_model.specs.Cones.{IsRightCone, IsRightVerdict};
ghost use Rattle.lt_model.specs.Limits.{weight, weight_limit};
ghost use Rattle.lt_tableau.specs.Errors.{AreOfDimension};
ghost use Rattle.lt_triang.specs.Kept.{dimension_of, IsOfSomeForm};
ghost use Rattle.lt_cone.specs.Faults.{IsRowOf, HasFault, IsSmallFault};

use crate::error::ConeFault;
use lt_lattice::Normal;
use lt_lp::{Cone, Row, check, form_of};
use lt_regulator::regulators;
use lt_tableau::weight;
use lt_triang::Triangulation;
use std::alloc::Global;

/// Whether the row has the k-th normal and a right verdict on it.
fn is_row(normals: &[Normal], k: usize, row: &Row) -> bool
    requires place { k < length normals.now }
    requires light { (d : ℕ) × AreOfDimension d normals.now × (weight d normals.now < weight_limit) }
    ensures { (d : ℕ) → AreOfDimension d normals.now →
        (IsTrue result ↔ ((row.now.normal ≡ get_or normals.now k []) ×
        IsRightVerdict d normals.now k row.now.verdict)) }
{
    if row.normal != normals[k] {
        return false;
    }
    check(normals, k, &row.verdict)
}

/// The place of the first row that is not right, or the number of the normals.
fn first_wrong(normals: &[Normal], rows: &[Row]) -> usize
    requires light { (d : ℕ) × AreOfDimension d normals.now × (weight d normals.now < weight_limit) }
    ensures most { result ≤ length normals.now }
    ensures before { (d : ℕ) → AreOfDimension d normals.now → (k : ℕ) → k < result → IsRowOf d normals.now rows.now k }
    ensures wrong { (d : ℕ) → AreOfDimension d normals.now → result < length normals.now →
        IsRowOf d normals.now rows.now result → ⊥ }
{
    for k in 0..normals.len() {
        if k >= rows.len() {
            return k;
        }
        if !is_row(normals, k, &rows[k]) {
            return k;
        }
    }
    normals.len()
}

/// Whether the cone is the right one of `t`, which is the Delaunay triangulation of some form. The cone may hold any rows and any
/// form. Wrong comes exactly where it isn't right, and names the first place that is wrong.
pub fn check_cone(alloc: Global, t: &Triangulation, cone: &Cone) -> Result<(), ConeFault>
    requires { IsOfSomeForm t.now }
    ensures right { IfOk result (λ _. IsRightCone (dimension_of t.now) t.now cone.now) }
    ensures wrong { IfErr result (HasFault (dimension_of t.now) t.now cone.now) }
    ensures small { IfErr result IsSmallFault }
{
    // It shows that the regulators are few.
    let _dimension = t.dimension();
    let normals = match regulators(alloc, t) {
        Ok(normals) => normals,
        Err(_) => return Err(ConeFault::Memory),
    };
    let count = normals.len();
    if weight(normals.as_slice()) >= 1 << 112 {
        return Err(ConeFault::Wrong { row: count + 1 });
    }
    let rows = cone.rows.as_slice();
    let wrong = first_wrong(normals.as_slice(), rows);
    if wrong < count {
        return Err(ConeFault::Wrong { row: wrong });
    }
    if rows.len() > count {
        return Err(ConeFault::Wrong { row: count });
    }
    if cone.form != form_of(rows, t.dimension()) {
        return Err(ConeFault::Wrong { row: count });
    }
    Ok(())
}
