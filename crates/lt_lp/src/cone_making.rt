//! The cone of a list of normals.

ghost use Rattle.std.specs.Prelude.{◌≡◌, ◌≤◌, ◌<◌, ◌^◌, ℕ, ℤ, List, length, IfOk, IfErr};
ghost use Rattle.lt_model.specs.Limits.{weight};
ghost use Rattle.lt_tableau.specs.Errors.{AreOfDimension};
ghost use Rattle.lt_lp.specs.Positive.{IsPositiveAt};
ghost use Rattle.lt_lp.specs.Rows.{HaveDifferentRays, IsConeOf};
ghost use Rattle.lt_lp.specs.Verdicts.{IsHeavyLp};

use crate::cone_forms::form_of;
use crate::rows::rows_of;
use crate::verdicts::{Cone, LpError};
use lt_lattice::Normal;
use std::alloc::Global;

/// The cone of the normals: a row for each with a certificate, and the primitive form of the sum of the wall forms. The normals
/// are of forms in `d` variables, some form makes all of them positive, and no two lie on one ray. Heavy exactly where their
/// weight is at least 2^112.
pub fn cone_of(alloc: Global, d: u8, normals: &[Normal]) -> Result<Cone, LpError>
    requires low { 2 ≤ d }
    requires high { d ≤ 6 }
    requires some { 0 < length normals.now }
    requires few { length normals.now ≤ 2 ^ 29 }
    requires lengths { AreOfDimension d normals.now }
    requires positive { (form : List ℤ) × IsPositiveAt form normals.now }
    requires rays { HaveDifferentRays normals.now }
    ensures right { IfOk result (λ c. IsConeOf d normals.now c) }
    ensures heavy { IfErr result (λ e. IsHeavyLp (weight d normals.now) e) }
{
    let rows = rows_of(alloc, normals)?;
    let form = form_of(rows.as_slice(), d);
    Ok(Cone { rows, form })
}
