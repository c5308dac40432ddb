//! The rows of a cone.

ghost use Rattle.std.specs.Prelude.{◌≡◌, ◌<◌, ℕ, ℤ, List, [], length, get_or, IfOk, IfErr};
ghost use Rattle.std.specs.List.{All};
ghost use Rattle.lt_model.specs.Cones.{Row as RowModel, normals as normals_of, IsRightVerdict};
ghost use Rattle.lt_model.specs.Limits.{weight, weight_limit};
ghost use Rattle.lt_tableau.specs.Errors.{AreOfDimension};
ghost use Rattle.lt_lp.specs.Positive.{IsPositiveAt};
ghost use Rattle.lt_lp.specs.Verdicts.{IsHeavyLp};

use crate::deciding::decide_light;
use crate::verdicts::{LpError, Row};
use crate::weighing::weigh;
use lt_lattice::Normal;
use std::alloc::Global;

/// A row for each of the normals, which some form makes positive.
pub fn rows_of(alloc: Global, normals: &[Normal]) -> Result<Vec<Row>, LpError>
    requires same { All (λ x. length x ≡ length (get_or normals.now 0 [])) normals.now }
    requires positive { (form : List ℤ) × IsPositiveAt form normals.now }
    ensures normals { IfOk result (λ rows. normals_of rows.items ≡ normals.now) }
    ensures right { IfOk result (λ rows. (d : ℕ) → AreOfDimension d normals.now → (k : ℕ) (r : RowModel) →
        k < length rows.items → IsRightVerdict d normals.now k (get_or rows.items k r).verdict) }
    ensures light { IfOk result (λ _. (d : ℕ) → AreOfDimension d normals.now → 0 < length normals.now →
        weight d normals.now < weight_limit) }
    ensures heavy { IfErr result (λ e. (d : ℕ) → AreOfDimension d normals.now → IsHeavyLp (weight d normals.now) e) }
{
    weigh(normals)?;
    let mut rows: Vec<Row> = match Vec::with_capacity(alloc, normals.len()) {
        Ok(rows) => rows,
        Err(_) => return Err(LpError::Memory),
    };
    for k in 0..normals.len() {
        match decide_light(alloc, normals, k) {
            Ok(verdict) => {
                let row = Row {
                    normal: normals[k].copy(),
                    verdict,
                };
                match rows.push(row) {
                    Ok(()) => {}
                    Err(_) => return Err(LpError::Memory),
                }
            }
            Err(_) => return Err(LpError::Memory),
        }
    }
    Ok(rows)
}
