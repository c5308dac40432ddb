//! Whether the normals of a list are light enough.

ghost use Rattle.std.specs.Prelude.{◌≡◌, ◌<◌, ℕ, pos, IfOk, IfErr};
ghost use Rattle.lt_model.specs.Limits.{weight as weight_of, weight_limit};
ghost use Rattle.lt_tableau.specs.Errors.{AreOfDimension};
ghost use Rattle.lt_lp.specs.Verdicts.{IsHeavyLp};

use crate::verdicts::LpError;
use lt_lattice::Normal;
use lt_tableau::weight;

/// Refuses normals whose weight is at least 2^112.
pub fn weigh(normals: &[Normal]) -> Result<(), LpError>
    ensures light { IfOk result (λ _. (d : ℕ) → AreOfDimension d normals.now → weight_of d normals.now < weight_limit) }
    ensures heavy { IfErr result (λ e. (d : ℕ) → AreOfDimension d normals.now → IsHeavyLp (weight_of d normals.now) e) }
{
    let weight = weight(normals);
    if weight >= 1 << 112 {
        return Err(LpError::Heavy { weight });
    }
    Ok(())
}
