//! The verdict on a normal of a list.

ghost use Rattle.std.specs.Prelude.{◌≡◌, ◌<◌, ℕ, ℤ, List, [], length, get_or, IfOk, IfErr};
ghost use Rattle.std.specs.List.{All};
ghost use Rattle.lt_model.specs.Cones.{IsRightVerdict};
ghost use Rattle.lt_model.specs.Limits.{weight, weight_limit};
ghost use Rattle.lt_tableau.specs.Errors.{AreOfDimension};
ghost use Rattle.lt_lp.specs.Alternatives.{IsNoWall};
ghost use Rattle.lt_lp.specs.Verdicts.{verdict_of, IsHeavyLp};
ghost use Rattle.lt_lp.specs.Positive.{IsPositiveAt};

use crate::combinations::combination;
use crate::rule::stopped;
use crate::sums::objective;
use crate::verdicts::{LpError, Verdict};
use crate::walls::wall;
use crate::weighing::weigh;
use lt_lattice::Normal;
use lt_model::Memory;
use std::alloc::Global;

/// The verdict on the k-th of the normals, whose weight is below 2^112.
pub fn decide_light(alloc: Global, normals: &[Normal], k: usize) -> Result<Verdict, Memory>
    requires place { k < length normals.now }
    requires same { All (λ x. length x ≡ length (get_or normals.now 0 [])) normals.now }
    requires positive { (form : List ℤ) × IsPositiveAt form normals.now }
    requires light { (d : ℕ) → AreOfDimension d normals.now → weight d normals.now < weight_limit }
    ensures right { IfOk result (λ v. (d : ℕ) → AreOfDimension d normals.now →
        IsRightVerdict d normals.now k (verdict_of v)) }
    ensures alone { IfOk result (λ v. (d : ℕ) → AreOfDimension d normals.now →
        IsNoWall d normals.now k (verdict_of v)) }
{
    let d = normals[k].dimension();
    match stopped(alloc, normals, k) {
        Ok(last) => {
            if objective(&last) == 0 {
                Ok(combination(&last, k))
            } else {
                Ok(Verdict::Wall(wall(&last, d)))
            }
        }
        Err(error) => Err(error),
    }
}

/// The verdict on the k-th of the normals, by the pivot rule. The normals are of forms in the same number of variables, and some
/// form makes all of them positive. Heavy exactly where their weight is at least 2^112.
pub fn decide(alloc: Global, normals: &[Normal], k: usize) -> Result<Verdict, LpError>
    requires place { k < length normals.now }
    requires same { All (λ x. length x ≡ length (get_or normals.now 0 [])) normals.now }
    requires positive { (form : List ℤ) × IsPositiveAt form normals.now }
    ensures right { IfOk result (λ v. (d : ℕ) → AreOfDimension d normals.now →
        IsRightVerdict d normals.now k (verdict_of v)) }
    ensures alone { IfOk result (λ v. (d : ℕ) → AreOfDimension d normals.now →
        IsNoWall d normals.now k (verdict_of v)) }
    ensures light { IfOk result (λ _. (d : ℕ) → AreOfDimension d normals.now → weight d normals.now < weight_limit) }
    ensures heavy { IfErr result (λ e. (d : ℕ) → AreOfDimension d normals.now → IsHeavyLp (weight d normals.now) e) }
{
    weigh(normals)?;
    match decide_light(alloc, normals, k) {
        Ok(verdict) => Ok(verdict),
        Err(_) => Err(LpError::Memory),
    }
}
