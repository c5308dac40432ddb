//! The first facet of a list of normals that has a sign at a form.

ghost use Rattle.std.specs.Prelude.{◌≡◌, ◌<◌, ◌^◌, ℕ, ℤ, List, [], length, get_or, IsTrue, IfOk, MatchOption, ◌↔◌};
ghost use Rattle.std.specs.List.{All};
ghost use Rattle.lt_model.specs.Forms.{numbers_of_form};
ghost use Rattle.lt_model.specs.Limits.{weight, weight_limit};
ghost use Rattle.lt_lattice.specs.Ranges.{IsWithin};
ghost use Rattle.lt_tableau.specs.Errors.{AreOfDimension};
ghost use Rattle.lt_lp.specs.Positive.{IsPositiveAt};
ghost use Rattle.lt_lp.specs.Alternatives.{HasWallForm};
ghost use Rattle.lt_locate.specs.Facing.{IsOfSign, IsMetAt, IsFirstMet};

use lt_lattice::{Form, Normal, pair};
use lt_lp::{LpError, Verdict, decide};
use lt_model::Memory;
use std::alloc::Global;

/// What is asked of the value of a facet at a form.
#[derive(Clone, Copy)]
pub enum Sign {
    /// It is below 0.
    Negative,
    /// It is 0.
    Zero,
}

impl Sign {
    /// Whether the value is so.
    fn is_of(&self, value: i128) -> bool
        ensures { IsTrue result ↔ IsOfSign self.now value }
    {
        match self {
            Sign::Negative => value < 0,
            Sign::Zero => value == 0,
        }
    }
}

/// Whether the k-th of the normals has a wall form.
fn has_wall(alloc: Global, normals: &[Normal], k: usize) -> Result<bool, Memory>
    requires place { k < length normals.now }
    requires same { All (λ x. length x ≡ length (get_or normals.now 0 [])) normals.now }
    requires positive { (form : List ℤ) × IsPositiveAt form normals.now }
    requires light { (d : ℕ) × AreOfDimension d normals.now × (weight d normals.now < weight_limit) }
    ensures { IfOk result (λ b. (d : ℕ) → AreOfDimension d normals.now
        → (IsTrue b ↔ HasWallForm (numbers_of_form d) normals.now k)) }
{
    match decide(alloc, normals, k) {
        Ok(Verdict::Wall(_)) => Ok(true),
        Ok(Verdict::Combination { scale: _, terms: _ }) => Ok(false),
        Err(LpError::Memory) => Err(Memory),
        Err(LpError::Heavy { weight: _ }) => unreachable!(),
    }
}

/// The first of the normals with a wall form whose value at the form has the sign. Only normals with that sign are decided.
pub fn first_facet(
    alloc: Global,
    normals: &[Normal],
    q: &Form,
    sign: Sign,
) -> Result<Option<Normal>, Memory>
    requires same { All (λ x. length x ≡ length q.now) normals.now }
    requires within { All (IsWithin (2 ^ 40)) q.now }
    requires positive { (form : List ℤ) × IsPositiveAt form normals.now }
    requires light { (d : ℕ) × AreOfDimension d normals.now × (weight d normals.now < weight_limit) }
    ensures { IfOk result (λ r. (d : ℕ) → AreOfDimension d normals.now → MatchOption r
        ((k : ℕ) → k < length normals.now → IsMetAt d normals.now q.now sign k → ⊥)
        (λ n. IsFirstMet d normals.now q.now sign n)) }
{
    for k in 0..normals.len() {
        if sign.is_of(pair(&normals[k], q)) && has_wall(alloc, normals, k)? {
            return Ok(Some(normals[k].copy()));
        }
    }
    Ok(None)
}
