//! The classes that a flip puts in.

ghost use Rattle.std.specs.Prelude.{◌≡◌, ◌<◌, ◌≤◌, ◌*◌, suc, ℕ, ℤ, pos, ◌<ℤ◌, List, ◌∷◌, length, IsTrue, IfOk, ◌↔◌, ◌⊎◌};
ghost use Rattle.std.specs.List.{Contains};
ghost use Rattle.lt_model.specs.Limits.{span_limit};
ghost use Rattle.lt_model.specs.Facets.{without, number_at};
ghost use Rattle.lt_model.specs.Simplices.{IsClass, IsClassOf, IsExpression};
ghost use Rattle.lt_triang.specs.Bounds.{AreNear};
ghost use Rattle.lt_geometry.specs.Exchanges.{IsMadeFrom};

use arrayvec::ArrayVec;
use lt_lattice::Point;
use lt_model::Memory;
use lt_triang::{Class, Expression};

/// The point `w`, and the points of `s` but that at place `k`.
fn exchanged(s: &[Point], w: &Point, k: usize) -> ArrayVec<Point, 8>
    requires few { length s.now ≤ 7 }
    requires place { k < length s.now }
    ensures { result.items ≡ without (suc k) (w.now ∷ s.now) }
{
    let mut all: ArrayVec<Point, 8> = ArrayVec::new();
    all.push(w.copy());
    for point in s {
        all.push(point.copy());
    }
    let _removed = all.remove(k + 1);
    all
}

/// The class of the point `w` and the vertices of the class `s` but that at place `k`, whose number in the expression of `w` is
/// positive.
fn exchanged_class(d: usize, s: &[Point], w: &Point, e: &Expression, k: usize) -> Class
    requires low { 2 ≤ d }
    requires high { d ≤ 6 }
    requires class { IsClass d s.now }
    requires dimension { length w.now ≡ d }
    requires near { AreNear (2 * span_limit d) (w.now ∷ s.now) }
    requires expression { IsExpression s.now w.now e.now.scale e.now.coefficients }
    requires place { k < suc d }
    requires positive { pos 0 <ℤ number_at k e.now.coefficients }
    ensures { IsClassOf d (without (suc k) (w.now ∷ s.now)) result }
{
    match Class::of(exchanged(s, w, k).as_slice()) {
        Ok((class, _least)) => class,
        Err(_) => unreachable!(),
    }
}

/// Whether the coefficient at place `k` is positive.
fn is_positive_at(e: &Expression, k: usize) -> bool
    requires { k < length e.now.coefficients }
    ensures { IsTrue result ↔ (pos 0 <ℤ number_at k e.now.coefficients) }
{
    e.coefficients[k] > 0
}

/// Appends the classes of the point `w` and the vertices of the class `s` but one whose number in the expression of `w` is
/// positive, one for each such vertex.
pub fn push_exchanged(
    all: &mut Vec<Class>,
    d: usize,
    s: &[Point],
    w: &Point,
    e: &Expression,
) -> Result<(), Memory>
    requires low { 2 ≤ d }
    requires high { d ≤ 6 }
    requires class { IsClass d s.now }
    requires dimension { length w.now ≡ d }
    requires near { AreNear (2 * span_limit d) (w.now ∷ s.now) }
    requires expression { IsExpression s.now w.now e.now.scale e.now.coefficients }
    ensures { IfOk result (λ _. (r : List (List ℤ)) →
        Contains all.new.items r ↔ (Contains all.old.items r ⊎ ((k : ℕ) ×
        IsMadeFrom d s.now w.now e.now.coefficients k r))) }
{
    for k in 0..d + 1 {
        if is_positive_at(e, k) {
            all.push(exchanged_class(d, s, w, e, k))?;
        }
    }
    Ok(())
}
