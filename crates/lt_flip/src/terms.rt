//! The affine dependency of d + 2 points.

ghost use Rattle.std.specs.Prelude.{◌≡◌, ◌<◌, ◌≤◌, ◌*◌, ◌^◌, suc, ℤ, pos, negsuc, neg_ℤ, ◌<ℤ◌, [], ◌∷◌, ◌++◌, length, get_or, IsTrue, ◌↔◌};
ghost use Rattle.std.specs.List.{All};
ghost use Rattle.lt_model.specs.Limits.{span_limit};
ghost use Rattle.lt_model.specs.Vectors.{scale};
ghost use Rattle.lt_model.specs.Cones.{AreBelow};
ghost use Rattle.lt_lattice.specs.Ranges.{IsWithin};
ghost use Rattle.lt_triang.specs.Bounds.{AreNear};
ghost use Rattle.lt_triang.specs.Flat.{IsFlat, leading};
ghost use Rattle.lt_flip.specs.Ascending.{AreAscending};

use arrayvec::ArrayVec;
use lt_lattice::Point;
use lt_triang::{Class, Expression};

/// The list with a number after it.
fn with_last(list: &[i128], last: i128) -> ArrayVec<i128, 8>
    requires { length list.now ≤ 7 }
    ensures { result.items ≡ list.now ++ last ∷ [] }
{
    let mut all: ArrayVec<i128, 8> = ArrayVec::new();
    for number in list {
        all.push(*number);
    }
    all.push(last);
    all
}

/// The first number that isn't 0, or 0.
fn leading_of(list: &[i128]) -> i128
    ensures { result ≡ leading list.now }
{
    for i in 0..list.len() {
        if list[i] != 0 {
            return list[i];
        }
    }
    0
}

/// The numbers with the other sign.
fn opposite(list: &[i128]) -> ArrayVec<i128, 8>
    requires few { length list.now ≤ 8 }
    requires small { All (IsWithin (2 ^ 63)) list.now }
    ensures { result.items ≡ scale (negsuc 0) list.now }
{
    let mut all: ArrayVec<i128, 8> = ArrayVec::new();
    for i in 0..list.len() {
        all.push(-list[i]);
    }
    all
}

/// The coefficients, and the scale with the other sign.
fn with_scale(e: &Expression) -> ArrayVec<i128, 8>
    requires few { length e.now.coefficients ≤ 7 }
    requires below { AreBelow (2 ^ 59) (e.now.scale ∷ e.now.coefficients) }
    ensures { result.items ≡ e.now.coefficients ++ neg_ℤ e.now.scale ∷ [] }
{
    with_last(e.coefficients.as_slice(), -e.scale)
}

/// The affine dependency of the points: primitive, with the first number that isn't 0 positive.
pub fn terms_of(d: usize, points: &[Point]) -> ArrayVec<i128, 8>
    requires low { 2 ≤ d }
    requires high { d ≤ 6 }
    requires ascending { AreAscending d points.now }
    requires near { AreNear (2 * span_limit d) points.now }
    ensures { IsFlat d points.now result.items }
{
    let last = &points[d + 1];
    match Class::of(&points[..d + 1]) {
        Ok((class, _least)) => {
            let expression = class.expression(last);
            let terms = with_scale(&expression);
            if leading_of(terms.as_slice()) < 0 {
                opposite(terms.as_slice())
            } else {
                terms
            }
        }
        Err(flat) => with_last(flat.terms.as_slice(), 0),
    }
}
