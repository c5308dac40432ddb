//! Affine dependencies of points from the linear ones of their differences.

ghost use Rattle.std.specs.Prelude.{◌≡◌, ◌≢◌, ◌≤◌, ◌*◌, ◌^◌, ◌⊎◌, ◌<ℤ◌, neg_ℤ, ℤ, pos, negsuc, ◌∷◌, length, nat_abs};
ghost use Rattle.std.specs.List.{All};
ghost use Rattle.lt_model.specs.Vectors.{scale, total};
ghost use Rattle.lt_model.specs.Cones.{AreBelow};
ghost use Rattle.lt_solve.specs.Systems.{answer_limit};
ghost use Rattle.lt_lattice.specs.Ranges.{IsWithin};
ghost use Rattle.lt_triang.specs.Flat.{leading};

use arrayvec::ArrayVec;

/// The sum of the numbers.
pub fn total_of(terms: &[i128]) -> i128
    requires few { length terms.now ≤ 6 }
    requires below { AreBelow answer_limit terms.now }
    ensures value { result ≡ total terms.now }
    ensures small { nat_abs result ≤ 6 * 2 ^ 56 }
{
    let mut sum: i128 = 0;
    for i in 0..terms.len() {
        sum += terms[i];
    }
    sum
}

/// The list with a number before it.
pub fn with_first(first: i128, rest: &[i128]) -> ArrayVec<i128, 7>
    requires { length rest.now ≤ 6 }
    ensures { result.items ≡ first ∷ rest.now }
{
    let mut all: ArrayVec<i128, 7> = ArrayVec::new();
    all.push(first);
    for number in rest {
        all.push(*number);
    }
    all
}

/// The first number that isn't 0, or 0.
fn leading_of(list: &[i128]) -> i128
    ensures { result ≡ leading list.now }
{
    for i in 0..list.len() {
        if list[i] != 0 {
            return list[i];
        }
    }
    0
}

/// The numbers with the other sign.
fn opposite(list: &[i128]) -> ArrayVec<i128, 7>
    requires few { length list.now ≤ 7 }
    requires small { All (IsWithin (2 ^ 63)) list.now }
    ensures { result.items ≡ scale (negsuc 0) list.now }
{
    let mut all: ArrayVec<i128, 7> = ArrayVec::new();
    for i in 0..list.len() {
        all.push(-list[i]);
    }
    all
}

/// The terms of points from those of their differences from the first, with the first that isn't 0 positive.
pub fn flat_terms(terms: &[i128]) -> ArrayVec<i128, 7>
    requires few { length terms.now ≤ 6 }
    requires below { AreBelow answer_limit terms.now }
    requires some { leading terms.now ≢ pos 0 }
    ensures either { (result.items ≡ neg_ℤ (total terms.now) ∷ terms.now) ⊎
        (result.items ≡ scale (negsuc 0) (neg_ℤ (total terms.now) ∷ terms.now)) }
    ensures sign { pos 0 <ℤ leading result.items }
{
    let all = with_first(-total_of(terms), terms);
    if leading_of(all.as_slice()) < 0 {
        opposite(all.as_slice())
    } else {
        all
    }
}
