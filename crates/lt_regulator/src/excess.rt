//! The excess of a point over a simplex, as a function of the form, number by number.

ghost use Rattle.std.specs.Prelude.{◌≡◌, ◌<◌, ◌≤◌, ◌*◌, ◌^◌, suc, ℕ, ℤ, pos, ◌*ℤ◌, false, List, ◌∷◌, length, nat_abs};
ghost use Rattle.std.specs.List.{All, AllByRecursion};
ghost use Rattle.lt_model.specs.Vectors.{scale};
ghost use Rattle.lt_model.specs.Cones.{AreBelow};
ghost use Rattle.lt_model.specs.Forms.{numbers_of_form};
ghost use Rattle.lt_model.specs.Limits.{widest};
ghost use Rattle.lt_model.specs.Simplices.{AllOfDimension};
ghost use Rattle.lt_model.specs.Walls.{excess_normal};
ghost use Rattle.lt_lattice.specs.Ranges.{IsWithin, IsBelow};
ghost use Rattle.lt_triang.specs.Bounds.{AreWithin};
ghost use Rattle.lt_regulator.specs.Signed.{product_at as product_by, excess_at as excess_by};

use arrayvec::ArrayVec;
use lt_lattice::Point;

/// The product of two coordinates.
fn product_at(x: &Point, i: usize, j: usize) -> i64
    requires row { i < length x.now }
    requires column { j < length x.now }
    ensures value { result ≡ product_by i j x.now }
    ensures small { nat_abs result ≤ 2 ^ 40 }
{
    x.coord(i) * x.coord(j)
}

/// The product of a coefficient and a product of coordinates.
fn term(coefficient: i64, product: i64) -> i128
    requires { nat_abs product ≤ 2 ^ 40 }
    ensures value { result ≡ coefficient *ℤ product }
    ensures small { nat_abs result ≤ 2 ^ 103 }
{
    i128::from(coefficient) * i128::from(product)
}

/// The number of the excess of `w` over the simplex `s` at a pair of coordinates, from the numbers of an expression of `w`,
/// the scale first.
fn excess_at(s: &[Point], w: &Point, numbers: &[i64], i: usize, j: usize) -> i128
    requires few { length s.now ≤ 7 }
    requires points { AllOfDimension (length w.now) s.now }
    requires numbers { length numbers.now ≡ suc (length s.now) }
    requires row { i < length w.now }
    requires column { j < length w.now }
    ensures { (c : ℤ) (b : List ℤ) → numbers.now ≡ c ∷ b → result ≡ excess_by i j s.now w.now c b }
{
    let mut sum = term(numbers[0], product_at(w, i, j));
    for m in 0..s.len() {
        sum -= term(numbers[m + 1], product_at(&s[m], i, j));
    }
    sum
}

/// The numbers of the excess of `w` over the simplex `s`, from the numbers of an expression of `w`, the scale first.
pub fn excess_of(d: usize, s: &[Point], w: &Point, numbers: &[i64]) -> ArrayVec<i128, 21>
    requires high { d ≤ 6 }
    requires count { length s.now ≡ suc d }
    requires points { AllOfDimension d s.now }
    requires near { AreWithin widest s.now }
    requires dimension { length w.now ≡ d }
    requires near_too { All (IsWithin (2 * widest)) w.now }
    requires numbers { length numbers.now ≡ suc (length s.now) }
    requires below { AreBelow (2 ^ 59) numbers.now }
    ensures value { (c : ℤ) (b : List ℤ) → numbers.now ≡ c ∷ b → result.items ≡ excess_normal s.now w.now c b }
    ensures below { All (IsBelow (2 ^ 80)) result.items }
{
    let mut all: ArrayVec<i128, 21> = ArrayVec::new();
    for i in 0..d {
        for j in i..d {
            all.push(excess_at(s, w, numbers, i, j));
        }
    }
    all
}

/// Whether the numbers have one sign.
fn same_sign(a: i128, b: i128) -> bool
    ensures { result ≡ false → (factor : ℕ) → 0 < factor → a ≡ pos factor *ℤ b → ⊥ }
{
    (a > 0) == (b > 0) && (a < 0) == (b < 0)
}

/// Whether the numbers of the excess have the signs of the normal's, where the normal isn't 0. It stops at the first that
/// hasn't, and most normals that aren't multiples of the excess differ from it at one of the first numbers.
pub fn signs_agree(d: usize, s: &[Point], w: &Point, numbers: &[i64], normal: &[i128]) -> bool
    requires high { d ≤ 6 }
    requires count { length s.now ≡ suc d }
    requires points { AllOfDimension d s.now }
    requires dimension { length w.now ≡ d }
    requires numbers { length numbers.now ≡ suc (length s.now) }
    requires normal { length normal.now ≡ numbers_of_form d }
    ensures { result ≡ false → (c : ℤ) (b : List ℤ) → numbers.now ≡ c ∷ b → (factor : ℕ) → 0 < factor →
        excess_normal s.now w.now c b ≡ scale (pos factor) normal.now → ⊥ }
{
    let mut k = 0;
    for i in 0..d {
        for j in i..d {
            if normal[k] != 0 {
                if !same_sign(excess_at(s, w, numbers, i, j), normal[k]) {
                    return false;
                }
            }
            k += 1;
        }
    }
    true
}
