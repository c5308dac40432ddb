//! The squared circumradius of a class.

ghost use Rattle.std.specs.Prelude.{◌≡◌, ◌<◌, ◌≤◌, ◌-◌, ◌^◌, ◌*ℤ◌, ◌<ℤ◌, pos, nat_abs, length, map, drop};
ghost use Rattle.std.specs.List.{All};
ghost use Rattle.lt_model.specs.Vectors.{dot};
ghost use Rattle.lt_model.specs.Forms as form;
ghost use Rattle.lt_lattice.specs.Ranges.{IsWithin, IsBelow};
ghost use Rattle.lt_num.specs.Fractions.{IsQuotient, IsReduced};
ghost use Rattle.lt_solve.specs.Systems.{IsSolution};
ghost use Rattle.lt_cover.specs.Gram.{IsMeasured, gram};
ghost use Rattle.lt_cover.specs.Covers.{IsRadius};

use crate::columns::{products, values};
use lt_lattice::Form;
use lt_num::Fraction;
use lt_solve::{Columns, Solution, solve};
use lt_triang::Class;

/// The sum of the products of equal places.
fn weighted(nums: &[i128], values: &[i64]) -> i128
    requires same { length nums.now ≡ length values.now }
    requires few { length nums.now ≤ 6 }
    requires below { All (IsBelow (2 ^ 56)) nums.now }
    requires within { All (IsWithin 400) values.now }
    ensures { result ≡ dot nums.now values.now }
{
    let mut sum: i128 = 0;
    for i in 0..nums.len() {
        sum += nums[i] * i128::from(values[i]);
    }
    sum
}

/// Half of the quotient.
fn half(twice: i128, den: i128) -> Fraction
    requires positive { pos 0 <ℤ den }
    requires small { nat_abs den < 2 ^ 56 }
    ensures { IsQuotient twice (pos 2 *ℤ den) result }
{
    let double = 2 * den;
    match Fraction::new(twice, double) {
        Ok(quotient) => quotient,
        Err(_) => unreachable!(),
    }
}

/// The numbers with which the vertices but the first, whose values these are, combine to the circumcentre.
fn combination(q: &Form, class: &Class, values: &[i64]) -> Solution
    requires measured { IsMeasured (length class.now - 1) q.now class.now }
    requires values { values.now ≡ map (form.value q.now) (drop 1 class.now) }
    ensures { IsSolution (gram q.now (drop 1 class.now)) values.now result.den result.nums }
{
    let columns = Columns::of(class.dimension(), products(q, class).as_slice());
    match solve(&columns, values) {
        Ok(solution) => solution,
        Err(_) => unreachable!(),
    }
}

/// The squared circumradius of the class. The circumcentre is a combination of the vertices with the numbers of a solution, so the
/// squared circumradius is half the sum of these numbers times the values of the form at the vertices.
pub fn radius_of(q: &Form, class: &Class) -> Fraction
    requires { IsMeasured (length class.now - 1) q.now class.now }
    ensures radius { IsRadius (length class.now - 1) q.now class.now result }
    ensures lowest { IsReduced result }
{
    let values = values(q, class);
    let solution = combination(q, class, values.as_slice());
    half(
        weighted(solution.nums.as_slice(), values.as_slice()),
        solution.den,
    )
}
