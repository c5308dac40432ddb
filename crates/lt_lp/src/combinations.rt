//! The combination of a tableau whose objective is 0.

ghost use Rattle.std.specs.Prelude.{◌≡◌, ◌≤◌, ◌<◌, ◌-◌, ◌*◌, ◌^◌, ℕ, ℤ, suc, pos, ◌<ℤ◌, List, [], ◌∷◌, drop, length, nat_abs};
ghost use Rattle.lt_model.specs.Cones.{coefficients, places};
ghost use Rattle.lt_tableau.specs.Table.{units_of};
ghost use Rattle.lt_lp.specs.Terms.{value_of, place_of, terms_from, terms_of, scale_of, IsCombinationOf};
ghost use Rattle.lt_lp.specs.Verdicts.{verdict_of};

use crate::primitives::reduce;
use crate::sums::first_unit;
use crate::verdicts::Verdict;
use arrayvec::ArrayVec;
use lt_tableau::Tableau;

/// The value of the column's variable, over the denominator.
fn value(t: &Tableau, column: usize) -> i128
    ensures value { result ≡ value_of t.now column }
    ensures small { nat_abs result ≤ 22 * 2 ^ 56 }
{
    let mut sum: i128 = 0;
    for row in 0..t.rows() {
        if t.basic(row) == column {
            sum += t.right(row);
        }
    }
    sum
}

/// The place of the column among all normals.
fn place(k: usize, column: usize) -> usize
    requires { suc column < 2 ^ 64 }
    ensures { result ≡ place_of k column }
{
    if column < k { column } else { column + 1 }
}

/// The terms of the columns with a value.
fn terms(t: &Tableau, k: usize, columns: usize) -> ArrayVec<(usize, i128), 21>
    requires { length (terms_from k (value_of t.now) 0 columns) ≤ 21 }
    ensures { result.items ≡ terms_from k (value_of t.now) 0 columns }
{
    let mut all: ArrayVec<(usize, i128), 21> = ArrayVec::new();
    for column in 0..columns {
        let number = value(t, column);
        if number != 0 {
            all.push((place(k, column), number));
        }
    }
    all
}

/// The scale, then the coefficients of the terms.
pub fn with_scale(scale: i128, terms: &[(usize, i128)]) -> ArrayVec<i128, 22>
    requires { length terms.now ≤ 21 }
    ensures { result.items ≡ scale ∷ coefficients terms.now }
{
    let mut numbers: ArrayVec<i128, 22> = ArrayVec::new();
    numbers.push(scale);
    for i in 0..terms.len() {
        numbers.push(terms[i].1);
    }
    numbers
}

/// The terms with other coefficients, which follow one number.
fn with_numbers(terms: &[(usize, i128)], numbers: &[i128]) -> ArrayVec<(usize, i128), 21>
    requires few { length terms.now ≤ 21 }
    requires one_each { length numbers.now ≡ suc (length terms.now) }
    ensures places { places result.items ≡ places terms.now }
    ensures coefficients { coefficients result.items ≡ drop 1 numbers.now }
{
    let mut all: ArrayVec<(usize, i128), 21> = ArrayVec::new();
    for i in 0..terms.len() {
        all.push((terms[i].0, numbers[i + 1]));
    }
    all
}

/// The combination of the values, over their greatest common divisor.
pub fn combination(t: &Tableau, k: usize) -> Verdict
    requires columns { 2 ≤ units_of t.now }
    requires few { length (terms_of k t.now) ≤ 21 }
    requires positive { pos 0 <ℤ scale_of t.now }
    ensures { IsCombinationOf k t.now (verdict_of result) }
{
    let _ = t.rows();
    let first = first_unit(t);
    let scale = value(t, first - 2) - value(t, first - 1);
    let raw = terms(t, k, first - 2);
    let mut numbers = with_scale(scale, raw.as_slice());
    reduce(numbers.as_mut_slice());
    Verdict::Combination {
        scale: numbers.as_slice()[0],
        terms: with_numbers(raw.as_slice(), numbers.as_slice()),
    }
}
