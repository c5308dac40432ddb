//! The check of a verdict, by its numbers alone.

ghost use Rattle.std.specs.Prelude.{◌≡◌, ◌≢◌, ◌<◌, ◌≤◌, ◌*◌, ◌^◌, ◌*ℤ◌, ℕ, ℤ, pos, ◌<ℤ◌, [], length, get_or, nat_abs, IsTrue, ◌↔◌};
ghost use Rattle.std.specs.List.{All};
ghost use Rattle.lt_model.specs.Padded.{lookup};
ghost use Rattle.lt_model.specs.Vectors.{IsPrimitive};
ghost use Rattle.lt_model.specs.Cones.{AreBelow, IsRightWall, IsRightCombination, IsRightVerdict};
ghost use Rattle.lt_model.specs.Limits.{weight, weight_limit};
ghost use Rattle.lt_lattice.specs.Ranges.{IsBelow};
ghost use Rattle.lt_tableau.specs.Errors.{AreOfDimension};
ghost use Rattle.lt_lp.specs.Checks.{AreTerms, term_sum, Separates};
ghost use Rattle.lt_lp.specs.Verdicts.{verdict_of};

use crate::combinations::with_scale;
use crate::verdicts::Verdict;
use arrayvec::ArrayVec;
use lt_lattice::{Form, Normal, pair};
use lt_num::primitive;

/// What the numbers of a verdict are below.
const BOUND: i128 = 1 << 62;

/// Whether each number is below 2^62 in absolute value.
fn are_below(numbers: &[i128]) -> bool
    ensures { IsTrue result ↔ AreBelow (2 ^ 62) numbers.now }
{
    for number in numbers {
        if *number <= -BOUND || *number >= BOUND {
            return false;
        }
    }
    true
}

/// The same numbers.
fn copied(numbers: &[i128]) -> ArrayVec<i128, 22>
    requires { length numbers.now ≤ 22 }
    ensures { result.items ≡ numbers.now }
{
    let mut all: ArrayVec<i128, 22> = ArrayVec::new();
    for number in numbers {
        all.push(*number);
    }
    all
}

/// Whether 1 alone divides all of the numbers.
fn is_primitive(numbers: &[i128]) -> bool
    requires few { length numbers.now ≤ 22 }
    requires below { AreBelow (2 ^ 62) numbers.now }
    ensures { IsTrue result ↔ IsPrimitive numbers.now }
{
    let mut copy = copied(numbers);
    match primitive(copy.as_mut_slice()) {
        Ok(divisor) => divisor == 1,
        Err(_) => unreachable!(),
    }
}

/// Whether the k-th normal is 0 at the form and each other one positive.
fn separates(normals: &[Normal], k: usize, form: &Form) -> bool
    requires same { All (λ x. length x ≡ length form.now) normals.now }
    requires small { All (All (IsBelow (2 ^ 56))) normals.now }
    requires below { AreBelow (2 ^ 62) form.now }
    ensures { IsTrue result ↔ Separates normals.now k form.now }
{
    for i in 0..normals.len() {
        let value = pair(&normals[i], form);
        if i == k {
            if value != 0 {
                return false;
            }
        } else if value <= 0 {
            return false;
        }
    }
    true
}

/// Whether the places ascend, are below the count and other than k, and the coefficients are positive and below 2^62.
fn are_terms(terms: &[(usize, i128)], count: usize, k: usize) -> bool
    ensures { IsTrue result ↔ AreTerms 0 count k terms.now }
{
    let mut from: usize = 0;
    for i in 0..terms.len() {
        let (place, coefficient) = terms[i];
        if place < from || place >= count || place == k {
            return false;
        }
        if coefficient <= 0 || coefficient >= BOUND {
            return false;
        }
        from = place + 1;
    }
    true
}

/// The j-th number of the sum of the terms.
fn sum_at(normals: &[Normal], terms: &[(usize, i128)], k: usize, j: usize) -> i128
    requires inside { (i : ℕ) → i < length normals.now → j < length (get_or normals.now i []) }
    requires small { All (All (IsBelow (2 ^ 56))) normals.now }
    requires few { length terms.now ≤ 21 }
    requires terms { AreTerms 0 (length normals.now) k terms.now }
    ensures { result ≡ term_sum normals.now j terms.now }
{
    let mut sum: i128 = 0;
    for i in 0..terms.len() {
        let (place, coefficient) = terms[i];
        sum += normals[place].numbers()[j] * coefficient;
    }
    sum
}

/// Whether the terms sum to the scale times the k-th normal.
fn sums_match(normals: &[Normal], k: usize, scale: i128, terms: &[(usize, i128)]) -> bool
    requires place { k < length normals.now }
    requires same { All (λ x. length x ≡ length (get_or normals.now k [])) normals.now }
    requires small { All (All (IsBelow (2 ^ 56))) normals.now }
    requires scale { nat_abs scale < 2 ^ 62 }
    requires few { length terms.now ≤ 21 }
    requires terms { AreTerms 0 (length normals.now) k terms.now }
    ensures { IsTrue result ↔ ((j : ℕ) → j < length (get_or normals.now k []) →
        term_sum normals.now j terms.now ≡ scale *ℤ lookup (get_or normals.now k []) j) }
{
    let numbers = normals[k].numbers();
    for j in 0..numbers.len() {
        if sum_at(normals, terms, k, j) != scale * numbers[j] {
            return false;
        }
    }
    true
}

/// Whether the form is a right wall of the k-th normal.
fn is_wall(normals: &[Normal], k: usize, form: &Form) -> bool
    requires place { k < length normals.now }
    requires same { All (λ x. length x ≡ length (get_or normals.now k [])) normals.now }
    requires small { All (All (IsBelow (2 ^ 56))) normals.now }
    ensures { (d : ℕ) → AreOfDimension d normals.now → (IsTrue result ↔ IsRightWall d normals.now k form.now) }
{
    form.numbers().len() == normals[k].numbers().len()
        && are_below(form.numbers())
        && is_primitive(form.numbers())
        && separates(normals, k, form)
}

/// Whether the scale is positive and below 2^62, and there are at most so many terms.
fn are_in_range(scale: i128, terms: usize, most: usize) -> bool
    ensures { IsTrue result ↔ ((pos 0 <ℤ scale) × (nat_abs scale < 2 ^ 62) × (terms ≤ most)) }
{
    scale > 0 && scale < BOUND && terms <= most
}

/// Whether the scale and the terms are a right combination for the k-th normal.
fn is_combination(normals: &[Normal], k: usize, scale: i128, terms: &[(usize, i128)]) -> bool
    requires place { k < length normals.now }
    requires same { All (λ x. length x ≡ length (get_or normals.now k [])) normals.now }
    requires small { All (All (IsBelow (2 ^ 56))) normals.now }
    ensures { (d : ℕ) → AreOfDimension d normals.now →
        (IsTrue result ↔ IsRightCombination d normals.now k scale terms.now) }
{
    if !are_in_range(scale, terms.len(), normals[k].numbers().len()) {
        return false;
    }
    if !are_terms(terms, normals.len(), k) {
        return false;
    }
    if !is_primitive(with_scale(scale, terms).as_slice()) {
        return false;
    }
    sums_match(normals, k, scale, terms)
}

/// Whether the verdict on the k-th normal is right. The weight of the normals is below 2^112. It takes no memory, and the places
/// inside the verdict may be any.
pub fn check(normals: &[Normal], k: usize, verdict: &Verdict) -> bool
    requires place { k < length normals.now }
    requires light { (d : ℕ) × AreOfDimension d normals.now × (weight d normals.now < weight_limit) }
    ensures { (d : ℕ) → AreOfDimension d normals.now →
        (IsTrue result ↔ IsRightVerdict d normals.now k (verdict_of verdict.now)) }
{
    match verdict {
        Verdict::Wall(form) => is_wall(normals, k, form),
        Verdict::Combination { scale, terms } => is_combination(
            normals,
            k,
            *scale,
            terms.as_slice(),
        ),
    }
}
