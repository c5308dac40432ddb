//! Matrices from where they take the vertices of a simplex.

ghost use Rattle.std.specs.Prelude.{◌≡◌, ◌<◌, ◌≤◌, ◌*◌, ◌+◌, ◌^◌, ◌++◌, ◌≤ℤ◌, ◌<ℤ◌, ◌*ℤ◌, suc, ℕ, ℤ, pos, List, [], length, map, get_or, drop, nat_abs, MatchOption, IfSome};
ghost use Rattle.std.specs.List.{All};
ghost use Rattle.lt_model.specs.Vectors.{scale, dot, unit, zeros};
ghost use Rattle.lt_model.specs.Facets.{number_at};
ghost use Rattle.lt_model.specs.Limits as limits;
ghost use Rattle.lt_model.specs.Flat.{rows, flat};
ghost use Rattle.lt_model.specs.Matrices.{IsSquare};
ghost use Rattle.lt_model.specs.Simplices.{AllOfDimension, IsSimplex};
ghost use Rattle.lt_lattice.specs.Ranges.{IsBelow};
ghost use Rattle.lt_solve.specs.Systems.{column_limit, answer_limit};
ghost use Rattle.lt_triang.specs.Bounds.{AreWithin};
ghost use Rattle.lt_match.specs.Images.{TakesTo};
ghost use Rattle.lt_match.specs.Bases.{IsBasis, IsSomeBasis, IsEntry};

use arrayvec::ArrayVec;
use lt_lattice::{Matrix, Point};
use lt_solve::{Columns, solve};
use lt_triang::span_limit;

/// How multiples of the unit vectors are sums over the vertices of a simplex whose first vertex is 0. The multiples are
/// great, so that the quotients by them are small.
#[derive(Drop)]
pub struct Basis {
    /// By what each unit vector is multiplied.
    scales: ArrayVec<i128, 6>,
    /// For each unit vector a number for each vertex after the first.
    terms: ArrayVec<i128, 36>,
}

/// Appends the coordinates.
fn push_coords(all: &mut ArrayVec<i64, 36>, coords: &[i32])
    requires { length all.old.items + length coords.now ≤ 36 }
    ensures { all.new.items ≡ all.old.items ++ coords.now }
{
    for coord in coords {
        all.push(i64::from(*coord));
    }
}

/// The coordinates of the points after the first.
fn numbers_of(d: usize, points: &[Point]) -> ArrayVec<i64, 36>
    requires few { d ≤ 6 }
    requires count { length points.now ≡ suc d }
    requires dimension { AllOfDimension d points.now }
    ensures { result.items ≡ flat (drop 1 points.now) }
{
    let mut all: ArrayVec<i64, 36> = ArrayVec::new();
    for i in 1..d + 1 {
        push_coords(&mut all, points[i].coords());
    }
    all
}

/// The points after the first, as columns.
fn columns_of(d: usize, points: &[Point]) -> Columns
    requires low { 2 ≤ d }
    requires few { d ≤ 6 }
    requires count { length points.now ≡ suc d }
    requires dimension { AllOfDimension d points.now }
    requires near { AreWithin (limits.span_limit d) points.now }
    ensures { result ≡ drop 1 points.now }
{
    Columns::of(d as u8, numbers_of(d, points).as_slice())
}

/// The number at place `i` of `m` times the unit vector `j`.
fn multiple_at(m: i64, i: usize, j: usize) -> i64
    ensures { (d : ℕ) → i < d → result ≡ number_at i (scale m (unit d j)) }
{
    if i == j { m } else { 0 }
}

/// `m` times the unit vector `j`.
fn multiple(d: usize, m: i64, j: usize) -> ArrayVec<i64, 6>
    requires few { d ≤ 6 }
    ensures { result.items ≡ scale m (unit d j) }
{
    let mut all: ArrayVec<i64, 6> = ArrayVec::new();
    for i in 0..d {
        all.push(multiple_at(m, i, j));
    }
    all
}

/// Appends the numbers.
fn push_numbers(all: &mut ArrayVec<i128, 36>, numbers: &[i128])
    requires { length all.old.items + length numbers.now ≤ 36 }
    ensures { all.new.items ≡ all.old.items ++ numbers.now }
{
    for number in numbers {
        all.push(*number);
    }
}

/// The greatest number of a linear system in dimension `d`.
fn greatest_number(d: usize) -> i64
    requires { d ≤ 6 }
    ensures { result ≡ pos (column_limit d) }
{
    2 * span_limit(d as u8)
}

/// The basis of the vertices of a simplex, the first of which is 0.
pub fn basis_of(d: usize, points: &[Point]) -> Basis
    requires low { 2 ≤ d }
    requires few { d ≤ 6 }
    requires simplex { IsSimplex d points.now }
    requires first { get_or points.now 0 [] ≡ zeros d }
    requires near { AreWithin (limits.span_limit d) points.now }
    ensures { IsBasis d points.now result.scales.items result.terms.items }
{
    let columns = columns_of(d, points);
    let greatest = greatest_number(d);
    let mut scales: ArrayVec<i128, 6> = ArrayVec::new();
    let mut terms: ArrayVec<i128, 36> = ArrayVec::new();
    for j in 0..d {
        match solve(&columns, multiple(d, greatest, j).as_slice()) {
            Ok(found) => {
                scales.push(found.den * i128::from(greatest));
                push_numbers(&mut terms, found.nums.as_slice());
            }
            Err(_) => unreachable!(),
        }
    }
    Basis { scales, terms }
}

/// The sum of the terms times the coordinates `k` of the targets after the first.
fn sum_at(d: usize, terms: &[i128], targets: &[Point], k: usize) -> i128
    requires few { d ≤ 6 }
    requires terms { length terms.now ≡ d }
    requires count { length targets.now ≡ suc d }
    requires dimension { AllOfDimension d targets.now }
    requires place { k < d }
    requires below { All (IsBelow answer_limit) terms.now }
    requires near { AreWithin (limits.span_limit d) targets.now }
    ensures value { result ≡ dot terms.now (map (number_at k) (drop 1 targets.now)) }
    ensures small { nat_abs result ≤ d * (answer_limit * limits.span_limit d) }
{
    let mut sum: i128 = 0;
    for i in 0..d {
        sum += terms[i] * i128::from(targets[i + 1].coord(k));
    }
    sum
}

/// The quotient, or None where it isn't whole.
fn exact_quotient(number: i128, divisor: i128) -> Option<i128>
    requires positive { pos 0 <ℤ divisor }
    requires small { nat_abs divisor < 2 ^ 80 }
    requires small_too { nat_abs number < 2 ^ 80 }
    ensures { MatchOption result ((x : ℤ) → divisor *ℤ x ≡ number → ⊥) (λ x. divisor *ℤ x ≡ number) }
{
    let quotient = number / divisor;
    if quotient * divisor == number {
        Some(quotient)
    } else {
        None
    }
}

/// Row `j` of the terms.
fn terms_at(d: usize, terms: &[i128], j: usize) -> &[i128]
    requires few { d ≤ 6 }
    requires count { length terms.now ≡ d * d }
    requires place { j < d }
    ensures { result.now ≡ get_or (rows d terms.now) j [] }
{
    &terms[j * d..j * d + d]
}

/// The number at row `k` and column `j` of the matrix that takes the vertices to the targets, or None where it isn't whole.
fn entry(d: usize, basis: &Basis, targets: &[Point], k: usize, j: usize) -> Option<i128>
    requires few { d ≤ 6 }
    requires basis { IsSomeBasis d basis.now.scales.items basis.now.terms.items }
    requires count { length targets.now ≡ suc d }
    requires dimension { AllOfDimension d targets.now }
    requires near { AreWithin (limits.span_limit d) targets.now }
    requires row { k < d }
    requires column { j < d }
    ensures { MatchOption result ((x : ℤ) → IsEntry d basis.now.scales.items basis.now.terms.items targets.now k j x →
        ⊥) (λ x. IsEntry d basis.now.scales.items basis.now.terms.items targets.now k j x × IsBelow (2 ^ 62) x) }
{
    let sum = sum_at(d, terms_at(d, basis.terms.as_slice(), j), targets, k);
    exact_quotient(sum, basis.scales[j])
}

/// The matrix that takes each vertex of the basis to the target at its place, or None where it isn't whole.
pub fn matrix_taking(d: usize, basis: &Basis, targets: &[Point]) -> Option<Matrix>
    requires low { 2 ≤ d }
    requires few { d ≤ 6 }
    requires basis { IsSomeBasis d basis.now.scales.items basis.now.terms.items }
    requires count { length targets.now ≡ suc d }
    requires dimension { AllOfDimension d targets.now }
    requires first { get_or targets.now 0 [] ≡ zeros d }
    requires near { AreWithin (limits.span_limit d) targets.now }
    ensures size { IfSome result (λ u. length u ≡ d * d) }
    ensures taking { (points : List (List ℤ)) → IsSimplex d points → get_or points 0 [] ≡ zeros d →
        IsBasis d points basis.now.scales.items basis.now.terms.items →
        MatchOption result ((w : List (List ℤ)) → IsSquare d w → TakesTo d w points targets.now →
        ⊥) (λ u. TakesTo d (rows d u) points targets.now) }
{
    let mut numbers: ArrayVec<i128, 36> = ArrayVec::new();
    for k in 0..d {
        for j in 0..d {
            match entry(d, basis, targets, k, j) {
                Some(number) => numbers.push(number),
                None => return None,
            }
        }
    }
    Some(Matrix::of(d as u8, numbers.as_slice()))
}
