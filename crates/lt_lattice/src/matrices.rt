//! Square matrices.

ghost use Rattle.std.specs.Prelude.{◌≡◌, ◌<◌, ◌≤◌, ◌*◌, ◌*ℤ◌, ◌^◌, ℕ, ℤ, nat_abs, List, [], length, map, get_or, IsTrue, IsSome, IfSome, IsOk, IfOk, ◌↔◌};
ghost use Rattle.std.specs.List.{All};
ghost use Rattle.lt_model.specs.Vectors.{dot};
ghost use Rattle.lt_model.specs.Facets.{number_at};
ghost use Rattle.lt_model.specs.Matrices as matrix;
ghost use Rattle.lt_model.specs.Flat.{rows, flat};
ghost use Rattle.lt_lattice.specs.Ranges.{IsWithin, IsBelow, IsSquareLength};

use crate::numbers::inner_product;
use crate::points::{Point, narrowed};
use arrayvec::ArrayVec;
use std::marker::Model;

/// The absolute value of a matrix's number is below this: 2^62.
const BOUND: i128 = 1 << 62;

/// A matrix of d rows of d numbers, 2 <= d <= 6, each number below 2^62 in absolute value.
#[derive(Drop, PartialEq, Eq, PartialOrd, Ord)]
pub struct Matrix {
    numbers: ArrayVec<i128, 36>,
}

impl Model for Matrix {
    ghost Value = { List ℤ };

    ghost view = { λ u. u.numbers.items };

    ghost invariant = { λ u. IsSquareLength (length u.numbers.items) × All (IsBelow (2 ^ 62)) u.numbers.items };

    ghost inverse = { λ x. record { numbers = record { items = x } } };
}

impl Matrix {
    /// The matrix of `d` rows of `d` numbers each, written row by row. Each number is below 2^62 in absolute value.
    pub fn of(d: u8, rows: &[i128]) -> Matrix
        requires low { 2 ≤ d }
        requires high { d ≤ 6 }
        requires count { length rows.now ≡ d * d }
        requires below { All (IsBelow (2 ^ 62)) rows.now }
        ensures { result ≡ rows.now }
    {
        let mut numbers: ArrayVec<i128, 36> = ArrayVec::new();
        for number in rows {
            numbers.push(*number);
        }
        Matrix { numbers }
    }

    /// The identity of `d` rows.
    pub fn identity(d: u8) -> Matrix
        requires low { 2 ≤ d }
        requires high { d ≤ 6 }
        ensures { result ≡ flat (matrix.identity d) }
    {
        let mut numbers: ArrayVec<i128, 36> = ArrayVec::new();
        for i in 0..d {
            for j in 0..d {
                numbers.push(identity_entry(i, j));
            }
        }
        Matrix { numbers }
    }

    /// The same matrix.
    pub fn copy(&self) -> Matrix
        ensures { result ≡ self.now }
    {
        Matrix::of(self.dimension(), self.numbers())
    }

    /// The numbers, row by row.
    pub fn numbers(&self) -> &[i128]
        ensures value { result.now ≡ self.now }
        ensures few { length self.now ≤ 36 }
        ensures below { All (IsBelow (2 ^ 62)) self.now }
    {
        self.numbers.as_slice()
    }

    /// The number of rows.
    pub fn dimension(&self) -> u8
        ensures value { length self.now ≡ result * result }
        ensures low { 2 ≤ result }
        ensures high { result ≤ 6 }
    {
        match self.numbers.len() {
            4 => 2,
            9 => 3,
            16 => 4,
            25 => 5,
            _ => 6,
        }
    }
}

/// The number at row `i` and column `j` of an identity.
fn identity_entry(i: u8, j: u8) -> i128
    ensures { (d : ℕ) → i < d → result ≡ number_at j (get_or (matrix.identity d) i []) }
{
    if i == j { 1 } else { 0 }
}

/// Row `i` of a matrix of `d` rows.
fn row(numbers: &[i128], d: usize, i: usize) -> &[i128]
    requires few { d ≤ 6 }
    requires count { length numbers.now ≡ d * d }
    requires place { i < d }
    ensures { result.now ≡ get_or (rows d numbers.now) i [] }
{
    &numbers[i * d..i * d + d]
}

/// Column `j` of a matrix of `d` rows.
fn column(numbers: &[i128], d: usize, j: usize) -> ArrayVec<i128, 6>
    requires few { d ≤ 6 }
    requires count { length numbers.now ≡ d * d }
    requires place { j < d }
    ensures { result.items ≡ map (number_at j) (rows d numbers.now) }
{
    let mut all: ArrayVec<i128, 6> = ArrayVec::new();
    for i in 0..d {
        all.push(numbers[i * d + j]);
    }
    all
}

/// The number at row `i` and column `j` of the product of two matrices of `d` rows.
fn entry(u: &[i128], v: &[i128], d: usize, i: usize, j: usize) -> i128
    requires few { d ≤ 6 }
    requires left { length u.now ≡ d * d }
    requires right { length v.now ≡ d * d }
    requires left_below { All (IsBelow (2 ^ 62)) u.now }
    requires right_below { All (IsBelow (2 ^ 62)) v.now }
    requires row { i < d }
    requires column { j < d }
    ensures { result ≡ number_at j (get_or (matrix.times (rows d u.now) (rows d v.now)) i []) }
{
    inner_product(row(u, d, i), column(v, d, j).as_slice())
}

/// The numbers of the product of two matrices of `d` rows.
fn product(u: &[i128], v: &[i128], d: usize) -> ArrayVec<i128, 36>
    requires few { d ≤ 6 }
    requires left { length u.now ≡ d * d }
    requires right { length v.now ≡ d * d }
    requires left_below { All (IsBelow (2 ^ 62)) u.now }
    requires right_below { All (IsBelow (2 ^ 62)) v.now }
    ensures value { result.items ≡ flat (matrix.times (rows d u.now) (rows d v.now)) }
    ensures count { length result.items ≡ d * d }
{
    let mut all: ArrayVec<i128, 36> = ArrayVec::new();
    for i in 0..d {
        for j in 0..d {
            all.push(entry(u, v, d, i, j));
        }
    }
    all
}

/// Whether each number is below 2^62 in absolute value.
fn are_below(numbers: &[i128]) -> bool
    ensures { IsTrue result ↔ All (IsBelow (2 ^ 62)) numbers.now }
{
    for number in numbers {
        if *number <= -BOUND || *number >= BOUND {
            return false;
        }
    }
    true
}

/// A number of a product of matrices is 2^62 or more in absolute value.
#[derive(Debug, Drop)]
pub struct TooLarge;

/// The product `u v`, or TooLarge where one of its numbers is 2^62 or more in absolute value.
pub fn times(u: &Matrix, v: &Matrix) -> Result<Matrix, TooLarge>
    requires { length u.now ≡ length v.now }
    ensures value { (d : ℕ) → length u.now ≡ d * d →
        IfOk result (λ m. m ≡ flat (matrix.times (rows d u.now) (rows d v.now))) }
    ensures below { (d : ℕ) → length u.now ≡ d * d →
        (IsOk result ↔ All (IsBelow (2 ^ 62)) (flat (matrix.times (rows d u.now) (rows d v.now)))) }
{
    let numbers = product(u.numbers(), v.numbers(), u.dimension() as usize);
    if are_below(numbers.as_slice()) {
        Ok(Matrix { numbers })
    } else {
        Err(TooLarge)
    }
}

/// Whether the numbers are those of the identity of `d` rows.
fn is_identity(numbers: &[i128], d: u8) -> bool
    requires low { 2 ≤ d }
    requires high { d ≤ 6 }
    ensures { IsTrue result ↔ (numbers.now ≡ flat (matrix.identity d)) }
{
    numbers == Matrix::identity(d).numbers()
}

/// Whether both products of two matrices of `d` rows are the identity.
fn are_inverse(u: &[i128], v: &[i128], d: u8) -> bool
    requires low { 2 ≤ d }
    requires high { d ≤ 6 }
    requires left { length u.now ≡ d * d }
    requires right { length v.now ≡ d * d }
    requires left_below { All (IsBelow (2 ^ 62)) u.now }
    requires right_below { All (IsBelow (2 ^ 62)) v.now }
    ensures { IsTrue result ↔ matrix.IsInverse d (rows d u.now) (rows d v.now) }
{
    is_identity(product(u, v, d as usize).as_slice(), d)
        && is_identity(product(v, u, d as usize).as_slice(), d)
}

/// Whether each of the matrices is the inverse of the other: both products are the identity.
pub fn inverse_of(u: &Matrix, v: &Matrix) -> bool
    requires { length u.now ≡ length v.now }
    ensures { (d : ℕ) → length u.now ≡ d * d → (IsTrue result ↔ matrix.IsInverse d (rows d u.now) (rows d v.now)) }
{
    are_inverse(u.numbers(), v.numbers(), u.dimension())
}

/// The product of a matrix number and a coordinate. The number fits into 64 bits, so that it takes one multiplication.
fn term(number: i128, coordinate: i32) -> i128
    requires { nat_abs number ≤ 2 ^ 62 }
    ensures value { result ≡ number *ℤ coordinate }
    ensures small { nat_abs result ≤ 2 ^ 93 }
{
    number as i64 as i128 * coordinate as i128
}

/// A coordinate of the image of x, from a row of the matrix.
fn image_coordinate(numbers: &[i128], x: &[i32]) -> i128
    requires same { length numbers.now ≡ length x.now }
    requires few { length x.now ≤ 6 }
    requires within { All (IsWithin (2 ^ 62)) numbers.now }
    ensures { result ≡ dot numbers.now x.now }
{
    let mut sum: i128 = 0;
    for j in 0..x.len() {
        sum += term(numbers[j], x[j]);
    }
    sum
}

/// The coordinates of the image of x by a matrix of `d` rows.
fn image(u: &[i128], d: usize, x: &[i32]) -> ArrayVec<i128, 6>
    requires few { d ≤ 6 }
    requires count { length u.now ≡ d * d }
    requires same { length x.now ≡ d }
    requires below { All (IsBelow (2 ^ 62)) u.now }
    ensures value { result.items ≡ matrix.apply (rows d u.now) x.now }
    ensures count { length result.items ≡ d }
{
    let mut all: ArrayVec<i128, 6> = ArrayVec::new();
    for i in 0..d {
        all.push(image_coordinate(row(u, d, i), x));
    }
    all
}

/// The image `u x` of the point, or None where a coordinate would pass 2^20 in absolute value.
pub fn apply(u: &Matrix, x: &Point) -> Option<Point>
    requires { length u.now ≡ length x.now * length x.now }
    ensures value { IfSome result (λ p. p ≡ matrix.apply (rows (length x.now) u.now) x.now) }
    ensures within { IsSome result ↔ All (IsWithin (2 ^ 20)) (matrix.apply (rows (length x.now) u.now) x.now) }
{
    let coords = x.coords();
    narrowed(image(u.numbers(), coords.len(), coords).as_slice())
}
