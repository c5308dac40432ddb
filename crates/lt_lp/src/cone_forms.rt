//! The form of a cone.

ghost use Rattle.std.specs.Prelude.{◌≡◌, ◌≢◌, ◌≤◌, ◌<◌, ◌*◌, ◌+◌, ◌^◌, ◌+ℤ◌, ℕ, ℤ, pos, List, length, nat_abs};
ghost use Rattle.std.specs.List.{All};
ghost use Rattle.lt_model.specs.Padded.{lookup};
ghost use Rattle.lt_model.specs.Vectors.{zeros};
ghost use Rattle.lt_model.specs.Forms.{numbers_of_form};
ghost use Rattle.lt_model.specs.Cones.{AreBelow, sum_of_walls};
ghost use Rattle.lt_lp.specs.Reduced.{IsReduced};
ghost use Rattle.lt_lp.specs.Rows.{IsWallOf};

use crate::verdicts::{Row, Verdict};
use arrayvec::ArrayVec;
use lt_lattice::Form;
use lt_num::primitive;

/// So many zeros.
fn zeros_of(count: usize) -> ArrayVec<i128, 21>
    requires { count ≤ 21 }
    ensures { result.items ≡ zeros count }
{
    let mut all: ArrayVec<i128, 21> = ArrayVec::new();
    for _ in 0..count {
        all.push(0);
    }
    all
}

/// Adds numbers below 2^62 to sums of at most so many of them.
fn add(sums: &mut [i128], numbers: &[i128], count: usize)
    requires same { length sums.old ≡ length numbers.now }
    requires few { count < 2 ^ 60 }
    requires small { (q : ℕ) → nat_abs (lookup sums.old q) ≤ count * 2 ^ 62 }
    requires below { All (λ x. nat_abs x < 2 ^ 62) numbers.now }
    ensures length { length sums.new ≡ length sums.old }
    ensures sums { (q : ℕ) → lookup sums.new q ≡ lookup sums.old q +ℤ lookup numbers.now q }
    ensures small { (q : ℕ) → nat_abs (lookup sums.new q) ≤ (count + 1) * 2 ^ 62 }
{
    for i in 0..sums.len() {
        sums[i] += numbers[i];
    }
}

/// The sum of the walls of the rows, of `count` numbers each.
fn sum_of(rows: &[Row], d: u8, count: usize) -> ArrayVec<i128, 21>
    requires count { count ≡ numbers_of_form d }
    requires few_numbers { count ≤ 21 }
    requires few { length rows.now ≤ 2 ^ 29 }
    requires walls { All (λ r. IsWallOf d r.verdict) rows.now }
    ensures value { result.items ≡ sum_of_walls count rows.now }
    ensures below { AreBelow (2 ^ 92) result.items }
{
    let mut sums = zeros_of(count);
    for k in 0..rows.len() {
        let row = &rows[k];
        match &row.verdict {
            Verdict::Wall(form) => add(sums.as_mut_slice(), form.numbers(), k),
            Verdict::Combination { .. } => {}
        }
    }
    sums
}

/// The primitive form of the sum of the walls, which is not 0.
pub fn form_of(rows: &[Row], d: u8) -> Form
    requires low { 2 ≤ d }
    requires high { d ≤ 6 }
    requires few { length rows.now ≤ 2 ^ 29 }
    requires walls { All (λ r. IsWallOf d r.verdict) rows.now }
    requires some { (q : ℕ) × (lookup (sum_of_walls (numbers_of_form d) rows.now) q ≢ pos 0) }
    ensures { IsReduced (sum_of_walls (numbers_of_form d) rows.now) result }
{
    let mut sums = sum_of(rows, d, numbers_of(d));
    reduce(sums.as_mut_slice());
    Form::of(d, sums.as_slice())
}

/// Divides numbers, not all 0, by their greatest common divisor.
fn reduce(numbers: &mut [i128])
    requires some { (q : ℕ) × (lookup numbers.now q ≢ pos 0) }
    requires below { AreBelow (2 ^ 92) numbers.now }
    ensures reduced { IsReduced numbers.old numbers.new }
    ensures below { AreBelow (2 ^ 92) numbers.new }
{
    match primitive(numbers) {
        Ok(_) => {}
        Err(_) => unreachable!(),
    }
}

/// The number of coefficients of a form in `d` variables.
fn numbers_of(d: u8) -> usize
    requires low { 2 ≤ d }
    requires high { d ≤ 6 }
    ensures value { result ≡ numbers_of_form d }
    ensures few { result ≤ 21 }
{
    match d {
        2 => 3,
        3 => 6,
        4 => 10,
        5 => 15,
        _ => 21,
    }
}
