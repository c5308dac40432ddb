//! Lists of exact numbers.

ghost use Rattle.std.specs.Prelude.{◌≡◌, ◌≤◌, ◌<◌, ◌^◌, length};
ghost use Rattle.lt_model.specs.Vectors.{dot};
ghost use Rattle.lt_model.specs.Forms.{numbers_of_form};
ghost use Rattle.lt_lattice.specs.Ranges.{IsFormLength, size_of_dot};

use arrayvec::ArrayVec;

/// A copy of the at most 21 numbers of a form or a normal.
pub fn collected(numbers: &[i128]) -> ArrayVec<i128, 21>
    requires { length numbers.now ≤ 21 }
    ensures { result.items ≡ numbers.now }
{
    let mut all: ArrayVec<i128, 21> = ArrayVec::new();
    for number in numbers {
        all.push(*number);
    }
    all
}

/// The number of variables of a form with so many numbers.
pub fn variables(count: usize) -> u8
    requires { IsFormLength count }
    ensures value { count ≡ numbers_of_form result }
    ensures low { 2 ≤ result }
    ensures high { result ≤ 6 }
{
    match count {
        3 => 2,
        6 => 3,
        10 => 4,
        15 => 5,
        _ => 6,
    }
}

/// The sum of the products of equal places.
pub fn inner_product(a: &[i128], b: &[i128]) -> i128
    requires same { length a.now ≡ length b.now }
    requires small { size_of_dot a.now b.now < 2 ^ 127 }
    ensures { result ≡ dot a.now b.now }
{
    let mut sum: i128 = 0;
    for i in 0..a.len() {
        sum += a[i] * b[i];
    }
    sum
}
