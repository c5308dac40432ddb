//! Quadratic forms.

ghost use Rattle.std.specs.Prelude.{◌≡◌, ◌≤◌, ◌^◌, ℤ, List, length};
ghost use Rattle.std.specs.List.{All};
ghost use Rattle.lt_model.specs.Forms as form;
ghost use Rattle.lt_model.specs.Forms.{numbers_of_form};
ghost use Rattle.lt_lattice.specs.Ranges.{IsWithin, IsBelow, IsFormLength};

use crate::numbers::{collected, inner_product, variables};
use crate::points::Point;
use arrayvec::ArrayVec;
use std::marker::Model;

/// A quadratic form in 2 to 6 variables: the `d (d + 1) / 2` numbers `a_11 a_12 .. a_1d a_22 .. a_dd`,
/// each below 2^92 in absolute value. Its value at x is the sum of the `a_ij x_i x_j`.
#[derive(Drop, PartialEq, Eq, PartialOrd, Ord)]
pub struct Form {
    numbers: ArrayVec<i128, 21>,
}

impl Model for Form {
    ghost Value = { List ℤ };

    ghost view = { λ q. q.numbers.items };

    ghost invariant = { λ q. IsFormLength (length q.numbers.items) × All (IsBelow (2 ^ 92)) q.numbers.items };

    ghost inverse = { λ x. record { numbers = record { items = x } } };
}

impl Form {
    /// The form in `d` variables with these `d (d + 1) / 2` numbers `a_11 a_12 .. a_1d a_22 .. a_dd`,
    /// each below 2^92 in absolute value.
    pub fn of(d: u8, numbers: &[i128]) -> Form
        requires low { 2 ≤ d }
        requires high { d ≤ 6 }
        requires count { length numbers.now ≡ numbers_of_form d }
        requires below { All (IsBelow (2 ^ 92)) numbers.now }
        ensures { result ≡ numbers.now }
    {
        Form {
            numbers: collected(numbers),
        }
    }

    /// The same form.
    pub fn copy(&self) -> Form
        ensures { result ≡ self.now }
    {
        Form::of(self.dimension(), self.numbers())
    }

    /// The numbers `a_11 a_12 .. a_1d a_22 .. a_dd`.
    pub fn numbers(&self) -> &[i128]
        ensures value { result.now ≡ self.now }
        ensures few { length self.now ≤ 21 }
        ensures below { All (IsBelow (2 ^ 92)) self.now }
    {
        self.numbers.as_slice()
    }

    /// The number of variables.
    pub fn dimension(&self) -> u8
        ensures value { length self.now ≡ numbers_of_form result }
        ensures low { 2 ≤ result }
        ensures high { result ≤ 6 }
    {
        variables(self.numbers.len())
    }
}

impl Default for Form {
    /// The form 0 in 2 variables.
    fn default() -> Self {
        Form::of(2, &[0, 0, 0])
    }
}

/// The products `x_i x_j` with `i <= j`, in the order of a form's numbers.
fn products(x: &[i32]) -> ArrayVec<i128, 21>
    requires few { length x.now ≤ 6 }
    requires within { All (IsWithin (2 ^ 20)) x.now }
    ensures { result.items ≡ form.squares x.now }
{
    let mut all: ArrayVec<i128, 21> = ArrayVec::new();
    for i in 0..x.len() {
        for j in i..x.len() {
            all.push(x[i] as i128 * x[j] as i128);
        }
    }
    all
}

/// The products `x_i x_j` with `i <= j` of the coordinates, in the order of a form's numbers.
pub fn squares(x: &Point) -> ArrayVec<i128, 21>
    ensures { result.items ≡ form.squares x.now }
{
    products(x.coords())
}

/// The value Q[x] of the form at the point. Each number of the form is below 2^80 in absolute value.
pub fn value(q: &Form, x: &Point) -> i128
    requires same { length q.now ≡ numbers_of_form (length x.now) }
    requires below { All (IsBelow (2 ^ 80)) q.now }
    ensures { result ≡ form.value q.now x.now }
{
    inner_product(q.numbers(), products(x.coords()).as_slice())
}
