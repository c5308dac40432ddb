//! Normals: linear functions of quadratic forms.

ghost use Rattle.std.specs.Prelude.{◌≡◌, ◌≤◌, ◌^◌, ℤ, List, length};
ghost use Rattle.std.specs.List.{All};
ghost use Rattle.lt_model.specs.Vectors.{dot};
ghost use Rattle.lt_model.specs.Forms.{numbers_of_form};
ghost use Rattle.lt_lattice.specs.Ranges.{IsBelow, IsFormLength};

use crate::forms::Form;
use crate::numbers::{collected, inner_product, variables};
use arrayvec::ArrayVec;
use std::marker::Model;

/// A linear function of the forms in 2 to 6 variables: `d (d + 1) / 2` numbers in the order of a form's numbers,
/// each below 2^80 in absolute value. Its value at a form is the sum of the products of equal places.
#[derive(Drop, PartialEq, Eq, PartialOrd, Ord)]
pub struct Normal {
    numbers: ArrayVec<i128, 21>,
}

impl Model for Normal {
    ghost Value = { List ℤ };

    ghost view = { λ n. n.numbers.items };

    ghost invariant = { λ n. IsFormLength (length n.numbers.items) × All (IsBelow (2 ^ 80)) n.numbers.items };

    ghost inverse = { λ x. record { numbers = record { items = x } } };
}

impl Normal {
    /// The normal of forms in `d` variables with these `d (d + 1) / 2` numbers, each below 2^80 in absolute value.
    pub fn of(d: u8, numbers: &[i128]) -> Normal
        requires low { 2 ≤ d }
        requires high { d ≤ 6 }
        requires count { length numbers.now ≡ numbers_of_form d }
        requires below { All (IsBelow (2 ^ 80)) numbers.now }
        ensures { result ≡ numbers.now }
    {
        Normal {
            numbers: collected(numbers),
        }
    }

    /// The same normal.
    pub fn copy(&self) -> Normal
        ensures { result ≡ self.now }
    {
        Normal::of(self.dimension(), self.numbers())
    }

    /// The numbers, in the order of a form's numbers.
    pub fn numbers(&self) -> &[i128]
        ensures value { result.now ≡ self.now }
        ensures few { length self.now ≤ 21 }
        ensures below { All (IsBelow (2 ^ 80)) self.now }
    {
        self.numbers.as_slice()
    }

    /// The number of variables of the forms.
    pub fn dimension(&self) -> u8
        ensures value { length self.now ≡ numbers_of_form result }
        ensures low { 2 ≤ result }
        ensures high { result ≤ 6 }
    {
        variables(self.numbers.len())
    }
}

/// The value N(Q) of the normal at the form. Each number of the normal is below 2^56 in absolute value,
/// each of the form below 2^64.
pub fn pair(normal: &Normal, q: &Form) -> i128
    requires same { length normal.now ≡ length q.now }
    requires normal_below { All (IsBelow (2 ^ 56)) normal.now }
    requires form_below { All (IsBelow (2 ^ 64)) q.now }
    ensures { result ≡ dot normal.now q.now }
{
    inner_product(normal.numbers(), q.numbers())
}
