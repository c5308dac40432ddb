//! Walls of a section, and the forms at them.

ghost use Rattle.std.specs.Prelude.{◌≡◌, ◌<◌, ◌≤◌, ◌*◌, ◌^◌, length, take, nat_abs};
ghost use Rattle.std.specs.List.{All};
ghost use Rattle.lt_model.specs.Vectors.{combine};
ghost use Rattle.lt_model.specs.Facets.{number_at};
ghost use Rattle.lt_model.specs.Forms.{numbers_of_form};
ghost use Rattle.lt_model.specs.Cones.{AreBelow};
ghost use Rattle.lt_lattice.specs.Ranges.{IsWithin, IsBelow};
ghost use Rattle.lt_section.specs.Lowered.{IsLowered};

use arrayvec::ArrayVec;
use lt_lattice::Form;
use lt_num::primitive;

/// The first `count` numbers of the list.
pub fn front(numbers: &[i128], count: usize) -> ArrayVec<i128, 21>
    requires inside { count ≤ length numbers.now }
    requires few { count ≤ 21 }
    ensures { result.items ≡ take count numbers.now }
{
    let first = &numbers[..count];
    let mut all: ArrayVec<i128, 21> = ArrayVec::new();
    for number in first {
        all.push(*number);
    }
    all
}

/// The first `count` numbers of the form, divided by their greatest common divisor unless all of them are 0.
pub fn lowered(wall: &Form, count: usize) -> ArrayVec<i128, 21>
    requires inside { count ≤ length wall.now }
    requires below { AreBelow (2 ^ 62) wall.now }
    ensures lowered { IsLowered (take count wall.now) result.items }
    ensures below { AreBelow (2 ^ 62) result.items }
{
    let mut at = front(wall.numbers(), count);
    match primitive(at.as_mut_slice()) {
        Ok(_) => at,
        Err(_) => unreachable!(),
    }
}

/// The number at `place` of the sum of the multiples of the forms.
fn combined_number(at: &[i128], forms: &[Form], place: usize) -> i128
    requires same { length at.now ≡ length forms.now }
    requires few { length forms.now ≤ 21 }
    requires inside { All (λ q. place < length q) forms.now }
    requires below { AreBelow (2 ^ 62) at.now }
    requires within { All (All (IsWithin 4096)) forms.now }
    ensures value { result ≡ number_at place (combine at.now forms.now) }
    ensures small { nat_abs result ≤ 21 * (2 ^ 62 * 4096) }
{
    let mut sum: i128 = 0;
    for i in 0..forms.len() {
        sum += at[i] * forms[i].numbers()[place];
    }
    sum
}

/// The form at the numbers: the sum of their products with the forms, which are in `d` variables.
pub fn form_at(d: u8, at: &[i128], forms: &[Form]) -> Form
    requires low { 2 ≤ d }
    requires high { d ≤ 6 }
    requires some { 0 < length forms.now }
    requires few { length forms.now ≤ 21 }
    requires count { All (λ q. length q ≡ numbers_of_form d) forms.now }
    requires same { length at.now ≡ length forms.now }
    requires below { AreBelow (2 ^ 62) at.now }
    requires within { All (All (IsWithin 4096)) forms.now }
    ensures value { result ≡ combine at.now forms.now }
    ensures below { All (IsBelow (2 ^ 80)) result }
{
    let mut numbers: ArrayVec<i128, 21> = ArrayVec::new();
    for place in 0..forms[0].numbers().len() {
        numbers.push(combined_number(at, forms, place));
    }
    Form::of(d, numbers.as_slice())
}
