//! The principal form.

ghost use Rattle.std.specs.Prelude.{◌≡◌, ◌≤◌};
ghost use Rattle.lt_model.specs.Principal as principal;

use arrayvec::ArrayVec;
use lt_lattice::Form;

/// The numbers of the principal form in the order `a_11 a_12 .. a_1d a_22 .. a_dd`.
fn principal_numbers(d: u8) -> ArrayVec<i128, 21>
    requires low { 2 ≤ d }
    requires high { d ≤ 6 }
    ensures { result.items ≡ principal.principal_numbers d }
{
    let mut all: ArrayVec<i128, 21> = ArrayVec::new();
    for i in 0..d {
        all.push(i128::from(d));
        for _j in i + 1..d {
            all.push(-2);
        }
    }
    all
}

/// The principal form of dimension `d`, 2 to 6: `d` on the diagonal and -2 beside it.
pub fn principal_form(d: u8) -> Form
    requires low { 2 ≤ d }
    requires high { d ≤ 6 }
    ensures { result ≡ principal.principal_numbers d }
{
    Form::of(d, principal_numbers(d).as_slice())
}
