//! The wall form of a tableau whose objective is positive.

ghost use Rattle.std.specs.Prelude.{◌≡◌, ◌≢◌, ◌≤◌, ◌<◌, ◌-◌, ◌+◌, ◌^◌, ℕ, suc, pos};
ghost use Rattle.lt_model.specs.Forms.{numbers_of_form};
ghost use Rattle.lt_model.specs.Cones.{AreBelow};
ghost use Rattle.lt_tableau.specs.Table.{units_of};
ghost use Rattle.lt_lp.specs.Rule.{gain_of, turned_gains};
ghost use Rattle.lt_lp.specs.Reduced.{IsReduced};

use crate::primitives::reduce;
use crate::sums::unit_sums;
use arrayvec::ArrayVec;
use lt_lattice::Form;
use lt_tableau::Tableau;

/// The sums of the unit columns but the last, with their signs changed.
fn turned(t: &Tableau) -> ArrayVec<i128, 21>
    ensures value { result.items ≡ turned_gains (t.now.rows - 1) t.now }
    ensures below { AreBelow (2 ^ 62) result.items }
{
    let sums = unit_sums(t);
    let mut numbers: ArrayVec<i128, 21> = ArrayVec::new();
    for r in 0..t.rows() - 1 {
        numbers.push(-(sums[r] as i128));
    }
    numbers
}

/// The primitive form of those sums, which are not all 0.
pub fn wall(t: &Tableau, d: u8) -> Form
    requires low { 2 ≤ d }
    requires high { d ≤ 6 }
    requires rows { t.now.rows ≡ suc (numbers_of_form d) }
    requires some { (q : ℕ) × (q < t.now.rows - 1) × (gain_of t.now (units_of t.now + q) ≢ pos 0) }
    ensures reduced { IsReduced (turned_gains (t.now.rows - 1) t.now) result }
    ensures below { AreBelow (2 ^ 62) result }
{
    let mut numbers = turned(t);
    reduce(numbers.as_mut_slice());
    Form::of(d, numbers.as_slice())
}
