//! Lists divided by their greatest common divisor.

ghost use Rattle.std.specs.Prelude.{◌≢◌, ◌^◌, ℕ, pos};
ghost use Rattle.lt_model.specs.Padded.{lookup};
ghost use Rattle.lt_model.specs.Cones.{AreBelow};
ghost use Rattle.lt_lp.specs.Reduced.{IsReduced};

use lt_num::primitive;

/// Divides numbers below 2^62, not all of them 0, by their greatest common divisor.
pub fn reduce(numbers: &mut [i128])
    requires some { (q : ℕ) × (lookup numbers.old q ≢ pos 0) }
    requires below { AreBelow (2 ^ 62) numbers.old }
    ensures reduced { IsReduced numbers.old numbers.new }
    ensures below { AreBelow (2 ^ 62) numbers.new }
{
    match primitive(numbers) {
        Ok(_) => {}
        Err(_) => unreachable!(),
    }
}
