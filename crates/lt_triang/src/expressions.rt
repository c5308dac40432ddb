//! Expressions of points over the vertices of a class.

ghost use Rattle.std.specs.Prelude.{◌≡◌, ◌<◌, ◌*◌, ◌^◌, suc, ◌∷◌, length, nat_abs};
ghost use Rattle.std.specs.List.{All};
ghost use Rattle.lt_model.specs.Limits.{span_limit};
ghost use Rattle.lt_model.specs.Vectors.{IsPrimitive};
ghost use Rattle.lt_model.specs.Cones.{AreBelow};
ghost use Rattle.lt_model.specs.Simplices.{IsExpression};
ghost use Rattle.lt_lattice.specs.Ranges.{IsWithin};
ghost use Rattle.lt_triang.specs.Flat.{columns_of};

use crate::classes::Class;
use crate::dependencies::{total_of, with_first};
use crate::vertices::{columns, widened};
use arrayvec::ArrayVec;
use lt_lattice::Point;
use lt_solve::{Columns, solve};
use std::marker::Model;

/// A positive multiple of a point as a sum of multiples of the vertices of a class: `scale` times the point is the sum of the
/// vertices times the coefficients, and `scale` is the sum of the coefficients. The greatest common divisor of all is 1.
#[derive(Drop)]
pub struct Expression {
    /// What the point is multiplied by, above 0 and below 2^59.
    pub scale: i128,
    /// A number for each vertex, in their order, below 2^59 in absolute value.
    pub coefficients: ArrayVec<i128, 7>,
}

impl Model for Expression {
    ghost use Rattle.lt_triang.specs.Expressions.{Expression as ExpressionModel};

    ghost Value = { ExpressionModel };

    ghost view = { λ e. record { scale = e.scale; coefficients = e.coefficients.items } };
}

/// The number in 64 bits.
fn short(x: i128) -> i64
    requires { nat_abs x < 2 ^ 59 }
    ensures { result ≡ x }
{
    x as i64
}

impl Expression {
    /// The same expression.
    pub fn copy(&self) -> Expression
        ensures { result ≡ self.now }
    {
        let mut coefficients: ArrayVec<i128, 7> = ArrayVec::new();
        for number in self.coefficients.as_slice() {
            coefficients.push(*number);
        }
        Expression {
            scale: self.scale,
            coefficients,
        }
    }

    /// The scale and then the coefficients, in 64 bits.
    pub(crate) fn numbers(&self) -> ArrayVec<i64, 8>
        requires { AreBelow (2 ^ 59) (self.now.scale ∷ self.now.coefficients) }
        ensures { result.items ≡ self.now.scale ∷ self.now.coefficients }
    {
        let mut all: ArrayVec<i64, 8> = ArrayVec::new();
        all.push(short(self.scale));
        for number in self.coefficients.as_slice() {
            all.push(short(*number));
        }
        all
    }
}

impl Class {
    /// The expression of a point in lowest terms. The coordinates of the point are at most twice the span limit in absolute value.
    pub fn expression(&self, x: &Point) -> Expression
        requires dimension { length self.now ≡ suc (length x.now) }
        requires near { All (IsWithin (2 * span_limit (length x.now))) x.now }
        ensures expression { IsExpression self.now x.now result.scale result.coefficients }
        ensures primitive { IsPrimitive (result.scale ∷ result.coefficients) }
        ensures below { AreBelow (2 ^ 59) (result.scale ∷ result.coefficients) }
    {
        self.expression_by(&self.columns(), x)
    }

    /// The differences of the other vertices from the first, as columns.
    pub(crate) fn columns(&self) -> Columns
        ensures { result ≡ columns_of self.now }
    {
        let _dimension = self.dimension();
        columns(self.vertices())
    }

    /// The same from the columns of the class, which are made once for many points.
    pub(crate) fn expression_by(&self, columns: &Columns, x: &Point) -> Expression
        requires columns { columns.now ≡ columns_of self.now }
        requires dimension { length self.now ≡ suc (length x.now) }
        requires near { All (IsWithin (2 * span_limit (length x.now))) x.now }
        ensures expression { IsExpression self.now x.now result.scale result.coefficients }
        ensures primitive { IsPrimitive (result.scale ∷ result.coefficients) }
        ensures below { AreBelow (2 ^ 59) (result.scale ∷ result.coefficients) }
    {
        let _dimension = self.dimension();
        match solve(columns, widened(x.coords()).as_slice()) {
            Ok(found) => {
                let nums = found.nums.as_slice();
                Expression {
                    scale: found.den,
                    coefficients: with_first(found.den - total_of(nums), nums),
                }
            }
            Err(_) => unreachable!(),
        }
    }
}
