//! Classes of simplices under translation.

ghost use Rattle.std.specs.Prelude.{◌≡◌, ◌<◌, ◌≤◌, ◌-◌, ◌*◌, ◌^◌, suc, ℕ, ℤ, pos, negsuc, List, [], length, get_or, IsSome, IsTrue, IfSome, IfOk, IfErr, ◌↔◌};
ghost use Rattle.lt_model.specs.Limits.{span_limit, class_span};
ghost use Rattle.lt_model.specs.Vectors.{scale};
ghost use Rattle.lt_model.specs.Facets.{without};
ghost use Rattle.lt_model.specs.Simplices.{IsClass, AllOfDimension, AreIndependent, translate};
ghost use Rattle.lt_triang.specs.Bounds.{AreWithin, AreNear};
ghost use Rattle.lt_triang.specs.Flat.{IsFlat, IsClassAt};

use crate::dependencies::flat_terms;
use crate::spans::{is_wider, span_of};
use crate::vertices::{
    columns, copies, first_of, moved_back, moved_by, others, sorted_copies, widened,
};
use arrayvec::ArrayVec;
use lt_lattice::Point;
use lt_solve::solve;
use std::marker::Model;

/// A simplex of d + 1 affinely independent whole points, 2 <= d <= 6, which stands for all its translates: the points ascend,
/// and the first of them is 0. Two of them differ by at most twice the span limit in each coordinate.
#[derive(Drop, PartialEq, Eq, PartialOrd, Ord)]
pub struct Class {
    points: ArrayVec<Point, 7>,
}

impl Model for Class {
    ghost use Rattle.std.specs.Prelude.{List, ℤ, ℕ, ◌≤◌, ◌*◌};
    ghost use Rattle.lt_model.specs.Limits.{span_limit};
    ghost use Rattle.lt_model.specs.Simplices.{IsClass};
    ghost use Rattle.lt_triang.specs.Bounds.{AreNear};

    ghost Value = { List (List ℤ) };

    ghost view = { λ c. c.points.items };

    ghost invariant = { λ c. (d : ℕ) × (2 ≤ d) × (d ≤ 6) × IsClass d c.points.items × AreNear (2 * span_limit d) c.points.items };

    ghost inverse = { λ x. record { points = record { items = x } } };
}

/// Points that are affinely dependent: the terms, one for each point in the order of the points, sum to 0, and so do the points
/// times the terms. The greatest common divisor of the terms is 1, and the first of them that isn't 0 is positive.
#[derive(Drop)]
pub struct Flat {
    /// A number for each point.
    pub terms: ArrayVec<i128, 7>,
}

impl Model for Flat {
    ghost use Rattle.std.specs.Prelude.{List, ℤ};

    ghost Value = { List ℤ };

    ghost view = { λ f. f.terms.items };
}

/// The class of independent points, and the least of them.
fn class_of(points: &[Point]) -> (Class, Point)
    requires low { 3 ≤ length points.now }
    requires high { length points.now ≤ 7 }
    requires dimension { AllOfDimension (length points.now - 1) points.now }
    requires near { AreNear (2 * span_limit (length points.now - 1)) points.now }
    requires independent { AreIndependent (length points.now - 1) points.now }
    ensures { IsClassAt (length points.now - 1) points.now result.0 result.1 }
{
    let sorted = sorted_copies(points);
    let least = first_of(sorted.as_slice());
    let moved = moved_back::<7>(sorted.as_slice(), &least);
    (Class { points: moved }, least)
}

impl Class {
    /// The class of d + 1 points and the least of the points, or Flat where the points are affinely dependent. Two of the points
    /// differ by at most twice the span limit in each coordinate.
    pub fn of(points: &[Point]) -> Result<(Class, Point), Flat>
        requires low { 3 ≤ length points.now }
        requires high { length points.now ≤ 7 }
        requires dimension { AllOfDimension (length points.now - 1) points.now }
        requires near { AreNear (2 * span_limit (length points.now - 1)) points.now }
        ensures class { IfOk result (λ r. IsClassAt (length points.now - 1) points.now r.0 r.1) }
        ensures flat { IfErr result (IsFlat (length points.now - 1) points.now) }
    {
        let origin = Point::origin((points.len() - 1) as u8);
        match solve(&columns(points), widened(origin.coords()).as_slice()) {
            Ok(_) => Ok(class_of(points)),
            Err(found) => Err(Flat {
                terms: flat_terms(found.terms.as_slice()),
            }),
        }
    }

    /// The same class.
    pub fn copy(&self) -> Class
        ensures { result ≡ self.now }
    {
        Class {
            points: copies(self.points.as_slice()),
        }
    }

    /// The number of coordinates of a vertex.
    pub fn dimension(&self) -> u8
        ensures class { IsClass result self.now }
        ensures near { AreNear (2 * span_limit result) self.now }
        ensures low { 2 ≤ result }
        ensures high { result ≤ 6 }
    {
        (self.points.len() - 1) as u8
    }

    /// The vertex at place `i`, counted from 0.
    pub fn vertex(&self, i: usize) -> &Point
        requires { i < length self.now }
        ensures { result.now ≡ get_or self.now i [] }
    {
        &self.points[i]
    }

    /// The vertices in ascending order.
    pub fn vertices(&self) -> &[Point]
        ensures { result.now ≡ self.now }
    {
        self.points.as_slice()
    }

    /// The greatest absolute difference of two vertices in one coordinate.
    pub fn span(&self) -> i64
        ensures { result ≡ pos (class_span self.now) }
    {
        i64::from(span_of(self.dimension() as usize, self.vertices()))
    }

    /// Whether the span is above `limit`: it takes less time than to make the span.
    pub fn is_wider(&self, limit: u32) -> bool
        ensures { IsTrue result ↔ limit < class_span self.now }
    {
        is_wider(self.dimension() as usize, self.vertices(), limit)
    }

    /// The vertices moved by `p`, or None where a coordinate would pass 2^20 in absolute value.
    pub fn translate_to(&self, p: &Point) -> Option<ArrayVec<Point, 7>>
        requires { length self.now ≡ suc (length p.now) }
        ensures value { IfSome result (λ r. r.items ≡ translate p.now self.now) }
        ensures within { IsSome result ↔ AreWithin (2 ^ 20) (translate p.now self.now) }
    {
        moved_by(self.points.as_slice(), p)
    }

    /// Facet `i`, which is opposite to vertex `i`: its vertices in ascending order, moved so that the least is 0, and that least vertex.
    pub fn facet(&self, i: usize) -> (ArrayVec<Point, 6>, Point)
        requires { i < length self.now }
        ensures least { result.1 ≡ get_or (without i self.now) 0 [] }
        ensures moved { result.0.items ≡ translate (scale (negsuc 0) (get_or (without i self.now) 0 []))
            (without i self.now) }
    {
        let rest = others(self.points.as_slice(), i);
        let least = first_of(rest.as_slice());
        (moved_back::<6>(rest.as_slice(), &least), least)
    }
}
