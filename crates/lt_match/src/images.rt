//! Images of classes, and whether they are members of a triangulation.

ghost use Rattle.std.specs.Prelude.{◌≡◌, ◌≤◌, ◌*◌, ◌^◌, suc, negsuc, [], length, map, get_or, IsTrue, IsSome, IfSome, ◌↔◌};
ghost use Rattle.std.specs.List.{Contains};
ghost use Rattle.std.specs.List.Sorted.{IsPermutation, IsSorted, IsStrictlySortedBy};
ghost use Rattle.lt_model.specs.Order.{number_list_cmp, simplex_cmp};
ghost use Rattle.lt_model.specs.Vectors.{scale};
ghost use Rattle.lt_model.specs.Simplices.{AllOfDimension, IsClass, translate};
ghost use Rattle.lt_model.specs.Matrices as matrix;
ghost use Rattle.lt_model.specs.Flat.{rows};
ghost use Rattle.lt_triang.specs.Bounds.{AreWithin};
ghost use Rattle.lt_triang.specs.Kept.{IsTriangulation};
ghost use Rattle.lt_match.specs.Images.{HasClassOf, GoesInto};

use arrayvec::ArrayVec;
use lt_lattice::{Matrix, Point, apply};
use lt_triang::Triangulation;
use std::cmp::Ordering;

/// The images of d + 1 points, or None where a coordinate would pass 2^20 in absolute value.
pub fn images(d: usize, u: &Matrix, points: &[Point]) -> Option<ArrayVec<Point, 7>>
    requires few { d ≤ 6 }
    requires square { length u.now ≡ d * d }
    requires count { length points.now ≡ suc d }
    requires dimension { AllOfDimension d points.now }
    ensures value { IfSome result (λ r. r.items ≡ map (matrix.apply (rows d u.now)) points.now) }
    ensures within { IsSome result ↔ AreWithin (2 ^ 20) (map (matrix.apply (rows d u.now)) points.now) }
{
    let mut all: ArrayVec<Point, 7> = ArrayVec::new();
    for point in points {
        match apply(u, point) {
            Some(image) => all.push(image),
            None => return None,
        }
    }
    Some(all)
}

/// The same points in ascending order.
fn sorted(points: ArrayVec<Point, 7>) -> ArrayVec<Point, 7>
    ensures permutation { IsPermutation points.items result.items }
    ensures sorted { IsSorted number_list_cmp result.items }
{
    let mut all = points;
    all.as_mut_slice().sort_unstable();
    all
}

/// The differences of the points from the first of them, or None where a coordinate would pass 2^20 in absolute value.
fn moved_back(d: usize, points: &[Point]) -> Option<ArrayVec<Point, 7>>
    requires few { d ≤ 6 }
    requires count { length points.now ≡ suc d }
    requires dimension { AllOfDimension d points.now }
    ensures value { IfSome result (λ r. r.items ≡ translate (scale (negsuc 0) (get_or points.now 0 [])) points.now) }
    ensures within { IsSome result ↔ AreWithin (2 ^ 20)
        (translate (scale (negsuc 0) (get_or points.now 0 [])) points.now) }
{
    let mut all: ArrayVec<Point, 7> = ArrayVec::new();
    for point in points {
        match point.minus(&points[0]) {
            Some(moved) => all.push(moved),
            None => return None,
        }
    }
    Some(all)
}

/// Whether the points are the vertices of a member, in ascending order and the least of them 0.
pub fn is_member(t: &Triangulation, points: &[Point]) -> bool
    requires { IsStrictlySortedBy simplex_cmp t.now }
    ensures { IsTrue result ↔ Contains t.now points.now }
{
    let mut low = 0;
    let mut high = t.len();
    while low < high {
        let middle = low + (high - low) / 2;
        match t.class(middle).vertices().cmp(points) {
            Ordering::Equal => return true,
            Ordering::Less => low = middle + 1,
            Ordering::Greater => high = middle,
        }
    }
    false
}

/// Whether the class of d + 1 points is a member.
fn has_class_of(d: usize, points: ArrayVec<Point, 7>, t: &Triangulation) -> bool
    requires few { d ≤ 6 }
    requires count { length points.items ≡ suc d }
    requires dimension { AllOfDimension d points.items }
    requires target { IsTriangulation d t.now }
    ensures { IsTrue result ↔ HasClassOf d points.items t.now }
{
    let ascending = sorted(points);
    match moved_back(d, ascending.as_slice()) {
        Some(moved) => is_member(t, moved.as_slice()),
        None => false,
    }
}

/// Whether the class of the images of a class's vertices is a member.
pub fn goes_into(d: usize, u: &Matrix, s: &[Point], t: &Triangulation) -> bool
    requires square { length u.now ≡ d * d }
    requires class { IsClass d s.now }
    requires target { IsTriangulation d t.now }
    ensures { IsTrue result ↔ GoesInto d (rows d u.now) s.now t.now }
{
    match images(d, u, s) {
        Some(points) => has_class_of(d, points, t),
        None => false,
    }
}
