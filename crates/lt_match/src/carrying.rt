//! Whether a matrix carries one triangulation onto another.

ghost use Rattle.std.specs.Prelude.{◌≡◌, ◌<◌, ◌≤◌, ◌*◌, suc, ℕ, ℤ, List, [], length, map, get_or, IsTrue, ◌↔◌};
ghost use Rattle.lt_model.specs.Vectors.{zeros};
ghost use Rattle.lt_model.specs.Flat.{rows};
ghost use Rattle.lt_model.specs.Limits.{span_limit};
ghost use Rattle.lt_model.specs.Matrices.{apply, IsSquare, IsInverse, Carries};
ghost use Rattle.lt_model.specs.Simplices.{AllOfDimension, IsSimplex, IsClass};
ghost use Rattle.lt_triang.specs.Bounds.{AreWithin};
ghost use Rattle.lt_triang.specs.Kept.{IsTriangulation, dimension_of};
ghost use Rattle.lt_match.specs.Images.{GoesInto, TakesTo};

use crate::bases::{basis_of, matrix_taking};
use crate::images::{goes_into, images};
use lt_lattice::{Matrix, Point};
use lt_triang::{Class, Triangulation, member};

/// Whether each class of `from`, from place `start` on, goes to a member of `to`.
pub fn all_go(d: usize, u: &Matrix, from: &[Class], start: usize, to: &Triangulation) -> bool
    requires square { length u.now ≡ d * d }
    requires origin { IsTriangulation d from.now }
    requires target { IsTriangulation d to.now }
    ensures { IsTrue result ↔ ((n : ℕ) → start ≤ n → n < length from.now →
        GoesInto d (rows d u.now) (get_or from.now n []) to.now) }
{
    for n in start..from.len() {
        if !goes_into(d, u, member(from, n), to) {
            return false;
        }
    }
    true
}

/// Whether a whole matrix takes the images back to the points.
pub fn comes_back(d: usize, points: &[Point], images: &[Point]) -> bool
    requires low { 2 ≤ d }
    requires few { d ≤ 6 }
    requires count { length points.now ≡ suc d }
    requires dimension { AllOfDimension d points.now }
    requires first { get_or points.now 0 [] ≡ zeros d }
    requires near { AreWithin (span_limit d) points.now }
    requires simplex { IsSimplex d images.now }
    requires first_image { get_or images.now 0 [] ≡ zeros d }
    requires near_images { AreWithin (span_limit d) images.now }
    ensures { IsTrue result ↔ ((w : List (List ℤ)) × IsSquare d w × TakesTo d w images.now points.now) }
{
    matrix_taking(d, &basis_of(d, images), points).is_some()
}

/// Whether the matrix, which sends the class to a member of a triangulation, has a whole inverse.
fn has_inverse(d: usize, u: &Matrix, s: &[Point]) -> bool
    requires square { length u.now ≡ d * d }
    requires class { IsClass d s.now }
    requires near { AreWithin (span_limit d) s.now }
    requires goes { (t : List (List (List ℤ))) × IsTriangulation d t × GoesInto d (rows d u.now) s.now t }
    ensures { IsTrue result ↔ ((v : List (List ℤ)) × IsInverse d (rows d u.now) v) }
{
    match images(d, u, s) {
        Some(points) => comes_back(d, s, points.as_slice()),
        None => unreachable!(),
    }
}

/// Whether the matrix carries the triangulation of the classes `from` onto `to`: it has a whole inverse, and the classes of the images of
/// the members of `from` are exactly the members of `to`. It takes no memory.
pub fn carries_classes(d: usize, u: &Matrix, from: &[Class], to: &Triangulation) -> bool
    requires square { length u.now ≡ d * d }
    requires origin { IsTriangulation d from.now }
    requires target { dimension_of to.now ≡ d }
    ensures { IsTrue result ↔ Carries d (rows d u.now) from.now to.now }
{
    // It shows that the members of `to` are classes.
    let _dimension = to.dimension();
    if from.len() != to.len() {
        return false;
    }
    if !all_go(d, u, from, 0, to) {
        return false;
    }
    has_inverse(d, u, member(from, 0))
}

/// Whether the matrix carries `from` onto `to`: it has a whole inverse, and the classes of the images of the members of `from`
/// are exactly the members of `to`. It takes no memory.
pub fn carries(u: &Matrix, from: &Triangulation, to: &Triangulation) -> bool
    requires square { length u.now ≡ dimension_of from.now * dimension_of from.now }
    requires same { dimension_of to.now ≡ dimension_of from.now }
    ensures { IsTrue result ↔ Carries (dimension_of from.now) (rows (dimension_of from.now) u.now) from.now to.now }
{
    let d = from.dimension() as usize;
    carries_classes(d, u, from.classes(), to)
}
