//! The principal triangulation.

ghost use Rattle.std.specs.Prelude.{◌≡◌, ◌≤◌, ◌<◌, ◌+◌, suc, length, get_or, [], IfOk};
ghost use Rattle.lt_model.specs.Simplices.{IsClass};
ghost use Rattle.lt_model.specs.Limits.{span_limit};
ghost use Rattle.lt_model.specs.Principal.{IsPrincipal, principal_numbers};
ghost use Rattle.lt_model.specs.Triangulations.{IsDelaunay};
ghost use Rattle.lt_triang.specs.Bounds.{AreNear};
ghost use Rattle.lt_triang.specs.Kept.{AreClasses};
ghost use Rattle.lt_principal.specs.Paths.{points_of};

use crate::classes::principal_points;
use arrayvec::ArrayVec;
use lt_lattice::Point;
use lt_model::Memory;
use lt_triang::{Class, TriangError, Triangulation};
use std::alloc::Global;

/// The class whose vertices these are.
fn class_with(d: usize, points: &[Point]) -> Class
    requires low { 2 ≤ d }
    requires high { d ≤ 6 }
    requires class { IsClass d points.now }
    requires near { AreNear (span_limit d) points.now }
    ensures { result ≡ points.now }
{
    match Class::of(points) {
        Ok((class, _least)) => class,
        Err(_) => unreachable!(),
    }
}

/// The points at a place.
fn points_at(all: &[ArrayVec<Point, 7>], n: usize) -> &[Point]
    requires { n < length all.now }
    ensures { result.now ≡ get_or (points_of all.now) n [] }
{
    all[n].as_slice()
}

/// The classes whose vertices these are.
fn classes_with(alloc: Global, d: usize, all: &[ArrayVec<Point, 7>]) -> Result<Vec<Class>, Memory>
    requires { AreClasses d (points_of all.now) }
    ensures { IfOk result (λ classes. classes.items ≡ points_of all.now) }
{
    let mut classes = Vec::new(alloc);
    for n in 0..all.len() {
        classes.push(class_with(d, points_at(all, n)))?;
    }
    Ok(classes)
}

/// The principal triangulation of dimension `d`, 2 to 6: for each order of the coordinates the class of the path from 0
/// to (1, .., 1) that raises them in this order. It is the Delaunay triangulation of the principal form.
pub fn principal(alloc: Global, d: u8) -> Result<Triangulation, Memory>
    requires low { 2 ≤ d }
    requires high { d ≤ 6 }
    ensures principal { IfOk result (λ t. IsPrincipal d t) }
    ensures delaunay { IfOk result (λ t. IsDelaunay d (principal_numbers d) t) }
{
    let points = principal_points(alloc, d)?;
    let classes = classes_with(alloc, usize::from(d), points.as_slice())?;
    match Triangulation::of(classes) {
        Ok(triangulation) => {
            // It shows that the classes ascend.
            let _dimension = triangulation.dimension();
            Ok(triangulation)
        }
        Err(TriangError::Memory) => Err(Memory),
        Err(TriangError::OpenFacet { class: _, facet: _ }) => unreachable!(),
    }
}
