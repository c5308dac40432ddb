//! Matrices between triangulations.

ghost use Rattle.lt_triang.specs.Kept.{dimension_of, IsOfSomeForm};
ghost use Rattle.std.specs.Prelude.{◌≡◌, ◌≤◌, length, IfOk};

use crate::cones::facet;
use lt_flip::flip;
use lt_geometry::images_are_delaunay;
use lt_lattice::{Matrix, Point, inverse_of};
use lt_match::{ImageError, carries, image, match_types};
use lt_principal::principal;
use lt_triang::{Class, Triangulation};
use std::alloc::Global;
use std::process::Abort;

/// The principal triangulation.
pub fn principal_of(rt: &impl Abort, alloc: Global, d: u8) -> Triangulation
    requires low { 2 ≤ d }
    requires high { d ≤ 6 }
    ensures dimension { dimension_of result ≡ d }
    ensures delaunay { IsOfSomeForm result }
{
    match principal(alloc, d) {
        Ok(t) => t,
        Err(_) => {
            assert!(rt; false);
            unreachable!()
        }
    }
}

/// The image of a triangulation of the plane under a matrix whose inverse is given.
pub fn image_by(
    rt: &impl Abort,
    alloc: Global,
    u: &Matrix,
    v: &Matrix,
    t: &Triangulation,
) -> Result<Triangulation, ImageError>
    requires plane { dimension_of t.now ≡ 2 }
    requires delaunay { IsOfSomeForm t.now }
    requires size { length u.now ≡ 4 }
    requires size_too { length v.now ≡ 4 }
    ensures dimension { IfOk result (λ r. dimension_of r ≡ 2) }
    ensures delaunay { IfOk result (λ r. IsOfSomeForm r) }
{
    images_are_delaunay();
    if !inverse_of(u, v) {
        assert!(rt; false);
        unreachable!()
    }
    match image(alloc, u, t) {
        Ok(made) => {
            // It shows that the classes ascend.
            let _dimension = made.dimension();
            Ok(made)
        }
        Err(error) => Err(error),
    }
}

/// The principal triangulation, and the triangulation across its first facet.
pub fn first_flip(rt: &impl Abort, alloc: Global, d: u8) -> (Triangulation, Triangulation)
    requires low { 2 ≤ d }
    requires high { d ≤ 6 }
    ensures delaunay { IsOfSomeForm result.0 }
    ensures delaunay_too { IsOfSomeForm result.1 }
    ensures same { dimension_of result.1 ≡ dimension_of result.0 }
{
    let t = principal_of(rt, alloc, d);
    let normal = facet(rt, alloc, &t, 0);
    match flip(alloc, &t, &normal) {
        Ok(across) => (t, across),
        Err(_) => {
            assert!(rt; false);
            unreachable!()
        }
    }
}

/// Whether the class has these three vertices.
pub fn is_class(class: &Class, first: Point, second: Point, third: Point) -> bool {
    class.vertices() == [first, second, third].as_slice()
}

#[test]
fn a_type_goes_to_itself_by_the_identity(rt: HostRuntime) {
    let t = principal_of(&rt, rt.alloc(), 3);
    match match_types(rt.alloc(), &t, &t) {
        Ok(Some(u)) => assert!(rt; u == Matrix::identity(3)),
        _ => assert!(rt; false),
    }
}

#[test]
fn a_far_image_is_wide(rt: HostRuntime) {
    let t = principal_of(&rt, rt.alloc(), 2);
    let u = Matrix::of(2, &[1, 401, 0, 1]);
    let v = Matrix::of(2, &[1, -401, 0, 1]);
    match image_by(&rt, rt.alloc(), &u, &v, &t) {
        Err(ImageError::Wide { span }) => assert_eq!(rt; span, 402),
        _ => assert!(rt; false),
    }
    let far = Matrix::of(2, &[1, 2_000_000, 0, 1]);
    let back = Matrix::of(2, &[1, -2_000_000, 0, 1]);
    match image_by(&rt, rt.alloc(), &far, &back, &t) {
        Err(ImageError::Wide { span }) => assert_eq!(rt; span, 1_048_576),
        _ => assert!(rt; false),
    }
}

#[test]
fn the_flip_of_the_plane_goes_back(rt: HostRuntime) {
    let t = principal_of(&rt, rt.alloc(), 2);
    let u = Matrix::of(2, &[1, 0, -1, 1]);
    let v = Matrix::of(2, &[1, 0, 1, 1]);
    match image_by(&rt, rt.alloc(), &u, &v, &t) {
        Ok(flip) => {
            assert_eq!(rt; flip.len(), 2);
            assert!(rt;
                is_class(
                    flip.class(0),
                    Point::of(&[0, 0]),
                    Point::of(&[0, 1]),
                    Point::of(&[1, 0])
                )
            );
            assert!(rt;
                is_class(
                    flip.class(1),
                    Point::of(&[0, 0]),
                    Point::of(&[1, -1]),
                    Point::of(&[1, 0])
                )
            );
            match match_types(rt.alloc(), &flip, &t) {
                Ok(Some(found)) => assert!(rt; found == v),
                _ => assert!(rt; false),
            }
            assert!(rt; carries(&v, &flip, &t));
            assert!(rt; carries(&u, &t, &flip));
            assert!(rt; !carries(&u, &flip, &t));
        }
        Err(_) => assert!(rt; false),
    }
}

#[test]
fn space_has_one_type(rt: HostRuntime) {
    let (t, across) = first_flip(&rt, rt.alloc(), 3);
    match match_types(rt.alloc(), &across, &t) {
        Ok(Some(_found)) => {}
        _ => assert!(rt; false),
    }
}

#[test]
fn dimension_four_has_more_types(rt: HostRuntime) {
    let (t, across) = first_flip(&rt, rt.alloc(), 4);
    assert_eq!(rt; across.len(), t.len());
    match match_types(rt.alloc(), &t, &across) {
        Ok(None) => {}
        _ => assert!(rt; false),
    }
}
