//! Flips and cells.

ghost use Rattle.lt_triang.specs.Kept.{IsTriangulation, IsOfSomeForm, dimension_of};
ghost use Rattle.std.specs.Prelude.{pos, ◌≤ℤ◌};

use crate::cones::facet;
use crate::matching::{image_by, is_class, principal_of};
use lt_flip::{FlipError, cells, flip, flipped_classes};
use lt_lattice::{Matrix, Normal, Point};
use lt_match::match_types;
use lt_model::Memory;
use lt_triang::{Class, Triangulation};
use std::alloc::Global;
use std::process::Abort;

/// The image of the principal triangulation of the plane under the matrix with rows `1 n` and `0 1`.
fn slanted(rt: &impl Abort, alloc: Global, n: i128) -> Triangulation
    requires low { pos 0 ≤ℤ n }
    requires high { n ≤ℤ pos 399 }
    ensures { IsOfSomeForm result }
{
    let t = principal_of(rt, alloc, 2);
    let u = Matrix::of(2, &[1, n, 0, 1]);
    let v = Matrix::of(2, &[1, -n, 0, 1]);
    match image_by(rt, alloc, &u, &v, &t) {
        Ok(made) => made,
        Err(_) => {
            assert!(rt; false);
            unreachable!()
        }
    }
}

#[test]
fn a_square_is_the_cell_of_the_plane(rt: HostRuntime) {
    let t = principal_of(&rt, rt.alloc(), 2);
    let n = facet(&rt, rt.alloc(), &t, 0);
    assert!(rt; n == Normal::of(2, &[0, -1, 0]));
    match cells(rt.alloc(), &t, &n) {
        Ok(found) => {
            assert_eq!(rt; found.len(), 1);
            let square = [
                Point::of(&[0, 0]),
                Point::of(&[0, 1]),
                Point::of(&[1, 0]),
                Point::of(&[1, 1]),
            ];
            assert!(rt; found[0].points.as_slice() == square.as_slice());
            assert!(rt; found[0].terms.as_slice() == [1, -1, -1, 1].as_slice());
        }
        Err(_) => assert!(rt; false),
    }
}

/// Whether these two classes, by their vertices behind 0, lie across the facet at place `i` of the principal type of dimension 2,
/// and the matrix is the first that carries them onto it.
fn lie_across(
    rt: &impl Abort,
    alloc: Global,
    i: usize,
    first: (Point, Point),
    second: (Point, Point),
    matrix: &Matrix,
) -> bool {
    let t = principal_of(rt, alloc, 2);
    let n = facet(rt, alloc, &t, i);
    match flip(alloc, &t, &n) {
        Ok(across) => {
            if across.len() != 2 {
                return false;
            }
            if !is_class(across.class(0), Point::of(&[0, 0]), first.0, first.1) {
                return false;
            }
            if !is_class(across.class(1), Point::of(&[0, 0]), second.0, second.1) {
                return false;
            }
            match match_types(alloc, &across, &t) {
                Ok(Some(u)) => u == *matrix,
                _ => false,
            }
        }
        Err(_) => false,
    }
}

#[test]
fn across_the_facets_of_the_plane_lies_its_type(rt: HostRuntime) {
    assert!(rt;
        lie_across(
            &rt,
            rt.alloc(),
            0,
            (Point::of(&[0, 1]), Point::of(&[1, 0])),
            (Point::of(&[1, -1]), Point::of(&[1, 0])),
            &Matrix::of(2, &[1, 0, 1, 1])
        )
    );
    assert!(rt;
        lie_across(
            &rt,
            rt.alloc(),
            1,
            (Point::of(&[0, 1]), Point::of(&[1, 2])),
            (Point::of(&[1, 1]), Point::of(&[1, 2])),
            &Matrix::of(2, &[1, 0, -1, 1])
        )
    );
    assert!(rt;
        lie_across(
            &rt,
            rt.alloc(),
            2,
            (Point::of(&[1, 0]), Point::of(&[2, 1])),
            (Point::of(&[1, 1]), Point::of(&[2, 1])),
            &Matrix::of(2, &[0, 1, 1, -1])
        )
    );
}

#[test]
fn the_classes_of_a_flip_make_it(rt: HostRuntime) {
    let t = principal_of(&rt, rt.alloc(), 2);
    let n = facet(&rt, rt.alloc(), &t, 0);
    match flipped_classes(rt.alloc(), &t, &n) {
        Ok(classes) => match (Triangulation::of_closed(classes), flip(rt.alloc(), &t, &n)) {
            (Ok(made), Ok(across)) => assert!(rt; made == across),
            _ => assert!(rt; false),
        },
        Err(_) => assert!(rt; false),
    }
}

/// The triangulation of the classes, with the neighbours that it has in common with `t` taken over.
fn carried(t: &Triangulation, classes: Vec<Class>) -> Result<Triangulation, Memory>
    requires triangulation { IsTriangulation (dimension_of t.now) classes.items }
    requires delaunay { IsOfSomeForm classes.items }
{
    t.carried(classes)
}

#[test]
fn the_classes_of_a_flip_in_space_make_it_with_the_old_neighbours(rt: HostRuntime) {
    let t = principal_of(&rt, rt.alloc(), 3);
    let n = facet(&rt, rt.alloc(), &t, 0);
    match flipped_classes(rt.alloc(), &t, &n) {
        Ok(classes) => match (carried(&t, classes), flip(rt.alloc(), &t, &n)) {
            (Ok(made), Ok(across)) => {
                assert_eq!(rt; made.len(), 6);
                assert!(rt; made == across);
            }
            _ => assert!(rt; false),
        },
        Err(_) => assert!(rt; false),
    }
}

#[test]
fn a_flip_of_span_401_is_wide(rt: HostRuntime) {
    let t = slanted(&rt, rt.alloc(), 399);
    let n = facet(&rt, rt.alloc(), &t, 1);
    assert!(rt; n == Normal::of(2, &[800, 1, 0]));
    match flip(rt.alloc(), &t, &n) {
        Err(FlipError::Wide { class, span }) => {
            assert_eq!(rt; span, 401);
            assert!(rt;
                is_class(
                    &class,
                    Point::of(&[0, 0]),
                    Point::of(&[1, 0]),
                    Point::of(&[401, 1])
                )
            );
        }
        _ => assert!(rt; false),
    }
}

#[test]
fn a_flip_of_span_400_is_not_wide(rt: HostRuntime) {
    let t = slanted(&rt, rt.alloc(), 398);
    let n = facet(&rt, rt.alloc(), &t, 1);
    assert!(rt; n == Normal::of(2, &[798, 1, 0]));
    match flip(rt.alloc(), &t, &n) {
        Ok(across) => {
            assert_eq!(rt; across.span(), 400);
            assert_eq!(rt; across.len(), 2);
            assert!(rt;
                is_class(
                    across.class(0),
                    Point::of(&[0, 0]),
                    Point::of(&[1, 0]),
                    Point::of(&[400, 1])
                )
            );
            assert!(rt;
                is_class(
                    across.class(1),
                    Point::of(&[0, 0]),
                    Point::of(&[399, 1]),
                    Point::of(&[400, 1])
                )
            );
        }
        Err(_) => assert!(rt; false),
    }
}
