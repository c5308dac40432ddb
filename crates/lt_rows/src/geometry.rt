//! Classes, triangulations and neighbours.

ghost use Rattle.std.specs.Prelude.{◌≡◌, length};
ghost use Rattle.lt_model.specs.Simplices.{AllOfDimension, IsClass};

use lt_lattice::Point;
use lt_triang::{Class, TriangError, Triangulation, are_near, span_limit};
use std::process::Abort;
use std::test::Fail;

/// The class of three points of the plane.
fn class_of(rt: &impl Abort, points: &[Point]) -> Class
    requires count { length points.now ≡ 3 }
    requires dimension { AllOfDimension 2 points.now }
    ensures { IsClass 2 result }
{
    assert!(rt; are_near(points));
    match Class::of(points) {
        Ok((class, _)) => class,
        Err(_) => {
            assert!(rt; false);
            unreachable!()
        }
    }
}

#[test]
fn points_on_a_line_are_flat(rt: HostRuntime) {
    let points = [Point::of(&[0, 0]), Point::of(&[1, 1]), Point::of(&[2, 2])];
    assert!(rt; are_near(points.as_slice()));
    match Class::of(points.as_slice()) {
        Ok(_) => assert!(rt; false),
        Err(flat) => assert!(rt; flat.terms.as_slice() == [1, -2, 1].as_slice()),
    }
}

#[test]
fn a_class_begins_at_its_least_point(rt: HostRuntime) {
    let points = [Point::of(&[6, 6]), Point::of(&[5, 5]), Point::of(&[6, 5])];
    assert!(rt; are_near(points.as_slice()));
    match Class::of(points.as_slice()) {
        Ok((class, least)) => {
            assert!(rt; least == Point::of(&[5, 5]));
            assert!(rt; *class.vertex(0) == Point::of(&[0, 0]));
            assert!(rt; *class.vertex(1) == Point::of(&[1, 0]));
            assert!(rt; *class.vertex(2) == Point::of(&[1, 1]));
            assert_eq!(rt; class.span(), 1);
            let (facet, first) = class.facet(0);
            assert!(rt; first == Point::of(&[1, 0]));
            assert!(rt; facet.as_slice() == [Point::of(&[0, 0]), Point::of(&[0, 1])].as_slice());
            match class.translate_to(&Point::of(&[0, 2])) {
                Some(moved) => assert!(rt;
                    moved.as_slice()
                        == [Point::of(&[0, 2]), Point::of(&[1, 2]), Point::of(&[1, 3])].as_slice()
                ),
                None => assert!(rt; false),
            }
            assert!(rt; class.translate_to(&Point::of(&[1_048_576, 0])).is_none());
        }
        Err(_) => assert!(rt; false),
    }
}

#[test]
fn one_class_is_open(rt: HostRuntime) -> Result<(), Fail> {
    let class = class_of(
        &rt,
        [Point::of(&[0, 0]), Point::of(&[1, 0]), Point::of(&[1, 1])].as_slice(),
    );
    let mut classes = Vec::new(rt.alloc());
    assert!(rt; class.span() <= span_limit(2));
    classes.push(class)?;
    match Triangulation::of(classes) {
        Err(TriangError::OpenFacet { class, facet }) => {
            assert_eq!(rt; class, 0);
            assert_eq!(rt; facet, 0);
        }
        _ => assert!(rt; false),
    }
    Ok(())
}

#[test]
fn the_plane_has_neighbours(rt: HostRuntime) -> Result<(), Fail> {
    let right = class_of(
        &rt,
        [Point::of(&[0, 0]), Point::of(&[1, 0]), Point::of(&[1, 1])].as_slice(),
    );
    let left = class_of(
        &rt,
        [Point::of(&[0, 0]), Point::of(&[0, 1]), Point::of(&[1, 1])].as_slice(),
    );
    assert!(rt; right.span() <= span_limit(2));
    assert!(rt; left.span() <= span_limit(2));
    let mut classes = Vec::new(rt.alloc());
    classes.push(right)?;
    classes.push(left)?;
    match Triangulation::of(classes) {
        Ok(t) => {
            assert_eq!(rt; t.len(), 2);
            assert_eq!(rt; t.dimension(), 2);
            assert_eq!(rt; t.span(), 1);
            let next = t.neighbour(0, 0);
            assert_eq!(rt; next.class, 1);
            assert!(rt; next.shift == Point::of(&[0, 1]));
            assert_eq!(rt; next.vertex, 2);
            match t.try_copy() {
                Ok(copy) => assert!(rt; copy == t),
                Err(_) => assert!(rt; false),
            }
        }
        Err(_) => assert!(rt; false),
    }
    Ok(())
}
