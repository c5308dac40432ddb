//! Rows of forms of the plane and of space.

ghost use Rattle.std.specs.Prelude.{◌^◌};
ghost use Rattle.std.specs.List.{All};
ghost use Rattle.lt_model.specs.Triangulations.{IsDelaunay};
ghost use Rattle.lt_lattice.specs.Ranges.{IsWithin};
ghost use Rattle.lt_triang.specs.Kept.{dimension_of};

use lt_cover::{Cover, CoverError, cover};
use lt_lattice::{Form, Point};
use lt_locate::{LocateError, WalkStop, edges, locate};
use lt_triang::Triangulation;
use std::alloc::Global;
use std::process::Abort;

/// The triangulation of a form to which ten crossings lead.
pub fn triangulation_of(rt: &impl Abort, alloc: Global, q: &Form) -> Triangulation
    requires { All (IsWithin (2 ^ 40)) q.now }
    ensures { IsDelaunay (dimension_of result) q.now result }
{
    let _d = q.dimension();
    match locate(alloc, q, 10) {
        Ok(found) => found.triangulation,
        Err(_) => {
            assert!(rt; false);
            unreachable!()
        }
    }
}

/// The covering radius of a form to whose triangulation ten crossings lead.
fn cover_of(rt: &impl Abort, alloc: Global, q: &Form) -> Result<Cover, CoverError>
    requires { All (IsWithin (2 ^ 40)) q.now }
{
    let t = triangulation_of(rt, alloc, q);
    cover(alloc, q, &t)
}

#[test]
fn one_crossing_leads_to_a_form(rt: HostRuntime) {
    let q = Form::of(2, &[2, 2, 2]);
    match locate(rt.alloc(), &q, 10) {
        Ok(found) => {
            assert_eq!(rt; found.crossed, 1);
            assert_eq!(rt; found.triangulation.len(), 2);
            assert!(rt; *found.triangulation.class(0).vertex(1) == Point::of(&[0, 1]));
            assert!(rt; *found.triangulation.class(0).vertex(2) == Point::of(&[1, 0]));
        }
        Err(_) => assert!(rt; false),
    }
}

#[test]
fn the_edges_of_a_triangulation_of_the_plane(rt: HostRuntime) {
    let q = Form::of(2, &[2, 2, 2]);
    let t = triangulation_of(&rt, rt.alloc(), &q);
    match edges(rt.alloc(), &t) {
        Ok(points) => {
            assert_eq!(rt; points.len(), 3);
            assert!(rt; points[0] == Point::of(&[0, 1]));
            assert!(rt; points[1] == Point::of(&[1, -1]));
            assert!(rt; points[2] == Point::of(&[1, 0]));
        }
        Err(_) => assert!(rt; false),
    }
}

#[test]
fn a_walk_stops_after_its_steps(rt: HostRuntime) {
    let q = Form::of(2, &[2, 2, 2]);
    match locate(rt.alloc(), &q, 0) {
        Err(
            LocateError::Stopped {
                crossed,
                why: WalkStop::Steps,
            },
        ) => assert_eq!(rt; crossed, 0),
        _ => assert!(rt; false),
    }
}

#[test]
fn the_hexagonal_and_the_body_centred_lattice(rt: HostRuntime) {
    let plane = Form::of(2, &[2, -2, 2]);
    match cover_of(&rt, rt.alloc(), &plane) {
        Ok(found) => {
            assert_eq!(rt; found.radius.num(), 2);
            assert_eq!(rt; found.radius.den(), 3);
            assert_eq!(rt; found.class, 0);
        }
        Err(_) => assert!(rt; false),
    }
    let space = Form::of(3, &[3, -2, -2, 3, -2, 3]);
    match cover_of(&rt, rt.alloc(), &space) {
        Ok(found) => {
            assert_eq!(rt; found.radius.num(), 5);
            assert_eq!(rt; found.radius.den(), 4);
            assert_eq!(rt; found.class, 0);
        }
        Err(_) => assert!(rt; false),
    }
}

#[test]
fn a_long_edge_is_named(rt: HostRuntime) {
    let q = Form::of(2, &[402, -2, 402]);
    match cover_of(&rt, rt.alloc(), &q) {
        Err(CoverError::LongEdge { x, length }) => {
            assert!(rt; x == Point::of(&[0, 1]));
            assert_eq!(rt; length, 402);
        }
        _ => assert!(rt; false),
    }
}
