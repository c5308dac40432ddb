//! Cones and their facets.

ghost use Rattle.lt_model.specs.Cones.{IsRightCone};
ghost use Rattle.lt_model.specs.Walls.{IsFacet};
ghost use Rattle.lt_triang.specs.Kept.{dimension_of, IsOfSomeForm};

use crate::matching::principal_of;
use lt_cone::{ConeFault, check_cone, cone};
use lt_lattice::{Form, Normal};
use lt_lp::{Cone, Row, Verdict};
use lt_triang::Triangulation;
use std::alloc::{AllocError, Global};
use std::process::Abort;
use std::test::Fail;

/// The cone of a triangulation.
pub fn cone_of(rt: &impl Abort, alloc: Global, t: &Triangulation) -> Cone
    requires delaunay { IsOfSomeForm t.now }
    ensures { IsRightCone (dimension_of t.now) t.now result }
{
    match cone(alloc, t) {
        Ok(found) => found,
        Err(_) => {
            assert!(rt; false);
            unreachable!()
        }
    }
}

/// The normal at place `i`, counted from 0, among the facets.
pub fn facet(rt: &impl Abort, alloc: Global, t: &Triangulation, i: usize) -> Normal
    requires delaunay { IsOfSomeForm t.now }
    ensures { IsFacet (dimension_of t.now) t.now result }
{
    let found = cone_of(rt, alloc, t);
    if i >= found.facets() {
        assert!(rt; false);
        unreachable!()
    }
    found.facet(i).normal.copy()
}

#[test]
fn the_cone_of_the_plane_has_three_walls(rt: HostRuntime) {
    let t = principal_of(&rt, rt.alloc(), 2);
    let found = cone_of(&rt, rt.alloc(), &t);
    let normals = [
        Normal::of(2, &[0, -1, 0]),
        Normal::of(2, &[0, 1, 2]),
        Normal::of(2, &[2, 1, 0]),
    ];
    let walls = [
        Form::of(2, &[1, 0, 1]),
        Form::of(2, &[2, -2, 1]),
        Form::of(2, &[1, -2, 2]),
    ];
    assert_eq!(rt; found.rows.len(), 3);
    assert_eq!(rt; found.facets(), 3);
    for k in 0..3usize {
        let row = &found.rows[k];
        assert!(rt; row.normal == normals[k]);
        match &row.verdict {
            Verdict::Wall(form) => assert!(rt; *form == walls[k]),
            Verdict::Combination { .. } => assert!(rt; false),
        }
    }
    assert!(rt; found.form == Form::of(2, &[1, -1, 1]));
}

/// The cone of the principal type of dimension 2 with this form as the wall of its first row.
fn plane_cone(alloc: Global, first: Form) -> Result<Cone, AllocError> {
    let mut rows = Vec::new(alloc);
    rows.push(Row {
        normal: Normal::of(2, &[0, -1, 0]),
        verdict: Verdict::Wall(first),
    })?;
    rows.push(Row {
        normal: Normal::of(2, &[0, 1, 2]),
        verdict: Verdict::Wall(Form::of(2, &[2, -2, 1])),
    })?;
    rows.push(Row {
        normal: Normal::of(2, &[2, 1, 0]),
        verdict: Verdict::Wall(Form::of(2, &[1, -2, 2])),
    })?;
    Ok(Cone {
        rows,
        form: Form::of(2, &[1, -1, 1]),
    })
}

#[test]
fn a_wrong_first_wall_is_named(rt: HostRuntime) -> Result<(), Fail> {
    let t = principal_of(&rt, rt.alloc(), 2);
    let right = plane_cone(rt.alloc(), Form::of(2, &[1, 0, 1]))?;
    assert!(rt; check_cone(rt.alloc(), &t, &right).is_ok());
    let wrong = plane_cone(rt.alloc(), Form::of(2, &[1, 0, 0]))?;
    match check_cone(rt.alloc(), &t, &wrong) {
        Err(ConeFault::Wrong { row }) => assert_eq!(rt; row, 0),
        _ => assert!(rt; false),
    }
    Ok(())
}
