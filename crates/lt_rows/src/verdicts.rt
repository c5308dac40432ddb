//! Verdicts on normals, and their check.

ghost use Rattle.std.specs.Prelude.{◌<◌};

use arrayvec::ArrayVec;
use lt_lattice::{Form, Normal};
use lt_lp::{Verdict, check, decide};
use std::alloc::Global;

#[test]
fn a_sum_of_two(rt: HostRuntime) {
    let normals = [
        Normal::of(2, &[0, 0, 1]),
        Normal::of(2, &[1, 0, 0]),
        Normal::of(2, &[1, 0, 1]),
    ];
    match decide(rt.alloc(), &normals, 2) {
        Ok(verdict) => {
            assert!(rt; check(&normals, 2, &verdict));
            assert!(rt; !check(&normals, 0, &verdict));
            match &verdict {
                Verdict::Combination { scale, terms } => {
                    assert_eq!(rt; *scale, 1);
                    assert_eq!(rt; terms.len(), 2);
                    assert_eq!(rt; terms[0].0, 0);
                    assert_eq!(rt; terms[0].1, 1);
                    assert_eq!(rt; terms[1].0, 1);
                    assert_eq!(rt; terms[1].1, 1);
                }
                Verdict::Wall(_) => assert!(rt; false),
            }
        }
        Err(_) => assert!(rt; false),
    }
}

/// Whether the regulator at place `k` of the principal triangulation of the plane has this wall form.
fn is_wall_at(alloc: Global, k: usize, wall: &Form) -> bool
    requires { k < 3 }
{
    let normals = [
        Normal::of(2, &[0, -1, 0]),
        Normal::of(2, &[0, 1, 2]),
        Normal::of(2, &[2, 1, 0]),
    ];
    match decide(alloc, &normals, k) {
        Ok(verdict) => match &verdict {
            Verdict::Wall(form) => *form == *wall && check(&normals, k, &verdict),
            Verdict::Combination { .. } => false,
        },
        Err(_) => false,
    }
}

#[test]
fn walls_of_the_principal_form(rt: HostRuntime) {
    assert!(rt; is_wall_at(rt.alloc(), 0, &Form::of(2, &[1, 0, 1])));
    assert!(rt; is_wall_at(rt.alloc(), 1, &Form::of(2, &[2, -2, 1])));
    assert!(rt; is_wall_at(rt.alloc(), 2, &Form::of(2, &[1, -2, 2])));
}

#[test]
fn wrong_verdicts(rt: HostRuntime) {
    let normals = [
        Normal::of(2, &[0, -1, 0]),
        Normal::of(2, &[0, 1, 2]),
        Normal::of(2, &[2, 1, 0]),
    ];
    let doubled = Verdict::Wall(Form::of(2, &[2, 0, 2]));
    assert!(rt; !check(&normals, 0, &doubled));
    let empty = Verdict::Combination {
        scale: 1,
        terms: ArrayVec::new(),
    };
    assert!(rt; !check(&normals, 0, &empty));
}
