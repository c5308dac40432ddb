//! The regulators of the principal triangulations: `-a_ij` for i < j, and twice `a_ii` with the other coefficients of index i.

ghost use Rattle.std.specs.Prelude.{◌≤◌};

use lt_lattice::Normal;
use lt_model::Memory;
use lt_principal::principal;
use lt_regulator::regulators;
use lt_tableau::weight;
use std::alloc::Global;

/// The regulators of the principal triangulation of dimension `d`.
fn principal_regulators(alloc: Global, d: u8) -> Result<Vec<Normal>, Memory>
    requires low { 2 ≤ d }
    requires high { d ≤ 6 }
{
    let t = principal(alloc, d)?;
    regulators(alloc, &t)
}

#[test]
fn the_plane_has_three(rt: HostRuntime) {
    let stated = [
        Normal::of(2, &[0, -1, 0]),
        Normal::of(2, &[0, 1, 2]),
        Normal::of(2, &[2, 1, 0]),
    ];
    match principal_regulators(rt.alloc(), 2) {
        Ok(found) => {
            assert!(rt; found.as_slice() == stated.as_slice());
            assert_eq!(rt; weight(found.as_slice()), 72);
        }
        Err(_) => assert!(rt; false),
    }
}

#[test]
fn space_has_six(rt: HostRuntime) {
    let stated = [
        Normal::of(3, &[0, -1, 0, 0, 0, 0]),
        Normal::of(3, &[0, 0, -1, 0, 0, 0]),
        Normal::of(3, &[0, 0, 0, 0, -1, 0]),
        Normal::of(3, &[0, 0, 1, 0, 1, 2]),
        Normal::of(3, &[0, 1, 0, 2, 1, 0]),
        Normal::of(3, &[2, 1, 1, 0, 0, 0]),
    ];
    match principal_regulators(rt.alloc(), 3) {
        Ok(found) => {
            assert!(rt; found.as_slice() == stated.as_slice());
            assert_eq!(rt; weight(found.as_slice()), 2744);
        }
        Err(_) => assert!(rt; false),
    }
}

#[test]
fn dimension_four_has_ten(rt: HostRuntime) {
    let stated = [
        Normal::of(4, &[0, -1, 0, 0, 0, 0, 0, 0, 0, 0]),
        Normal::of(4, &[0, 0, -1, 0, 0, 0, 0, 0, 0, 0]),
        Normal::of(4, &[0, 0, 0, -1, 0, 0, 0, 0, 0, 0]),
        Normal::of(4, &[0, 0, 0, 0, 0, -1, 0, 0, 0, 0]),
        Normal::of(4, &[0, 0, 0, 0, 0, 0, -1, 0, 0, 0]),
        Normal::of(4, &[0, 0, 0, 0, 0, 0, 0, 0, -1, 0]),
        Normal::of(4, &[0, 0, 0, 1, 0, 0, 1, 0, 1, 2]),
        Normal::of(4, &[0, 0, 1, 0, 0, 1, 0, 2, 1, 0]),
        Normal::of(4, &[0, 1, 0, 0, 2, 1, 1, 0, 0, 0]),
        Normal::of(4, &[2, 1, 1, 1, 0, 0, 0, 0, 0, 0]),
    ];
    match principal_regulators(rt.alloc(), 4) {
        Ok(found) => {
            assert!(rt; found.as_slice() == stated.as_slice());
            assert_eq!(rt; weight(found.as_slice()), 262_144);
        }
        Err(_) => assert!(rt; false),
    }
}

#[test]
fn dimension_five_has_fifteen(rt: HostRuntime) {
    let stated = [
        Normal::of(5, &[0, -1, 0, 0, 0, 0, 0, 0, 0, 0, 0, 0, 0, 0, 0]),
        Normal::of(5, &[0, 0, -1, 0, 0, 0, 0, 0, 0, 0, 0, 0, 0, 0, 0]),
        Normal::of(5, &[0, 0, 0, -1, 0, 0, 0, 0, 0, 0, 0, 0, 0, 0, 0]),
        Normal::of(5, &[0, 0, 0, 0, -1, 0, 0, 0, 0, 0, 0, 0, 0, 0, 0]),
        Normal::of(5, &[0, 0, 0, 0, 0, 0, -1, 0, 0, 0, 0, 0, 0, 0, 0]),
        Normal::of(5, &[0, 0, 0, 0, 0, 0, 0, -1, 0, 0, 0, 0, 0, 0, 0]),
        Normal::of(5, &[0, 0, 0, 0, 0, 0, 0, 0, -1, 0, 0, 0, 0, 0, 0]),
        Normal::of(5, &[0, 0, 0, 0, 0, 0, 0, 0, 0, 0, -1, 0, 0, 0, 0]),
        Normal::of(5, &[0, 0, 0, 0, 0, 0, 0, 0, 0, 0, 0, -1, 0, 0, 0]),
        Normal::of(5, &[0, 0, 0, 0, 0, 0, 0, 0, 0, 0, 0, 0, 0, -1, 0]),
        Normal::of(5, &[0, 0, 0, 0, 1, 0, 0, 0, 1, 0, 0, 1, 0, 1, 2]),
        Normal::of(5, &[0, 0, 0, 1, 0, 0, 0, 1, 0, 0, 1, 0, 2, 1, 0]),
        Normal::of(5, &[0, 0, 1, 0, 0, 0, 1, 0, 0, 2, 1, 1, 0, 0, 0]),
        Normal::of(5, &[0, 1, 0, 0, 0, 2, 1, 1, 1, 0, 0, 0, 0, 0, 0]),
        Normal::of(5, &[2, 1, 1, 1, 1, 0, 0, 0, 0, 0, 0, 0, 0, 0, 0]),
    ];
    match principal_regulators(rt.alloc(), 5) {
        Ok(found) => {
            assert!(rt; found.as_slice() == stated.as_slice());
            assert_eq!(rt; weight(found.as_slice()), 60_466_176);
        }
        Err(_) => assert!(rt; false),
    }
}
