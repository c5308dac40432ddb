//! Weights of normals, and tableaux.

use lt_lattice::Normal;
use lt_tableau::{Tableau, TableauError, weight};

#[test]
fn weights_of_principal_normals(rt: HostRuntime) {
    let two = [
        Normal::of(2, &[0, -1, 0]),
        Normal::of(2, &[0, 1, 2]),
        Normal::of(2, &[2, 1, 0]),
    ];
    assert_eq!(rt; weight(&two), 72);
    let three = [
        Normal::of(3, &[0, -1, 0, 0, 0, 0]),
        Normal::of(3, &[0, 0, -1, 0, 0, 0]),
        Normal::of(3, &[0, 0, 0, 0, -1, 0]),
        Normal::of(3, &[0, 0, 1, 0, 1, 2]),
        Normal::of(3, &[0, 1, 0, 2, 1, 0]),
        Normal::of(3, &[2, 1, 1, 0, 0, 0]),
    ];
    assert_eq!(rt; weight(&three), 2744);
    let four = [
        Normal::of(4, &[0, -1, 0, 0, 0, 0, 0, 0, 0, 0]),
        Normal::of(4, &[0, 0, -1, 0, 0, 0, 0, 0, 0, 0]),
        Normal::of(4, &[0, 0, 0, -1, 0, 0, 0, 0, 0, 0]),
        Normal::of(4, &[0, 0, 0, 0, 0, -1, 0, 0, 0, 0]),
        Normal::of(4, &[0, 0, 0, 0, 0, 0, -1, 0, 0, 0]),
        Normal::of(4, &[0, 0, 0, 0, 0, 0, 0, 0, -1, 0]),
        Normal::of(4, &[0, 0, 0, 1, 0, 0, 1, 0, 1, 2]),
        Normal::of(4, &[0, 0, 1, 0, 0, 1, 0, 2, 1, 0]),
        Normal::of(4, &[0, 1, 0, 0, 2, 1, 1, 0, 0, 0]),
        Normal::of(4, &[2, 1, 1, 1, 0, 0, 0, 0, 0, 0]),
    ];
    assert_eq!(rt; weight(&four), 262_144);
}

#[test]
fn too_heavy_a_normal(rt: HostRuntime) {
    let normals = [Normal::of(2, &[1 << 56, 0, 0])];
    match Tableau::new(rt.alloc(), &normals, 0) {
        Err(TableauError::Heavy { weight }) => {
            assert_eq!(rt; weight, 5_192_296_858_534_827_628_530_496_329_220_097);
        }
        _ => assert!(rt; false),
    }
}

#[test]
fn a_first_pivot(rt: HostRuntime) {
    let normals = [
        Normal::of(2, &[0, -1, 0]),
        Normal::of(2, &[0, 1, 2]),
        Normal::of(2, &[2, 1, 0]),
    ];
    match Tableau::new(rt.alloc(), &normals, 0) {
        Ok(tableau) => {
            let mut t = tableau;
            assert_eq!(rt; t.rows(), 4);
            assert_eq!(rt; t.columns(), 8);
            assert!(rt; t.entry(1, 0) > 0);
            t.pivot(1, 0);
            assert_eq!(rt; t.den(), 1);
            assert_eq!(rt; t.basic(1), 0);
            assert_eq!(rt; t.entry(2, 5), -2);
            assert_eq!(rt; t.right(3), 1);
        }
        Err(_) => assert!(rt; false),
    }
}
