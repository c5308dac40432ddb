//! Points, forms, normals and matrices.

use lt_lattice::{Form, Matrix, Normal, Point, apply, inverse_of, pair, times, value};

#[test]
fn points_add(rt: HostRuntime) {
    let p = Point::of(&[3, -1]);
    let q = Point::of(&[1, 2]);
    assert!(rt; p.plus(&q) == Some(Point::of(&[4, 1])));
    assert!(rt; p.minus(&q) == Some(Point::of(&[2, -3])));
    assert!(rt;
        Point::of(&[1_048_576, 0]).plus(&Point::of(&[0, 1])) == Some(Point::of(&[1_048_576, 1]))
    );
    assert!(rt; Point::of(&[1_048_576, 0]).plus(&Point::of(&[1, 0])) == None);
    assert_eq!(rt; p.coord(1), -1);
    assert_eq!(rt; p.dimension(), 2);
}

#[test]
fn forms_have_values(rt: HostRuntime) {
    let q = Form::of(2, &[2, -2, 2]);
    assert_eq!(rt; value(&q, &Point::of(&[1, 1])), 2);
    assert_eq!(rt; value(&q, &Point::of(&[1, -2])), 14);
    assert_eq!(rt; pair(&Normal::of(2, &[0, 1, 2]), &q), 2);
}

#[test]
fn matrices_act(rt: HostRuntime) {
    let u = Matrix::of(2, &[1, 0, 1, 1]);
    let v = Matrix::of(2, &[1, 0, -1, 1]);
    assert!(rt; apply(&u, &Point::of(&[2, 3])) == Some(Point::of(&[2, 5])));
    assert!(rt; apply(&u, &Point::of(&[1_048_576, 1])) == None);
    assert!(rt; inverse_of(&u, &v));
    assert!(rt; !inverse_of(&u, &u));
    match times(&u, &u) {
        Ok(product) => assert!(rt; product == Matrix::of(2, &[1, 0, 2, 1])),
        Err(_) => assert!(rt; false),
    }
    let great = Matrix::of(2, &[1 << 61, 0, 0, 1]);
    assert!(rt; times(&great, &Matrix::of(2, &[2, 0, 0, 1])).is_err());
    assert!(rt; times(&great, &Matrix::identity(2)).is_ok());
}
