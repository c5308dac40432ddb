//! Rows of relevant and of shortest vectors.

ghost use Rattle.std.specs.Prelude.{◌^◌};
ghost use Rattle.std.specs.List.{All};
ghost use Rattle.lt_lattice.specs.Ranges.{IsWithin};

use crate::forms::triangulation_of;
use lt_lattice::{Form, Point};
use lt_relevant::{relevant, shortest};
use std::alloc::Global;
use std::process::Abort;

/// Whether the points have these coordinates.
fn are(points: &[Point], rows: &[&[i32]]) -> bool {
    points.len() == rows.len() && points.iter().zip(rows).all(|(x, row)| x.coords() == *row)
}

/// Whether the form has this least value, at these points and their negatives.
fn has_shortest(rt: &impl Abort, alloc: Global, q: &Form, least: i128, rows: &[&[i32]]) -> bool
    requires { All (IsWithin (2 ^ 40)) q.now }
{
    let t = triangulation_of(rt, alloc, q);
    match shortest(alloc, q, &t) {
        Ok(found) => found.least == least && are(found.vectors.as_slice(), rows),
        Err(_) => false,
    }
}

#[test]
fn the_relevant_vectors_of_the_principal_type(rt: HostRuntime) {
    let space = triangulation_of(&rt, rt.alloc(), &Form::of(3, &[3, -2, -2, 3, -2, 3]));
    match relevant(rt.alloc(), &space) {
        Ok(points) => assert!(rt;
            are(
                points.as_slice(),
                &[
                    &[0, 0, 1],
                    &[0, 1, 0],
                    &[0, 1, 1],
                    &[1, 0, 0],
                    &[1, 0, 1],
                    &[1, 1, 0],
                    &[1, 1, 1]
                ]
            )
        ),
        Err(_) => assert!(rt; false),
    }
    let next = triangulation_of(
        &rt,
        rt.alloc(),
        &Form::of(4, &[4, -2, -2, -2, 4, -2, -2, 4, -2, 4]),
    );
    match relevant(rt.alloc(), &next) {
        Ok(points) => assert_eq!(rt; points.len(), 15),
        Err(_) => assert!(rt; false),
    }
}

#[test]
fn the_shortest_vectors_of_forms_of_the_plane(rt: HostRuntime) {
    assert!(rt; has_shortest(&rt, rt.alloc(), &Form::of(2, &[2, -2, 3]), 2, &[&[1, 0]]));
    assert!(rt;
        has_shortest(
            &rt,
            rt.alloc(),
            &Form::of(2, &[2, -2, 2]),
            2,
            &[&[0, 1], &[1, 0], &[1, 1]]
        )
    );
}

#[test]
fn the_shortest_vectors_of_the_principal_forms(rt: HostRuntime) {
    let three = Form::of(3, &[3, -2, -2, 3, -2, 3]);
    assert!(rt;
        has_shortest(
            &rt,
            rt.alloc(),
            &three,
            3,
            &[&[0, 0, 1], &[0, 1, 0], &[1, 0, 0], &[1, 1, 1]]
        )
    );
    let four = Form::of(4, &[4, -2, -2, -2, 4, -2, -2, 4, -2, 4]);
    assert!(rt;
        has_shortest(
            &rt,
            rt.alloc(),
            &four,
            4,
            &[
                &[0, 0, 0, 1],
                &[0, 0, 1, 0],
                &[0, 1, 0, 0],
                &[1, 0, 0, 0],
                &[1, 1, 1, 1]
            ]
        )
    );
    let five = Form::of(5, &[5, -2, -2, -2, -2, 5, -2, -2, -2, 5, -2, -2, 5, -2, 5]);
    let rows: [&[i32]; 6] = [
        &[0, 0, 0, 0, 1],
        &[0, 0, 0, 1, 0],
        &[0, 0, 1, 0, 0],
        &[0, 1, 0, 0, 0],
        &[1, 0, 0, 0, 0],
        &[1, 1, 1, 1, 1],
    ];
    assert!(rt; has_shortest(&rt, rt.alloc(), &five, 5, &rows));
}
