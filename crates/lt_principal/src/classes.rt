//! The classes of the principal triangulation.

ghost use Rattle.std.specs.Prelude.{◌≡◌, ◌<◌, ◌≤◌, ◌+◌, ◌++◌, ◌^◌, pos, length, OnOk, IfOk, [], ◌∷◌};
ghost use Rattle.lt_model.specs.Vectors.{plus, unit};
ghost use Rattle.lt_model.specs.Facets.{number_at};
ghost use Rattle.lt_model.specs.Simplices.{AllOfDimension};
ghost use Rattle.lt_model.specs.Principal.{IsPrincipal};
ghost use Rattle.lt_lattice.specs.Ranges.{IsWithin};
ghost use Rattle.lt_principal.specs.Paths.{before_each, points_of, last_point, ways};

use arrayvec::ArrayVec;
use lt_lattice::Point;
use lt_model::Memory;
use std::alloc::Global;

/// The coordinate at place `i` of the point raised by 1 along coordinate `k`, where it is 0.
fn raised_coord(x: &Point, k: usize, i: usize) -> i64
    requires place { k < length x.now }
    requires within { i < length x.now }
    requires zero { number_at k x.now ≡ pos 0 }
    ensures value { result ≡ number_at i (plus x.now (unit (length x.now) k)) }
    ensures small { IsWithin (2 ^ 20) result }
{
    if i == k { 1 } else { x.coord(i) }
}

/// The point raised by 1 along coordinate `k`, where it is 0.
fn raised(x: &Point, k: usize) -> Point
    requires place { k < length x.now }
    requires zero { number_at k x.now ≡ pos 0 }
    ensures { result ≡ plus x.now (unit (length x.now) k) }
{
    let mut coords: ArrayVec<i64, 6> = ArrayVec::new();
    for i in 0..usize::from(x.dimension()) {
        coords.push(raised_coord(x, k, i));
    }
    Point::of(coords.as_slice())
}

/// The points and one more.
fn with_last(path: &[Point], last: Point) -> ArrayVec<Point, 7>
    requires { length path.now ≤ 6 }
    ensures { result.items ≡ path.now ++ last ∷ [] }
{
    let mut all: ArrayVec<Point, 7> = ArrayVec::new();
    for point in path {
        all.push(point.copy());
    }
    all.push(last);
    all
}

/// The last of the points.
fn last_of(path: &[Point]) -> &Point
    requires { 0 < length path.now }
    ensures { result.now ≡ last_point path.now }
{
    &path[path.len() - 1]
}

/// Adds a copy of the path.
fn push_copy(path: &[Point], out: &mut Vec<ArrayVec<Point, 7>>) -> Result<(), Memory>
    requires { length path.now ≤ 7 }
    ensures { OnOk result (points_of out.new.items ≡ points_of out.old.items ++ path.now ∷ []) }
{
    let mut copy: ArrayVec<Point, 7> = ArrayVec::new();
    for point in path {
        copy.push(point.copy());
    }
    out.push(copy)?;
    Ok(())
}

/// Adds the paths that go on from `path` by `steps` more steps along coordinates where its last point is 0.
fn push_paths(
    d: usize,
    steps: usize,
    path: &[Point],
    out: &mut Vec<ArrayVec<Point, 7>>,
) -> Result<(), Memory>
    requires few { d ≤ 6 }
    requires count { length path.now + steps ≡ d + 1 }
    requires some { 0 < length path.now }
    requires dimension { AllOfDimension d path.now }
    ensures { OnOk result (points_of out.new.items ≡ points_of out.old.items ++ before_each path.now
        (ways d steps (last_point path.now))) }
{
    if steps == 0 {
        return push_copy(path, out);
    }
    let last = last_of(path);
    for j in 0..d {
        let k = d - 1 - j;
        if last.coord(k) == 0 {
            let longer = with_last(path, raised(last, k));
            push_paths(d, steps - 1, longer.as_slice(), out)?;
        }
    }
    Ok(())
}

/// The classes of the principal triangulation of dimension `d`, 2 to 6, in ascending order: for each order of the
/// coordinates the `d + 1` points of the path from 0 to (1, .., 1) that raises them in this order.
pub(crate) fn principal_points(alloc: Global, d: u8) -> Result<Vec<ArrayVec<Point, 7>>, Memory>
    requires low { 2 ≤ d }
    requires high { d ≤ 6 }
    ensures { IfOk result (λ classes. IsPrincipal d (points_of classes.items)) }
{
    let mut classes = Vec::new(alloc);
    let start = with_last(&[], Point::origin(d));
    push_paths(
        usize::from(d),
        usize::from(d),
        start.as_slice(),
        &mut classes,
    )?;
    Ok(classes)
}
