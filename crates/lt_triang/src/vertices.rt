//! Lists of points.

ghost use Rattle.std.specs.Prelude.{◌≡◌, ◌<◌, ◌≤◌, ◌+◌, ◌-◌, ◌*◌, ◌^◌, ◌++◌, negsuc, [], length, get_or, IsSome, IfSome, ◌↔◌};
ghost use Rattle.std.specs.List.{All};
ghost use Rattle.std.specs.List.Sorted.{IsPermutation, IsSorted};
ghost use Rattle.lt_model.specs.Limits.{span_limit};
ghost use Rattle.lt_model.specs.Order.{number_list_cmp};
ghost use Rattle.lt_model.specs.Vectors.{minus, scale};
ghost use Rattle.lt_model.specs.Flat.{flat};
ghost use Rattle.lt_model.specs.Facets.{without};
ghost use Rattle.lt_model.specs.Simplices.{AllOfDimension, translate};
ghost use Rattle.lt_lattice.specs.Ranges.{IsWithin};
ghost use Rattle.lt_triang.specs.Bounds.{AreWithin, AreNear};
ghost use Rattle.lt_triang.specs.Flat.{columns_of};

use arrayvec::ArrayVec;
use lt_lattice::Point;
use lt_solve::Columns;

/// The same points.
pub fn copies(points: &[Point]) -> ArrayVec<Point, 7>
    requires { length points.now ≤ 7 }
    ensures { result.items ≡ points.now }
{
    let mut all: ArrayVec<Point, 7> = ArrayVec::new();
    for point in points {
        all.push(point.copy());
    }
    all
}

/// The same points in ascending order.
pub fn sorted_copies(points: &[Point]) -> ArrayVec<Point, 7>
    requires { length points.now ≤ 7 }
    ensures permutation { IsPermutation points.now result.items }
    ensures sorted { IsSorted number_list_cmp result.items }
{
    let mut sorted = copies(points);
    sorted.as_mut_slice().sort_unstable();
    sorted
}

/// The points but that at place `i`.
pub fn others(points: &[Point], i: usize) -> ArrayVec<Point, 7>
    requires few { length points.now ≤ 7 }
    requires place { i < length points.now }
    ensures { result.items ≡ without i points.now }
{
    let mut all = copies(points);
    let _removed = all.remove(i);
    all
}

/// The first of the points.
pub fn first_of(points: &[Point]) -> Point
    requires { 0 < length points.now }
    ensures { result ≡ get_or points.now 0 [] }
{
    points[0].copy()
}

/// The differences of the points from one.
pub fn moved_back<const N: usize>(points: &[Point], by: &Point) -> ArrayVec<Point, N>
    requires few { length points.now ≤ N }
    requires dimension { AllOfDimension (length by.now) points.now }
    requires near { All (λ v. All (IsWithin (2 ^ 20)) (minus v by.now)) points.now }
    ensures { result.items ≡ translate (scale (negsuc 0) by.now) points.now }
{
    let mut all: ArrayVec<Point, N> = ArrayVec::new();
    for point in points {
        match point.minus(by) {
            Some(moved) => all.push(moved),
            None => unreachable!(),
        }
    }
    all
}

/// The points moved by `by`, or None where a coordinate would be too great.
pub fn moved_by(points: &[Point], by: &Point) -> Option<ArrayVec<Point, 7>>
    requires few { length points.now ≤ 7 }
    requires dimension { AllOfDimension (length by.now) points.now }
    ensures value { IfSome result (λ r. r.items ≡ translate by.now points.now) }
    ensures within { IsSome result ↔ AreWithin (2 ^ 20) (translate by.now points.now) }
{
    let mut all: ArrayVec<Point, 7> = ArrayVec::new();
    for point in points {
        match point.plus(by) {
            Some(moved) => all.push(moved),
            None => return None,
        }
    }
    Some(all)
}

/// The numbers followed by the differences of equal places.
fn push_differences(all: &mut ArrayVec<i64, 36>, a: &[i32], b: &[i32])
    requires same { length a.now ≡ length b.now }
    requires room { length all.old.items + length a.now ≤ 36 }
    requires left { All (IsWithin (2 ^ 20)) a.now }
    requires right { All (IsWithin (2 ^ 20)) b.now }
    ensures { all.new.items ≡ all.old.items ++ minus a.now b.now }
{
    for k in 0..a.len() {
        all.push(i64::from(a[k] - b[k]));
    }
}

/// The differences of the other points from the first, number by number.
fn differences(points: &[Point]) -> ArrayVec<i64, 36>
    requires low { 3 ≤ length points.now }
    requires high { length points.now ≤ 7 }
    requires dimension { AllOfDimension (length points.now - 1) points.now }
    ensures { result.items ≡ flat (columns_of points.now) }
{
    let first = points[0].coords();
    let mut all: ArrayVec<i64, 36> = ArrayVec::new();
    for i in 1..points.len() {
        push_differences(&mut all, points[i].coords(), first);
    }
    all
}

/// The differences of the other points from the first, as columns.
pub fn columns(points: &[Point]) -> Columns
    requires low { 3 ≤ length points.now }
    requires high { length points.now ≤ 7 }
    requires dimension { AllOfDimension (length points.now - 1) points.now }
    requires near { AreNear (2 * span_limit (length points.now - 1)) points.now }
    ensures { result ≡ columns_of points.now }
{
    Columns::of((points.len() - 1) as u8, differences(points).as_slice())
}

/// The coordinates as wide numbers.
pub fn widened(x: &[i32]) -> ArrayVec<i64, 6>
    requires { length x.now ≤ 6 }
    ensures { result.items ≡ x.now }
{
    let mut all: ArrayVec<i64, 6> = ArrayVec::new();
    for coord in x {
        all.push(i64::from(*coord));
    }
    all
}
