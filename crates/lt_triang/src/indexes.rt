//! An index of the facets of classes: facets that are translates of one another stand in one bucket.

ghost use Rattle.std.specs.Prelude.{◌≡◌, ◌<◌, ◌≤◌, ◌*◌, ◌^◌, ◌++◌, map, ◌∷◌, suc, ℕ, List, [], length, get_or, set, IfOk, IfSome, MatchOption};
ghost use Rattle.lt_triang.specs.Across.{IsFacing, IsNotFacing};
ghost use Rattle.std.specs.List.{All};
ghost use Rattle.lt_lattice.specs.Ranges.{IsWithin};
ghost use Rattle.lt_triang.specs.Codes as model;
ghost use Rattle.lt_triang.specs.Flat.{columns_of};
ghost use Rattle.lt_triang.specs.Indexed.{buckets_of, IsIndexBelow, IsIndex, ArePlaces, IsOuterIn};
ghost use Rattle.lt_triang.specs.Kept.{AreClasses};
ghost use Rattle.lt_triang.specs.Walled.{AreRows, IsWallAnswer, IsFirstAnswer, IsAcrossAnswer};

use crate::classes::Class;
use crate::codes::{facet_code, point_codes, spread};
use crate::neighbours::{Outer, class_at, facing, member};
use crate::rows::Row;
use crate::walls::Wall;
use lt_lattice::Point;
use lt_model::Memory;
use lt_solve::Columns;
use std::alloc::Global;

/// The bucket of a facet of a class whose vertices have these codes. There are four for each class, so that most hold the facets of one
/// translate alone.
fn bucket_of(d: usize, classes: &[Class], n: usize, codes: &[i64], j: usize) -> usize
    requires members { AreClasses d classes.now }
    requires class { n < length classes.now }
    requires codes { codes.now ≡ map model.point_code (get_or classes.now n []) }
    requires small { All (IsWithin (2 ^ 45)) codes.now }
    requires place { j < suc d }
    ensures value { result ≡ model.bucket_of classes.now n j }
    ensures within { result < 4 * length classes.now }
{
    let code = spread(facet_code(d, codes, j));
    (code % (4 * classes.len() as u64)) as usize
}

/// As many empty buckets.
fn empty_buckets(alloc: Global, count: usize) -> Result<Vec<Vec<(usize, usize)>>, Memory>
    ensures { IfOk result (λ bs. (length (buckets_of bs.items) ≡ count) ×
        ((b : ℕ) → get_or (buckets_of bs.items) b [] ≡ [])) }
{
    let mut buckets = Vec::new(alloc);
    for _b in 0..count {
        buckets.push(Vec::new(alloc))?;
    }
    Ok(buckets)
}

/// Puts a facet at the end of a bucket.
fn put(
    buckets: &mut Vec<Vec<(usize, usize)>>,
    bucket: usize,
    facet: (usize, usize),
) -> Result<(), Memory>
    requires { bucket < length (buckets_of buckets.old.items) }
    ensures { IfOk result (λ _. buckets_of buckets.new.items
        ≡ set (buckets_of buckets.old.items) bucket (get_or (buckets_of buckets.old.items) bucket [] ++ facet ∷ [])) }
{
    buckets[bucket].push(facet)?;
    Ok(())
}

/// Puts the facets of the class at place `n` into their buckets.
fn put_class(
    buckets: &mut Vec<Vec<(usize, usize)>>,
    d: usize,
    classes: &[Class],
    n: usize,
) -> Result<(), Memory>
    requires members { AreClasses d classes.now }
    requires class { n < length classes.now }
    requires from { IsIndexBelow d classes.now n 0 (buckets_of buckets.old.items) }
    ensures { IfOk result (λ _. IsIndexBelow d classes.now (suc n) 0 (buckets_of buckets.new.items)) }
{
    let codes = point_codes(member(classes, n));
    for j in 0..d + 1 {
        let bucket = bucket_of(d, classes, n, codes.as_slice(), j);
        put(buckets, bucket, (n, j))?;
    }
    Ok(())
}

/// The index of the facets of the classes.
pub fn index_of(
    alloc: Global,
    d: usize,
    classes: &[Class],
) -> Result<Vec<Vec<(usize, usize)>>, Memory>
    requires { AreClasses d classes.now }
    ensures { IfOk result (λ bs. IsIndex d classes.now (buckets_of bs.items)) }
{
    let mut buckets = empty_buckets(alloc, 4 * classes.len())?;
    for n in 0..classes.len() {
        put_class(&mut buckets, d, classes, n)?;
    }
    Ok(buckets)
}

/// The shift by which facet `vertex` of the class at place `class` lies across facet `i` of the class at place `n`, and the vertex
/// outside. A facet doesn't lie across itself.
fn facing_at(
    d: usize,
    classes: &[Class],
    n: usize,
    columns: &Columns,
    i: usize,
    class: usize,
    vertex: usize,
) -> Option<(Point, Outer)>
    requires members { AreClasses d classes.now }
    requires class { n < length classes.now }
    requires columns { columns.now ≡ columns_of (get_or classes.now n []) }
    requires place { i < suc d }
    requires class_too { class < length classes.now }
    requires place_too { vertex < suc d }
    ensures facing { MatchOption result (IsNotFacing d (get_or classes.now n []) i
        (get_or classes.now class []) vertex)
        (λ r. IsFacing d (get_or classes.now n []) i (get_or classes.now class []) r.0 vertex) }
    ensures outer { IfSome result (λ r. IsOuterIn (get_or classes.now n [])
        (get_or classes.now class []) r.0 vertex r.1.vertex r.1.expression.scale r.1.expression.coefficients) }
{
    if class == n && vertex == i {
        None
    } else {
        facing(
            d,
            class_at(classes, n),
            columns,
            i,
            member(classes, class),
            vertex,
        )
    }
}

/// The wall that names facet `vertex` of the class at place `class`, if it lies across facet `i` of the class at place `n`. Where `rows`, those
/// of the classes before it, name facet `i` on the other side, it is read from there: to solve the equation is the dearest part.
fn wall_at(
    d: usize,
    classes: &[Class],
    rows: &[Row],
    n: usize,
    columns: &Columns,
    i: usize,
    class: usize,
    vertex: usize,
) -> Result<Option<Wall>, Memory>
    requires members { AreClasses d classes.now }
    requires rows { AreRows d classes.now n rows.now }
    requires class { n < length classes.now }
    requires columns { columns.now ≡ columns_of (get_or classes.now n []) }
    requires place { i < suc d }
    requires class_too { class < length classes.now }
    requires place_too { vertex < suc d }
    ensures { IfOk result (IsWallAnswer d classes.now (get_or classes.now n []) i class vertex) }
{
    if class < n {
        let wall = rows[class].at(vertex);
        if wall.class as usize == n && usize::from(wall.vertex) == i {
            if let Some(mirrored) = wall.mirrored(class, vertex) {
                return Ok(Some(mirrored));
            }
        }
    }
    match facing_at(d, classes, n, columns, i, class, vertex) {
        Some((_shift, outer)) => {
            let wall = Wall::of(class, vertex, &outer.expression)?;
            Ok(Some(wall))
        }
        None => Ok(None),
    }
}

/// The first of the facets that lies across facet `i` of the class at place `n`.
fn first_in(
    d: usize,
    classes: &[Class],
    rows: &[Row],
    n: usize,
    columns: &Columns,
    i: usize,
    facets: &[(usize, usize)],
) -> Result<Option<Wall>, Memory>
    requires members { AreClasses d classes.now }
    requires rows { AreRows d classes.now n rows.now }
    requires class { n < length classes.now }
    requires columns { columns.now ≡ columns_of (get_or classes.now n []) }
    requires place { i < suc d }
    requires facets { ArePlaces d classes.now facets.now }
    ensures { IfOk result (IsFirstAnswer d classes.now (get_or classes.now n []) i facets.now) }
{
    for q in 0..facets.len() {
        let (class, vertex) = facets[q];
        if let Some(wall) = wall_at(d, classes, rows, n, columns, i, class, vertex)? {
            return Ok(Some(wall));
        }
    }
    Ok(None)
}

/// The first member across facet `i` of the class at place `n`, in the order of members and vertices.
pub fn first_across(
    d: usize,
    classes: &[Class],
    index: &[Vec<(usize, usize)>],
    rows: &[Row],
    n: usize,
    codes: &[i64],
    columns: &Columns,
    i: usize,
) -> Result<Option<Wall>, Memory>
    requires members { AreClasses d classes.now }
    requires index { IsIndex d classes.now (buckets_of index.now) }
    requires rows { AreRows d classes.now n rows.now }
    requires class { n < length classes.now }
    requires codes { codes.now ≡ map model.point_code (get_or classes.now n []) }
    requires small { All (IsWithin (2 ^ 45)) codes.now }
    requires columns { columns.now ≡ columns_of (get_or classes.now n []) }
    requires place { i < suc d }
    ensures { IfOk result (IsAcrossAnswer d classes.now (get_or classes.now n []) i) }
{
    let bucket = bucket_of(d, classes, n, codes, i);
    let facets = index[bucket].as_slice();
    first_in(d, classes, rows, n, columns, i, facets)
}
