//! Rows that are taken over from a triangulation with classes in common.

ghost use Rattle.std.specs.Prelude.{◌<◌, ◌≤◌, suc, [], length, get_or, IfOk, IfSome};
ghost use Rattle.lt_triang.specs.Across.{HasOneAcross};
ghost use Rattle.lt_triang.specs.Carried.{IsPlaceIn, ArePlacesIn, IsTakenOver, IsKnownWall, IsKnownRow};
ghost use Rattle.lt_triang.specs.Indexed.{buckets_of, IsIndex};
ghost use Rattle.lt_triang.specs.Kept.{IsTriangulation, AreClasses};
ghost use Rattle.lt_triang.specs.Walled.{IsWall, IsRow, AreRows, IsAcrossAnswer};

use crate::classes::Class;
use crate::codes::point_codes;
use crate::errors::TriangError;
use crate::indexes::{first_across, index_of};
use crate::neighbours::{class_at, member};
use crate::rows::{Row, row_of};
use crate::walls::Wall;
use lt_model::Memory;
use std::alloc::Global;
use std::cmp::Ordering;

/// The first place from `next` on whose class doesn't come before `class`, or the number of classes.
fn first_from(classes: &[Class], next: usize, class: &Class) -> usize
    ensures { result ≤ length classes.now }
{
    for place in next..classes.len() {
        if classes[place].cmp(class) != Ordering::Less {
            return place;
        }
    }
    classes.len()
}

/// The place `next`, where the class stands there.
fn place_at(classes: &[Class], next: usize, class: &Class) -> Option<usize>
    ensures { IsPlaceIn classes.now class.now result }
{
    if next < classes.len() && classes[next] == *class {
        Some(next)
    } else {
        None
    }
}

/// For each class of `from` its place among the classes `into`, or None. Both ascend, so one pass finds all that are there.
fn places_in(alloc: Global, from: &[Class], into: &[Class]) -> Result<Vec<Option<usize>>, Memory>
    ensures { IfOk result (λ places. ArePlacesIn from.now into.now places.items) }
{
    let mut places = Vec::with_capacity(alloc, from.len())?;
    let mut next = 0;
    for class in from {
        next = first_from(into, next, class);
        places.push(place_at(into, next, class))?;
    }
    Ok(places)
}

/// The wall that `wall` is among the classes in which its neighbour has one of the places, or None where it has none.
fn taken_over(wall: &Wall, places: &[Option<usize>]) -> Result<Option<Wall>, Memory>
    requires { wall.now.class < length places.now }
    ensures { IfOk result (λ r. IfSome r (IsTakenOver places.now wall.now)) }
{
    match places[wall.class as usize] {
        Some(class) => {
            let moved = wall.moved(class)?;
            Ok(Some(moved))
        }
        None => Ok(None),
    }
}

/// The wall of facet `i` of the class at place `n`, looked for among all classes.
fn found(
    d: usize,
    classes: &[Class],
    index: &[Vec<(usize, usize)>],
    rows: &[Row],
    n: usize,
    i: usize,
) -> Result<Option<Wall>, Memory>
    requires members { AreClasses d classes.now }
    requires index { IsIndex d classes.now (buckets_of index.now) }
    requires rows { AreRows d classes.now n rows.now }
    requires class { n < length classes.now }
    requires place { i < suc d }
    ensures { IfOk result (IsAcrossAnswer d classes.now (get_or classes.now n []) i) }
{
    let columns = class_at(classes, n).columns();
    let codes = point_codes(member(classes, n));
    first_across(d, classes, index, rows, n, codes.as_slice(), &columns, i)
}

/// The wall of facet `i` of the class at place `n`: `known` at its neighbour's new place, and looked for where that has none.
fn wall_of(
    d: usize,
    classes: &[Class],
    index: &[Vec<(usize, usize)>],
    rows: &[Row],
    n: usize,
    i: usize,
    known: &Wall,
    places: &[Option<usize>],
) -> Result<Wall, Memory>
    requires triangulation { IsTriangulation d classes.now }
    requires one { HasOneAcross d classes.now }
    requires index { IsIndex d classes.now (buckets_of index.now) }
    requires rows { AreRows d classes.now n rows.now }
    requires class { n < length classes.now }
    requires place { i < suc d }
    requires known { IsKnownWall d classes.now places.now (get_or classes.now n []) i known.now }
    ensures { IfOk result (IsWall d classes.now (get_or classes.now n []) i) }
{
    if let Some(wall) = taken_over(known, places)? {
        return Ok(wall);
    }
    match found(d, classes, index, rows, n, i)? {
        Some(wall) => Ok(wall),
        None => unreachable!(),
    }
}

/// The row of the class at place `n`, of which `known` is the row in another triangulation.
fn row_from(
    alloc: Global,
    d: usize,
    classes: &[Class],
    index: &[Vec<(usize, usize)>],
    rows: &[Row],
    n: usize,
    known: &Row,
    places: &[Option<usize>],
) -> Result<Row, Memory>
    requires triangulation { IsTriangulation d classes.now }
    requires one { HasOneAcross d classes.now }
    requires index { IsIndex d classes.now (buckets_of index.now) }
    requires rows { AreRows d classes.now n rows.now }
    requires class { n < length classes.now }
    requires known { IsKnownRow d classes.now places.now (get_or classes.now n []) known.now }
    ensures { IfOk result (IsRow d classes.now (get_or classes.now n [])) }
{
    let mut facets = Vec::with_capacity(alloc, d + 1)?;
    for i in 0..d + 1 {
        let wall = wall_of(d, classes, index, rows, n, i, known.at(i), places)?;
        facets.push(wall)?;
    }
    Ok(Row::of(facets))
}

/// The row of the class at place `n` of closed classes.
fn closed_row(
    alloc: Global,
    d: usize,
    classes: &[Class],
    index: &[Vec<(usize, usize)>],
    rows: &[Row],
    n: usize,
) -> Result<Row, Memory>
    requires triangulation { IsTriangulation d classes.now }
    requires index { IsIndex d classes.now (buckets_of index.now) }
    requires rows { AreRows d classes.now n rows.now }
    requires class { n < length classes.now }
    ensures { IfOk result (IsRow d classes.now (get_or classes.now n [])) }
{
    match row_of(alloc, d, classes, index, rows, n) {
        Ok(row) => Ok(row),
        Err(TriangError::Memory) => Err(Memory),
        Err(TriangError::OpenFacet { class: _, facet: _ }) => unreachable!(),
    }
}

/// The rows of closed classes. Where a class and its neighbour are among the classes `old` too, the wall is taken over from `known`, the rows
/// of those: a flip leaves most of them alone.
pub fn rows_from(
    alloc: Global,
    d: usize,
    classes: &[Class],
    old: &[Class],
    known: &[Row],
) -> Result<Vec<Row>, Memory>
    requires triangulation { IsTriangulation d classes.now }
    requires one { HasOneAcross d classes.now }
    requires known { AreRows d old.now (length old.now) known.now }
    ensures { IfOk result (λ rows. AreRows d classes.now (length classes.now) rows.items) }
{
    let origins = places_in(alloc, classes, old)?;
    let places = places_in(alloc, old, classes)?;
    let index = match index_of(alloc, d, classes) {
        Ok(index) => index,
        Err(_) => return Err(Memory),
    };
    let mut rows = Vec::with_capacity(alloc, classes.len())?;
    for n in 0..classes.len() {
        let row = match origins[n] {
            Some(origin) => row_from(alloc, d, classes, &index, &rows, n, &known[origin], &places)?,
            None => closed_row(alloc, d, classes, &index, &rows, n)?,
        };
        rows.push(row)?;
    }
    Ok(rows)
}
