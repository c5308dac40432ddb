//! The neighbours at the facets of each class.

ghost use Rattle.std.specs.Prelude.{◌≡◌, ◌<◌, ℕ, List, [], length, get_or, IfOk};
ghost use Rattle.lt_triang.specs.Across.{IsFirstOpenOf, IsFirstOpen};
ghost use Rattle.lt_triang.specs.Indexed.{buckets_of, IsIndex};
ghost use Rattle.lt_triang.specs.Kept.{AreClasses};
ghost use Rattle.lt_triang.specs.Walled.{IsRow, AreRows};
ghost use Rattle.lt_triang.specs.declared.errors.TriangError.TheVariants.{OpenFacet};

use crate::classes::Class;
use crate::codes::point_codes;
use crate::errors::TriangError;
use crate::indexes::{first_across, index_of};
use crate::neighbours::{class_at, member};
use crate::walls::Wall;
use lt_model::Memory;
use std::alloc::Global;
use std::marker::Model;

/// The neighbours at the facets of a class.
#[derive(Drop)]
pub struct Row {
    facets: Vec<Wall>,
}

impl Model for Row {
    ghost use Rattle.std.specs.Prelude.{List};
    ghost use Rattle.lt_triang.specs.declared.walls.Wall.{Wall};

    ghost Value = { List Wall };

    ghost view = { λ r. r.facets.items };
}

impl Row {
    /// The row of these neighbours, one for each facet.
    pub fn of(facets: Vec<Wall>) -> Row
        ensures { result ≡ facets.items }
    {
        Row { facets }
    }

    /// The neighbour at facet `i`.
    pub fn at(&self, i: usize) -> &Wall
        requires { i < length self.now }
        ensures { result.now ≡ get_or self.now i result.now }
    {
        &self.facets[i]
    }

    /// The same row.
    fn try_copy(&self, alloc: Global) -> Result<Row, Memory>
        ensures { IfOk result (λ r. r ≡ self.now) }
    {
        let mut facets = Vec::with_capacity(alloc, self.facets.len())?;
        for wall in &self.facets {
            facets.push(wall.copy())?;
        }
        Ok(Row { facets })
    }
}

/// The neighbours of the class at place `n`, or the first of its facets that is open. `rows` are those of the classes before it.
pub fn row_of(
    alloc: Global,
    d: usize,
    classes: &[Class],
    index: &[Vec<(usize, usize)>],
    rows: &[Row],
    n: usize,
) -> Result<Row, TriangError>
    requires members { AreClasses d classes.now }
    requires index { IsIndex d classes.now (buckets_of index.now) }
    requires rows { AreRows d classes.now n rows.now }
    requires class { n < length classes.now }
    ensures row { IfOk result (IsRow d classes.now (get_or classes.now n [])) }
    ensures open { (class facet : ℕ) → result ≡ Err (OpenFacet class facet) → (class ≡ n) ×
        IsFirstOpenOf d classes.now (get_or classes.now n []) facet }
{
    let columns = class_at(classes, n).columns();
    let codes = point_codes(member(classes, n));
    let mut facets = match Vec::with_capacity(alloc, d + 1) {
        Ok(facets) => facets,
        Err(_) => return Err(TriangError::Memory),
    };
    for i in 0..d + 1 {
        match first_across(d, classes, index, rows, n, codes.as_slice(), &columns, i) {
            Ok(Some(wall)) => match facets.push(wall) {
                Ok(()) => {}
                Err(_) => return Err(TriangError::Memory),
            },
            Ok(None) => return Err(TriangError::OpenFacet { class: n, facet: i }),
            Err(_) => return Err(TriangError::Memory),
        }
    }
    Ok(Row { facets })
}

/// The neighbours of the classes, or the first open facet, in the order of classes and facets.
pub fn rows_of(alloc: Global, d: usize, classes: &[Class]) -> Result<Vec<Row>, TriangError>
    requires { AreClasses d classes.now }
    ensures rows { IfOk result (λ rows. AreRows d classes.now (length classes.now) rows.items) }
    ensures open { (class facet : ℕ) → result ≡ Err (OpenFacet class facet) → IsFirstOpen d classes.now class facet }
{
    let index = match index_of(alloc, d, classes) {
        Ok(index) => index,
        Err(_) => return Err(TriangError::Memory),
    };
    let mut rows = match Vec::with_capacity(alloc, classes.len()) {
        Ok(rows) => rows,
        Err(_) => return Err(TriangError::Memory),
    };
    for n in 0..classes.len() {
        match row_of(alloc, d, classes, &index, &rows, n) {
            Ok(row) => match rows.push(row) {
                Ok(()) => {}
                Err(_) => return Err(TriangError::Memory),
            },
            Err(why) => return Err(why),
        }
    }
    Ok(rows)
}

/// Copies of the rows.
pub fn rows_copy(alloc: Global, given: &[Row]) -> Result<Vec<Row>, Memory>
    ensures { IfOk result (λ rows. rows.items ≡ given.now) }
{
    let mut rows = match Vec::with_capacity(alloc, given.len()) {
        Ok(rows) => rows,
        Err(_) => return Err(Memory),
    };
    for row in given {
        let copy = row.try_copy(alloc)?;
        rows.push(copy)?;
    }
    Ok(rows)
}
