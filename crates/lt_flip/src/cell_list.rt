//! Cells: the points of two members with a given regulator, and their affine dependency.

ghost use Rattle.std.specs.Prelude.{◌≡◌, ◌<◌, ◌≤◌, ◌*◌, ◌^◌, ◌-◌, suc, ℕ, ℤ, List, [], ◌∷◌, negsuc, length, get_or, IfOk, ◌↔◌};
ghost use Rattle.std.specs.List.{Contains, All};
ghost use Rattle.std.specs.List.Sorted.{IsStrictlySortedBy, IsPermutation, IsSorted};
ghost use Rattle.lt_model.specs.Limits.{span_limit};
ghost use Rattle.lt_model.specs.Order.{number_list_cmp, simplex_cmp};
ghost use Rattle.lt_model.specs.Vectors.{minus, scale};
ghost use Rattle.lt_model.specs.Simplices.{AllOfDimension, IsClass, translate};
ghost use Rattle.lt_model.specs.Walls.{IsFacet};
ghost use Rattle.lt_lattice.specs.Ranges.{IsWithin};
ghost use Rattle.lt_triang.specs.Bounds.{AreNear};
ghost use Rattle.lt_triang.specs.Flat.{IsFlat};
ghost use Rattle.lt_triang.specs.Kept.{dimension_of, IsOfSomeForm};
ghost use Rattle.lt_flip.specs.Ascending.{AreAscending};
ghost use Rattle.lt_flip.specs.Cells.{IsMovedFrom, AreCellPointsBelow, AreAllCellPoints, AreCells};

use crate::outers::outer_of;
use crate::terms::terms_of;
use arrayvec::ArrayVec;
use lt_lattice::{Normal, Point};
use lt_model::Memory;
use lt_triang::Triangulation;
use std::alloc::Global;
use std::marker::Model;

/// The d + 2 points of two members that have a given regulator at their common facet, in ascending order, moved so that the first is 0,
/// and their affine dependency.
#[derive(Drop)]
pub struct Cell {
    /// The points.
    pub points: ArrayVec<Point, 8>,
    /// A number for each point: they sum to 0, and so do the points times them. Their greatest common divisor is 1, and the first that isn't
    /// 0 is positive.
    pub terms: ArrayVec<i128, 8>,
}

impl Model for Cell {
    ghost use Rattle.lt_flip.specs.Cells.{Cell as CellModel};

    ghost Value = { CellModel };

    ghost view = { λ c. record { points = c.points.items; terms = c.terms.items } };
}

/// The points of a cell.
#[derive(Drop, PartialEq, Eq, PartialOrd, Ord)]
struct CellPoints {
    points: ArrayVec<Point, 8>,
}

impl Model for CellPoints {
    ghost use Rattle.std.specs.Prelude.{List, ℤ, ℕ, ◌≤◌, ◌*◌};
    ghost use Rattle.lt_model.specs.Limits.{span_limit};
    ghost use Rattle.lt_triang.specs.Bounds.{AreNear};
    ghost use Rattle.lt_flip.specs.Ascending.{AreAscending};

    ghost Value = { List (List ℤ) };

    ghost view = { λ c. c.points.items };

    ghost invariant = { λ c. (d : ℕ) × (2 ≤ d) × (d ≤ 6) × AreAscending d c.points.items × AreNear (2 * span_limit d) c.points.items };

    ghost inverse = { λ x. record { points = record { items = x } } };
}

impl CellPoints {
    /// The number of coordinates of the points.
    fn dimension(&self) -> usize
        ensures value { result ≡ length self.now - 2 }
        ensures shape { AreAscending result self.now }
        ensures near { AreNear (2 * span_limit result) self.now }
        ensures low { 2 ≤ result }
        ensures high { result ≤ 6 }
    {
        self.points.len() - 2
    }
}

/// The point and the vertices, in ascending order.
fn sorted_with(s: &[Point], w: &Point) -> ArrayVec<Point, 8>
    requires { length s.now ≤ 7 }
    ensures permutation { IsPermutation (w.now ∷ s.now) result.items }
    ensures sorted { IsSorted number_list_cmp result.items }
{
    let mut all: ArrayVec<Point, 8> = ArrayVec::new();
    all.push(w.copy());
    for point in s {
        all.push(point.copy());
    }
    all.as_mut_slice().sort_unstable();
    all
}

/// The differences of the points from the first.
fn moved_back(points: &[Point]) -> ArrayVec<Point, 8>
    requires few { length points.now ≤ 8 }
    requires some { 0 < length points.now }
    requires dimension { AllOfDimension (length (get_or points.now 0 [])) points.now }
    requires near { All (λ v. All (IsWithin (2 ^ 20)) (minus v (get_or points.now 0 []))) points.now }
    ensures { result.items ≡ translate (scale (negsuc 0) (get_or points.now 0 [])) points.now }
{
    let mut all: ArrayVec<Point, 8> = ArrayVec::new();
    for point in points {
        match point.minus(&points[0]) {
            Some(moved) => all.push(moved),
            None => unreachable!(),
        }
    }
    all
}

/// The points of the cell of a class and a point outside it.
fn cell_points(d: usize, s: &[Point], w: &Point) -> CellPoints
    requires low { 2 ≤ d }
    requires high { d ≤ 6 }
    requires class { IsClass d s.now }
    requires dimension { length w.now ≡ d }
    requires near { AreNear (2 * span_limit d) (w.now ∷ s.now) }
    requires outside { Contains s.now w.now → ⊥ }
    ensures { IsMovedFrom d (w.now ∷ s.now) result }
{
    let sorted = sorted_with(s, w);
    CellPoints {
        points: moved_back(sorted.as_slice()),
    }
}

/// Appends the points of the cell in which the class at place `class` stands, where it stands in one.
fn push_cell_points(
    all: &mut Vec<CellPoints>,
    t: &Triangulation,
    facet: &Normal,
    class: usize,
) -> Result<(), Memory>
    requires delaunay { IsOfSomeForm t.now }
    requires facet { IsFacet (dimension_of t.now) t.now facet.now }
    requires class { class < length t.now }
    requires from { AreCellPointsBelow (dimension_of t.now) t.now facet.now class all.old.items }
    ensures { IfOk result (λ _. AreCellPointsBelow (dimension_of t.now) t.now facet.now (suc class) all.new.items) }
{
    let d = usize::from(t.dimension());
    let simplex = t.class(class);
    match outer_of(t, class, facet) {
        Some(outer) => match all.push(cell_points(d, simplex.vertices(), &outer.vertex)) {
            Ok(()) => Ok(()),
            Err(_) => Err(Memory),
        },
        None => Ok(()),
    }
}

/// The points of the cells, in the order of the classes that stand in them.
fn all_cell_points(
    alloc: Global,
    t: &Triangulation,
    facet: &Normal,
) -> Result<Vec<CellPoints>, Memory>
    requires low { 2 ≤ dimension_of t.now }
    requires delaunay { IsOfSomeForm t.now }
    requires facet { IsFacet (dimension_of t.now) t.now facet.now }
    ensures { IfOk result (λ all. AreAllCellPoints (dimension_of t.now) t.now facet.now all.items) }
{
    let mut all = Vec::new(alloc);
    for class in 0..t.len() {
        push_cell_points(&mut all, t, facet, class)?;
    }
    Ok(all)
}

/// The lists of points in ascending order, each once.
fn sorted_distinct(given: Vec<CellPoints>) -> Vec<CellPoints>
    ensures ascending { IsStrictlySortedBy simplex_cmp result.items }
    ensures members { (ps : List (List ℤ)) → Contains result.items ps ↔ Contains given.items ps }
{
    let mut cells = given;
    cells.sort_unstable();
    cells.dedup();
    cells
}

/// The cell with these points.
fn cell_of(points: &CellPoints) -> Cell
    ensures points { result.points ≡ points.now }
    ensures dependency { IsFlat (length points.now - 2) points.now result.terms }
{
    let d = points.dimension();
    let points = points.points.as_slice();
    let terms = terms_of(d, points);
    let mut copies: ArrayVec<Point, 8> = ArrayVec::new();
    for point in points {
        copies.push(point.copy());
    }
    Cell {
        points: copies,
        terms,
    }
}

/// The cells of a facet of the secondary cone of `t`, each once and in ascending order: the points of two members that have this regulator
/// at their common facet, and their dependency. `t` is the Delaunay triangulation of some form, and `facet` is a facet of it.
/// Voronoi 1908; Schürmann, chapter 4 ("repartitioning polytopes").
pub fn cells(alloc: Global, t: &Triangulation, facet: &Normal) -> Result<Vec<Cell>, Memory>
    requires delaunay { IsOfSomeForm t.now }
    requires facet { IsFacet (dimension_of t.now) t.now facet.now }
    ensures { IfOk result (λ cells. AreCells (dimension_of t.now) t.now facet.now cells.items) }
{
    let _dimension = t.dimension();
    let all = sorted_distinct(all_cell_points(alloc, t, facet)?);
    let mut cells = Vec::new(alloc);
    for i in 0..all.len() {
        cells.push(cell_of(&all[i]))?;
    }
    Ok(cells)
}
