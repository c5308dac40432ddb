//! The edges of a triangulation.

ghost use Rattle.std.specs.Prelude.{◌≡◌, ◌<◌, ℕ, ℤ, List, [], length, get_or, IfOk, ◌↔◌};
ghost use Rattle.std.specs.List.{Contains};
ghost use Rattle.std.specs.List.Sorted.{IsStrictlySortedBy};
ghost use Rattle.lt_model.specs.Order.{number_list_cmp};
ghost use Rattle.lt_model.specs.Vectors.{minus};
ghost use Rattle.lt_triang.specs.Kept.{dimension_of, IsOfSomeForm};
ghost use Rattle.lt_locate.specs.Collected.{Gathers, IsEdgeTo, IsEdgeBelow, IsEdgeOfFirst};
ghost use Rattle.lt_locate.specs.Edges.{AreEdges};

use lt_lattice::Point;
use lt_model::Memory;
use lt_triang::{Class, Triangulation};
use std::alloc::Global;

/// The difference of the vertices at two places.
fn edge(class: &Class, from: usize, to: usize) -> Point
    requires from { from < length class.now }
    requires to { to < length class.now }
    ensures { result ≡ minus (get_or class.now to []) (get_or class.now from []) }
{
    let _dimension = class.dimension();
    match class.vertex(to).minus(class.vertex(from)) {
        Some(difference) => difference,
        None => unreachable!(),
    }
}

/// Appends the differences of the vertex at place `to` and those before it.
fn push_edges_to(all: &mut Vec<Point>, class: &Class, to: usize) -> Result<(), Memory>
    requires { to < length class.now }
    ensures { IfOk result (λ _. Gathers (IsEdgeTo class.now to to) all.old.items all.new.items) }
{
    for from in 0..to {
        all.push(edge(class, from, to))?;
    }
    Ok(())
}

/// Appends the differences of each vertex and those before it.
fn push_edges_of(all: &mut Vec<Point>, class: &Class) -> Result<(), Memory>
    ensures { IfOk result (λ _. Gathers (IsEdgeBelow class.now (length class.now)) all.old.items all.new.items) }
{
    for to in 0..class.vertices().len() {
        push_edges_to(all, class, to)?;
    }
    Ok(())
}

/// The points in ascending order, each once.
fn sorted_distinct(given: Vec<Point>) -> Vec<Point>
    ensures ascending { IsStrictlySortedBy number_list_cmp result.items }
    ensures members { (x : List ℤ) → Contains result.items x ↔ Contains given.items x }
{
    let mut points = given;
    points.sort_unstable();
    points.dedup();
    points
}

/// The edges of the Delaunay triangulation of some form, in ascending order, each once: the differences of two vertices of one
/// member whose first coordinate that isn't 0 is positive.
pub fn edges(alloc: Global, t: &Triangulation) -> Result<Vec<Point>, Memory>
    requires { IsOfSomeForm t.now }
    ensures { IfOk result (λ es. AreEdges (dimension_of t.now) t.now es.items) }
{
    let mut all = Vec::new(alloc);
    for class in 0..t.len() {
        push_edges_of(&mut all, t.class(class))?;
    }
    // It shows that the vertices of each class ascend.
    let _dimension = t.dimension();
    Ok(sorted_distinct(all))
}
