//! Whether a class lies across a facet of another one.

ghost use Rattle.std.specs.Prelude.{◌≡◌, ◌<◌, ◌≤◌, ◌^◌, suc, ℕ, [], length, get_or, IsTrue, IfSome, MatchOption, ◌↔◌};
ghost use Rattle.std.specs.List.{All};
ghost use Rattle.lt_model.specs.Limits.{span_limit};
ghost use Rattle.lt_model.specs.Vectors.{plus, minus};
ghost use Rattle.lt_model.specs.Facets.{without};
ghost use Rattle.lt_model.specs.Simplices.{IsClass, AllOfDimension, translate};
ghost use Rattle.lt_lattice.specs.Ranges.{IsWithin};
ghost use Rattle.lt_triang.specs.Bounds.{AreWithin, AreNear};
ghost use Rattle.lt_triang.specs.Across.{HasFacet, IsFacing, IsNotFacing};
ghost use Rattle.lt_triang.specs.Flat.{columns_of};
ghost use Rattle.lt_triang.specs.Indexed.{IsOuterIn};

use crate::classes::Class;
use crate::expressions::Expression;
use lt_lattice::Point;
use lt_solve::Columns;

/// Where a member lies across a facet: the member's place, the shift that moves it there, and the place of its vertex outside.
#[derive(Drop)]
pub struct Neighbour {
    /// The place of the member among the classes.
    pub class: usize,
    /// The point by which the member is moved.
    pub shift: Point,
    /// The place of the vertex that lies on the other side of the facet.
    pub vertex: usize,
}

impl Neighbour {
    /// The same neighbour.
    pub fn copy(&self) -> Neighbour
        ensures { result ≡ self.now }
    {
        Neighbour {
            class: self.class,
            shift: self.shift.copy(),
            vertex: self.vertex,
        }
    }
}

/// The vertex of a neighbour that lies outside a class.
#[derive(Drop)]
pub struct Outer {
    /// The vertex.
    pub vertex: Point,
    /// Its expression over the vertices of the class.
    pub expression: Expression,
}

impl Outer {
    /// The same vertex and expression.
    pub fn copy(&self) -> Outer
        ensures { result ≡ self.now }
    {
        Outer {
            vertex: self.vertex.copy(),
            expression: self.expression.copy(),
        }
    }
}

/// A neighbour with its vertex outside.
#[derive(Drop)]
pub struct Across {
    /// The neighbour.
    pub neighbour: Neighbour,
    /// Its vertex outside.
    pub outer: Outer,
}

/// The vertex at place `k` of facet `i`.
pub fn facet_vertex(s: &[Point], i: usize, k: usize) -> &Point
    requires high { length s.now ≤ 7 }
    requires place { suc k < length s.now }
    ensures { result.now ≡ get_or (without i s.now) k [] }
{
    if k < i { &s[k] } else { &s[k + 1] }
}

/// Whether the differences of two points and of two others are the same.
fn same_differences(a: &[i32], b: &[i32], c: &[i32], e: &[i32]) -> bool
    requires same { length b.now ≡ length a.now }
    requires same_too { length c.now ≡ length a.now }
    requires same_three { length e.now ≡ length a.now }
    requires first { All (IsWithin (2 ^ 20)) a.now }
    requires second { All (IsWithin (2 ^ 20)) b.now }
    requires third { All (IsWithin (2 ^ 20)) c.now }
    requires fourth { All (IsWithin (2 ^ 20)) e.now }
    ensures { IsTrue result ↔ (minus a.now b.now ≡ minus c.now e.now) }
{
    for k in 0..a.len() {
        if a[k] - b[k] != c[k] - e[k] {
            return false;
        }
    }
    true
}

/// Whether facet `i` of the one class is facet `j` of the other, moved.
fn are_parallel(d: usize, s: &[Point], i: usize, next: &[Point], j: usize) -> bool
    requires facet { HasFacet d s.now i }
    requires facet_too { HasFacet d next.now j }
    ensures { IsTrue result ↔ (translate (minus (get_or (without i s.now) 0 []) (get_or (without j next.now) 0 []))
        (without j next.now) ≡ without i s.now) }
{
    let to = facet_vertex(s, i, 0).coords();
    let start = facet_vertex(next, j, 0).coords();
    for k in 1..d {
        let mine = facet_vertex(s, i, k).coords();
        let theirs = facet_vertex(next, j, k).coords();
        if !same_differences(mine, to, theirs, start) {
            return false;
        }
    }
    true
}

/// The shift that takes the first vertex of facet `j` of the one class to that of facet `i` of the other.
pub fn shift_of(d: usize, s: &[Point], i: usize, next: &[Point], j: usize) -> Point
    requires facet { HasFacet d s.now i }
    requires facet_too { HasFacet d next.now j }
    requires near { AreWithin (span_limit d) s.now }
    requires near_too { AreWithin (span_limit d) next.now }
    ensures { result ≡ minus (get_or (without i s.now) 0 []) (get_or (without j next.now) 0 []) }
{
    match facet_vertex(s, i, 0).minus(facet_vertex(next, j, 0)) {
        Some(shift) => shift,
        None => unreachable!(),
    }
}

/// The vertex moved by the shift.
pub fn vertex_moved(next: &[Point], j: usize, by: &Point) -> Point
    requires place { j < length next.now }
    requires dimension { AllOfDimension (length by.now) next.now }
    requires within { All (IsWithin (2 ^ 20)) (plus (get_or next.now j []) by.now) }
    ensures { result ≡ plus (get_or next.now j []) by.now }
{
    match next[j].plus(by) {
        Some(moved) => moved,
        None => unreachable!(),
    }
}

/// The shift by which the class `next` lies across facet `i` of the class `s`, with its vertex `j` outside, and that vertex. `columns` are
/// those of the class `s`.
// Not inlined: locals of an inlined function are set to zero as its caller begins, and these are large and rarely needed.
#[inline(never)]
pub fn facing(
    d: usize,
    s: &Class,
    columns: &Columns,
    i: usize,
    next: &[Point],
    j: usize,
) -> Option<(Point, Outer)>
    requires columns { columns.now ≡ columns_of s.now }
    requires low { 2 ≤ d }
    requires high { d ≤ 6 }
    requires class { IsClass d s.now }
    requires class_too { IsClass d next.now }
    requires place { i < suc d }
    requires place_too { j < suc d }
    requires near { AreNear (span_limit d) s.now }
    requires near_too { AreNear (span_limit d) next.now }
    ensures facing { MatchOption result (IsNotFacing d s.now i next.now j) (λ r. IsFacing d s.now i next.now r.0 j) }
    ensures outer { IfSome result
        (λ r. IsOuterIn s.now next.now r.0 j r.1.vertex r.1.expression.scale r.1.expression.coefficients) }
{
    let points = s.vertices();
    if !are_parallel(d, points, i, next, j) {
        return None;
    }
    let shift = shift_of(d, points, i, next, j);
    let vertex = vertex_moved(next, j, &shift);
    let expression = s.expression_by(columns, &vertex);
    if expression.coefficients[i] < 0 {
        Some((shift, Outer { vertex, expression }))
    } else {
        None
    }
}

/// The member at a place.
pub fn class_at(classes: &[Class], n: usize) -> &Class
    requires { n < length classes.now }
    ensures { result.now ≡ get_or classes.now n [] }
{
    &classes[n]
}

/// The vertices of the member at a place.
pub fn member(classes: &[Class], n: usize) -> &[Point]
    requires { n < length classes.now }
    ensures { result.now ≡ get_or classes.now n [] }
{
    classes[n].vertices()
}
