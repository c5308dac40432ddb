//! The regulator of two members that share a facet, and the list of all.

ghost use Rattle.std.specs.Prelude.{◌≡◌, ◌<◌, ◌≤◌, ◌^◌, suc, ℕ, ℤ, List, [], length, get_or, IfOk, IsTrue, false, ◌↔◌};
ghost use Rattle.std.specs.List.{All, Contains};
ghost use Rattle.std.specs.List.Sorted.{IsStrictlySortedBy};
ghost use Rattle.lt_model.specs.Order.{number_list_cmp};
ghost use Rattle.lt_model.specs.Walls.{AreRegulators};
ghost use Rattle.lt_lattice.specs.Ranges.{IsBelow};
ghost use Rattle.lt_triang.specs.Kept.{dimension_of, IsOfSomeForm};
ghost use Rattle.lt_geometry.specs.Regulators.{IsRegulatorAt};
ghost use Rattle.lt_regulator.specs.Regulated.{IsOuterExcess, HasRegulatorsBelow};

use crate::excess::{excess_of, signs_agree};
use arrayvec::ArrayVec;
use lt_lattice::Normal;
use lt_model::Memory;
use lt_num::primitive;
use lt_triang::Triangulation;
use std::alloc::Global;

/// The numbers of the excess of the outer vertex at the facet, as a function of the form.
fn outer_excess(t: &Triangulation, class: usize, facet: usize) -> ArrayVec<i128, 21>
    requires delaunay { IsOfSomeForm t.now }
    requires class { class < length t.now }
    requires facet { facet < length (get_or t.now class []) }
    ensures value { IsOuterExcess (dimension_of t.now) t.now (get_or t.now class []) facet result.items }
    ensures below { All (IsBelow (2 ^ 80)) result.items }
{
    let dimension = usize::from(t.dimension());
    let simplex = t.class(class);
    let vertex = t.outer_vertex(class, facet);
    let numbers = t.outer_numbers(class, facet);
    excess_of(dimension, simplex.vertices(), &vertex, numbers.as_slice())
}

/// The regulator of the class at place `class` and its neighbour at facet `facet`: `d (d + 1) / 2` numbers in the order of a
/// form's numbers, with greatest common divisor 1. It is a positive multiple of the excess of the neighbour's outer vertex over
/// the class, as a function of the form. The triangulation is the Delaunay triangulation of some form. Voronoi 1908; Schürmann,
/// chapter 4.
pub fn regulator(t: &Triangulation, class: usize, facet: usize) -> Normal
    requires delaunay { IsOfSomeForm t.now }
    requires class { class < length t.now }
    requires facet { facet < length (get_or t.now class []) }
    ensures { IsRegulatorAt (dimension_of t.now) t.now (get_or t.now class []) facet result }
{
    let dimension = t.dimension();
    let mut numbers = outer_excess(t, class, facet);
    match primitive(numbers.as_mut_slice()) {
        Ok(_) => Normal::of(dimension, numbers.as_slice()),
        Err(_) => unreachable!(),
    }
}

/// Whether the signs of the excess of the outer vertex at the facet don't tell that its regulator is another normal.
fn may_have(t: &Triangulation, class: usize, facet: usize, normal: &Normal) -> bool
    requires delaunay { IsOfSomeForm t.now }
    requires class { class < length t.now }
    requires facet { facet < length (get_or t.now class []) }
    ensures { result ≡ false → IsRegulatorAt (dimension_of t.now) t.now (get_or t.now class []) facet normal.now → ⊥ }
{
    let dimension = t.dimension();
    if normal.dimension() != dimension {
        return true;
    }
    let simplex = t.class(class);
    let vertex = t.outer_vertex(class, facet);
    let numbers = t.outer_numbers(class, facet);
    signs_agree(
        usize::from(dimension),
        simplex.vertices(),
        &vertex,
        numbers.as_slice(),
        normal.numbers(),
    )
}

/// Whether the normal is the regulator of the class at place `class` and its neighbour at facet `facet`. The triangulation is the
/// Delaunay triangulation of some form.
pub fn has_regulator(t: &Triangulation, class: usize, facet: usize, normal: &Normal) -> bool
    requires delaunay { IsOfSomeForm t.now }
    requires class { class < length t.now }
    requires facet { facet < length (get_or t.now class []) }
    ensures { IsTrue result ↔ IsRegulatorAt (dimension_of t.now) t.now (get_or t.now class []) facet normal.now }
{
    // It shows that each member has d + 1 facets.
    let _dimension = t.dimension();
    may_have(t, class, facet, normal) && regulator(t, class, facet) == *normal
}

/// Appends the regulators at the facets of the class at place `class`, but those that it shares with an earlier class: they are listed
/// there, since the regulator of a pair is the same from both sides.
fn push_regulators_of(all: &mut Vec<Normal>, t: &Triangulation, class: usize) -> Result<(), Memory>
    requires delaunay { IsOfSomeForm t.now }
    requires class { class < length t.now }
    requires from { HasRegulatorsBelow t.now class all.old.items }
    ensures { IfOk result (λ _. HasRegulatorsBelow t.now (suc class) all.new.items) }
{
    for facet in 0..usize::from(t.dimension()) + 1 {
        if t.neighbour(class, facet).class >= class {
            all.push(regulator(t, class, facet))?;
        }
    }
    Ok(())
}

/// The regulators at the facets of all classes, in the order of classes and facets, those of a pair of classes once.
fn regulators_of_facets(alloc: Global, t: &Triangulation) -> Result<Vec<Normal>, Memory>
    requires { IsOfSomeForm t.now }
    ensures { IfOk result (λ all. HasRegulatorsBelow t.now (length t.now) all.items) }
{
    let mut all = Vec::new(alloc);
    for class in 0..t.len() {
        push_regulators_of(&mut all, t, class)?;
    }
    Ok(all)
}

/// The normals in ascending order, each once.
fn sorted_distinct(given: Vec<Normal>) -> Vec<Normal>
    ensures ascending { IsStrictlySortedBy number_list_cmp result.items }
    ensures members { (n : List ℤ) → Contains result.items n ↔ Contains given.items n }
{
    let mut normals = given;
    normals.sort_unstable();
    normals.dedup();
    normals
}

/// The distinct regulators in ascending order. The triangulation is the Delaunay triangulation of some form.
pub fn regulators(alloc: Global, t: &Triangulation) -> Result<Vec<Normal>, Memory>
    requires { IsOfSomeForm t.now }
    ensures { IfOk result (λ ns. AreRegulators (dimension_of t.now) t.now ns.items) }
{
    let all = regulators_of_facets(alloc, t)?;
    Ok(sorted_distinct(all))
}
