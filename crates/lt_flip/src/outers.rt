//! The vertex that lies beyond the facets of a member with a given regulator.

ghost use Rattle.std.specs.Prelude.{◌≡◌, ◌<◌, ◌*◌, suc, ℕ, ◌∷◌, [], length, get_or, MatchOption};
ghost use Rattle.lt_model.specs.Limits.{span_limit};
ghost use Rattle.lt_triang.specs.Bounds.{AreNear};
ghost use Rattle.lt_triang.specs.Kept.{dimension_of, IsOfSomeForm};
ghost use Rattle.lt_geometry.specs.Regulators.{IsRegulatorAt};
ghost use Rattle.lt_flip.specs.Outers.{HasNoFacet, IsOuterOf};

use lt_lattice::{Normal, Point};
use lt_regulator::has_regulator;
use lt_triang::{Expression, Triangulation};

/// A vertex beyond a facet of a class, and its expression over the class.
#[derive(Drop)]
pub struct Outer {
    /// The vertex.
    pub vertex: Point,
    /// Its expression over the vertices of the class.
    pub expression: Expression,
}

/// The first facet of the class at place `class` with this regulator.
fn first_facet(t: &Triangulation, class: usize, normal: &Normal) -> Option<usize>
    requires delaunay { IsOfSomeForm t.now }
    requires class { class < length t.now }
    ensures { MatchOption result (HasNoFacet (dimension_of t.now) t.now (get_or t.now class []) normal.now)
        (λ i. (i < suc (dimension_of t.now)) ×
        IsRegulatorAt (dimension_of t.now) t.now (get_or t.now class []) i normal.now) }
{
    for facet in 0..usize::from(t.dimension()) + 1 {
        if has_regulator(t, class, facet, normal) {
            return Some(facet);
        }
    }
    None
}

/// The vertex beyond the facets of the class at place `class` with this regulator, which is the same for all of them, or None
/// where it has no such facet.
pub fn outer_of(t: &Triangulation, class: usize, normal: &Normal) -> Option<Outer>
    requires delaunay { IsOfSomeForm t.now }
    requires class { class < length t.now }
    ensures { MatchOption result (HasNoFacet (dimension_of t.now) t.now (get_or t.now class []) normal.now)
        (λ o. IsOuterOf (dimension_of t.now) t.now
        (get_or t.now class []) normal.now o.vertex o.expression.scale o.expression.coefficients) }
{
    // It shows that the members lie near one another.
    let _dimension = t.dimension();
    match first_facet(t, class, normal) {
        Some(facet) => {
            let outer = t.outer(class, facet);
            Some(Outer {
                vertex: outer.vertex,
                expression: outer.expression,
            })
        }
        None => None,
    }
}
