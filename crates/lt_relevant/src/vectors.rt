//! The relevant vectors of a triangulation.

ghost use Rattle.std.specs.Prelude.{◌≡◌, ◌^◌, suc, length, IfOk};
ghost use Rattle.lt_triang.specs.Kept.{dimension_of, IsOfSomeForm};
ghost use Rattle.lt_locate.specs.Edges.{AreEdges};
ghost use Rattle.lt_relevant.specs.Relevant.{AreRelevantOf};

use lt_lattice::Point;
use lt_locate::edges;
use lt_model::Memory;
use lt_triang::Triangulation;
use std::alloc::Global;

/// Voronoi's relevant vectors of the Delaunay triangulation of some form, one of each pair of opposite ones: its `2^d - 1` edges in
/// ascending order, each with `d` coordinates of which the first other than 0 is positive. For each form with this triangulation they
/// are the only shortest points of their parity classes.
pub fn relevant(alloc: Global, t: &Triangulation) -> Result<Vec<Point>, Memory>
    requires { IsOfSomeForm t.now }
    ensures edges { IfOk result (λ vs. AreEdges (dimension_of t.now) t.now vs.items) }
    ensures count { IfOk result (λ vs. suc (length vs.items) ≡ 2 ^ dimension_of t.now) }
    ensures relevant { IfOk result (λ vs. AreRelevantOf (dimension_of t.now) t.now vs.items) }
{
    edges(alloc, t)
}
