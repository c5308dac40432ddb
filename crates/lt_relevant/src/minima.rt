//! The least value of a form at integer points other than 0, and where it is reached.

ghost use Rattle.std.specs.Prelude.{◌≡◌, ◌<◌, ◌^◌, ℤ, List, length, filter, IfOk};
ghost use Rattle.std.specs.Ordering.{int_eq};
ghost use Rattle.std.specs.List.{All, Contains};
ghost use Rattle.lt_model.specs.Forms.{numbers_of_form};
ghost use Rattle.lt_model.specs.Forms as form;
ghost use Rattle.lt_model.specs.Triangulations.{IsDelaunay};
ghost use Rattle.lt_lattice.specs.Ranges.{IsWithin};
ghost use Rattle.lt_triang.specs.Kept.{dimension_of};
ghost use Rattle.lt_laws.specs.Edges.{IsEdge};
ghost use Rattle.lt_relevant.specs.Shortest.{IsLeastOf, IsShortest};

use crate::answers::Shortest;
use lt_lattice::{Form, Point, value};
use lt_locate::edges;
use lt_model::Memory;
use lt_triang::Triangulation;
use std::alloc::Global;

/// The least value of the form at the points.
fn least_value(q: &Form, points: &[Point]) -> i128
    requires some { 0 < length points.now }
    requires same { All (λ x. length q.now ≡ numbers_of_form (length x)) points.now }
    requires within { All (IsWithin (2 ^ 40)) q.now }
    ensures { IsLeastOf q.now points.now (length points.now) result }
{
    let mut least = value(q, &points[0]);
    for k in 1..points.len() {
        least = least.min(value(q, &points[k]));
    }
    least
}

/// The points at which the form has the value, in order.
fn those_at(alloc: Global, q: &Form, points: &[Point], least: i128) -> Result<Vec<Point>, Memory>
    requires same { All (λ x. length q.now ≡ numbers_of_form (length x)) points.now }
    requires within { All (IsWithin (2 ^ 40)) q.now }
    ensures { IfOk result (λ vs. vs.items ≡ filter (λ x. int_eq (form.value q.now x) least) points.now) }
{
    let mut vectors = Vec::new(alloc);
    for x in points {
        if value(q, x) == least {
            vectors.push(x.copy())?;
        }
    }
    Ok(vectors)
}

/// The least value of the form at integer points other than 0, and the points with this value, one of each pair of opposite ones, in
/// ascending order. They are edges of the Delaunay triangulation of the form. The numbers of the form are at most 2^40 in absolute value.
pub fn shortest(alloc: Global, q: &Form, t: &Triangulation) -> Result<Shortest, Memory>
    requires delaunay { IsDelaunay (dimension_of t.now) q.now t.now }
    requires within { All (IsWithin (2 ^ 40)) q.now }
    ensures shortest { IfOk result (λ s. IsShortest (dimension_of t.now) q.now s.least s.vectors.items) }
    ensures edges { IfOk result (λ s. (x : List ℤ) → Contains s.vectors.items x → IsEdge (dimension_of t.now) t.now x) }
{
    let points = edges(alloc, t)?;
    // It shows that the dimension is 2 at least, so that there are edges.
    let _dimension = t.dimension();
    let least = least_value(q, points.as_slice());
    let vectors = those_at(alloc, q, points.as_slice(), least)?;
    Ok(Shortest { least, vectors })
}
