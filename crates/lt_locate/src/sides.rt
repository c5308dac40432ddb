//! On which side of the facets of a triangulation a form lies.

ghost use Rattle.std.specs.Prelude.{◌≡◌, ◌<◌, ◌^◌, ◌<ℤ◌, pos, ℕ, ℤ, List, [], length, get_or, IfOk, IfErr, MatchOption};
ghost use Rattle.std.specs.List.{All};
ghost use Rattle.lt_model.specs.Forms.{numbers_of_form};
ghost use Rattle.lt_model.specs.Forms as form;
ghost use Rattle.lt_lattice.specs.Ranges.{IsWithin};
ghost use Rattle.lt_triang.specs.Kept.{dimension_of, IsOfSomeForm};
ghost use Rattle.lt_locate.specs.Sides.{IsFirstPoint, IsSide, IsOff};

use crate::edge_lists::edges;
use crate::facing::{Sign, first_facet};
use lt_lattice::{Form, Normal, Point, value};
use lt_model::Memory;
use lt_regulator::regulators;
use lt_tableau::weight;
use lt_triang::Triangulation;
use std::alloc::Global;

/// A form within the cone of a triangulation, or beyond a facet of it.
#[derive(Drop)]
pub enum Side {
    /// Each facet is positive at the form.
    Inside,
    /// The first facet that is negative there.
    Beyond(Normal),
}

/// Why a form lies on no side, or why none is computed.
#[derive(Drop)]
pub enum Off {
    /// The first edge at which the form isn't positive.
    NotPositive {
        /// The edge.
        x: Point,
    },
    /// The weight of the regulators is at least 2^112.
    Heavy {
        /// The weight.
        weight: i128,
    },
    /// No facet is negative at the form, and some are 0 there.
    OnWall {
        /// The first of these.
        facet: Normal,
    },
    /// Memory was refused.
    Memory,
}

impl From<Memory> for Off {
    ghost use Rattle.std.specs.Prelude.{◌≡◌};
    ghost use Rattle.lt_locate.specs.declared.sides.Off.TheVariants as variant;

    ghost from_gives = { λ _ e. e ≡ variant.Memory };

    fn from(_refused: Memory) -> Off {
        Off::Memory
    }
}

/// The first of the points at which the form isn't positive.
fn first_not_positive(q: &Form, points: &[Point]) -> Option<Point>
    requires same { All (λ x. length q.now ≡ numbers_of_form (length x)) points.now }
    requires within { All (IsWithin (2 ^ 40)) q.now }
    ensures { MatchOption result ((k : ℕ) → k < length points.now → pos 0 <ℤ form.value q.now (get_or points.now k []))
        (λ x. IsFirstPoint q.now points.now x) }
{
    for k in 0..points.len() {
        if value(q, &points[k]) <= 0 {
            return Some(points[k].copy());
        }
    }
    None
}

/// Where the form lies as seen from the Delaunay triangulation of some form: beyond its first negative facet, or inside, or why it is
/// neither. The edges come first, then the weight, then the facets.
pub fn side_of(alloc: Global, t: &Triangulation, q: &Form) -> Result<Side, Off>
    requires delaunay { IsOfSomeForm t.now }
    requires same { length q.now ≡ numbers_of_form (dimension_of t.now) }
    requires within { All (IsWithin (2 ^ 40)) q.now }
    ensures side { IfOk result (λ s. IsSide (dimension_of t.now) t.now q.now s) }
    ensures off { IfErr result (λ e. IsOff (dimension_of t.now) t.now q.now e) }
{
    let points = edges(alloc, t)?;
    match first_not_positive(q, points.as_slice()) {
        Some(x) => return Err(Off::NotPositive { x }),
        None => {}
    }
    let normals = regulators(alloc, t)?;
    let weight = weight(normals.as_slice());
    if weight >= 1 << 112 {
        return Err(Off::Heavy { weight });
    }
    match first_facet(alloc, normals.as_slice(), q, Sign::Negative)? {
        Some(facet) => return Ok(Side::Beyond(facet)),
        None => {}
    }
    match first_facet(alloc, normals.as_slice(), q, Sign::Zero)? {
        Some(facet) => Err(Off::OnWall { facet }),
        None => Ok(Side::Inside),
    }
}
