//! The greatest circumradius.

ghost use Rattle.std.specs.Prelude.{◌≡◌, ◌<◌, ◌^◌, ◌≤ℤ◌, ℤ, pos, List, length, get_or, [], IfOk, IfErr};
ghost use Rattle.std.specs.List.{All};
ghost use Rattle.lt_model.specs.Forms.{numbers_of_form};
ghost use Rattle.lt_model.specs.Limits.{span_limit};
ghost use Rattle.lt_model.specs.Triangulations.{IsDelaunay};
ghost use Rattle.lt_lattice.specs.Ranges.{IsWithin};
ghost use Rattle.lt_num.specs.Fractions.{IsReduced};
ghost use Rattle.lt_triang.specs.Kept.{dimension_of};
ghost use Rattle.lt_cover.specs.Covers.{IsCover, IsRadius, AreShort};
ghost use Rattle.lt_cover.specs.Long.{IsLong, IsLongAt, AreShortAt};

use crate::answers::{Cover, CoverError};
use crate::radii::radius_of;
use lt_lattice::{Form, Point, value};
use lt_locate::edges;
use lt_num::Fraction;
use lt_triang::{Triangulation, span_limit};
use std::alloc::Global;
use std::cmp::Ordering;

/// Finds the first of the points with a value above the span limit.
fn check_lengths(d: u8, q: &Form, points: &[Point]) -> Result<(), CoverError>
    requires same { All (λ x. length q.now ≡ numbers_of_form (length x)) points.now }
    requires within { All (IsWithin (2 ^ 40)) q.now }
    ensures short { IfOk result (λ _. AreShortAt d q.now points.now (length points.now)) }
    ensures long { IfErr result (λ e. IsLongAt d q.now points.now e) }
{
    let limit = i128::from(span_limit(d));
    for k in 0..points.len() {
        let length = value(q, &points[k]);
        if length > limit {
            return Err(CoverError::LongEdge {
                x: points[k].copy(),
                length,
            });
        }
    }
    Ok(())
}

/// The squared circumradius of the member at place `k`.
fn radius_at(q: &Form, t: &Triangulation, k: usize) -> Fraction
    requires delaunay { IsDelaunay (dimension_of t.now) q.now t.now }
    requires within { All (IsWithin (2 ^ 40)) q.now }
    requires short { AreShort (dimension_of t.now) q.now t.now }
    requires place { k < length t.now }
    ensures radius { IsRadius (dimension_of t.now) q.now (get_or t.now k []) result }
    ensures lowest { IsReduced result }
{
    let class = t.class(k);
    // It shows how near the vertices are to one another.
    let _dimension = class.dimension();
    radius_of(q, class)
}

/// The first member with the greatest squared circumradius.
fn greatest(q: &Form, t: &Triangulation) -> Cover
    requires delaunay { IsDelaunay (dimension_of t.now) q.now t.now }
    requires within { All (IsWithin (2 ^ 40)) q.now }
    requires short { AreShort (dimension_of t.now) q.now t.now }
    ensures cover { IsCover (dimension_of t.now) q.now t.now result.radius result.class }
    ensures lowest { IsReduced result.radius }
{
    let mut best = Cover {
        radius: radius_at(q, t, 0),
        class: 0,
    };
    for class in 1..t.len() {
        let radius = radius_at(q, t, class);
        match best.radius.cmp(&radius) {
            Ordering::Less => best = Cover { radius, class },
            _ => {}
        }
    }
    best
}

/// The squared covering radius of a form: the greatest squared circumradius of a member of its Delaunay triangulation, and the first
/// member that has it. LongEdge exactly where some edge has a value above the span limit, which names the first one with its value.
/// The numbers of the form are at most 2^40 in absolute value.
pub fn cover(alloc: Global, q: &Form, t: &Triangulation) -> Result<Cover, CoverError>
    requires delaunay { IsDelaunay (dimension_of t.now) q.now t.now }
    requires within { All (IsWithin (2 ^ 40)) q.now }
    ensures short { IfOk result (λ _. AreShort (dimension_of t.now) q.now t.now) }
    ensures cover { IfOk result (λ c. IsCover (dimension_of t.now) q.now t.now c.radius c.class) }
    ensures lowest { IfOk result (λ c. IsReduced c.radius) }
    ensures long { IfErr result (λ e. IsLong (dimension_of t.now) q.now t.now e) }
{
    let points = edges(alloc, t)?;
    check_lengths(t.dimension(), q, points.as_slice())?;
    Ok(greatest(q, t))
}
