//! The verdicts on restricted normals.

ghost use Rattle.std.specs.Prelude.{◌≡◌, ◌<◌, ◌≤◌, ◌^◌, ℕ, length, map, take, IfOk, MatchOption};
ghost use Rattle.std.specs.List.{All};
ghost use Rattle.lt_model.specs.Forms.{numbers_of_form};
ghost use Rattle.lt_model.specs.Cones.{AreBelow};
ghost use Rattle.lt_lattice.specs.Ranges.{IsWithin, IsBelow};
ghost use Rattle.lt_tableau.specs.Errors.{AreOfDimension};
ghost use Rattle.lt_section.specs.Rows.{normals_of};
ghost use Rattle.lt_section.specs.Decided.{IsInput, AreNotZeroAt, IsFirstZero, IsFacetVerdict, IsVerdictOn, AreVerdictsOn};

use crate::answers::{SectionRow, SectionVerdict};
use crate::walls::{form_at, front, lowered};
use lt_lattice::{Form, Normal, Point, value};
use lt_lp::{LpError, Verdict, decide};
use lt_model::Memory;
use std::alloc::Global;

/// The first of the points at which the form is 0.
fn first_zero(q: &Form, points: &[Point]) -> Option<Point>
    requires same { All (λ x. length q.now ≡ numbers_of_form (length x)) points.now }
    requires below { All (IsBelow (2 ^ 80)) q.now }
    ensures { MatchOption result (AreNotZeroAt q.now points.now (length points.now)) (IsFirstZero q.now points.now) }
{
    for k in 0..points.len() {
        if value(q, &points[k]) == 0 {
            return Some(points[k].copy());
        }
    }
    None
}

/// The verdict on a normal with this wall form: live, unless the form at the wall is 0 at one of the points.
fn facet(wall: &Form, forms: &[Form], points: &[Point]) -> SectionVerdict
    requires some { 0 < length forms.now }
    requires few { length forms.now ≤ length wall.now }
    requires same { All (λ q. length q ≡ length wall.now) forms.now }
    requires below { AreBelow (2 ^ 62) wall.now }
    requires within { All (All (IsWithin 4096)) forms.now }
    requires points { All (λ x. length wall.now ≡ numbers_of_form (length x)) points.now }
    ensures { IsFacetVerdict forms.now points.now wall.now result }
{
    let at = lowered(wall, forms.len());
    let form = form_at(wall.dimension(), at.as_slice(), forms);
    match first_zero(&form, points) {
        Some(x) => SectionVerdict::Dead { at, form, x },
        None => SectionVerdict::Live { at, form },
    }
}

/// The verdict on the k-th of the restricted normals, which are filled up.
fn verdict(
    alloc: Global,
    normals: &[Normal],
    k: usize,
    forms: &[Form],
    points: &[Point],
) -> Result<SectionVerdict, Memory>
    requires place { k < length normals.now }
    requires input { IsInput forms.now normals.now points.now }
    ensures { IfOk result (λ v. (d : ℕ) → AreOfDimension d normals.now → IsVerdictOn d forms.now normals.now points.now
        k v) }
{
    match decide(alloc, normals, k) {
        Ok(Verdict::Wall(wall)) => Ok(facet(&wall, forms, points)),
        Ok(Verdict::Combination { scale, terms }) => Ok(SectionVerdict::Combination {
            scale,
            terms,
        }),
        Err(LpError::Memory) => Err(Memory),
        Err(LpError::Heavy { weight: _ }) => unreachable!(),
    }
}

/// A row for each of the restricted normals, which are filled up.
pub fn rows_of(
    alloc: Global,
    normals: &[Normal],
    forms: &[Form],
    points: &[Point],
) -> Result<Vec<SectionRow>, Memory>
    requires { IsInput forms.now normals.now points.now }
    ensures normals { IfOk result (λ rows. normals_of rows.items ≡ map (take (length forms.now)) normals.now) }
    ensures verdicts { IfOk result (λ rows. AreVerdictsOn forms.now normals.now points.now rows.items) }
{
    let mut rows = Vec::new(alloc);
    for k in 0..normals.len() {
        let row = SectionRow {
            normal: front(normals[k].numbers(), forms.len()),
            verdict: verdict(alloc, normals, k, forms, points)?,
        };
        rows.push(row)?;
    }
    Ok(rows)
}
