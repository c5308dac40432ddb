//! The section of a secondary cone.

ghost use Rattle.std.specs.Prelude.{◌≡◌, ◌<◌, ◌≤◌, [], length, get_or, IfOk, IfErr};
ghost use Rattle.std.specs.List.{All};
ghost use Rattle.lt_model.specs.Forms.{numbers_of_form};
ghost use Rattle.lt_model.specs.Limits.{weight_limit};
ghost use Rattle.lt_model.specs.Triangulations.{IsDelaunay};
ghost use Rattle.lt_lattice.specs.Ranges.{IsWithin};
ghost use Rattle.lt_triang.specs.Kept.{dimension_of};
ghost use Rattle.lt_section.specs.Normals.{HasLightRegulators, AreSectionNormals, filled_weight, IsHeavySection};
ghost use Rattle.lt_section.specs.Rows.{normals_of, AreRightRows};

use crate::answers::{Section, SectionError};
use crate::restricting::section_normals;
use crate::verdicts::rows_of;
use lt_lattice::Form;
use lt_locate::edges;
use lt_tableau::weight;
use lt_triang::Triangulation;
use std::alloc::Global;

/// The secondary cone of a triangulation, cut by the linear space of some forms, of which the first has this triangulation. There
/// are 1 to d (d + 1) / 2 forms, which may be dependent, with numbers of at most 4096 in absolute value, and the weight of the
/// triangulation is below 2^112.
///
/// A row for each restricted normal, in ascending order: the values of a regulator at the forms, one for each form, over their
/// greatest common divisor. A wall of a normal is a list of numbers, one for each form, at which it is 0 and each other one is
/// positive; a normal with a wall is a facet. It is live where the forms at its walls are positive definite, and dead where one
/// point makes all of them 0. Heavy exactly where the weight of the restricted normals, filled up with zeros to
/// d (d + 1) / 2 numbers, is at least 2^112; it names this weight.
pub fn section(alloc: Global, t: &Triangulation, forms: &[Form]) -> Result<Section, SectionError>
    requires some { 0 < length forms.now }
    requires few { length forms.now ≤ numbers_of_form (dimension_of t.now) }
    requires same { All (λ q. length q ≡ numbers_of_form (dimension_of t.now)) forms.now }
    requires within { All (All (IsWithin 4096)) forms.now }
    requires delaunay { IsDelaunay (dimension_of t.now) (get_or forms.now 0 []) t.now }
    requires light { HasLightRegulators (dimension_of t.now) t.now }
    ensures normals { IfOk result (λ s. AreSectionNormals (dimension_of t.now) t.now forms.now
        (normals_of s.rows.items)) }
    ensures verdicts { IfOk result (λ s. AreRightRows (dimension_of t.now) t.now forms.now s.rows.items) }
    ensures light { IfOk result (λ s. filled_weight (dimension_of t.now) (normals_of s.rows.items) < weight_limit) }
    ensures heavy { IfErr result (λ e. IsHeavySection (dimension_of t.now) t.now forms.now e) }
{
    let normals = section_normals(alloc, t, forms)?;
    let weight = weight(normals.as_slice());
    if weight >= 1 << 112 {
        return Err(SectionError::Heavy { weight });
    }
    let points = edges(alloc, t)?;
    let rows = rows_of(alloc, normals.as_slice(), forms, points.as_slice())?;
    Ok(Section { rows })
}
