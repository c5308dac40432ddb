//! The restricted normals of a triangulation, filled up with zeros to normals of forms.

ghost use Rattle.std.specs.Prelude.{◌≡◌, ◌<◌, ◌≤◌, ◌^◌, ◌<ℤ◌, ◌↔◌, ℤ, pos, List, [], length, get_or, IfOk};
ghost use Rattle.std.specs.List.{All, Contains};
ghost use Rattle.std.specs.List.Sorted.{IsStrictlySortedBy};
ghost use Rattle.lt_model.specs.Order.{number_list_cmp};
ghost use Rattle.lt_model.specs.Vectors.{dot};
ghost use Rattle.lt_model.specs.Forms.{numbers_of_form};
ghost use Rattle.lt_model.specs.Triangulations.{IsDelaunay};
ghost use Rattle.lt_lattice.specs.Ranges.{IsWithin, IsBelow};
ghost use Rattle.lt_triang.specs.Kept.{dimension_of};
ghost use Rattle.lt_laws.specs.Sections.{restricted};
ghost use Rattle.lt_section.specs.Filled.{filled, IsFilledOf, AreFilledOf, AreFilledNormals};
ghost use Rattle.lt_section.specs.Normals.{HasLightRegulators};

use arrayvec::ArrayVec;
use lt_lattice::{Form, Normal, pair};
use lt_model::Memory;
use lt_num::primitive;
use lt_regulator::regulators;
use lt_triang::Triangulation;
use std::alloc::Global;

/// The values of the normal at the forms.
fn values(normal: &Normal, forms: &[Form]) -> ArrayVec<i128, 21>
    requires short { length normal.now ≤ 21 }
    requires few { length forms.now ≤ 21 }
    requires same { All (λ q. length normal.now ≡ length q) forms.now }
    requires small { All (IsBelow (2 ^ 56)) normal.now }
    requires within { All (All (IsWithin 4096)) forms.now }
    ensures value { result.items ≡ restricted forms.now normal.now }
    ensures below { All (IsBelow (2 ^ 80)) result.items }
{
    let mut all: ArrayVec<i128, 21> = ArrayVec::new();
    for form in forms {
        all.push(pair(normal, form));
    }
    all
}

/// The normal of forms in `d` variables with `count` numbers: these, and then zeros.
fn filled_up(d: u8, count: usize, numbers: &[i128]) -> Normal
    requires low { 2 ≤ d }
    requires high { d ≤ 6 }
    requires count { count ≡ numbers_of_form d }
    requires few { length numbers.now ≤ count }
    requires below { All (IsBelow (2 ^ 80)) numbers.now }
    ensures { result ≡ filled count numbers.now }
{
    let mut all: ArrayVec<i128, 21> = ArrayVec::new();
    for number in numbers {
        all.push(*number);
    }
    for _ in numbers.len()..count {
        all.push(0);
    }
    Normal::of(d, all.as_slice())
}

/// The restricted normal of a regulator that is positive at the first form, filled up.
fn restricted_normal(regulator: &Normal, forms: &[Form]) -> Normal
    requires some { 0 < length forms.now }
    requires few { length forms.now ≤ length regulator.now }
    requires same { All (λ q. length regulator.now ≡ length q) forms.now }
    requires small { All (IsBelow (2 ^ 56)) regulator.now }
    requires within { All (All (IsWithin 4096)) forms.now }
    requires positive { pos 0 <ℤ dot regulator.now (get_or forms.now 0 []) }
    ensures { IsFilledOf forms.now regulator.now result }
{
    let count = regulator.numbers().len();
    let mut numbers = values(regulator, forms);
    match primitive(numbers.as_mut_slice()) {
        Ok(_) => filled_up(regulator.dimension(), count, numbers.as_slice()),
        Err(_) => unreachable!(),
    }
}

/// The restricted normals of regulators that are positive at the first form, filled up, in the order of the regulators.
fn restricted_normals(
    alloc: Global,
    regulators: &[Normal],
    forms: &[Form],
) -> Result<Vec<Normal>, Memory>
    requires some { 0 < length forms.now }
    requires few { All (λ n. length forms.now ≤ length n) regulators.now }
    requires same { All (λ n. All (λ q. length n ≡ length q) forms.now) regulators.now }
    requires small { All (All (IsBelow (2 ^ 56))) regulators.now }
    requires within { All (All (IsWithin 4096)) forms.now }
    requires positive { All (λ n. pos 0 <ℤ dot n (get_or forms.now 0 [])) regulators.now }
    ensures { IfOk result (λ all. AreFilledOf forms.now regulators.now all.items (length regulators.now)) }
{
    let mut all = Vec::new(alloc);
    for k in 0..regulators.len() {
        all.push(restricted_normal(&regulators[k], forms))?;
    }
    Ok(all)
}

/// The normals in ascending order, each once.
fn sorted_distinct(given: Vec<Normal>) -> Vec<Normal>
    ensures ascending { IsStrictlySortedBy number_list_cmp result.items }
    ensures members { (n : List ℤ) → Contains result.items n ↔ Contains given.items n }
{
    let mut normals = given;
    normals.sort_unstable();
    normals.dedup();
    normals
}

/// The restricted normals of the triangulation of the first form, filled up, each once and in ascending order.
pub fn section_normals(
    alloc: Global,
    t: &Triangulation,
    forms: &[Form],
) -> Result<Vec<Normal>, Memory>
    requires some { 0 < length forms.now }
    requires few { length forms.now ≤ numbers_of_form (dimension_of t.now) }
    requires same { All (λ q. length q ≡ numbers_of_form (dimension_of t.now)) forms.now }
    requires within { All (All (IsWithin 4096)) forms.now }
    requires delaunay { IsDelaunay (dimension_of t.now) (get_or forms.now 0 []) t.now }
    requires light { HasLightRegulators (dimension_of t.now) t.now }
    ensures { IfOk result (λ ns. AreFilledNormals (dimension_of t.now) t.now forms.now ns.items) }
{
    let regulators = regulators(alloc, t)?;
    let all = restricted_normals(alloc, regulators.as_slice(), forms)?;
    Ok(sorted_distinct(all))
}
