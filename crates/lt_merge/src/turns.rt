//! The turn of one entry: the images of its crossed facets are settled.

ghost use Rattle.std.specs.Prelude.{◌≡◌, ◌<◌, ◌≤◌, ◌+◌, ℕ, ℤ, List, length, IsTrue, ◌↔◌, IfOk, OnOk};
ghost use Rattle.lt_model.specs.Atlases.{begin, cross, entry_at, facet_at, facets};
ghost use Rattle.lt_core.specs.Marks.{mark_of, matrix_rows};
ghost use Rattle.lt_merge.specs.Images.{IsImage, IsPlaced, IsCrossedAt};
ghost use Rattle.lt_merge.specs.Merged.{IsMergedTo};

use crate::images::image_facet;
use crate::places::position_of;
use lt_core::{Atlas, Mark};
use lt_crew::settle;
use lt_lattice::Matrix;
use lt_model::Memory;
use std::alloc::Global;

/// Whether the mark is a crossing.
fn is_cross(mark: &Mark) -> bool
    ensures { IsTrue result ↔ ((k : ℕ) × (u : List (List ℤ)) × (mark_of mark.now ≡ cross k u)) }
{
    match mark {
        Mark::Open => false,
        Mark::Cross { .. } => true,
        Mark::Wide { .. } => false,
        Mark::Heavy { .. } => false,
    }
}

/// The image in `atlas` of facet `facet` of entry `k` of `second`, which the matrix carries onto the entry with the number `place`.
pub fn image_in(atlas: &Atlas, second: &Atlas, k: u32, facet: u32, place: u32, u: &Matrix) -> u32
    requires same { atlas.now.dimension ≡ second.now.dimension }
    requires entry { k < length second.now.entries }
    requires facet { facet < length (facets (entry_at second.now.entries k)) }
    requires placed { IsPlaced second.now k atlas.now place (matrix_rows u.now) }
    ensures { IsImage atlas.now place (matrix_rows u.now) (facet_at second.now.entries (k, facet)) result }
{
    second.keeps();
    let row = second.entry(k).cone.facet(facet as usize);
    image_facet(atlas, place, u, &row.normal)
}

/// Settles the image of a crossed facet of `second`, where it is open.
fn take_over(
    alloc: Global,
    atlas: &mut Atlas,
    second: &Atlas,
    k: u32,
    facet: u32,
    place: u32,
    u: &Matrix,
) -> Result<(), Memory>
    requires same { atlas.old.dimension ≡ second.now.dimension }
    requires few { length (begin atlas.old).entries ≤ 100001 }
    requires few_too { length second.now.entries ≤ 100001 }
    requires merged { IsMergedTo (begin atlas.old) second.now (k, facet) atlas.old }
    requires crossed { IsCrossedAt second.now (k, facet) }
    requires placed { IsPlaced second.now k atlas.old place (matrix_rows u.now) }
    ensures merged { OnOk result (IsMergedTo (begin atlas.old) second.now (k, facet + 1) atlas.new) }
    ensures placed { OnOk result (IsPlaced second.now k atlas.new place (matrix_rows u.now)) }
{
    second.keeps();
    atlas.keeps();
    let image = image_in(atlas, second, k, facet, place, u);
    if atlas.mark(place, image).is_open() {
        let position = position_of(atlas, place, image);
        settle(alloc, atlas, position)?;
        atlas.keeps();
    }
    Ok(())
}

/// Settles the images of the crossed facets of entry `k` of `second`, in their order, where they are open. The matrix carries that entry
/// onto the one with the number `place`.
pub fn take_over_entry(
    alloc: Global,
    atlas: &mut Atlas,
    second: &Atlas,
    k: u32,
    place: u32,
    u: &Matrix,
) -> Result<(), Memory>
    requires same { atlas.old.dimension ≡ second.now.dimension }
    requires few { length (begin atlas.old).entries ≤ 100001 }
    requires few_too { length second.now.entries ≤ 100001 }
    requires entry { k < length second.now.entries }
    requires merged { IsMergedTo (begin atlas.old) second.now (k, 0) atlas.old }
    requires placed { IsPlaced second.now k atlas.old place (matrix_rows u.now) }
    ensures { OnOk result (IsMergedTo (begin atlas.old) second.now (k + 1, 0) atlas.new) }
{
    second.keeps();
    for facet in 0..second.facets(k) as u32 {
        if is_cross(second.mark(k, facet)) {
            take_over(alloc, atlas, second, k, facet, place, u)?;
        }
    }
    Ok(())
}
