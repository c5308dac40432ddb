//! Two atlases to one.

ghost use Rattle.std.specs.Prelude.{◌≡◌, ◌<◌, ◌≤◌, length, [], IfOk, IfErr};
ghost use Rattle.lt_model.specs.Atlases.{entry_at};
ghost use Rattle.lt_model.specs.Logs.{IsUnlikeAll, IsNoCross};
ghost use Rattle.lt_core.specs.Marks.{mark_of};
ghost use Rattle.lt_merge.specs.Merged.{IsMergedTo, IsMerged};
ghost use Rattle.lt_merge.specs.Refusals.{IsMarkBefore, IsRefusal};

use crate::turns::{image_in, take_over_entry};
use lt_core::{Atlas, Mark};
use lt_crew::first_known;
use lt_model::Memory;
use std::alloc::Global;

/// Why two atlases were not merged.
#[derive(Drop)]
pub enum MergeError {
    /// An entry of the second is like no entry that is there at its turn: it lies behind a facet whose triangulation was too wide or too
    /// heavy.
    Stuck {
        /// The number of the entry.
        entry: u32,
        /// The mark at the image of the facet across which it was found, which is wide or heavy.
        mark: Mark,
        /// The first atlas with all that comes before that entry in the second.
        atlas: Atlas,
    },
    /// Memory was refused.
    Memory,
}

impl From<Memory> for MergeError {
    ghost use Rattle.std.specs.Prelude.{◌≡◌};
    ghost use Rattle.lt_merge.specs.declared.merging.MergeError.TheVariants as variant;

    ghost from_gives = { λ _ e. e ≡ variant.Memory };

    fn from(_refused: Memory) -> MergeError {
        MergeError::Memory
    }
}

/// The mark at the image of the facet across which entry `k` of `second` was found, which is like no entry of `atlas`.
fn mark_before(alloc: Global, atlas: &Atlas, second: &Atlas, k: u32) -> Result<Mark, Memory>
    requires same { atlas.now.dimension ≡ second.now.dimension }
    requires entry { k < length second.now.entries }
    requires merged { (s : Atlas) × IsMergedTo s second.now (k, 0) atlas.now }
    requires unlike { IsUnlikeAll atlas.now.dimension (entry_at second.now.entries k).triangulation atlas.now.entries }
    ensures mark { IfOk result (λ m. IsMarkBefore second.now k atlas.now (mark_of m)) }
    ensures no_cross { IfOk result (λ m. IsNoCross (mark_of m)) }
{
    second.keeps();
    let (parent, facet) = match second.entry(k).origin {
        Some(origin) => origin,
        None => unreachable!(),
    };
    match first_known(alloc, atlas, &second.entry(parent).triangulation)? {
        Some((place, u)) => {
            let image = image_in(atlas, second, parent, facet, place, &u);
            Ok(atlas.mark(place, image).copy())
        }
        None => unreachable!(),
    }
}

/// The first atlas with all that the second has found. It takes the entries of `second` in order. Each is matched with the entries that are
/// there, in ascending order; the first onto which a matrix carries it, by the first such matrix, is its place. Then the image of each of
/// its crossed facets, in their order, is settled where it is open (`lt_crew::settle`). Both atlases have the same dimension and at most
/// 100,001 entries each, and the log of the first is empty. Stuck where an entry has no place. With Memory `first` is given up.
pub fn merge(alloc: Global, first: Atlas, second: &Atlas) -> Result<Atlas, MergeError>
    requires same { first.dimension ≡ second.now.dimension }
    requires unrun { first.log ≡ [] }
    requires few { length first.entries ≤ 100001 }
    requires few_too { length second.now.entries ≤ 100001 }
    ensures merged { IfOk result (λ a. IsMerged first second.now a) }
    ensures refused { IfErr result (λ e. IsRefusal first second.now e) }
{
    first.keeps();
    second.keeps();
    let mut atlas = first;
    for k in 0..second.entries() {
        match first_known(alloc, &atlas, &second.entry(k).triangulation)? {
            Some((place, u)) => take_over_entry(alloc, &mut atlas, second, k, place, &u)?,
            None => {
                let mark = mark_before(alloc, &atlas, second, k)?;
                return Err(MergeError::Stuck {
                    entry: k,
                    mark,
                    atlas,
                });
            }
        }
    }
    Ok(atlas)
}
