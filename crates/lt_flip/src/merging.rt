//! Two ascending lists of classes, merged into one.

ghost use Rattle.std.specs.Prelude.{◌<◌, ◌+◌, List, [], ◌∷◌, ◌++◌, length, get_or, IfOk};
ghost use Rattle.std.specs.List.{All};
ghost use Rattle.std.specs.List.Sorted.{IsStrictlySortedBy};
ghost use Rattle.lt_model.specs.Order.{simplex_cmp};
ghost use Rattle.lt_flip.specs.Merged.{classes_at, AreMergedBelow, AreMerged};

use lt_model::Memory;
use lt_triang::{Class, Triangulation};
use std::alloc::Global;
use std::cmp::Ordering;

/// Appends the kept classes, from the one at place `from` on, that come before the made class at place `next`. The place of the first
/// kept one that comes after it: one that is equal to it is passed over.
fn push_below(
    all: &mut Vec<Class>,
    t: &Triangulation,
    kept: &[usize],
    made: &[Class],
    from: usize,
    next: usize,
) -> Result<usize, Memory>
    requires places { All (λ k. k < length t.now) kept.now }
    requires kept { IsStrictlySortedBy simplex_cmp (classes_at t.now kept.now) }
    requires made { IsStrictlySortedBy simplex_cmp made.now }
    requires next { next < length made.now }
    requires from { AreMergedBelow (classes_at t.now kept.now) made.now from next all.old.items }
    ensures { IfOk result (λ to. AreMergedBelow (classes_at t.now kept.now) made.now to (next + 1)
        (all.new.items ++ get_or made.now next [] ∷ [])) }
{
    for place in from..kept.len() {
        let class = t.class(kept[place]);
        match class.vertices().cmp(made[next].vertices()) {
            Ordering::Less => all.push(class.copy())?,
            Ordering::Equal => return Ok(place + 1),
            Ordering::Greater => return Ok(place),
        }
    }
    Ok(kept.len())
}

/// The classes of `t` at the kept places and the made ones, in ascending order and each once. Both lists ascend.
pub fn merged(
    alloc: Global,
    t: &Triangulation,
    kept: &[usize],
    made: &[Class],
) -> Result<Vec<Class>, Memory>
    requires places { All (λ k. k < length t.now) kept.now }
    requires kept { IsStrictlySortedBy simplex_cmp (classes_at t.now kept.now) }
    requires made { IsStrictlySortedBy simplex_cmp made.now }
    ensures { IfOk result (λ all. AreMerged (classes_at t.now kept.now) made.now all.items) }
{
    let mut all = Vec::with_capacity(alloc, kept.len() + made.len())?;
    let mut from = 0;
    for next in 0..made.len() {
        from = push_below(&mut all, t, kept, made, from, next)?;
        all.push(made[next].copy())?;
    }
    for place in from..kept.len() {
        all.push(t.class(kept[place]).copy())?;
    }
    Ok(all)
}
