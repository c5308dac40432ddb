//! The flip of a triangulation at a facet.

ghost use Rattle.std.specs.Prelude.{◌≡◌, ◌<◌, ◌≤◌, ◌-◌, suc, ℕ, ℤ, pos, List, [], length, get_or, IfOk, MatchOption, ◌↔◌};
ghost use Rattle.lt_model.specs.Limits.{span, span_limit, class_span};
ghost use Rattle.lt_model.specs.Simplices.{IsClass};
ghost use Rattle.lt_model.specs.Walls.{IsFacet, IsAcross};
ghost use Rattle.lt_model.specs.Flips.{IsFlipOf};
ghost use Rattle.lt_triang.specs.Kept.{IsTriangulation, dimension_of, IsOfSomeForm};
ghost use Rattle.lt_flip.specs.Flipped.{AreParts, IsFirstWide, IsWideFlip};
ghost use Rattle.lt_flip.specs.declared.flips.FlipError.TheVariants.{Wide};

use crate::exchanges::push_exchanged;
use crate::merging::merged;
use crate::outers::outer_of;
use lt_lattice::Normal;
use lt_model::{Memory, span_limit};
use lt_triang::{Class, Triangulation, sorted_distinct};
use std::alloc::Global;

/// Why no triangulation across a facet is answered.
#[derive(Drop)]
pub enum FlipError {
    /// The span of the triangulation across is above the limit.
    Wide {
        /// The first of its classes whose span is above the limit.
        class: Class,
        /// The span of that class.
        span: i64,
    },
    /// Memory was refused.
    Memory,
}

impl From<Memory> for FlipError {
    ghost use Rattle.std.specs.Prelude.{◌≡◌};
    ghost use Rattle.lt_flip.specs.declared.flips.FlipError.TheVariants as variant;

    ghost from_gives = { λ _ e. e ≡ variant.Memory };

    fn from(_refused: Memory) -> FlipError {
        FlipError::Memory
    }
}

/// Appends what the flip makes of the class at place `class`: its place to those that are kept where none of its facets has the
/// regulator, and else the classes that the flip puts in to those that are made.
fn push_flipped(
    kept: &mut Vec<usize>,
    made: &mut Vec<Class>,
    t: &Triangulation,
    facet: &Normal,
    class: usize,
) -> Result<(), Memory>
    requires delaunay { IsOfSomeForm t.now }
    requires facet { IsFacet (dimension_of t.now) t.now facet.now }
    requires class { class < length t.now }
    requires from { AreParts (dimension_of t.now) t.now facet.now class kept.old.items made.old.items }
    ensures { IfOk result (λ _. AreParts (dimension_of t.now) t.now facet.now (suc class)
        kept.new.items made.new.items) }
{
    let d = usize::from(t.dimension());
    match outer_of(t, class, facet) {
        Some(outer) => {
            let simplex = t.class(class);
            push_exchanged(
                made,
                d,
                simplex.vertices(),
                &outer.vertex,
                &outer.expression,
            )
        }
        None => match kept.push(class) {
            Ok(()) => Ok(()),
            Err(_) => Err(Memory),
        },
    }
}

/// The classes of the flip, in ascending order. Only the few that are made are sorted, since the kept ones are.
fn flipped(alloc: Global, t: &Triangulation, facet: &Normal) -> Result<Vec<Class>, Memory>
    requires low { 2 ≤ dimension_of t.now }
    requires delaunay { IsOfSomeForm t.now }
    requires facet { IsFacet (dimension_of t.now) t.now facet.now }
    ensures { IfOk result (λ all. IsFlipOf (dimension_of t.now) t.now facet.now all.items) }
{
    let mut kept = Vec::new(alloc);
    let mut made = Vec::new(alloc);
    for class in 0..t.len() {
        push_flipped(&mut kept, &mut made, t, facet, class)?;
    }
    let made = sorted_distinct(made);
    merged(alloc, t, kept.as_slice(), made.as_slice())
}

/// The place of the first class whose span is above the limit.
fn first_wide(d: u8, classes: &[Class]) -> Option<usize>
    ensures { MatchOption result ((i : ℕ) → i < length classes.now →
        class_span (get_or classes.now i []) ≤ span_limit d) (λ i. IsFirstWide d classes.now i) }
{
    let limit = span_limit(d);
    for i in 0..classes.len() {
        if classes[i].is_wider(limit) {
            return Some(i);
        }
    }
    None
}

/// What is said of the first class whose span is above the limit.
fn wide(class: &Class) -> FlipError
    ensures { result ≡ Wide class.now (pos (class_span class.now)) }
{
    FlipError::Wide {
        class: class.copy(),
        span: class.span(),
    }
}

/// The classes of the triangulation across a facet of the secondary cone of `t`, in ascending order: what `flip` answers, without its
/// table of neighbours, for a caller that looks at classes alone. It takes a fraction of the time. `t` is the Delaunay triangulation of
/// some form, and `facet` is a facet of it. Wide exactly where the span of the triangulation across is above the limit.
pub fn flipped_classes(
    alloc: Global,
    t: &Triangulation,
    facet: &Normal,
) -> Result<Vec<Class>, FlipError>
    requires delaunay { IsOfSomeForm t.now }
    requires facet { IsFacet (dimension_of t.now) t.now facet.now }
    ensures triangulation { IfOk result (λ r. IsTriangulation (dimension_of t.now) r.items) }
    ensures flip { IfOk result (λ r. IsFlipOf (dimension_of t.now) t.now facet.now r.items) }
    ensures across { IfOk result (λ r. IsAcross (dimension_of t.now) t.now facet.now r.items) }
    ensures delaunay { IfOk result (λ r. IsOfSomeForm r.items) }
    ensures wide { (class : List (List ℤ)) (wide : ℤ) → result ≡ Err (Wide class wide) →
        IsWideFlip (dimension_of t.now) t.now facet.now class wide }
{
    let d = t.dimension();
    let classes = flipped(alloc, t, facet)?;
    match first_wide(d, classes.as_slice()) {
        Some(i) => Err(wide(&classes[i])),
        None => Ok(classes),
    }
}

/// The triangulation across a facet of the secondary cone of `t`: the members that stand in a cell of the facet's regulator are
/// exchanged for the other simplices of that cell. `t` is the Delaunay triangulation of some form, and `facet` is a facet of it.
/// Wide exactly where the span of the triangulation across is above the limit. Voronoi 1908; Schürmann, chapter 4 ("bistellar
/// operations").
pub fn flip(alloc: Global, t: &Triangulation, facet: &Normal) -> Result<Triangulation, FlipError>
    requires delaunay { IsOfSomeForm t.now }
    requires facet { IsFacet (dimension_of t.now) t.now facet.now }
    ensures flip { IfOk result (λ r. IsFlipOf (dimension_of t.now) t.now facet.now r) }
    ensures across { IfOk result (λ r. IsAcross (dimension_of t.now) t.now facet.now r) }
    ensures delaunay { IfOk result (λ r. IsOfSomeForm r) }
    ensures dimension { IfOk result (λ r. dimension_of r ≡ dimension_of t.now) }
    ensures narrow { IfOk result (λ r. span r ≤ span_limit (dimension_of t.now)) }
    ensures wide { (class : List (List ℤ)) (wide : ℤ) → result ≡ Err (Wide class wide) →
        IsWideFlip (dimension_of t.now) t.now facet.now class wide }
{
    let classes = flipped_classes(alloc, t, facet)?;
    let across = t.carried(classes)?;
    Ok(across)
}
