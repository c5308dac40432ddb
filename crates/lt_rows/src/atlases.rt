//! Atlases: recordings, the making from parts, and one settled position.

ghost use Rattle.std.specs.Prelude.{◌≡◌, ◌<◌, ◌≤◌, length};
ghost use Rattle.lt_model.specs.Cones.{IsRightCone};
ghost use Rattle.lt_model.specs.Matrices.{AreEquivalent};
ghost use Rattle.lt_model.specs.Atlases.{entry_at};
ghost use Rattle.lt_triang.specs.Kept.{dimension_of};
ghost use Rattle.lt_crew.specs.Settled.{LiesAcross, IsNarrow};

use crate::cones::cone_of;
use lt_cone::cone;
use lt_core::{Atlas, Back, Entry, Mark, Why};
use lt_crew::settle;
use lt_flip::flip;
use lt_lattice::Matrix;
use lt_lp::Cone;
use lt_match::match_types;
use lt_model::Memory;
use lt_principal::principal;
use lt_triang::Triangulation;
use std::alloc::Global;
use std::process::Abort;
use std::test::Fail;

/// The atlas that a run starts from.
fn starting(rt: &impl Abort, alloc: Global, d: u8) -> Atlas
    requires low { 2 ≤ d }
    requires high { d ≤ 6 }
    ensures one { length result.entries ≡ 1 }
    ensures queued { 0 < length result.queue }
{
    match Atlas::start(alloc, d) {
        Ok(atlas) => {
            if atlas.entries() != 1 || atlas.queued() == 0 {
                assert!(rt; false);
                unreachable!()
            }
            atlas
        }
        Err(_) => {
            assert!(rt; false);
            unreachable!()
        }
    }
}

/// The triangulation across the facet at the first position of the queue.
fn first_across(rt: &impl Abort, alloc: Global, atlas: &Atlas) -> Triangulation
    requires { 0 < length atlas.now.queue }
    ensures across { LiesAcross atlas.now 0 result }
    ensures narrow { IsNarrow atlas.now.dimension result }
{
    atlas.keeps();
    let (k, facet) = atlas.place(0);
    let entry = atlas.entry(k);
    let row = entry.cone.facet(facet as usize);
    match flip(alloc, &entry.triangulation, &row.normal) {
        Ok(across) => across,
        Err(_) => {
            assert!(rt; false);
            unreachable!()
        }
    }
}

/// The mark of the first facet of the first entry.
fn first_mark(rt: &impl Abort, atlas: &Atlas) -> Mark {
    atlas.keeps();
    if atlas.facets(0) == 0 {
        assert!(rt; false);
        unreachable!()
    }
    atlas.mark(0, 0).copy()
}

/// The parts, which an atlas of one entry hands back, since it has an entry with which they weren't compared.
fn untested(rt: &impl Abort, atlas: &mut Atlas, t: Triangulation, c: Cone) -> (Triangulation, Cone)
    requires one { length atlas.old.entries ≡ 1 }
    requires queued { 0 < length atlas.old.queue }
    requires across { LiesAcross atlas.old 0 t }
    requires narrow { IsNarrow atlas.old.dimension t }
    requires right { IsRightCone (dimension_of t) t c }
    ensures unchanged { atlas.new ≡ atlas.old }
    ensures triangulation { result.0 ≡ t }
    ensures cone { result.1 ≡ c }
{
    match atlas.record_new(0, 0, t, c) {
        Err(
            Back {
                why: Why::Again { entries },
                triangulation,
                cone,
            },
        ) => {
            assert_eq!(rt; entries, 1);
            (triangulation, cone)
        }
        _ => {
            assert!(rt; false);
            unreachable!()
        }
    }
}

/// Shows that no matrix carries a triangulation onto the first entry.
fn unlike_first(rt: &impl Abort, alloc: Global, atlas: &Atlas, t: &Triangulation)
    requires one { length atlas.now.entries ≡ 1 }
    requires narrow { IsNarrow atlas.now.dimension t.now }
    ensures { AreEquivalent atlas.now.dimension t.now (entry_at atlas.now.entries 0).triangulation → ⊥ }
{
    atlas.keeps();
    match match_types(alloc, t, &atlas.entry(0).triangulation) {
        Ok(None) => {}
        _ => {
            assert!(rt; false);
            unreachable!()
        }
    }
}

/// Records the parts as entry 1.
fn enter(rt: &impl Abort, alloc: Global, atlas: &mut Atlas, t: Triangulation, c: Cone)
    requires one { length atlas.old.entries ≡ 1 }
    requires queued { 0 < length atlas.old.queue }
    requires across { LiesAcross atlas.old 0 t }
    requires narrow { IsNarrow atlas.old.dimension t }
    requires right { IsRightCone (dimension_of t) t c }
{
    unlike_first(rt, alloc, atlas, &t);
    match atlas.record_new(0, 1, t, c) {
        Ok(number) => assert_eq!(rt; number, 1),
        Err(_) => assert!(rt; false),
    }
}

/// Whether nothing was recorded since this mark stands.
fn stands_already(why: &Why, mark: &Mark) -> bool {
    match why {
        Why::Already { mark: found } => found.is_same(mark),
        Why::Again { .. } => false,
        Why::Memory => false,
    }
}

/// Shows that the first facet of the queue, which leads to entry 1 by the identity, isn't recorded once more.
fn refused(rt: &impl Abort, atlas: &mut Atlas, t: Triangulation, c: Cone) {
    if atlas.queued() == 0 || atlas.entries() != 2 || atlas.standing(0).is_open() {
        assert!(rt; false);
        unreachable!()
    }
    let identity = Mark::Cross {
        target: 1,
        matrix: Matrix::identity(4),
    };
    match atlas.record_new(0, 1, t, c) {
        Ok(_) => assert!(rt; false),
        Err(back) => assert!(rt; stands_already(&back.why, &identity)),
    }
}

#[test]
fn a_type_is_entered_once(rt: HostRuntime) -> Result<(), Fail> {
    let mut atlas = starting(&rt, rt.alloc(), 4);
    let begun = atlas.try_copy()?;
    let t = first_across(&rt, rt.alloc(), &atlas);
    let c = cone_of(&rt, rt.alloc(), &t);
    let again = first_across(&rt, rt.alloc(), &atlas);
    assert!(rt; again == t);
    let (t, c) = untested(&rt, &mut atlas, t, c);
    assert_eq!(rt; atlas.entries(), 1);
    assert_eq!(rt; atlas.events(), 0);
    assert!(rt; first_mark(&rt, &atlas).is_open());
    assert!(rt; atlas.begins_with(&begun));
    assert!(rt; begun.begins_with(&atlas));
    enter(&rt, rt.alloc(), &mut atlas, t, c);
    assert_eq!(rt; atlas.entries(), 2);
    assert_eq!(rt; atlas.events(), 1);
    let cone_again = cone_of(&rt, rt.alloc(), &again);
    refused(&rt, &mut atlas, again, cone_again);
    assert!(rt; atlas.begins_with(&begun));
    let after = atlas.try_copy()?;
    assert!(rt; !atlas.begins_with(&after));
    Ok(())
}

/// The starting atlas of dimension 2, made of its parts.
fn made_of_parts(rt: &impl Abort, alloc: Global) -> Result<Atlas, Memory> {
    let Ok(triangulation) = principal(alloc, 2) else {
        return Err(Memory);
    };
    let Ok(cone) = cone(alloc, &triangulation) else {
        return Err(Memory);
    };
    if cone.facets() != 3 {
        assert!(rt; false);
        unreachable!()
    }
    let mut row = Vec::new(alloc);
    row.push(Mark::Open)?;
    row.push(Mark::Open)?;
    row.push(Mark::Open)?;
    let mut entries = Vec::new(alloc);
    entries.push(Entry {
        triangulation,
        cone,
        origin: None,
    })?;
    let mut marks = Vec::new(alloc);
    marks.push(row)?;
    Atlas::of(alloc, 2, entries, marks)
}

#[test]
fn an_atlas_is_made_of_its_parts(rt: HostRuntime) -> Result<(), Fail> {
    let atlas = made_of_parts(&rt, rt.alloc())?;
    assert_eq!(rt; atlas.entries(), 1);
    assert_eq!(rt; atlas.queued(), 3);
    assert_eq!(rt; atlas.undecided(), 3);
    assert_eq!(rt; atlas.stuck(), 0);
    assert_eq!(rt; atlas.events(), 0);
    Ok(())
}

#[test]
fn a_position_is_settled(rt: HostRuntime) {
    let mut atlas = starting(&rt, rt.alloc(), 2);
    if !atlas.standing(0).is_open() {
        assert!(rt; false);
        unreachable!()
    }
    assert!(rt; settle(rt.alloc(), &mut atlas, 0).is_ok());
    assert_eq!(rt; atlas.events(), 1);
    assert_eq!(rt; atlas.entries(), 1);
    let cross = Mark::Cross {
        target: 0,
        matrix: Matrix::of(2, &[1, 0, 1, 1]),
    };
    assert!(rt; first_mark(&rt, &atlas).is_same(&cross));
}
