//! One crossing by a worker: the flip, the known types, the recording.

ghost use Rattle.std.specs.Prelude.{◌≡◌, ◌<◌, ◌+◌, false, true};
ghost use Rattle.std.specs.Result.{IfOk};
ghost use Rattle.std.specs.Option.{IfSome};
ghost use Rattle.lt_model.specs.Cones.{IsRightCone};
ghost use Rattle.lt_cone.specs.Errors.{IsHeavyCone};
ghost use Rattle.lt_cone.specs.declared.error.ConeError.TheVariants.{Heavy};
ghost use Rattle.lt_match.specs.Matches.{IsFirstMatch};
ghost use Rattle.lt_triang.specs.Kept.{dimension_of, IsOfSomeForm};
ghost use Rattle.lt_core.specs.Marks.{matrix_rows};
ghost use Rattle.std.specs.Arc.{arc_value};
ghost use Rattle.lt_crew.specs.Tasks.{IsTask, IsBeyond, IsTest};

use crate::desk::{Answer, Refused, Task, Test};
use crate::gate::Gate;
use crate::room::{Order, Room};
use lt_colour::fingerprint;
use lt_cone::{ConeError, cone};
use lt_flip::{FlipError, flip};
use lt_lattice::Matrix;
use lt_lp::Cone;
use lt_match::match_types;
use lt_model::Memory;
use lt_triang::Triangulation;
use std::alloc::Global;
use std::sync::ledger::{Ledger, Share};
use std::sync::{Arc, Wait};

/// How a crossing ended.
#[derive(Drop)]
pub enum Crossed {
    /// The position has its mark.
    Recorded,
    /// What the worker used has changed, and it begins anew.
    Anew,
}

/// How a crossing ends with this answer.
fn crossing_end(answer: Answer) -> Result<Crossed, Memory> {
    match answer {
        Answer::Done => Ok(Crossed::Recorded),
        Answer::Already => Ok(Crossed::Recorded),
        Answer::Again => Ok(Crossed::Anew),
        Answer::Changed => Ok(Crossed::Anew),
        Answer::Memory => Err(Memory),
    }
}

/// The next entry onto which a matrix carries the triangulation, with a copy and the first such matrix; None where there is none up to
/// the number that is then tested.
fn seek<L: Ledger, R: Wait>(
    rt: &R,
    alloc: Global,
    room: &Room<L>,
    beyond: &Triangulation,
    test: &mut Test,
) -> Result<Option<(u32, Arc<Triangulation, Global>, Matrix)>, Memory>
    requires delaunay { IsOfSomeForm beyond.now }
    requires test { IsTest beyond.now test.old }
    ensures kept { IsTest beyond.now test.new }
    ensures found { IfOk result (λ r. IfSome r (λ x. IsFirstMatch (dimension_of beyond.now) beyond.now (arc_value x.1)
        (matrix_rows x.2))) }
{
    let mut from = test.tested;
    'seeks: for _ in rt.forever() {
        let (next, entries) = room.next_known(rt, test.print.as_slice(), from)?;
        let (k, image) = match next {
            Some(known) => known,
            None => {
                test.tested = entries;
                return Ok(None);
            }
        };
        from = k + 1;
        if image.dimension() == beyond.dimension() {
            test.known.reserve(1)?;
            match match_types(alloc, beyond, &image)? {
                Some(matrix) => return Ok(Some((k, image, matrix))),
                None => test.known.push_reserved(image),
            }
        }
    }
    unreachable!()
}

/// A copy to be shared.
pub fn shared_copy(alloc: Global, t: &Triangulation) -> Result<Arc<Triangulation, Global>, Memory>
    ensures { IfOk result (λ s. arc_value s ≡ t.now) }
{
    Ok(Arc::new(alloc, t.try_copy()?)?)
}

/// Records the entry onto which what lies beyond a facet is carried, where there is one up to the number that is then tested.
fn record_known<L: Ledger, R: Wait>(
    rt: &R,
    alloc: Global,
    room: &Room<L>,
    position: u64,
    task: &Task,
    beyond: &Triangulation,
    test: &mut Test,
    share: &mut Share<L>,
) -> Result<Option<Crossed>, Memory>
    requires part { 0 < share.old.parts }
    requires beyond { IsBeyond task.now beyond.now }
    requires test { IsTest beyond.now test.old }
    ensures kept { IsTest beyond.now test.new }
    ensures parts { share.new.parts ≡ share.old.parts }
{
    match seek(rt, alloc, room, beyond, test)? {
        None => Ok(None),
        Some((k, image, matrix)) => Ok(Some(crossing_end(room.cross(
            rt, position, task, k, &image, matrix, share,
        ))?)),
    }
}

/// Records what lies beyond a facet, and is like no entry that was compared with it, as a new entry, or as the entry that came in between.
/// The cone is made once, however many entries come.
fn record_new<L: Ledger, R: Wait>(
    rt: &R,
    alloc: Global,
    room: &Room<L>,
    position: u64,
    task: &Task,
    beyond: Triangulation,
    cone: Cone,
    test: &mut Test,
    share: &mut Share<L>,
) -> Result<Crossed, Memory>
    requires part { 0 < share.old.parts }
    requires beyond { IsBeyond task.now beyond }
    requires cone { IsRightCone (dimension_of beyond) beyond cone }
    requires tested { IsTest beyond test.old }
    ensures { share.new.parts ≡ share.old.parts }
{
    let mut beyond = beyond;
    let mut cone = cone;
    'tests: for _ in rt.forever() {
        let copy = shared_copy(alloc, &beyond)?;
        match room.grow(rt, position, task, beyond, copy, cone, test, share) {
            Ok(()) => return Ok(Crossed::Recorded),
            Err(
                Refused {
                    answer: Answer::Again,
                    beyond: back,
                    cone: same,
                },
            ) => {
                beyond = back;
                cone = same;
            }
            Err(refused) => return crossing_end(refused.answer),
        }
        match record_known(rt, alloc, room, position, task, &beyond, test, share)? {
            Some(crossed) => return Ok(crossed),
            None => {}
        }
    }
    unreachable!()
}

/// Records that what lies beyond a facet, and is like no entry that was compared with it, is too heavy, or the entry that came in between.
fn record_heavy<L: Ledger, R: Wait>(
    rt: &R,
    alloc: Global,
    room: &Room<L>,
    position: u64,
    task: &Task,
    beyond: &Triangulation,
    weight: i128,
    test: &mut Test,
    share: &mut Share<L>,
) -> Result<Crossed, Memory>
    requires part { 0 < share.old.parts }
    requires beyond { IsBeyond task.now beyond.now }
    requires heavy { IsHeavyCone (dimension_of beyond.now) beyond.now (Heavy weight) }
    requires tested { IsTest beyond.now test.old }
    ensures { share.new.parts ≡ share.old.parts }
{
    'tests: for _ in rt.forever() {
        match room.weigh(rt, position, task, beyond, weight, test, share) {
            Answer::Again => {}
            answer => return crossing_end(answer),
        }
        match record_known(rt, alloc, room, position, task, beyond, test, share)? {
            Some(crossed) => return Ok(crossed),
            None => {}
        }
    }
    unreachable!()
}

/// Records what lies beyond a facet: the entry onto which it is carried, or itself.
fn record<L: Ledger, R: Wait>(
    rt: &R,
    alloc: Global,
    room: &Room<L>,
    position: u64,
    task: &Task,
    beyond: Triangulation,
    share: &mut Share<L>,
) -> Result<Crossed, Memory>
    requires part { 0 < share.old.parts }
    requires beyond { IsBeyond task.now beyond }
    ensures { share.new.parts ≡ share.old.parts }
{
    let mut test = Test {
        print: fingerprint(alloc, &beyond)?,
        known: Vec::new(alloc),
        tested: 0,
    };
    match record_known(rt, alloc, room, position, task, &beyond, &mut test, share)? {
        Some(crossed) => return Ok(crossed),
        None => {}
    }
    match cone(alloc, &beyond) {
        Ok(cone) => record_new(
            rt, alloc, room, position, task, beyond, cone, &mut test, share,
        ),
        Err(ConeError::Heavy { weight }) => record_heavy(
            rt, alloc, room, position, task, &beyond, weight, &mut test, share,
        ),
        Err(ConeError::Memory) => Err(Memory),
    }
}

/// Crosses the facet of a task, and records what lies beyond.
fn crossing<L: Ledger, R: Wait, G: Gate>(
    rt: &R,
    alloc: Global,
    room: &Room<L>,
    gate: &G,
    worker: u32,
    position: u64,
    task: &Task,
    passed: bool,
    share: &mut Share<L>,
) -> Result<Crossed, Memory>
    requires part { 0 < share.old.parts }
    requires task { IsTask task.now }
    ensures { share.new.parts ≡ share.old.parts }
{
    match flip(alloc, &task.home, &task.normal) {
        Ok(beyond) => {
            if !passed {
                gate.pass(worker, position);
            }
            record(rt, alloc, room, position, task, beyond, share)
        }
        Err(FlipError::Wide { class, span }) => {
            if !passed {
                gate.pass(worker, position);
            }
            crossing_end(room.widen(rt, position, task, class, span, share))
        }
        Err(FlipError::Memory) => Err(Memory),
    }
}

/// Serves one position. False where the worker has nothing left to do.
pub fn serve<L: Ledger, R: Wait, G: Gate>(
    rt: &R,
    alloc: Global,
    room: &Room<L>,
    gate: &G,
    worker: u32,
    position: u64,
    share: &mut Share<L>,
) -> bool
    requires { 0 < share.old.parts }
    ensures { share.new.parts ≡ share.old.parts }
{
    let mut passed = false;
    'tries: for _ in rt.forever() {
        let task = match room.order(rt, position) {
            Order::Over => return false,
            Order::Cross { task } => task,
            Order::Memory => {
                room.note_memory(rt);
                return false;
            }
        };
        match crossing(
            rt, alloc, room, gate, worker, position, &task, passed, share,
        ) {
            Ok(Crossed::Recorded) => return true,
            Ok(Crossed::Anew) => passed = true,
            Err(_) => {
                room.note_memory(rt);
                return false;
            }
        }
    }
    unreachable!()
}
