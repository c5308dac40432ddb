//! Several workers.

ghost use Rattle.std.specs.Prelude.{◌≡◌, ◌<◌, ◌≤◌, ◌+◌, ◌*◌, map, length, false, true, []};
ghost use Rattle.std.specs.Result.{IfOk};
ghost use Rattle.lt_model.specs.Atlases.{begin};
ghost use Rattle.lt_model.specs.Limits.{most_steps};
ghost use Rattle.std.specs.Arc.{arc_value};
ghost use Rattle.std.specs.Thread.{IsSync};
ghost use Rattle.lt_claim.specs.Passes.{left_of, share_of, IsOf};
ghost use Rattle.lt_crew.specs.Shared.{triangulation_of};
ghost use Rattle.lt_crew.specs.Runs.{AreBelow, AreSettled, IsSettledBelow};

use crate::crossing::{serve, shared_copy};
use crate::desk::Desk;
use crate::gate::Gate;
use crate::rest::settle_rest;
use crate::room::Room;
use crate::running::{Ended, end_of, run_alone};
use lt_claim::{Claims, Pass};
use lt_core::Atlas;
use lt_model::Memory;
use lt_triang::Triangulation;
use std::alloc::Global;
use std::marker::Brand;
use std::sync::ledger::{Blank, Ledger, Share};
use std::sync::{Arc, Wait};
use std::thread::{Threads, join};

/// The triangulations of the entries, to be shared.
fn shared_copies(alloc: Global, atlas: &Atlas) -> Result<Vec<Arc<Triangulation, Global>>, Memory>
    ensures { IfOk result (λ v. map arc_value v.items ≡ map triangulation_of atlas.now.entries) }
{
    let mut all = Vec::new(alloc);
    for k in 0..atlas.entries() {
        let shared = shared_copy(alloc, &atlas.entry(k).triangulation)?;
        all.push(shared)?;
    }
    Ok(all)
}

/// What a worker gives back.
#[derive(Drop)]
struct Spent<L: Ledger> {
    pass: Pass,
    share: Share<L>,
}

/// One worker.
fn work<L: Ledger, R: Wait, G: Gate>(
    rt: &R,
    alloc: Global,
    room: &Room<L>,
    gate: &G,
    claims: &Claims,
    worker: u32,
    spent: Spent<L>,
) -> Spent<L>
    requires kin { IsOf claims.now spent.pass }
    requires part { 0 < spent.share.parts }
    ensures kin { IsOf claims.now result.pass }
    ensures draws { share_of result.pass ≡ share_of spent.pass }
    ensures parts { result.share.parts ≡ spent.share.parts }
{
    let Spent {
        mut pass,
        mut share,
    } = spent;
    'draws: while pass.left() > 0 {
        let position = claims.draw(&mut pass);
        if !serve(rt, alloc, room, gate, worker, position, &mut share) {
            break;
        }
    }
    Spent { pass, share }
}

/// So many workers. One that gets no thread is run here.
fn work_all<L: Ledger + Send + Sync, R: Threads + Wait + Sync, G: Gate>(
    rt: &R,
    alloc: Global,
    room: &Room<L>,
    gate: &G,
    claims: &Claims,
    workers: u32,
    each: u64,
    all: Spent<L>,
) -> Spent<L>
    requires kin { IsOf claims.now all.pass }
    requires some { 0 < workers }
    requires draws { left_of all.pass ≡ workers * each }
    requires parts { all.share.parts ≡ workers }
    requires none { all.share.amount ≡ 0 }
    ensures kin { IsOf claims.now result.pass }
    ensures draws { share_of result.pass ≡ share_of all.pass }
    ensures parts { result.share.parts ≡ all.share.parts }
{
    let Spent {
        mut pass,
        mut share,
    } = all;
    if workers == 1 {
        return work(rt, alloc, room, gate, claims, 0, Spent { pass, share });
    }
    let mine = match claims.split(&mut pass, each) {
        Ok(mine) => mine,
        Err(_) => return Spent { pass, share },
    };
    let one = Spent {
        pass: mine,
        share: share.split_off(1, 0),
    };
    let rest = Spent { pass, share };
    let fewer = workers - 1;
    let (mut done, others) = join(
        rt,
        || -> Spent<L>
            requires kin { IsOf claims.now one.pass }
            requires part { 0 < one.share.parts }
            ensures kin { IsOf claims.entry.now result.pass }
            ensures draws { share_of result.pass ≡ share_of one.pass }
            ensures parts { result.share.parts ≡ one.share.parts }
        { work(rt, alloc, room, gate, claims, fewer, one) },
        || -> Spent<L>
            requires shared { IsSync R.row × IsSync G.row × IsSync L.row }
            requires kin { IsOf claims.now rest.pass }
            requires some { 0 < fewer }
            requires draws { left_of rest.pass ≡ fewer * each }
            requires parts { rest.share.parts ≡ fewer }
            requires none { rest.share.amount ≡ 0 }
            ensures kin { IsOf claims.entry.now result.pass }
            ensures draws { share_of result.pass ≡ share_of rest.pass }
            ensures parts { result.share.parts ≡ rest.share.parts }
        { work_all(rt, alloc, room, gate, claims, fewer, each, rest) },
    );
    let Spent { pass, share } = others;
    claims.join(&mut done.pass, pass);
    done.share.merge(share);
    done
}

/// What is left to do when the workers have ended. Nothing is known of the desk but what its type says.
fn finish<L: Ledger>(
    alloc: Global,
    copy: Atlas,
    steps: u64,
    desk: Desk<L>,
    share: Share<L>,
    claims: u64,
) -> Ended
    requires unrun { copy.log ≡ [] }
    requires few { length copy.entries ≤ 100001 }
    requires steps { steps ≤ most_steps }
    ensures begins { begin result.atlas ≡ copy }
    ensures done { result.done ≡ length result.atlas.log }
    ensures below { AreBelow steps result.atlas.log }
    ensures events { AreSettled result.atlas }
    ensures settled { result.memory ≡ false → IsSettledBelow steps result.atlas }
{
    let mut share = share;
    let (atlas, limit, memory) = desk.open(&mut share);
    if limit != steps || !atlas.begins_with(&copy) {
        return run_alone(alloc, copy, steps);
    }
    if memory {
        return end_of(atlas, claims, true);
    }
    settle_rest(alloc, atlas, steps, claims)
}

/// Runs the workers, and settles what is left. It works in the ledger that the blank opens.
fn run_in<L: Ledger + Send + Sync, R: Threads + Wait + Sync, G: Gate>(
    rt: &R,
    alloc: Global,
    atlas: Atlas,
    workers: u32,
    steps: u64,
    gate: &G,
    blank: Blank,
) -> Ended
    requires name { blank.name ≡ L.name }
    requires parts { blank.parts ≡ L.parts }
    requires one_each { blank.parts ≡ workers }
    requires unrun { atlas.log ≡ [] }
    requires few { length atlas.entries ≤ 100001 }
    requires steps { steps ≤ most_steps }
    requires some { 0 < workers }
    requires crowd { workers ≤ 64 }
    ensures begins { begin result.atlas ≡ atlas }
    ensures done { result.done ≡ length result.atlas.log }
    ensures below { AreBelow steps result.atlas.log }
    ensures events { AreSettled result.atlas }
    ensures settled { result.memory ≡ false → IsSettledBelow steps result.atlas }
{
    let copy = match atlas.try_copy() {
        Ok(copy) => copy,
        Err(_) => return end_of(atlas, 0, true),
    };
    let shared = match shared_copies(alloc, &atlas) {
        Ok(shared) => shared,
        Err(_) => return end_of(atlas, 0, true),
    };
    let each = steps + 1;
    let (claims, pass) = match Claims::new(alloc, workers as u64 * each) {
        Ok(both) => both,
        Err(_) => return run_alone(alloc, atlas, steps),
    };
    let (book, share) = blank.open::<L>();
    let room = Room::new(Desk::new(atlas, shared, steps, book));
    let spent = work_all(
        rt,
        alloc,
        &room,
        gate,
        &claims,
        workers,
        each,
        Spent { pass, share },
    );
    let Spent { pass, share } = spent;
    let count = match claims.close(pass) {
        Ok(count) => count,
        Err(_) => 0,
    };
    finish(alloc, copy, steps, room.into_desk(), share, count)
}

/// Settles the positions below `steps` by several workers.
pub fn enumerate<R: Threads + Wait + Sync, G: Gate>(
    rt: &R,
    alloc: Global,
    atlas: Atlas,
    workers: u32,
    steps: u64,
    gate: &G,
) -> Ended
    requires unrun { atlas.log ≡ [] }
    requires few { length atlas.entries ≤ 100001 }
    requires steps { steps ≤ most_steps }
    requires some { 0 < workers }
    requires crowd { workers ≤ 64 }
    ensures begins { begin result.atlas ≡ atlas }
    ensures done { result.done ≡ length result.atlas.log }
    ensures below { AreBelow steps result.atlas.log }
    ensures events { AreSettled result.atlas }
    ensures settled { result.memory ≡ false → IsSettledBelow steps result.atlas }
{
    run_in::<Brand, R, G>(
        rt,
        alloc,
        atlas,
        workers,
        steps,
        gate,
        Blank::new(workers as u64),
    )
}
