//! The enumeration.

ghost use Rattle.std.specs.Prelude.{◌≡◌, ◌<◌, ◌≤◌, ◌+◌, true, false};
ghost use Rattle.lt_model.specs.Atlases.{undecided, stuck};
ghost use Rattle.lt_model.specs.Limits.{step_limit};
ghost use Rattle.lt_words.specs.Grammar.{IsDimension, most_workers};
ghost use Rattle.ltypes.specs.Changes.{change};
ghost use Rattle.ltypes.specs.Complete.{NotRisen, EndsRun};
ghost use Rattle.ltypes.specs.Texts.{code_of, err_text};
ghost use Rattle.ltypes.specs.Writings.{Reports};
ghost use Rattle.ltypes.specs.Runs.{AnswersRun, IsEnd};
ghost use Rattle.ltypes.specs.Laws.{NarrowRunsFinish, RunsAreResumed};
ghost use Rattle.ltypes.specs.declared.status.Cause.TheVariants.{Finished, Unfinished, Memory};

use crate::beginning::beginning;
use crate::status::{Cause, Status};
use lt_crew::{Ended, Gate, enumerate, run_alone};
use lt_io::{Failed, Sink, Source};
use lt_text::write_atlas;
use std::alloc::Global;
use std::sync::Wait;
use std::thread::Threads;

/// How a run ends whose text was written.
fn cause_of(ended: &Ended) -> Cause
    ensures memory { ended.now.memory ≡ true → result ≡ Memory }
    ensures finished { ended.now.memory ≡ false → undecided ended.now.atlas.marks + stuck ended.now.atlas.marks ≡ 0 →
        result ≡ Finished }
    ensures unfinished { ended.now.memory ≡ false → 0 < undecided ended.now.atlas.marks + stuck ended.now.atlas.marks
        → result ≡ Unfinished (stuck ended.now.atlas.marks) (undecided ended.now.atlas.marks) }
{
    if ended.memory {
        return Cause::Memory;
    }
    let stuck = ended.atlas.stuck();
    let undecided = ended.atlas.undecided();
    if stuck == 0 && undecided == 0 {
        Cause::Finished
    } else {
        Cause::Unfinished { stuck, undecided }
    }
}

/// Writes the text of the atlas of a run that ended.
fn write_ended<K: Sink>(ended: &Ended, out: &mut K) -> Cause
    ensures { IsEnd ended.now.memory ended.now.atlas
        (change (K.held out.old) (K.held out.new) (K.faults out.old) (K.faults out.new)) result }
{
    match write_atlas(&ended.atlas, out) {
        Ok(()) => cause_of(ended),
        Err(Failed) => Cause::WriteFault,
    }
}

/// Runs alone from the atlas with which the command begins, and writes the text of the atlas.
fn write_run_alone<S: Source, K: Sink>(
    alloc: Global,
    d: u8,
    steps: u64,
    resume: bool,
    source: &mut S,
    out: &mut K,
) -> Cause
    requires dimension { IsDimension d }
    requires steps { steps ≤ step_limit d }
    ensures answer { AnswersRun d 1 steps resume
        (change (S.left source.old) (S.left source.new) (S.faults source.old) (S.faults source.new))
        (change (K.held out.old) (K.held out.new) (K.faults out.old) (K.faults out.new)) result }
    ensures unread { resume ≡ false → S.left source.new ≡ S.left source.old }
    ensures no_fault { resume ≡ false → S.faults source.new ≡ S.faults source.old }
{
    let start = match beginning(alloc, d, resume, source) {
        Ok(start) => start,
        Err(cause) => return cause,
    };
    let ended = run_alone(alloc, start, steps);
    ended.atlas.keeps();
    write_ended(&ended, out)
}

/// The command `run D --steps B`, or `run D --steps B --resume`, by one worker: Voronoi's second reduction in dimension `d`, 2 to 6
/// (Voronoi 1908; Schürmann, chapter 4), from the principal type, or with `resume` from the atlas that the source spells. It settles
/// the first `steps` positions of the queue, at most 100,000, or 2,000 where `d` is 6, in order.
///
/// It writes to `out` the text of the atlas: for each type its classes, its regulators with their certificates, its cone's form, and
/// for each facet the type beyond it with a matrix. Finished where every facet is crossed: the atlas then has exactly one member of
/// each unimodular class that facet crossings reach. Refused, with the first reason, exactly where the source spells no right atlas. It
/// returns, and waits for nobody.
pub fn run_alone_command<S: Source, K: Sink, E: Sink>(
    alloc: Global,
    d: u8,
    steps: u64,
    resume: bool,
    source: &mut S,
    out: &mut K,
    err: &mut E,
) -> Status
    requires dimension { IsDimension d }
    requires steps { steps ≤ step_limit d }
    ensures code { result.code ≡ code_of result.cause }
    ensures answer { AnswersRun d 1 steps resume
        (change (S.left source.old) (S.left source.new) (S.faults source.old) (S.faults source.new))
        (change (K.held out.old) (K.held out.new) (K.faults out.old) (K.faults out.new)) result.cause }
    ensures complete { NotRisen (S.faults source.old) (S.faults source.new) →
        NotRisen (K.faults out.old) (K.faults out.new) → EndsRun d 1 steps resume
        (change (S.left source.old) (S.left source.new) (S.faults source.old) (S.faults source.new))
        (change (K.held out.old) (K.held out.new) (K.faults out.old) (K.faults out.new)) result.cause }
    ensures unread { resume ≡ false → S.left source.new ≡ S.left source.old }
    ensures no_fault { resume ≡ false → S.faults source.new ≡ S.faults source.old }
    ensures line { Reports (change (E.held err.old) (E.held err.new) (E.faults err.old) (E.faults err.new))
        (err_text result.cause) }
{
    write_run_alone(alloc, d, steps, resume, source, out).report(err)
}

/// Runs several workers from the atlas with which the command begins, and writes the text of the atlas.
fn write_run<R: Threads + Wait + Sync, S: Source, K: Sink, G: Gate>(
    rt: &R,
    alloc: Global,
    d: u8,
    workers: u32,
    steps: u64,
    resume: bool,
    source: &mut S,
    out: &mut K,
    gate: &G,
) -> Cause
    requires dimension { IsDimension d }
    requires steps { steps ≤ step_limit d }
    requires several { 2 ≤ workers }
    requires crowd { workers ≤ most_workers }
    ensures answer { AnswersRun d workers steps resume
        (change (S.left source.old) (S.left source.new) (S.faults source.old) (S.faults source.new))
        (change (K.held out.old) (K.held out.new) (K.faults out.old) (K.faults out.new)) result }
    ensures unread { resume ≡ false → S.left source.new ≡ S.left source.old }
    ensures no_fault { resume ≡ false → S.faults source.new ≡ S.faults source.old }
{
    let start = match beginning(alloc, d, resume, source) {
        Ok(start) => start,
        Err(cause) => return cause,
    };
    let ended = enumerate(rt, alloc, start, workers, steps, gate);
    ended.atlas.keeps();
    write_ended(&ended, out)
}

/// The command `run` with several workers, 2 to 64, which wait for one another. Else as `run_alone_command`, but that the events stand
/// in the order in which the workers recorded them.
pub fn run_command<R: Threads + Wait + Sync, S: Source, K: Sink, E: Sink, G: Gate>(
    rt: &R,
    alloc: Global,
    d: u8,
    workers: u32,
    steps: u64,
    resume: bool,
    source: &mut S,
    out: &mut K,
    err: &mut E,
    gate: &G,
) -> Status
    requires dimension { IsDimension d }
    requires steps { steps ≤ step_limit d }
    requires several { 2 ≤ workers }
    requires crowd { workers ≤ most_workers }
    ensures code { result.code ≡ code_of result.cause }
    ensures answer { AnswersRun d workers steps resume
        (change (S.left source.old) (S.left source.new) (S.faults source.old) (S.faults source.new))
        (change (K.held out.old) (K.held out.new) (K.faults out.old) (K.faults out.new)) result.cause }
    ensures complete { NotRisen (S.faults source.old) (S.faults source.new) →
        NotRisen (K.faults out.old) (K.faults out.new) → EndsRun d workers steps resume
        (change (S.left source.old) (S.left source.new) (S.faults source.old) (S.faults source.new))
        (change (K.held out.old) (K.held out.new) (K.faults out.old) (K.faults out.new)) result.cause }
    ensures unread { resume ≡ false → S.left source.new ≡ S.left source.old }
    ensures no_fault { resume ≡ false → S.faults source.new ≡ S.faults source.old }
    ensures line { Reports (change (E.held err.old) (E.held err.new) (E.faults err.old) (E.faults err.new))
        (err_text result.cause) }
{
    write_run(rt, alloc, d, workers, steps, resume, source, out, gate).report(err)
}

/// A law, with nothing to run: where a run came to its end, met no triangulation above the limits of span and weight, and its queue is
/// not longer than the step limit, every facet is crossed, so its answer is Finished.
pub fn narrow_runs_finish()
    ensures { NarrowRunsFinish }
{}

/// A law, with nothing to run: the text that a run writes whole is accepted again, where it has at most 100,001 entries and isn't too
/// long, and is read as the atlas with the same entries and crosses, with all other facets open.
pub fn runs_are_resumed()
    ensures { RunsAreResumed }
{}
