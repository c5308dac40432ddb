//! The drill.

ghost use Rattle.std.specs.Prelude.{◌≡◌, ◌≤◌, true, IfOk, IfErr, OnOk};
ghost use Rattle.std.specs.Prelude as prelude;
ghost use Rattle.lt_io.specs.Causes.{HasCause};
ghost use Rattle.lt_io.specs.Bytes.{Wrote};
ghost use Rattle.lt_model.specs.Limits as limits;
ghost use Rattle.lt_read.specs.Laws.{IsOfRun, resumed};
ghost use Rattle.lt_text.specs.Texts.{atlas_text};
ghost use Rattle.lt_triang.specs.Kept.{IsOfSomeForm};
ghost use Rattle.lt_words.specs.Grammar.{IsDimension, most_turns};
ghost use Rattle.ltypes.specs.Writings.{Reports};
ghost use Rattle.ltypes.specs.Changes.{change};
ghost use Rattle.ltypes.specs.Complete.{NotRisen, EndsDrill};
ghost use Rattle.ltypes.specs.Drills.{AreDrilled, IsUnread, IsUndrilled, start_text, end_text, drill_text, AnswersDrill};
ghost use Rattle.ltypes.specs.Texts.{code_of, err_text};

use crate::printed::write_named;
use crate::status::{Cause, Status};
use crate::totals::totals_of;
use crate::turns::drilled;
use lt_core::Atlas;
use lt_crew::run_alone;
use lt_drill::{Draws, scramble};
use lt_io::{Failed, MemorySink, Sink, SliceSource};
use lt_lines::{write_count, write_line};
use lt_match::match_types;
use lt_model::Memory;
use lt_read::{ReadError, Refusal, input_limit, read_atlas};
use lt_text::write_atlas;
use lt_triang::Triangulation;
use std::alloc::Global;

/// Whether a scrambled image of the triangulation matches it, as each does.
fn is_matched(alloc: Global, t: &Triangulation, draws: &mut Draws) -> Result<bool, Memory>
    requires { IsOfSomeForm t.now }
    ensures { IfOk result (λ b. b ≡ true) }
{
    // What a triangulation keeps is known once its dimension was asked for.
    let _dimension = t.dimension();
    let (_matrix, image) = scramble(alloc, draws, t)?;
    Ok(match_types(alloc, &image, t)?.is_some())
}

/// How many entries a scrambled image matches: all of them.
fn matched(alloc: Global, atlas: &Atlas, draws: &mut Draws) -> Result<u64, Memory>
    ensures { IfOk result (λ n. n ≡ prelude.length atlas.now.entries) }
{
    atlas.keeps();
    let mut matched = 0;
    for k in 0..atlas.entries() {
        if is_matched(alloc, &atlas.entry(k).triangulation, draws)? {
            matched += 1;
        }
    }
    Ok(matched)
}

/// The atlas that is read from the text of an atlas.
fn read_again(alloc: Global, d: u8, atlas: &Atlas) -> Result<Atlas, Cause>
    requires run { IsOfRun atlas.now }
    requires dimension { atlas.now.dimension ≡ d }
    requires few { prelude.length atlas.now.entries ≤ 100001 }
    ensures resumed { IfOk result (λ b. b ≡ resumed atlas.now) }
    ensures short { OnOk result (prelude.length (atlas_text atlas.now) ≤ limits.input_limit d) }
    ensures why { IfErr result (IsUnread d atlas.now) }
{
    let limit = input_limit(d);
    let Ok(mut sink) = MemorySink::new(alloc, limit + 1, limit + 1, Vec::new(alloc)) else {
        return Err(Cause::Memory);
    };
    match write_atlas(atlas, &mut sink) {
        Ok(()) => {}
        Err(Failed) => {
            if sink.bytes().len() > limit {
                return Err(Cause::Refused(Refusal::TooLong));
            }
            return Err(Cause::Memory);
        }
    }
    let mut source = SliceSource::new(sink.bytes());
    match read_atlas(alloc, &mut source, d) {
        Ok(again) => Ok(again),
        // Bytes in memory never fail.
        Err(ReadError::Failed) => unreachable!(),
        Err(ReadError::Refused(refusal)) => Err(Cause::Refused(refusal)),
        Err(ReadError::Memory) => Err(Cause::Memory),
    }
}

/// What a drill found.
#[derive(Drop)]
struct Findings {
    /// The atlas after the turns.
    start: Atlas,
    /// The number of its entries that a scrambled image matched.
    matched: u64,
    /// The atlas of the run behind it.
    end: Atlas,
}

/// Drills an atlas, scrambles and matches its entries, writes it, reads it again and goes on.
fn drill(alloc: Global, d: u8, seed: u64, turns: u64) -> Result<Findings, Cause>
    requires dimension { IsDimension d }
    requires turns { turns ≤ most_turns d }
    ensures drilled { IfOk result (λ r. AreDrilled d seed turns r.start r.end) }
    ensures matched { IfOk result (λ r. r.matched ≡ prelude.length r.start.entries) }
    ensures why { IfErr result (IsUndrilled d seed turns) }
{
    let mut draws = Draws::new(seed);
    let Ok(start) = drilled(alloc, d, &mut draws, turns) else {
        return Err(Cause::Memory);
    };
    start.keeps();
    let Ok(count) = matched(alloc, &start, &mut draws) else {
        return Err(Cause::Memory);
    };
    let again = match read_again(alloc, d, &start) {
        Ok(again) => again,
        Err(cause) => return Err(cause),
    };
    let ended = run_alone(alloc, again, 2 * turns + 100);
    if ended.memory {
        return Err(Cause::Memory);
    }
    ended.atlas.keeps();
    Ok(Findings {
        start,
        matched: count,
        end: ended.atlas,
    })
}

/// Writes the counts of the atlas after the turns, and of the images that matched.
fn write_start<K: Sink>(out: &mut K, atlas: &Atlas, matched: u64) -> Result<(), Failed>
    requires { matched ≡ prelude.length atlas.now.entries }
    ensures bytes { Wrote (K.held out.old) (K.held out.new) result (start_text atlas.now) }
    ensures cause { HasCause (K.faults out.old) (K.faults out.new) result }
{
    let totals = totals_of(atlas);
    write_named(out, b"start types", totals.entries)?;
    write_count(out, b" crossed", totals.crossed)?;
    write_count(out, b"matched", matched)
}

/// Writes the counts of the atlas at the end.
fn write_end<K: Sink>(out: &mut K, atlas: &Atlas) -> Result<(), Failed>
    ensures bytes { Wrote (K.held out.old) (K.held out.new) result (end_text atlas.now) }
    ensures cause { HasCause (K.faults out.old) (K.faults out.new) result }
{
    let totals = totals_of(atlas);
    write_named(out, b"end types", totals.entries)?;
    write_named(out, b" crossed", totals.crossed)?;
    write_named(out, b" stuck", atlas.stuck())?;
    write_count(out, b" undecided", totals.undecided)
}

/// Writes the four lines of a drill.
fn write_lines<K: Sink>(
    out: &mut K,
    d: u8,
    seed: u64,
    turns: u64,
    findings: &Findings,
) -> Result<(), Failed>
    requires { findings.now.matched ≡ prelude.length findings.now.start.entries }
    ensures bytes { Wrote (K.held out.old) (K.held out.new) result
        (drill_text d seed turns findings.now.start findings.now.end) }
    ensures cause { HasCause (K.faults out.old) (K.faults out.new) result }
{
    write_line(out, b"drill", &[d as i128, seed as i128, turns as i128])?;
    write_start(out, &findings.start, findings.matched)?;
    write_end(out, &findings.end)
}

/// Drills, and writes what was found.
fn write_drill<K: Sink>(alloc: Global, d: u8, seed: u64, turns: u64, out: &mut K) -> Cause
    requires dimension { IsDimension d }
    requires turns { turns ≤ most_turns d }
    ensures { AnswersDrill d seed turns
        (change (K.held out.old) (K.held out.new) (K.faults out.old) (K.faults out.new)) result }
{
    match drill(alloc, d, seed, turns) {
        Ok(found) => match write_lines(out, d, seed, turns, &found) {
            Ok(()) => Cause::Done,
            Err(Failed) => Cause::WriteFault,
        },
        Err(cause) => cause,
    }
}

/// The command `drill D SEED LENGTH`: a run of dimension `d`, 2 to 6, that settles at most `length` positions of the queue, each of
/// which a generator draws among the open ones; `length` is at most 1000, or 950 where `d` is 6, and the generator begins with the seed. Then the triangulation of
/// each entry is scrambled and the image matched onto it; the text of the atlas is written in memory and read again with all checks; and a
/// run from the atlas that was read settles its first `2 * length + 100` positions.
///
/// It writes to `out` the lines `drill D SEED LENGTH`, `start types A crossed B`, `matched C` and
/// `end types G crossed H stuck I undecided J`: the counts after the drawn turns, the entries that were matched, which are all, and the counts at the end.
/// Refused as too long exactly where the text of the atlas after the drawn turns is longer than an input may be. It returns, and waits for nobody.
pub fn drill_command<K: Sink, E: Sink>(
    alloc: Global,
    d: u8,
    seed: u64,
    length: u64,
    out: &mut K,
    err: &mut E,
) -> Status
    requires dimension { IsDimension d }
    requires turns { length ≤ most_turns d }
    ensures code { result.code ≡ code_of result.cause }
    ensures answer { AnswersDrill d seed length
        (change (K.held out.old) (K.held out.new) (K.faults out.old) (K.faults out.new)) result.cause }
    ensures complete { NotRisen (K.faults out.old) (K.faults out.new) → EndsDrill d seed length result.cause }
    ensures line { Reports (change (E.held err.old) (E.held err.new) (E.faults err.old) (E.faults err.new))
        (err_text result.cause) }
{
    write_drill(alloc, d, seed, length, out).report(err)
}
