//! The commands that print counts of an atlas.

ghost use Rattle.std.specs.Prelude.{◌≡◌, true, false};
ghost use Rattle.lt_words.specs.Grammar.{IsDimension};
ghost use Rattle.ltypes.specs.Answers.{AnswersOn};
ghost use Rattle.ltypes.specs.Writings.{Reports};
ghost use Rattle.ltypes.specs.Changes.{change};
ghost use Rattle.ltypes.specs.Complete.{NotRisen, EndsOn};
ghost use Rattle.ltypes.specs.Summaries.{check_text, summary_text};
ghost use Rattle.ltypes.specs.Texts.{code_of, err_text};

use crate::beginning::beginning;
use crate::status::{Cause, Status};
use crate::summary::{weights_of, write_summary};
use crate::totals::write_totals;
use lt_io::{Failed, Sink, Source};
use std::alloc::Global;

/// Reads an atlas, and writes its totals.
fn write_check<S: Source, K: Sink>(alloc: Global, d: u8, source: &mut S, out: &mut K) -> Cause
    requires { IsDimension d }
    ensures answer { AnswersOn d true check_text
        (change (S.left source.old) (S.left source.new) (S.faults source.old) (S.faults source.new))
        (change (K.held out.old) (K.held out.new) (K.faults out.old) (K.faults out.new)) result }
{
    let atlas = match beginning(alloc, d, true, source) {
        Ok(atlas) => atlas,
        Err(cause) => return cause,
    };
    match write_totals(out, b"ok types", &atlas) {
        Ok(()) => Cause::Done,
        Err(Failed) => Cause::WriteFault,
    }
}

/// The command `check D`: whether the source spells a right atlas of dimension `d`, 2 to 6. Each cone is checked by its certificates,
/// each triangulation and each crossing by a flip, and no two entries may be equivalent.
///
/// It writes to `out` the line `ok types E facets F crossed X undecided O`, where the atlas is right, with wide and heavy marks counted
/// as undecided. Refused, with the first reason, exactly where it isn't.
pub fn check_command<S: Source, K: Sink, E: Sink>(
    alloc: Global,
    d: u8,
    source: &mut S,
    out: &mut K,
    err: &mut E,
) -> Status
    requires { IsDimension d }
    ensures code { result.code ≡ code_of result.cause }
    ensures answer { AnswersOn d true check_text
        (change (S.left source.old) (S.left source.new) (S.faults source.old) (S.faults source.new))
        (change (K.held out.old) (K.held out.new) (K.faults out.old) (K.faults out.new)) result.cause }
    ensures complete { NotRisen (S.faults source.old) (S.faults source.new) →
        NotRisen (K.faults out.old) (K.faults out.new) → EndsOn d true
        (change (S.left source.old) (S.left source.new) (S.faults source.old) (S.faults source.new)) result.cause }
    ensures line { Reports (change (E.held err.old) (E.held err.new) (E.faults err.old) (E.faults err.new))
        (err_text result.cause) }
{
    write_check(alloc, d, source, out).report(err)
}

/// Writes the counts of the atlas with which the command begins.
fn write_counts<S: Source, K: Sink>(
    alloc: Global,
    d: u8,
    resume: bool,
    source: &mut S,
    out: &mut K,
) -> Cause
    requires { IsDimension d }
    ensures answer { AnswersOn d resume summary_text
        (change (S.left source.old) (S.left source.new) (S.faults source.old) (S.faults source.new))
        (change (K.held out.old) (K.held out.new) (K.faults out.old) (K.faults out.new)) result }
    ensures unread { resume ≡ false → S.left source.new ≡ S.left source.old }
    ensures no_fault { resume ≡ false → S.faults source.new ≡ S.faults source.old }
{
    let atlas = match beginning(alloc, d, resume, source) {
        Ok(atlas) => atlas,
        Err(cause) => return cause,
    };
    let Ok(weights) = weights_of(alloc, &atlas) else {
        return Cause::Memory;
    };
    match write_summary(out, &atlas, &weights) {
        Ok(()) => Cause::Done,
        Err(Failed) => Cause::WriteFault,
    }
}

/// The command `summary D`, or `summary D --resume`: the counts of the starting atlas of dimension `d`, 2 to 6, which has the principal
/// type alone, or with `resume` of the atlas that the source spells.
///
/// It writes to `out` a header, a line for each type with its number, classes, regulators, facets, crossed facets, open facets
/// and weight, and a line of totals. Refused, with the first reason, exactly where the source spells no right atlas.
pub fn summary_command<S: Source, K: Sink, E: Sink>(
    alloc: Global,
    d: u8,
    resume: bool,
    source: &mut S,
    out: &mut K,
    err: &mut E,
) -> Status
    requires { IsDimension d }
    ensures code { result.code ≡ code_of result.cause }
    ensures answer { AnswersOn d resume summary_text
        (change (S.left source.old) (S.left source.new) (S.faults source.old) (S.faults source.new))
        (change (K.held out.old) (K.held out.new) (K.faults out.old) (K.faults out.new)) result.cause }
    ensures complete { NotRisen (S.faults source.old) (S.faults source.new) →
        NotRisen (K.faults out.old) (K.faults out.new) → EndsOn d resume
        (change (S.left source.old) (S.left source.new) (S.faults source.old) (S.faults source.new)) result.cause }
    ensures unread { resume ≡ false → S.left source.new ≡ S.left source.old }
    ensures no_fault { resume ≡ false → S.faults source.new ≡ S.faults source.old }
    ensures line { Reports (change (E.held err.old) (E.held err.new) (E.faults err.old) (E.faults err.new))
        (err_text result.cause) }
{
    write_counts(alloc, d, resume, source, out).report(err)
}
