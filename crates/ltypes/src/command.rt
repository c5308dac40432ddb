//! The words, and what they ask for.

ghost use Rattle.std.specs.Prelude.{◌≡◌, false};
ghost use Rattle.lt_words.specs.Grammar.{texts, IsDimension, InRange, place_of};
ghost use Rattle.ltypes.specs.Changes.{change};
ghost use Rattle.ltypes.specs.Complete.{NotRisen, IsDoneOrMemory, EndsWords};
ghost use Rattle.ltypes.specs.Texts.{code_of, err_text};
ghost use Rattle.ltypes.specs.declared.status.Cause.TheVariants.{Words};
ghost use Rattle.ltypes.specs.Outputs.{IsPrincipalText};
ghost use Rattle.ltypes.specs.Answers.{AnswersCommand, AnswersWords, reads};
ghost use Rattle.ltypes.specs.Writings.{Reports, Answers};
ghost use Rattle.ltypes.specs.Laws.{OnePrincipalText, OneStartingSummary, OneSummaryOfBytes, OneConversion};

use crate::convert::convert_command;
use crate::drill::drill_command;
use crate::forms::{cover_command, locate_command, shortest_command};
use crate::merges::merge_command;
use crate::printed::write_type;
use crate::reading::{check_command, summary_command};
use crate::run::{run_alone_command, run_command};
use crate::sections::section_command;
use crate::status::{Cause, Status};
use crate::vectors::relevant_command;
use lt_crew::Gate;
use lt_io::{Failed, Sink, Source};
use lt_principal::{principal, principal_form};
use lt_words::{Command, WordsError, read_words};
use std::alloc::Global;
use std::sync::Wait;
use std::thread::Threads;

/// Writes the principal form and the principal triangulation.
fn write_principal<K: Sink>(alloc: Global, d: u8, out: &mut K) -> Cause
    requires { IsDimension d }
    ensures answer { Answers (IsPrincipalText d)
        (change (K.held out.old) (K.held out.new) (K.faults out.old) (K.faults out.new)) result }
{
    let form = principal_form(d);
    match principal(alloc, d) {
        Err(_) => Cause::Memory,
        Ok(triangulation) => match write_type(out, d, form.numbers(), &triangulation) {
            Ok(()) => Cause::Done,
            Err(Failed) => Cause::WriteFault,
        },
    }
}

/// The command `principal D`: the principal form and triangulation of dimension `d`, 2 to 6 (Voronoi 1908).
///
/// It writes to `out` a line `dimension D`, a line `form` with the d(d+1)/2 numbers of the form, a line
/// `simplices M`, and a line for each of the M classes in ascending order, with the coordinates of its d+1 points.
pub fn principal_command<K: Sink, E: Sink>(alloc: Global, d: u8, out: &mut K, err: &mut E) -> Status
    requires { IsDimension d }
    ensures code { result.code ≡ code_of result.cause }
    ensures answer { Answers (IsPrincipalText d)
        (change (K.held out.old) (K.held out.new) (K.faults out.old) (K.faults out.new)) result.cause }
    ensures complete { NotRisen (K.faults out.old) (K.faults out.new) → IsDoneOrMemory result.cause }
    ensures line { Reports (change (E.held err.old) (E.held err.new) (E.faults err.old) (E.faults err.new))
        (err_text result.cause) }
{
    write_principal(alloc, d, out).report(err)
}

/// The work of a command.
fn carry_out<R: Threads + Wait + Sync, S: Source, K: Sink, E: Sink, G: Gate>(
    rt: &R,
    alloc: Global,
    command: Command,
    source: &mut S,
    out: &mut K,
    err: &mut E,
    gate: &G,
) -> Status
    requires { InRange command }
    ensures code { result.code ≡ code_of result.cause }
    ensures answer { AnswersCommand command
        (change (S.left source.old) (S.left source.new) (S.faults source.old) (S.faults source.new))
        (change (K.held out.old) (K.held out.new) (K.faults out.old) (K.faults out.new)) result.cause }
    ensures unread { reads command ≡ false → S.left source.new ≡ S.left source.old }
    ensures no_fault { reads command ≡ false → S.faults source.new ≡ S.faults source.old }
    ensures line { Reports (change (E.held err.old) (E.held err.new) (E.faults err.old) (E.faults err.new))
        (err_text result.cause) }
{
    match command {
        Command::Principal { d } => principal_command(alloc, d, out, err),
        Command::Summary { d, resume } => summary_command(alloc, d, resume, source, out, err),
        Command::Check { d } => check_command(alloc, d, source, out, err),
        Command::Run {
            d,
            workers,
            steps,
            resume,
        } => {
            if workers == 1 {
                run_alone_command(alloc, d, steps, resume, source, out, err)
            } else {
                run_command(rt, alloc, d, workers, steps, resume, source, out, err, gate)
            }
        }
        Command::Drill { d, seed, length } => drill_command(alloc, d, seed, length, out, err),
        Command::Locate { steps, q } => locate_command(alloc, &q, steps, out, err),
        Command::Cover { steps, q } => cover_command(alloc, &q, steps, out, err),
        Command::Relevant { d, entry } => relevant_command(alloc, d, entry, source, out, err),
        Command::Shortest { steps, q } => shortest_command(alloc, &q, steps, out, err),
        Command::Section { steps, forms } => section_command(
            alloc,
            forms.as_slice(),
            steps,
            out,
            err,
        ),
        Command::Merge { d } => merge_command(alloc, d, source, out, err),
        Command::Convert { d } => convert_command(alloc, d, source, out, err),
    }
}

/// The refusal of words that are no command.
fn refuse<E: Sink>(error: WordsError, err: &mut E) -> Status
    ensures code { result.code ≡ code_of result.cause }
    ensures cause { result.cause ≡ Words (place_of error) }
    ensures line { Reports (change (E.held err.old) (E.held err.new) (E.faults err.old) (E.faults err.new))
        (err_text result.cause) }
{
    match error {
        WordsError::Fault { place } => Cause::Words { place }.report(err),
    }
}

/// The program on the words behind its name: it reads them, does what they say, and answers how it ends.
///
/// The output of the command goes to `out`, and the line of the cause to `err`. The source is read by `check`, `relevant`, `merge` and
/// `convert`, and where the words say `--resume`. Only `run` with two or more workers starts threads, waits, and passes the gate.
///
/// Where the words are a command's and neither the source's count of faults nor that of `out` rose, the answer is complete: `run` decided each
/// position below the step limit, and finished where it met no limit; another command is done; or the answer is a refusal with its cause, or Memory.
pub fn ltypes<R: Threads + Wait + Sync, S: Source, K: Sink, E: Sink, G: Gate>(
    rt: &R,
    alloc: Global,
    words: &[&str],
    source: &mut S,
    out: &mut K,
    err: &mut E,
    gate: &G,
) -> Status
    ensures code { result.code ≡ code_of result.cause }
    ensures answer { AnswersWords (texts words.now)
        (change (S.left source.old) (S.left source.new) (S.faults source.old) (S.faults source.new))
        (change (K.held out.old) (K.held out.new) (K.faults out.old) (K.faults out.new)) result.cause }
    ensures complete { NotRisen (S.faults source.old) (S.faults source.new) →
        NotRisen (K.faults out.old) (K.faults out.new) → EndsWords (texts words.now)
        (change (S.left source.old) (S.left source.new) (S.faults source.old) (S.faults source.new))
        (change (K.held out.old) (K.held out.new) (K.faults out.old) (K.faults out.new)) result.cause }
    ensures line { Reports (change (E.held err.old) (E.held err.new) (E.faults err.old) (E.faults err.new))
        (err_text result.cause) }
{
    match read_words(words) {
        Ok(command) => carry_out(rt, alloc, command, source, out, err, gate),
        Err(error) => refuse(error, err),
    }
}

/// A law, with nothing to run: `principal` and `summary` have one output at most in each dimension, and `check`, `summary --resume` and
/// `convert` one for each input, so the clauses above pin each byte.
pub fn outputs_are_exact()
    ensures principal { OnePrincipalText }
    ensures start { OneStartingSummary }
    ensures bytes { OneSummaryOfBytes }
    ensures conversion { OneConversion }
{}
