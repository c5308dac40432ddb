//! The command that takes over texts of version 1.

ghost use Rattle.std.specs.Prelude.{◌≡◌, IfOk, IfErr};
ghost use Rattle.lt_words.specs.Grammar.{IsDimension};
ghost use Rattle.ltypes.specs.Answers.{AnswersConvert};
ghost use Rattle.ltypes.specs.Beginnings.{IsSpelt, IsUnspelt};
ghost use Rattle.ltypes.specs.Changes.{change};
ghost use Rattle.ltypes.specs.Complete.{NotRisen, EndsConvert};
ghost use Rattle.ltypes.specs.Texts.{code_of, err_text};
ghost use Rattle.ltypes.specs.Writings.{Reports};

use crate::status::{Cause, Status};
use lt_core::Atlas;
use lt_io::{Failed, Sink, Source};
use lt_read::{ReadError, read_atlas_1};
use lt_text::write_atlas;
use std::alloc::Global;

/// The atlas that the source spells in version 1 of the text, with all checks.
fn spelt<S: Source>(alloc: Global, d: u8, source: &mut S) -> Result<Atlas, Cause>
    ensures spelt { IfOk result (IsSpelt 1 d
        (change (S.left source.old) (S.left source.new) (S.faults source.old) (S.faults source.new))) }
    ensures why { IfErr result (IsUnspelt 1 d
        (change (S.left source.old) (S.left source.new) (S.faults source.old) (S.faults source.new))) }
{
    match read_atlas_1(alloc, source, d) {
        Ok(atlas) => Ok(atlas),
        Err(ReadError::Failed) => Err(Cause::ReadFault),
        Err(ReadError::Refused(refusal)) => Err(Cause::Refused(refusal)),
        Err(ReadError::Memory) => Err(Cause::Memory),
    }
}

/// Reads an atlas in version 1, and writes it in version 2.
fn write_converted<S: Source, K: Sink>(alloc: Global, d: u8, source: &mut S, out: &mut K) -> Cause
    requires { IsDimension d }
    ensures { AnswersConvert d
        (change (S.left source.old) (S.left source.new) (S.faults source.old) (S.faults source.new))
        (change (K.held out.old) (K.held out.new) (K.faults out.old) (K.faults out.new)) result }
{
    let atlas = match spelt(alloc, d, source) {
        Ok(atlas) => atlas,
        Err(cause) => return cause,
    };
    match write_atlas(&atlas, out) {
        Ok(()) => Cause::Done,
        Err(Failed) => Cause::WriteFault,
    }
}

/// The command `convert D`: the atlas of dimension `d`, 2 to 6, that the source spells in version 1 of the text, which lists all classes, is
/// written to `out` in version 2, which lists of each pair of a class and that of its negatives the one that comes first.
///
/// The atlas is read with every check; wide and heavy marks are read, and so written, as open. Refused, with the first reason, exactly where
/// the source spells no right atlas in version 1.
pub fn convert_command<S: Source, K: Sink, E: Sink>(
    alloc: Global,
    d: u8,
    source: &mut S,
    out: &mut K,
    err: &mut E,
) -> Status
    requires { IsDimension d }
    ensures code { result.code ≡ code_of result.cause }
    ensures answer { AnswersConvert d
        (change (S.left source.old) (S.left source.new) (S.faults source.old) (S.faults source.new))
        (change (K.held out.old) (K.held out.new) (K.faults out.old) (K.faults out.new)) result.cause }
    ensures complete { NotRisen (S.faults source.old) (S.faults source.new) →
        NotRisen (K.faults out.old) (K.faults out.new) → EndsConvert d
        (change (S.left source.old) (S.left source.new) (S.faults source.old) (S.faults source.new)) result.cause }
    ensures line { Reports (change (E.held err.old) (E.held err.new) (E.faults err.old) (E.faults err.new))
        (err_text result.cause) }
{
    write_converted(alloc, d, source, out).report(err)
}
