//! The command that merges two atlases.

ghost use Rattle.std.specs.Prelude.{◌≡◌, ◌≤◌, ◌*◌, [], IsTrue, ◌↔◌, IfOk, IfErr};
ghost use Rattle.std.specs.Prelude as prelude;
ghost use Rattle.lt_io.specs.Whole.{ReadsAll};
ghost use Rattle.lt_model.specs.Limits as limits;
ghost use Rattle.lt_read.specs.Reading.{IsRead};
ghost use Rattle.lt_words.specs.Grammar.{IsDimension};
ghost use Rattle.ltypes.specs.Changes.{change};
ghost use Rattle.ltypes.specs.Complete.{NotRisen, EndsMerge};
ghost use Rattle.ltypes.specs.Merges.{IsEndAt, IsDivision, IsMergedOf, IsPartUnread, IsUnmerged, HasNoInput, AnswersMerge};
ghost use Rattle.ltypes.specs.Texts.{code_of, err_text};
ghost use Rattle.ltypes.specs.Writings.{Reports};

use crate::status::{Cause, Status};
use lt_core::Atlas;
use lt_io::{Failed, ReadAllError, Sink, SliceSource, Source, read_all};
use lt_merge::{MergeError, merge};
use lt_read::{ReadError, Refusal, input_limit, read_atlas};
use lt_text::write_atlas;
use std::alloc::Global;

/// Whether a line that is exactly `end` ends at a place, with its line feed.
fn ends_at(bytes: &[u8], place: usize) -> bool
    requires { place ≤ prelude.length bytes.now }
    ensures { IsTrue result ↔ IsEndAt bytes.now place }
{
    if place < 4 || &bytes[place - 4..place] != b"end\n".as_slice() {
        return false;
    }
    place == 4 || bytes[place - 5] == b'\n'
}

/// Where the first part of an input ends: behind the first line that is exactly `end`, or at the end.
fn division_of(bytes: &[u8]) -> usize
    ensures division { IsDivision bytes.now result }
    ensures within { result ≤ prelude.length bytes.now }
{
    for before in 0..bytes.len() {
        if ends_at(bytes, before + 1) {
            return before + 1;
        }
    }
    bytes.len()
}

/// The whole input.
fn read_input<S: Source>(alloc: Global, d: u8, source: &mut S) -> Result<Vec<u8>, Cause>
    requires { IsDimension d }
    ensures read { IfOk result (λ v. ReadsAll (S.left source.old) (S.left source.new) v.items
        (2 * limits.input_limit d)) }
    ensures why { IfErr result (HasNoInput d
        (change (S.left source.old) (S.left source.new) (S.faults source.old) (S.faults source.new))) }
{
    match read_all(alloc, source, 2 * input_limit(d)) {
        Ok(bytes) => Ok(bytes),
        Err(ReadAllError::Failed) => Err(Cause::ReadFault),
        Err(ReadAllError::TooLong) => Err(Cause::MergeRefused {
            part: 0,
            refusal: Refusal::TooLong,
        }),
        Err(ReadAllError::Memory) => Err(Cause::Memory),
    }
}

/// The atlas of a part of the input.
fn read_part(alloc: Global, d: u8, part: u8, bytes: &[u8]) -> Result<Atlas, Cause>
    ensures read { IfOk result (IsRead 2 d bytes.now) }
    ensures dimension { IfOk result (λ a. a.dimension ≡ d) }
    ensures unrun { IfOk result (λ a. a.log ≡ []) }
    ensures few { IfOk result (λ a. prelude.length a.entries ≤ 100001) }
    ensures why { IfErr result (IsPartUnread d part bytes.now) }
{
    let mut source = SliceSource::new(bytes);
    match read_atlas(alloc, &mut source, d) {
        Ok(atlas) => Ok(atlas),
        // Bytes in memory never fail.
        Err(ReadError::Failed) => unreachable!(),
        Err(ReadError::Refused(refusal)) => Err(Cause::MergeRefused { part, refusal }),
        Err(ReadError::Memory) => Err(Cause::Memory),
    }
}

/// What the two atlases of an input are together.
fn merged(alloc: Global, d: u8, bytes: &[u8]) -> Result<Atlas, Cause>
    ensures merged { IfOk result (IsMergedOf d bytes.now) }
    ensures why { IfErr result (IsUnmerged d bytes.now) }
{
    let place = division_of(bytes);
    let first = match read_part(alloc, d, 1, &bytes[..place]) {
        Ok(first) => first,
        Err(cause) => return Err(cause),
    };
    let second = match read_part(alloc, d, 2, &bytes[place..]) {
        Ok(second) => second,
        Err(cause) => return Err(cause),
    };
    match merge(alloc, first, &second) {
        Ok(atlas) => Ok(atlas),
        Err(
            MergeError::Stuck {
                entry,
                mark,
                atlas: _so_far,
            },
        ) => Err(Cause::MergeStuck { entry, mark }),
        Err(MergeError::Memory) => Err(Cause::Memory),
    }
}

/// Reads two atlases, and writes what they are together.
fn write_merge<S: Source, K: Sink>(alloc: Global, d: u8, source: &mut S, out: &mut K) -> Cause
    requires { IsDimension d }
    ensures { AnswersMerge d
        (change (S.left source.old) (S.left source.new) (S.faults source.old) (S.faults source.new))
        (change (K.held out.old) (K.held out.new) (K.faults out.old) (K.faults out.new)) result }
{
    let bytes = match read_input(alloc, d, source) {
        Ok(bytes) => bytes,
        Err(cause) => return cause,
    };
    match merged(alloc, d, &bytes) {
        Err(cause) => cause,
        Ok(atlas) => match write_atlas(&atlas, out) {
            Ok(()) => Cause::Done,
            Err(Failed) => Cause::WriteFault,
        },
    }
}

/// The command `merge D`: the two atlases of dimension `d`, 2 to 6, that the source spells one after the other become one, with exactly one
/// member of each class that is in either. The first part of the input ends with the first line that is exactly `end`. Each part is read with
/// every check, and the facets that the second has crossed are crossed in the first.
///
/// It writes the text of the atlas to `out`. MergeRefused exactly where the input is too long or a part is refused, the first that is so.
/// MergeStuck exactly where an entry of the second lies behind a facet that is too wide or too heavy for the first.
pub fn merge_command<S: Source, K: Sink, E: Sink>(
    alloc: Global,
    d: u8,
    source: &mut S,
    out: &mut K,
    err: &mut E,
) -> Status
    requires { IsDimension d }
    ensures code { result.code ≡ code_of result.cause }
    ensures answer { AnswersMerge d
        (change (S.left source.old) (S.left source.new) (S.faults source.old) (S.faults source.new))
        (change (K.held out.old) (K.held out.new) (K.faults out.old) (K.faults out.new)) result.cause }
    ensures complete { NotRisen (S.faults source.old) (S.faults source.new) →
        NotRisen (K.faults out.old) (K.faults out.new) → EndsMerge d
        (change (S.left source.old) (S.left source.new) (S.faults source.old) (S.faults source.new)) result.cause }
    ensures line { Reports (change (E.held err.old) (E.held err.new) (E.faults err.old) (E.faults err.new))
        (err_text result.cause) }
{
    write_merge(alloc, d, source, out).report(err)
}
