//! The command on the vectors of an entry.

ghost use Rattle.std.specs.Prelude.{◌≡◌, ◌≤◌, ◌<◌, IfOk};
ghost use Rattle.std.specs.Prelude as prelude;
ghost use Rattle.lt_words.specs.Grammar.{IsDimension, most_entry};
ghost use Rattle.ltypes.specs.Changes.{change};
ghost use Rattle.ltypes.specs.Complete.{NotRisen, EndsRelevant};
ghost use Rattle.ltypes.specs.Texts.{code_of, err_text};
ghost use Rattle.ltypes.specs.Vectors.{AreOfEntry, AnswersRelevant};
ghost use Rattle.ltypes.specs.Writings.{Reports};

use crate::beginning::resumed;
use crate::forms::write_vectors;
use crate::status::{Cause, Status};
use lt_core::Atlas;
use lt_io::{Failed, Sink, Source};
use lt_lattice::Point;
use lt_model::Memory;
use lt_relevant::relevant;
use std::alloc::Global;

/// The relevant vectors of an entry.
fn vectors_of(alloc: Global, d: u8, atlas: &Atlas, entry: u32) -> Result<Vec<Point>, Memory>
    requires dimension { atlas.now.dimension ≡ d }
    requires entry { entry < prelude.length atlas.now.entries }
    ensures { IfOk result (λ vs. AreOfEntry d atlas.now entry vs.items) }
{
    atlas.keeps();
    let t = &atlas.entry(entry).triangulation;
    let vectors = relevant(alloc, t)?;
    Ok(vectors)
}

/// Reads an atlas, and writes the relevant vectors of an entry.
fn write_relevant<S: Source, K: Sink>(
    alloc: Global,
    d: u8,
    entry: u32,
    source: &mut S,
    out: &mut K,
) -> Cause
    requires { IsDimension d }
    ensures { AnswersRelevant d entry
        (change (S.left source.old) (S.left source.new) (S.faults source.old) (S.faults source.new))
        (change (K.held out.old) (K.held out.new) (K.faults out.old) (K.faults out.new)) result }
{
    let atlas = match resumed(alloc, d, source) {
        Ok(atlas) => atlas,
        Err(cause) => return cause,
    };
    let entries = atlas.entries();
    if entry >= entries {
        return Cause::NoEntry { entries };
    }
    match vectors_of(alloc, d, &atlas, entry) {
        Err(_) => Cause::Memory,
        Ok(vectors) => match write_vectors(out, &vectors) {
            Ok(()) => Cause::Done,
            Err(Failed) => Cause::WriteFault,
        },
    }
}

/// The command `relevant D K`: Voronoi's relevant vectors of entry K, 0 to 1,000,000, of the atlas of dimension `d`, 2 to 6, that the source
/// spells: the points that with their negatives are the only shortest ones of their class modulo 2, for each form with the triangulation of
/// the entry. They are its edges, 2^d - 1 in number.
///
/// It writes to `out` a line `vectors V` and a line with the coordinates of each of the V vectors, in ascending order, one of each pair of
/// opposite ones. NoEntry exactly where the atlas is right and has no entry K; Refused exactly where it isn't right.
pub fn relevant_command<S: Source, K: Sink, E: Sink>(
    alloc: Global,
    d: u8,
    entry: u32,
    source: &mut S,
    out: &mut K,
    err: &mut E,
) -> Status
    requires dimension { IsDimension d }
    requires entry { entry ≤ most_entry }
    ensures code { result.code ≡ code_of result.cause }
    ensures answer { AnswersRelevant d entry
        (change (S.left source.old) (S.left source.new) (S.faults source.old) (S.faults source.new))
        (change (K.held out.old) (K.held out.new) (K.faults out.old) (K.faults out.new)) result.cause }
    ensures complete { NotRisen (S.faults source.old) (S.faults source.new) →
        NotRisen (K.faults out.old) (K.faults out.new) → EndsRelevant d entry
        (change (S.left source.old) (S.left source.new) (S.faults source.old) (S.faults source.new)) result.cause }
    ensures line { Reports (change (E.held err.old) (E.held err.new) (E.faults err.old) (E.faults err.new))
        (err_text result.cause) }
{
    write_relevant(alloc, d, entry, source, out).report(err)
}
