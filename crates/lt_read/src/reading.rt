//! Reading an atlas from a source of bytes.

ghost use Rattle.std.specs.Prelude.{◌≡◌, ◌≤◌, [], length, IfOk, IfErr};
ghost use Rattle.lt_model.specs.Limits as limits;
ghost use Rattle.lt_model.specs.RightAtlases.{IsRight};
ghost use Rattle.lt_model.specs.Walls.{IsAcross};
ghost use Rattle.lt_grammar.specs.Ranges.{TextFits};
ghost use Rattle.lt_grammar.specs.Parsed.{text_of};
ghost use Rattle.lt_read.specs.Stops.{IsStop};
ghost use Rattle.lt_read.specs.Reading.{IsAtlasOf, ReadsAtlas, IsWhyUnread};

use crate::crosses::wrong_cross;
use crate::entries::check_entries;
use crate::marks::as_marks;
use crate::refusals::{ReadError, Refusal, Stop};
use crate::twins::first_twin;
use lt_core::{Atlas, prints_of};
use lt_grammar::{Parsed, parse_version};
use lt_io::{Source, read_all};
use std::alloc::Global;

/// The greatest number of bytes of an input.
pub fn input_limit(d: u8) -> usize
    ensures { result ≡ limits.input_limit d }
{
    if d <= 5 { 1 << 26 } else { 1 << 30 }
}

/// The atlas of what was parsed of a text of the version, where it is right.
fn atlas_of(alloc: Global, version: u8, parsed: Parsed) -> Result<Atlas, Stop>
    requires fits { TextFits (text_of parsed) }
    requires paired { length parsed.entries.items ≡ length parsed.marks.items }
    ensures atlas { IfOk result (IsAtlasOf version (text_of parsed)) }
    ensures right { IfOk result (λ a. IsRight (IsAcross a.dimension) a) }
    ensures why { IfErr result (IsStop version parsed.d (text_of parsed).entries) }
{
    let Parsed { d, entries, marks } = parsed;
    let entries = check_entries(alloc, version, d, entries, &marks)?;
    if let Some((k, facet)) = wrong_cross(alloc, d, &entries, &marks)? {
        return Err(Stop::Refused(Refusal::BadCross {
            k: k as u32,
            facet: facet as u32,
        }));
    }
    let prints = prints_of(alloc, &entries)?;
    if let Some((i, j, matrix)) = first_twin(alloc, d, &entries, &prints)? {
        return Err(Stop::Refused(Refusal::Twin {
            i: i as u32,
            j: j as u32,
            matrix,
        }));
    }
    let marks = as_marks(alloc, marks)?;
    let atlas = Atlas::of(alloc, d, entries, marks)?;
    // It shows that the atlas is right.
    atlas.keeps();
    Ok(atlas)
}

/// Reads all bytes that the source has left as a text of the version, and answers the atlas that it spells, where it is right.
fn read_version<S: Source>(
    alloc: Global,
    version: u8,
    source: &mut S,
    d: u8,
) -> Result<Atlas, ReadError>
    ensures read { IfOk result (ReadsAtlas version d (S.left source.old) (S.left source.new)) }
    ensures dimension { IfOk result (λ a. a.dimension ≡ d) }
    ensures unrun { IfOk result (λ a. a.log ≡ []) }
    ensures few { IfOk result (λ a. length a.entries ≤ 100001) }
    ensures why { IfErr result (IsWhyUnread version d (S.left source.old) (S.left source.new)
        (S.faults source.old) (S.faults source.new)) }
    ensures later { S.faults source.old ≤ S.faults source.new }
{
    let bytes = read_all(alloc, source, input_limit(d))?;
    let parsed = parse_version(alloc, &bytes, version, d)?;
    drop(bytes);
    Ok(atlas_of(alloc, version, parsed)?)
}

/// Reads all bytes that the source has left, and answers the atlas of dimension `d` that they spell in version 2 of the text, where
/// it is right: wide and heavy marks are open, the log is empty, and the queue has the open facets. Bytes of another dimension are
/// refused, so any `d` may be asked for; bytes of another version have their fault in line 1.
pub fn read_atlas<S: Source>(alloc: Global, source: &mut S, d: u8) -> Result<Atlas, ReadError>
    ensures read { IfOk result (ReadsAtlas 2 d (S.left source.old) (S.left source.new)) }
    ensures dimension { IfOk result (λ a. a.dimension ≡ d) }
    ensures unrun { IfOk result (λ a. a.log ≡ []) }
    ensures few { IfOk result (λ a. length a.entries ≤ 100001) }
    ensures why { IfErr result (IsWhyUnread 2 d (S.left source.old) (S.left source.new)
        (S.faults source.old) (S.faults source.new)) }
    ensures later { S.faults source.old ≤ S.faults source.new }
{
    read_version(alloc, 2, source, d)
}

/// The same of bytes that spell it in version 1 of the text, which lists all classes.
pub fn read_atlas_1<S: Source>(alloc: Global, source: &mut S, d: u8) -> Result<Atlas, ReadError>
    ensures read { IfOk result (ReadsAtlas 1 d (S.left source.old) (S.left source.new)) }
    ensures dimension { IfOk result (λ a. a.dimension ≡ d) }
    ensures unrun { IfOk result (λ a. a.log ≡ []) }
    ensures few { IfOk result (λ a. length a.entries ≤ 100001) }
    ensures why { IfErr result (IsWhyUnread 1 d (S.left source.old) (S.left source.new)
        (S.faults source.old) (S.faults source.new)) }
    ensures later { S.faults source.old ≤ S.faults source.new }
{
    read_version(alloc, 1, source, d)
}
