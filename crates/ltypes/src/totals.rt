//! The counts of an atlas.

ghost use Rattle.std.specs.Prelude.{◌≡◌, ◌≤◌, length, map};
ghost use Rattle.lt_model.specs.Atlases.{count, count_in, one_if_open, one_if_crossed, undecided};
ghost use Rattle.lt_core.specs.Marks.{mark_of};
ghost use Rattle.lt_io.specs.Causes.{HasCause};
ghost use Rattle.lt_io.specs.Bytes.{Wrote};
ghost use Rattle.ltypes.specs.Summaries.{one_for_each, totals_line, totals};

use crate::printed::write_named;
use lt_core::{Atlas, Mark};
use lt_io::{Failed, Sink};
use lt_lines::write_count;

/// 1 for a crossed mark, and 0 for any other.
fn crossings(mark: &Mark) -> u64
    ensures value { result ≡ one_if_crossed (mark_of mark.now) }
    ensures within { result ≤ 1 }
{
    match mark {
        Mark::Cross { .. } => 1,
        Mark::Open => 0,
        Mark::Wide { .. } => 0,
        Mark::Heavy { .. } => 0,
    }
}

/// The number of crossed marks among these.
pub fn crossed_in(marks: &[Mark]) -> u64
    ensures value { result ≡ count_in one_if_crossed (map mark_of marks.now) }
    ensures within { result ≤ length marks.now }
{
    let mut crossed = 0;
    for mark in marks {
        crossed += crossings(mark);
    }
    crossed
}

/// 1 for an open mark, and 0 for any other.
fn openings(mark: &Mark) -> u64
    ensures value { result ≡ one_if_open (mark_of mark.now) }
    ensures within { result ≤ 1 }
{
    match mark {
        Mark::Open => 1,
        Mark::Cross { .. } => 0,
        Mark::Wide { .. } => 0,
        Mark::Heavy { .. } => 0,
    }
}

/// The number of open marks among these.
pub fn undecided_in(marks: &[Mark]) -> u64
    ensures { result ≡ count_in one_if_open (map mark_of marks.now) }
{
    let mut undecided = 0;
    for mark in marks {
        undecided += openings(mark);
    }
    undecided
}

/// The totals of an atlas.
#[derive(Clone, Copy, Drop)]
pub struct Totals {
    /// The number of entries.
    pub entries: u64,
    /// The number of facets of all entries, each of which has a mark.
    pub facets: u64,
    /// The number of crossed marks.
    pub crossed: u64,
    /// The number of open marks.
    pub undecided: u64,
}

/// Counts the entries, facets and marks of an atlas.
pub fn totals_of(atlas: &Atlas) -> Totals
    ensures entries { result.entries ≡ length atlas.now.entries }
    ensures facets { result.facets ≡ count one_for_each atlas.now.marks }
    ensures crossed { result.crossed ≡ count one_if_crossed atlas.now.marks }
    ensures undecided { result.undecided ≡ undecided atlas.now.marks }
{
    atlas.keeps();
    let mut facets = 0;
    let mut crossed = 0;
    for k in 0..atlas.entries() {
        let marks = atlas.marks(k);
        facets += marks.len() as u64;
        crossed += crossed_in(marks);
    }
    Totals {
        entries: atlas.entries() as u64,
        facets,
        crossed,
        undecided: atlas.undecided(),
    }
}

/// Writes a line of totals behind a word.
fn write_numbers<K: Sink>(out: &mut K, word: &[u8], totals: &Totals) -> Result<(), Failed>
    ensures bytes { Wrote (K.held out.old) (K.held out.new) result
        (totals_line word.now totals.now.entries totals.now.facets totals.now.crossed totals.now.undecided) }
    ensures cause { HasCause (K.faults out.old) (K.faults out.new) result }
{
    write_named(out, word, totals.entries)?;
    write_named(out, b" facets", totals.facets)?;
    write_named(out, b" crossed", totals.crossed)?;
    write_count(out, b" undecided", totals.undecided)
}

/// Writes the line of the totals of an atlas behind a word.
pub fn write_totals<K: Sink>(out: &mut K, word: &[u8], atlas: &Atlas) -> Result<(), Failed>
    ensures bytes { Wrote (K.held out.old) (K.held out.new) result (totals word.now atlas.now) }
    ensures cause { HasCause (K.faults out.old) (K.faults out.new) result }
{
    write_numbers(out, word, &totals_of(atlas))
}
