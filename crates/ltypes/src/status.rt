ghost use Rattle.std.specs.Prelude.{◌≡◌, ◌++◌, [], codes};
ghost use Rattle.std.specs.Fmt.{decimal};
ghost use Rattle.lt_core.specs.Marks.{mark_of};
ghost use Rattle.lt_lines.specs.Lines.{line};
ghost use Rattle.lt_io.specs.Causes.{HasCause};
ghost use Rattle.lt_io.specs.Bytes.{Wrote};
ghost use Rattle.ltypes.specs.Texts.{code_of, err_text, unfinished_line, stop_part, walked_line, long_edge_line, part_refused_line, mark_part, stuck_line};
ghost use Rattle.ltypes.specs.Writings.{Reports};
ghost use Rattle.ltypes.specs.Changes.{change};

use crate::printed::{write_coordinates, write_named, write_named_number, write_named_point};
use crate::refused::write_refusal;
use itoa::Buffer;
use lt_core::Mark;
use lt_io::{Failed, Sink, write_all};
use lt_lattice::{Normal, Point};
use lt_lines::{write_count, write_line};
use lt_locate::WalkStop;
use lt_read::Refusal;

/// Why the program ends. The number of each stands at `Status::code`.
#[derive(Drop)]
pub enum Cause {
    /// `run`: every facet of the written atlas is crossed.
    Finished,
    /// Another command wrote its whole output.
    Done,
    /// `run`: memory was not refused, and some facet of the written atlas is not crossed.
    Unfinished {
        /// The number of wide and heavy marks.
        stuck: u64,
        /// The number of open marks.
        undecided: u64,
    },
    /// The words are no command: the first fault stands at `place`, counted from 0.
    Words {
        place: u32,
    },
    /// The source spells no right atlas, for this reason.
    Refused(Refusal),
    /// Memory was refused.
    Memory,
    /// The source failed.
    ReadFault,
    /// The sink for the output failed.
    WriteFault,
    /// The form isn't positive definite.
    NotPositive {
        /// The first edge at which its value isn't positive.
        x: Point,
    },
    /// The form lies on a wall.
    OnWall {
        /// The first facet that is 0 there.
        facet: Normal,
    },
    /// The walk to the form stopped on the way.
    Walked {
        /// The number of crossings until then.
        after: u32,
        /// Why.
        why: WalkStop,
    },
    /// An edge of the triangulation of the form is too long for its covering radius.
    LongEdge {
        /// The first edge with a value above the span limit.
        x: Point,
        /// Its value.
        length: i128,
    },
    /// The atlas has no entry with the number.
    NoEntry {
        /// The number of its entries.
        entries: u32,
    },
    /// The weight of the normals of a section, filled up with zeros, is at least 2^112.
    SectionHeavy {
        /// The weight, at most 2^120.
        weight: i128,
    },
    /// The source doesn't spell two right atlases, one after the other.
    MergeRefused {
        /// The part that is refused: 1 or 2, or 0 where the source is too long.
        part: u8,
        /// Why.
        refusal: Refusal,
    },
    /// An entry of the second atlas is like none that the first has come to.
    MergeStuck {
        /// The number of the entry.
        entry: u32,
        /// The mark of the facet behind which it lies, wide or heavy.
        mark: Mark,
    },
}

/// How the program ends.
#[derive(Drop)]
pub struct Status {
    /// The number of the cause, with which the program ends.
    pub code: u8,
    pub cause: Cause,
}

/// Writes the line of a run that is not finished.
fn write_unfinished<E: Sink>(err: &mut E, stuck: u64, undecided: u64) -> Result<(), Failed>
    ensures bytes { Wrote (E.held err.old) (E.held err.new) result (unfinished_line stuck undecided) }
    ensures cause { HasCause (E.faults err.old) (E.faults err.new) result }
{
    write_named(err, b"unfinished: stuck", stuck)?;
    write_count(err, b" undecided", undecided)
}

/// Writes why a walk stopped, to the end of the line.
fn write_stop<E: Sink>(err: &mut E, why: &WalkStop) -> Result<(), Failed>
    ensures bytes { Wrote (E.held err.old) (E.held err.new) result (stop_part why.now) }
    ensures cause { HasCause (E.faults err.old) (E.faults err.new) result }
{
    match why {
        WalkStop::Steps => write_line(err, b": steps", &[]),
        WalkStop::Wide { span } => write_line(err, b": wide", &[i128::from(*span)]),
        WalkStop::Heavy { weight } => write_line(err, b": heavy", &[*weight]),
    }
}

/// Writes the line of a walk that stopped.
fn write_walked<E: Sink>(err: &mut E, after: u32, why: &WalkStop) -> Result<(), Failed>
    ensures bytes { Wrote (E.held err.old) (E.held err.new) result (walked_line after why.now) }
    ensures cause { HasCause (E.faults err.old) (E.faults err.new) result }
{
    write_named(err, b"stopped after", after as u64)?;
    write_stop(err, why)
}

/// Writes the line of an edge that is too long.
fn write_long_edge<E: Sink>(err: &mut E, x: &Point, length: &i128) -> Result<(), Failed>
    ensures bytes { Wrote (E.held err.old) (E.held err.new) result (long_edge_line x.now length.now) }
    ensures cause { HasCause (E.faults err.old) (E.faults err.new) result }
{
    write_all(err, b"long edge:")?;
    write_coordinates(err, x)?;
    write_named_number(err, b"", length)
}

/// Writes the line of a part of an input that is refused.
fn write_part_refused<E: Sink>(err: &mut E, part: u8, refusal: &Refusal) -> Result<(), Failed>
    ensures bytes { Wrote (E.held err.old) (E.held err.new) result (part_refused_line part refusal.now) }
    ensures cause { HasCause (E.faults err.old) (E.faults err.new) result }
{
    write_named(err, b"part", part as u64)?;
    write_all(err, b" ")?;
    write_refusal(err, refusal)
}

/// Writes a weight, to the end of the line.
fn write_weight<E: Sink>(err: &mut E, weight: u128) -> Result<(), Failed>
    ensures bytes { Wrote (E.held err.old) (E.held err.new) result (codes ": heavy " ++ line (decimal weight) []) }
    ensures cause { HasCause (E.faults err.old) (E.faults err.new) result }
{
    let mut buffer = Buffer::new();
    write_all(err, b": heavy ")?;
    write_line(err, buffer.format(weight).as_bytes(), &[])
}

/// Writes what a mark is, to the end of the line.
fn write_mark<E: Sink>(err: &mut E, mark: &Mark) -> Result<(), Failed>
    ensures bytes { Wrote (E.held err.old) (E.held err.new) result (mark_part (mark_of mark.now)) }
    ensures cause { HasCause (E.faults err.old) (E.faults err.new) result }
{
    match mark {
        Mark::Open => write_line(err, b": open", &[]),
        Mark::Cross { target, .. } => write_count(err, b": cross", *target as u64),
        Mark::Wide { span, .. } => write_count(err, b": wide", *span),
        Mark::Heavy { weight } => write_weight(err, *weight),
    }
}

/// Writes the line of an entry that is stuck.
fn write_stuck<E: Sink>(err: &mut E, entry: u32, mark: &Mark) -> Result<(), Failed>
    ensures bytes { Wrote (E.held err.old) (E.held err.new) result (stuck_line entry (mark_of mark.now)) }
    ensures cause { HasCause (E.faults err.old) (E.faults err.new) result }
{
    write_named(err, b"merge stuck", entry as u64)?;
    write_mark(err, mark)
}

impl Cause {
    /// The number of the cause.
    pub fn code(&self) -> u8
        ensures { result ≡ code_of self.now }
    {
        match self {
            Cause::Finished | Cause::Done => 0,
            Cause::Unfinished { .. } => 1,
            Cause::Words { .. } => 2,
            Cause::Refused(_) => 3,
            Cause::Memory => 4,
            Cause::ReadFault => 5,
            Cause::WriteFault => 6,
            Cause::NotPositive { .. } => 7,
            Cause::OnWall { .. } => 8,
            Cause::Walked { .. } => 9,
            Cause::LongEdge { .. } => 10,
            Cause::NoEntry { .. } => 11,
            Cause::SectionHeavy { .. } => 12,
            Cause::MergeRefused { .. } => 13,
            Cause::MergeStuck { .. } => 14,
        }
    }

    /// Writes the line of the cause, if it has one.
    fn write<E: Sink>(&self, err: &mut E) -> Result<(), Failed>
        ensures bytes { Wrote (E.held err.old) (E.held err.new) result (err_text self.now) }
        ensures cause { HasCause (E.faults err.old) (E.faults err.new) result }
    {
        match self {
            Cause::Finished | Cause::Done => Ok(()),
            Cause::Unfinished { stuck, undecided } => write_unfinished(err, *stuck, *undecided),
            Cause::Words { place } => write_count(err, b"words: place", *place as u64),
            Cause::Refused(refusal) => write_refusal(err, refusal),
            Cause::Memory => write_line(err, b"memory", &[]),
            Cause::ReadFault => write_line(err, b"read fault", &[]),
            Cause::WriteFault => write_line(err, b"write fault", &[]),
            Cause::NotPositive { x } => write_named_point(err, b"not positive:", x),
            Cause::OnWall { facet } => write_line(err, b"on wall:", facet.numbers()),
            Cause::Walked { after, why } => write_walked(err, *after, why),
            Cause::LongEdge { x, length } => write_long_edge(err, x, length),
            Cause::NoEntry { entries } => write_count(err, b"no entry", *entries as u64),
            Cause::SectionHeavy { weight } => write_named_number(err, b"section heavy", weight),
            Cause::MergeRefused { part, refusal } => write_part_refused(err, *part, refusal),
            Cause::MergeStuck { entry, mark } => write_stuck(err, *entry, mark),
        }
    }

    /// Tells the cause, and makes it the end.
    pub fn report<E: Sink>(self, err: &mut E) -> Status
        ensures status { result ≡ record { code = code_of self; cause = self } }
        ensures line { Reports (change (E.held err.old) (E.held err.new) (E.faults err.old) (E.faults err.new))
            (err_text self) }
    {
        // A failure of err changes nothing else.
        let _ = self.write(err);
        Status {
            code: self.code(),
            cause: self,
        }
    }
}
