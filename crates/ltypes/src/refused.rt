//! The line of a refusal.

ghost use Rattle.lt_io.specs.Causes.{HasCause};
ghost use Rattle.lt_io.specs.Bytes.{Wrote};
ghost use Rattle.ltypes.specs.Texts.{pair_text, twin_text, refusal_text};

use crate::printed::write_named;
use lt_io::{Failed, Sink};
use lt_lattice::Matrix;
use lt_lines::{write_count, write_line};
use lt_read::Refusal;

/// Writes a line of a word and two counts.
fn write_pair<E: Sink>(err: &mut E, word: &[u8], first: u32, second: u32) -> Result<(), Failed>
    ensures bytes { Wrote (E.held err.old) (E.held err.new) result (pair_text word.now first second) }
    ensures cause { HasCause (E.faults err.old) (E.faults err.new) result }
{
    write_named(err, word, first as u64)?;
    write_count(err, b"", second as u64)
}

/// Writes the line of two equivalent entries, and the matrix that carries the second onto the first.
fn write_twin<E: Sink>(err: &mut E, i: u32, j: u32, matrix: &Matrix) -> Result<(), Failed>
    ensures bytes { Wrote (E.held err.old) (E.held err.new) result (twin_text i j matrix.now) }
    ensures cause { HasCause (E.faults err.old) (E.faults err.new) result }
{
    write_named(err, b"refused: twin", i as u64)?;
    write_named(err, b"", j as u64)?;
    write_line(err, b"", matrix.numbers())
}

/// Writes the line of a refusal.
pub fn write_refusal<E: Sink>(err: &mut E, refusal: &Refusal) -> Result<(), Failed>
    ensures bytes { Wrote (E.held err.old) (E.held err.new) result (refusal_text refusal.now) }
    ensures cause { HasCause (E.faults err.old) (E.faults err.new) result }
{
    match refusal {
        Refusal::TooLong => write_line(err, b"refused: too long", &[]),
        Refusal::Syntax { line } => write_count(err, b"refused: syntax line", *line),
        Refusal::OtherDimension { found } => {
            write_count(err, b"refused: other dimension", *found as u64)
        }
        Refusal::NotPrincipal => write_line(err, b"refused: not principal", &[]),
        Refusal::BadOrigin { k } => write_count(err, b"refused: origin", *k as u64),
        Refusal::BadSimplices { k } => write_count(err, b"refused: simplices", *k as u64),
        Refusal::BadCone { k, row } => write_pair(err, b"refused: cone", *k, *row),
        Refusal::BadCross { k, facet } => write_pair(err, b"refused: cross", *k, *facet),
        Refusal::Twin { i, j, matrix } => write_twin(err, *i, *j, matrix),
    }
}
