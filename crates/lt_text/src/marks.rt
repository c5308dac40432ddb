//! The lines of marks.

ghost use Rattle.std.specs.Prelude.{pos, [], ◌∷◌, map, codes};
ghost use Rattle.std.specs.List.{flat_map};
ghost use Rattle.lt_io.specs.Causes.{HasCause};
ghost use Rattle.lt_io.specs.Bytes.{Wrote};
ghost use Rattle.lt_model.specs.Atlases.{cross, heavy};
ghost use Rattle.lt_core.specs.Marks.{mark_of, matrix_rows};
ghost use Rattle.lt_text.specs.Gathered.{Gathered};
ghost use Rattle.lt_text.specs.Texts.{mark_line, marks_text};

use crate::classes::coordinates_of;
use crate::gathering::{Line, gather, gather_count};
use crate::starts::write_list;
use itoa::Buffer;
use lt_core::Mark;
use lt_io::{Block, Failed, Sink, write_all};
use lt_lattice::Matrix;
use lt_lines::write_line;

/// Writes the line of a cross mark.
fn write_cross<K: Sink>(out: &mut K, target: u32, matrix: &Matrix) -> Result<(), Failed>
    ensures bytes { Wrote (K.held out.old) (K.held out.new) result (mark_line (cross target (matrix_rows matrix.now))) }
    ensures cause { HasCause (K.faults out.old) (K.faults out.new) result }
{
    // It shows how many numbers there are.
    let _dimension = matrix.dimension();
    write_list(out, b"cross", target as u64, matrix.numbers())
}

/// Writes the line of a heavy mark.
fn write_heavy<K: Sink>(out: &mut K, weight: u128) -> Result<(), Failed>
    ensures bytes { Wrote (K.held out.old) (K.held out.new) result (mark_line (heavy weight)) }
    ensures cause { HasCause (K.faults out.old) (K.faults out.new) result }
{
    let mut buffer = Buffer::new();
    write_all(out, b"heavy ")?;
    write_line(out, buffer.format(weight).as_bytes(), &[])
}

impl Line for Mark {
    ghost text = { λ m. mark_line (mark_of m) };

    fn write<K: Sink>(&self, out: &mut K) -> Result<(), Failed> {
        match self {
            Mark::Open => write_line(out, b"open", &[]),
            Mark::Cross { target, matrix } => write_cross(out, *target, matrix),
            Mark::Wide { class, span } => write_list(
                out,
                b"wide",
                *span,
                coordinates_of(class).as_slice(),
            ),
            Mark::Heavy { weight } => write_heavy(out, *weight),
        }
    }
}

/// Writes a line for each mark by way of the block.
fn gather_each<K: Sink>(block: &mut Block, out: &mut K, marks: &[Mark]) -> Result<(), Failed>
    ensures bytes { Gathered (K.held out.old) (K.held out.new) block.old.held block.new.held result (flat_map
        (λ m. mark_line (mark_of m)) marks.now) }
    ensures cause { HasCause (K.faults out.old) (K.faults out.new) result }
{
    for mark in marks {
        gather(block, out, mark)?;
    }
    Ok(())
}

/// Writes the number of marks and the marks by way of the block.
pub fn gather_marks<K: Sink>(block: &mut Block, out: &mut K, marks: &[Mark]) -> Result<(), Failed>
    ensures bytes { Gathered (K.held out.old) (K.held out.new) block.old.held block.new.held result
        (marks_text (map mark_of marks.now)) }
    ensures cause { HasCause (K.faults out.old) (K.faults out.new) result }
{
    gather_count(block, out, b"marks", marks.len() as u64)?;
    gather_each(block, out, marks)
}
