ghost use Rattle.std.specs.Prelude.{◌≡◌, [], ◌∷◌};
ghost use Rattle.lt_io.specs.Causes.{HasCause};
ghost use Rattle.lt_io.specs.Bytes.{Wrote};
ghost use Rattle.lt_lines.specs.Lines.{behind_spaces, line, numbers_line};
ghost use Rattle.ltypes.specs.Texts.{type_text, named};

use arrayvec::ArrayVec;
use lt_io::{Failed, Sink, write_all};
use lt_lattice::Point;
use lt_lines::{write_count, write_line, write_numbers, write_part};
use lt_text::write_triangulation;
use lt_triang::Triangulation;

/// Writes a word and a count, with no end of line.
pub fn write_named<K: Sink>(out: &mut K, word: &[u8], count: u64) -> Result<(), Failed>
    ensures bytes { Wrote (K.held out.old) (K.held out.new) result (named word.now count) }
    ensures cause { HasCause (K.faults out.old) (K.faults out.new) result }
{
    write_all(out, word)?;
    write_part(out, &[count as i128])
}

/// Writes the numbers of a form in `d` variables and its triangulation.
pub fn write_type<K: Sink>(
    out: &mut K,
    d: u8,
    form: &[i128],
    triangulation: &Triangulation,
) -> Result<(), Failed>
    ensures bytes { Wrote (K.held out.old) (K.held out.new) result (type_text d form.now triangulation.now) }
    ensures cause { HasCause (K.faults out.old) (K.faults out.new) result }
{
    write_count(out, b"dimension", d as u64)?;
    write_line(out, b"form", form)?;
    write_triangulation(out, triangulation)
}

/// The coordinates of a point.
fn coordinates(point: &Point) -> ArrayVec<i128, 6>
    ensures { result.items ≡ point.now }
{
    let mut numbers: ArrayVec<i128, 6> = ArrayVec::new();
    let coords = point.coords();
    for coord in coords {
        numbers.push(i128::from(*coord));
    }
    numbers
}

/// Writes a line of a word and a number.
pub fn write_named_number<K: Sink>(out: &mut K, word: &[u8], number: &i128) -> Result<(), Failed>
    ensures bytes { Wrote (K.held out.old) (K.held out.new) result (line word.now (number.now ∷ [])) }
    ensures cause { HasCause (K.faults out.old) (K.faults out.new) result }
{
    write_line(out, word, &[*number])
}

/// Writes the coordinates of a point, each behind a space, with no end of line.
pub fn write_coordinates<K: Sink>(out: &mut K, point: &Point) -> Result<(), Failed>
    ensures bytes { Wrote (K.held out.old) (K.held out.new) result (behind_spaces point.now) }
    ensures cause { HasCause (K.faults out.old) (K.faults out.new) result }
{
    write_part(out, coordinates(point).as_slice())
}

/// Writes a line of a word and the coordinates of a point.
pub fn write_named_point<K: Sink>(out: &mut K, word: &[u8], point: &Point) -> Result<(), Failed>
    ensures bytes { Wrote (K.held out.old) (K.held out.new) result (line word.now point.now) }
    ensures cause { HasCause (K.faults out.old) (K.faults out.new) result }
{
    write_line(out, word, coordinates(point).as_slice())
}

/// Writes a line of the coordinates of a point.
pub fn write_point<K: Sink>(out: &mut K, point: &Point) -> Result<(), Failed>
    ensures bytes { Wrote (K.held out.old) (K.held out.new) result (numbers_line point.now) }
    ensures cause { HasCause (K.faults out.old) (K.faults out.new) result }
{
    write_numbers(out, coordinates(point).as_slice())
}
