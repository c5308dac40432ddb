ghost use Rattle.std.specs.Prelude.{◌≡◌, ◌<◌, ◌≤◌, ◌++◌, [], ◌∷◌, pos, length, take, codes};
ghost use Rattle.std.specs.Fmt.{signed_decimal};
ghost use Rattle.lt_io.specs.Causes.{HasCause};
ghost use Rattle.lt_io.specs.Bytes.{Wrote};
ghost use Rattle.lt_lines.specs.Lines.{spaced, behind_spaces, line, numbers_line, right_in};

use itoa::Buffer;
use lt_io::{Failed, Sink, write_all};

/// Writes a number.
fn write_number<K: Sink>(sink: &mut K, number: &i128) -> Result<(), Failed>
    ensures bytes { Wrote (K.held sink.old) (K.held sink.new) result (signed_decimal number.now) }
    ensures cause { HasCause (K.faults sink.old) (K.faults sink.new) result }
{
    let mut buffer = Buffer::new();
    write_all(sink, buffer.format(*number).as_bytes())
}

/// Writes a space and a number.
fn write_spaced<K: Sink>(sink: &mut K, number: &i128) -> Result<(), Failed>
    ensures bytes { Wrote (K.held sink.old) (K.held sink.new) result (spaced number.now) }
    ensures cause { HasCause (K.faults sink.old) (K.faults sink.new) result }
{
    write_all(sink, b" ")?;
    write_number(sink, number)
}

/// Writes numbers, each behind a space.
pub fn write_part<K: Sink>(sink: &mut K, numbers: &[i128]) -> Result<(), Failed>
    ensures bytes { Wrote (K.held sink.old) (K.held sink.new) result (behind_spaces numbers.now) }
    ensures cause { HasCause (K.faults sink.old) (K.faults sink.new) result }
{
    for number in numbers {
        write_spaced(sink, number)?;
    }
    Ok(())
}

/// Writes a line of a first word and numbers.
pub fn write_line<K: Sink>(sink: &mut K, word: &[u8], numbers: &[i128]) -> Result<(), Failed>
    ensures bytes { Wrote (K.held sink.old) (K.held sink.new) result (line word.now numbers.now) }
    ensures cause { HasCause (K.faults sink.old) (K.faults sink.new) result }
{
    write_all(sink, word)?;
    write_part(sink, numbers)?;
    write_all(sink, b"\n")
}

/// Writes a line of a first word and a count.
pub fn write_count<K: Sink>(sink: &mut K, word: &[u8], count: u64) -> Result<(), Failed>
    ensures bytes { Wrote (K.held sink.old) (K.held sink.new) result (line word.now (pos count ∷ [])) }
    ensures cause { HasCause (K.faults sink.old) (K.faults sink.new) result }
{
    write_line(sink, word, &[count as i128])
}

/// Writes a line of a first number and others.
fn write_started<K: Sink>(sink: &mut K, first: &i128, rest: &[i128]) -> Result<(), Failed>
    ensures bytes { Wrote (K.held sink.old) (K.held sink.new) result (line (signed_decimal first.now) rest.now) }
    ensures cause { HasCause (K.faults sink.old) (K.faults sink.new) result }
{
    let mut buffer = Buffer::new();
    write_line(sink, buffer.format(*first).as_bytes(), rest)
}

/// Writes a line of numbers alone.
pub fn write_numbers<K: Sink>(sink: &mut K, numbers: &[i128]) -> Result<(), Failed>
    ensures bytes { Wrote (K.held sink.old) (K.held sink.new) result (numbers_line numbers.now) }
    ensures cause { HasCause (K.faults sink.old) (K.faults sink.new) result }
{
    match numbers {
        [] => write_all(sink, b"\n"),
        [first, rest @ ..] => write_started(sink, first, rest),
    }
}

/// The blanks before a number that stands right in its column.
const BLANKS: &[u8] = b"                ";

/// Writes so many blanks, at most 16.
fn write_blanks<K: Sink>(sink: &mut K, count: usize) -> Result<(), Failed>
    requires { count ≤ 16 }
    ensures bytes { Wrote (K.held sink.old) (K.held sink.new) result (take count (codes "                ")) }
    ensures cause { HasCause (K.faults sink.old) (K.faults sink.new) result }
{
    write_all(sink, &BLANKS[..count])
}

/// Writes a number so that it stands right in `width` places, at most 16; a wider one is written whole.
pub fn write_right<K: Sink>(sink: &mut K, width: usize, number: u64) -> Result<(), Failed>
    requires { width ≤ 16 }
    ensures bytes { Wrote (K.held sink.old) (K.held sink.new) result (right_in width number) }
    ensures cause { HasCause (K.faults sink.old) (K.faults sink.new) result }
{
    let mut buffer = Buffer::new();
    let text = buffer.format(number);
    write_blanks(sink, width.saturating_sub(text.len()))?;
    write_all(sink, text.as_bytes())
}
