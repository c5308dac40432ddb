//! Starts of lines.

ghost use Rattle.std.specs.Prelude.{pos, [], ◌∷◌};
ghost use Rattle.lt_io.specs.Causes.{HasCause};
ghost use Rattle.lt_io.specs.Bytes.{Wrote};
ghost use Rattle.lt_lines.specs.Lines.{line};
ghost use Rattle.lt_text.specs.Texts.{start};

use lt_io::{Failed, Sink, write_all};
use lt_lines::{write_line, write_part};

/// Writes the start of a line: a word and numbers.
pub fn write_start<K: Sink>(out: &mut K, word: &[u8], numbers: &[i128]) -> Result<(), Failed>
    ensures bytes { Wrote (K.held out.old) (K.held out.new) result (start word.now numbers.now) }
    ensures cause { HasCause (K.faults out.old) (K.faults out.new) result }
{
    write_all(out, word)?;
    write_part(out, numbers)
}

/// Writes the start of a line: a word and a count.
pub fn write_counted<K: Sink>(out: &mut K, word: &[u8], count: u64) -> Result<(), Failed>
    ensures bytes { Wrote (K.held out.old) (K.held out.new) result (start word.now (pos count ∷ [])) }
    ensures cause { HasCause (K.faults out.old) (K.faults out.new) result }
{
    write_start(out, word, &[count as i128])
}

/// Writes a line of a word, a count and numbers.
pub fn write_list<K: Sink>(
    out: &mut K,
    word: &[u8],
    count: u64,
    numbers: &[i128],
) -> Result<(), Failed>
    ensures bytes { Wrote (K.held out.old) (K.held out.new) result (line word.now (pos count ∷ numbers.now)) }
    ensures cause { HasCause (K.faults out.old) (K.faults out.new) result }
{
    write_counted(out, word, count)?;
    write_line(out, b"", numbers)
}
