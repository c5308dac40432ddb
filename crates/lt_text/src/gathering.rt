//! Lines that are gathered in a block.

ghost use Rattle.std.specs.Prelude.{ℕ, pos, List, [], ◌∷◌};
ghost use Rattle.lt_io.specs.Causes.{HasCause};
ghost use Rattle.lt_io.specs.Bytes.{Wrote};
ghost use Rattle.lt_lines.specs.Lines.{line};
ghost use Rattle.lt_text.specs.Gathered.{Gathered};

use lt_io::{Block, Failed, Sink};
use lt_lines::write_line;

/// What is written as one line.
pub trait Line {
    /// The bytes of the line.
    ghost text: { Self → List ℕ };

    /// Writes the line.
    fn write<K: Sink>(&self, out: &mut K) -> Result<(), Failed>
        ensures bytes { Wrote (K.held out.old) (K.held out.new) result (text self.now) }
        ensures cause { HasCause (K.faults out.old) (K.faults out.new) result };
}

/// Gives what waits to the sink, unless the block is roomy.
fn make_room<K: Sink>(block: &mut Block, out: &mut K) -> Result<(), Failed>
    ensures bytes { Gathered (K.held out.old) (K.held out.new) block.old.held block.new.held result [] }
    ensures cause { HasCause (K.faults out.old) (K.faults out.new) result }
{
    if block.is_roomy() {
        return Ok(());
    }
    block.pass_on(out)
}

/// Puts a line behind what waits. A line that has no room in the block goes to the sink itself.
fn add<L: Line, K: Sink>(block: &mut Block, out: &mut K, line: &L) -> Result<(), Failed>
    ensures bytes { Gathered (K.held out.old) (K.held out.new) block.old.held block.new.held result (L.text line.now) }
    ensures cause { HasCause (K.faults out.old) (K.faults out.new) result }
{
    let waiting = block.len();
    match line.write(block) {
        Ok(()) => Ok(()),
        Err(Failed) => {
            block.cut(waiting);
            block.pass_on(out)?;
            line.write(out)
        }
    }
}

/// Writes a line by way of the block.
pub fn gather<L: Line, K: Sink>(block: &mut Block, out: &mut K, line: &L) -> Result<(), Failed>
    ensures bytes { Gathered (K.held out.old) (K.held out.new) block.old.held block.new.held result (L.text line.now) }
    ensures cause { HasCause (K.faults out.old) (K.faults out.new) result }
{
    make_room(block, out)?;
    add(block, out, line)
}

/// A line of a word and numbers.
#[derive(Drop)]
struct Words<'a> {
    word: &'a [u8],
    numbers: &'a [i128],
}

impl Line for Words<'_> {
    ghost text = { λ l. line l.word.now l.numbers.now };

    fn write<K: Sink>(&self, out: &mut K) -> Result<(), Failed> {
        write_line(out, self.word, self.numbers)
    }
}

/// Writes a line of a word and numbers by way of the block.
pub fn gather_line<K: Sink>(
    block: &mut Block,
    out: &mut K,
    word: &[u8],
    numbers: &[i128],
) -> Result<(), Failed>
    ensures bytes { Gathered (K.held out.old) (K.held out.new) block.old.held block.new.held result
        (line word.now numbers.now) }
    ensures cause { HasCause (K.faults out.old) (K.faults out.new) result }
{
    gather(block, out, &Words { word, numbers })
}

/// Writes a line of a word and a count by way of the block.
pub fn gather_count<K: Sink>(
    block: &mut Block,
    out: &mut K,
    word: &[u8],
    count: u64,
) -> Result<(), Failed>
    ensures bytes { Gathered (K.held out.old) (K.held out.new) block.old.held block.new.held result
        (line word.now (pos count ∷ [])) }
    ensures cause { HasCause (K.faults out.old) (K.faults out.new) result }
{
    gather_line(block, out, word, &[count as i128])
}
