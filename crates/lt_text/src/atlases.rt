//! The text of an atlas.

ghost use Rattle.std.specs.Prelude.{length};
ghost use Rattle.lt_io.specs.Causes.{HasCause};
ghost use Rattle.lt_io.specs.Bytes.{Wrote};
ghost use Rattle.lt_text.specs.Example.{ExampleIsSpelt};
ghost use Rattle.lt_text.specs.Gathered.{Gathered};
ghost use Rattle.lt_text.specs.Texts.{head_text, entries_text, atlas_text};
ghost use Rattle.lt_text.specs.Values.{AtlasesAreSpelt};

use crate::entries::gather_entry;
use crate::gathering::{gather_count, gather_line};
use lt_core::Atlas;
use lt_io::{Block, Failed, Sink};

/// Writes the version, the dimension and the number of entries by way of the block.
fn gather_head<K: Sink>(block: &mut Block, out: &mut K, atlas: &Atlas) -> Result<(), Failed>
    ensures bytes { Gathered (K.held out.old) (K.held out.new) block.old.held block.new.held result
        (head_text atlas.now.dimension (length atlas.now.entries)) }
    ensures cause { HasCause (K.faults out.old) (K.faults out.new) result }
{
    gather_count(block, out, b"ltypes", 2)?;
    gather_count(block, out, b"dimension", atlas.dimension() as u64)?;
    gather_count(block, out, b"entries", atlas.entries() as u64)
}

/// Writes the entries by way of the block.
fn gather_entries<K: Sink>(block: &mut Block, out: &mut K, atlas: &Atlas) -> Result<(), Failed>
    ensures bytes { Gathered (K.held out.old) (K.held out.new) block.old.held block.new.held result
        (entries_text atlas.now.marks 0 atlas.now.entries) }
    ensures cause { HasCause (K.faults out.old) (K.faults out.new) result }
{
    // It shows that each entry has its marks.
    atlas.keeps();
    for k in 0..atlas.entries() {
        gather_entry(block, out, k, atlas.entry(k), atlas.marks(k))?;
    }
    Ok(())
}

/// Writes the text by way of the block.
fn gather_atlas<K: Sink>(block: &mut Block, out: &mut K, atlas: &Atlas) -> Result<(), Failed>
    ensures bytes { Gathered (K.held out.old) (K.held out.new) block.old.held block.new.held result
        (atlas_text atlas.now) }
    ensures cause { HasCause (K.faults out.old) (K.faults out.new) result }
{
    gather_head(block, out, atlas)?;
    gather_entries(block, out, atlas)?;
    gather_line(block, out, b"end", &[])
}

/// Writes the text of an atlas, version 2: its dimension, its entries with their marks, and a last line `end`. Of each pair of a class and
/// that of its negatives the one that comes first is listed.
/// Failed where the sink failed, which then gained a front of the text. It takes no memory.
pub fn write_atlas<K: Sink>(atlas: &Atlas, out: &mut K) -> Result<(), Failed>
    ensures bytes { Wrote (K.held out.old) (K.held out.new) result (atlas_text atlas.now) }
    ensures cause { HasCause (K.faults out.old) (K.faults out.new) result }
{
    let mut block = Block::new();
    gather_atlas(&mut block, out, atlas)?;
    block.pass_on(out)
}

/// A law, with nothing to run: how an atlas of dimension 2 is spelt.
pub fn example_is_spelt()
    ensures { ExampleIsSpelt }
{}

/// A law, with nothing to run: the text of an atlas is that of what it spells, which the grammar is about.
pub fn atlases_are_spelt()
    ensures { AtlasesAreSpelt }
{}
