//! The lines of an entry.

ghost use Rattle.std.specs.Prelude.{map};
ghost use Rattle.lt_io.specs.Causes.{HasCause};
ghost use Rattle.lt_io.specs.Bytes.{Wrote};
ghost use Rattle.lt_core.specs.Marks.{mark_of, entry_of};
ghost use Rattle.lt_model.specs.Atlases.{place_of};
ghost use Rattle.lt_text.specs.Gathered.{Gathered};
ghost use Rattle.lt_text.specs.Texts.{from_part, origin_part, origin_line, entry_text};

use crate::gathering::{Line, gather};
use crate::halves::gather_half;
use crate::marks::gather_marks;
use crate::rows::gather_cone;
use crate::starts::{write_counted, write_list};
use lt_core::{Entry, Mark};
use lt_io::{Block, Failed, Sink};
use lt_lines::write_line;

/// The number of an entry, and the entry and facet from which it came.
#[derive(Drop)]
struct Origin {
    number: u32,
    from: Option<(u32, u32)>,
}

/// Writes the entry and the facet from which an entry came.
fn write_from<K: Sink>(out: &mut K, entry: u32, facet: u32) -> Result<(), Failed>
    ensures bytes { Wrote (K.held out.old) (K.held out.new) result (from_part entry facet) }
    ensures cause { HasCause (K.faults out.old) (K.faults out.new) result }
{
    write_list(out, b" from", entry as u64, &[facet as i128])
}

/// Writes from where an entry came.
fn write_origin<K: Sink>(out: &mut K, from: Option<(u32, u32)>) -> Result<(), Failed>
    ensures bytes { Wrote (K.held out.old) (K.held out.new) result (origin_part (place_of from)) }
    ensures cause { HasCause (K.faults out.old) (K.faults out.new) result }
{
    match from {
        None => write_line(out, b" start", &[]),
        Some((entry, facet)) => write_from(out, entry, facet),
    }
}

impl Line for Origin {
    ghost text = { λ o. origin_line o.number (place_of o.from) };

    fn write<K: Sink>(&self, out: &mut K) -> Result<(), Failed> {
        write_counted(out, b"entry", self.number as u64)?;
        write_origin(out, self.from)
    }
}

/// Writes the entry with this number and the marks of its facets by way of the block.
pub fn gather_entry<K: Sink>(
    block: &mut Block,
    out: &mut K,
    number: u32,
    entry: &Entry,
    marks: &[Mark],
) -> Result<(), Failed>
    ensures bytes { Gathered (K.held out.old) (K.held out.new) block.old.held block.new.held result
        (entry_text number (entry_of entry.now) (map mark_of marks.now)) }
    ensures cause { HasCause (K.faults out.old) (K.faults out.new) result }
{
    let from = entry.origin;
    gather(block, out, &Origin { number, from })?;
    gather_half(block, out, &entry.triangulation)?;
    gather_cone(block, out, &entry.cone)?;
    gather_marks(block, out, marks)
}
