//! The summary of an atlas.

ghost use Rattle.std.specs.Prelude.{◌≡◌, ◌<◌, ◌≤◌, ℕ, [], length, pos, IfOk};
ghost use Rattle.std.specs.List.{All};
ghost use Rattle.lt_core.specs.Marks.{entry_of, mark_of};
ghost use Rattle.lt_io.specs.Causes.{HasCause};
ghost use Rattle.lt_io.specs.Bytes.{Wrote};
ghost use Rattle.lt_model.specs.Cones.{normals as normals_of};
ghost use Rattle.std.specs.Prelude.{map};
ghost use Rattle.lt_tableau.specs.Errors.{AreOfDimension};
ghost use Rattle.ltypes.specs.Summaries.{columns, entry_line, entry_summary, entry_summaries, summary_text, weight_of, entry_weights};

use crate::totals::{crossed_in, undecided_in, write_totals};
use lt_core::{Atlas, Entry, Mark};
use lt_io::{Failed, Sink};
use lt_lattice::Normal;
use lt_lines::{write_line, write_right};
use lt_lp::Row;
use lt_model::Memory;
use lt_tableau::weight;
use std::alloc::Global;

/// The normals of rows.
fn normals(alloc: Global, rows: &[Row]) -> Result<Vec<Normal>, Memory>
    ensures { IfOk result (λ v. v.items ≡ normals_of rows.now) }
{
    let mut all = Vec::new(alloc);
    for row in rows {
        all.push(row.normal.copy())?;
    }
    Ok(all)
}

/// The weight of an entry: that of the regulators that its cone lists.
fn weight_of_entry(alloc: Global, entry: &Entry) -> Result<i128, Memory>
    ensures { IfOk result (λ w. (d : ℕ) → AreOfDimension d (normals_of (entry_of entry.now).cone.rows) → w ≡ pos
        (weight_of d (entry_of entry.now))) }
{
    let normals = normals(alloc, &entry.cone.rows)?;
    Ok(weight(&normals))
}

/// The weights of the entries of an atlas.
pub fn weights_of(alloc: Global, atlas: &Atlas) -> Result<Vec<i128>, Memory>
    ensures { IfOk result (λ v. v.items ≡ entry_weights atlas.now) }
{
    atlas.keeps();
    let mut all = Vec::new(alloc);
    for k in 0..atlas.entries() {
        all.push(weight_of_entry(alloc, atlas.entry(k))?)?;
    }
    Ok(all)
}

/// Writes numbers, each right in so many places.
fn write_columns<K: Sink>(out: &mut K, numbers: &[(usize, u64)]) -> Result<(), Failed>
    requires { All (λ c. c.0 ≤ 16) numbers.now }
    ensures bytes { Wrote (K.held out.old) (K.held out.new) result (columns numbers.now) }
    ensures cause { HasCause (K.faults out.old) (K.faults out.new) result }
{
    for (width, number) in numbers {
        write_right(out, *width, *number)?;
    }
    Ok(())
}

/// The counts of the line of an entry: its number, its classes, regulators and facets, and its marks that are crossed and open.
#[derive(Clone, Copy, Drop)]
struct Counts {
    entry: u64,
    classes: u64,
    regulators: u64,
    facets: u64,
    crossed: u64,
    undecided: u64,
}

/// Writes the line of an entry.
fn write_counts<K: Sink>(out: &mut K, counts: &Counts, weight: i128) -> Result<(), Failed>
    ensures bytes { (w : ℕ) → weight ≡ pos w → Wrote (K.held out.old) (K.held out.new) result
        (entry_line counts.now.entry counts.now.classes counts.now.regulators counts.now.facets counts.now.crossed counts.now.undecided w) }
    ensures cause { HasCause (K.faults out.old) (K.faults out.new) result }
{
    write_columns(
        out,
        &[
            (6, counts.entry),
            (10, counts.classes),
            (11, counts.regulators),
            (7, counts.facets),
            (8, counts.crossed),
            (8, counts.undecided),
        ],
    )?;
    write_line(out, b"", &[weight])
}

/// Writes the line of entry `k`, whose weight this is.
fn write_entry<K: Sink>(
    out: &mut K,
    k: u32,
    entry: &Entry,
    marks: &[Mark],
    weight: i128,
) -> Result<(), Failed>
    ensures bytes { (d : ℕ) → weight ≡ pos (weight_of d (entry_of entry.now)) → Wrote (K.held out.old)
        (K.held out.new) result
        (entry_summary d k (entry_of entry.now) (map mark_of marks.now)) }
    ensures cause { HasCause (K.faults out.old) (K.faults out.new) result }
{
    let counts = Counts {
        entry: k as u64,
        classes: entry.triangulation.len() as u64,
        regulators: entry.cone.regulators() as u64,
        facets: entry.cone.facets() as u64,
        crossed: crossed_in(marks),
        undecided: undecided_in(marks),
    };
    write_counts(out, &counts, weight)
}

/// Writes the lines of all entries.
fn write_entries<K: Sink>(out: &mut K, atlas: &Atlas, weights: &[i128]) -> Result<(), Failed>
    requires { weights.now ≡ entry_weights atlas.now }
    ensures bytes { Wrote (K.held out.old) (K.held out.new) result
        (entry_summaries atlas.now (length atlas.now.entries)) }
    ensures cause { HasCause (K.faults out.old) (K.faults out.new) result }
{
    atlas.keeps();
    for k in 0..atlas.entries() {
        write_entry(out, k, atlas.entry(k), atlas.marks(k), weights[k as usize])?;
    }
    Ok(())
}

/// Writes the summary of an atlas, whose weights these are.
pub fn write_summary<K: Sink>(out: &mut K, atlas: &Atlas, weights: &[i128]) -> Result<(), Failed>
    requires { weights.now ≡ entry_weights atlas.now }
    ensures bytes { Wrote (K.held out.old) (K.held out.new) result (summary_text atlas.now) }
    ensures cause { HasCause (K.faults out.old) (K.faults out.new) result }
{
    write_line(
        out,
        b"  type simplices regulators facets crossed    open weight",
        &[],
    )?;
    write_entries(out, atlas, weights)?;
    write_totals(out, b"types", atlas)
}
