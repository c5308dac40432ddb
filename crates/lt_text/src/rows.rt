//! The lines of a cone.

ghost use Rattle.std.specs.Prelude.{◌≡◌};
ghost use Rattle.std.specs.List.{flat_map};
ghost use Rattle.lt_io.specs.Causes.{HasCause};
ghost use Rattle.lt_io.specs.Bytes.{Wrote};
ghost use Rattle.lt_model.specs.Cones.{wall, combination};
ghost use Rattle.lt_lp.specs.Verdicts.{verdict_of};
ghost use Rattle.lt_text.specs.Gathered.{Gathered};
ghost use Rattle.lt_text.specs.Texts.{term_numbers, combination_part, verdict_line, row_line, rows_text, cone_text};

use crate::gathering::{Line, gather, gather_count, gather_line};
use crate::starts::{write_list, write_start};
use arrayvec::ArrayVec;
use lt_io::{Block, Failed, Sink};
use lt_lattice::{Form, Normal};
use lt_lines::write_line;
use lt_lp::{Cone, Row, Verdict};

/// The terms of a combination: places and coefficients.
pub type Terms = ArrayVec<(usize, i128), 21>;

/// The place and the coefficient of each term.
fn numbers_of(terms: &Terms) -> ArrayVec<i128, 42>
    ensures { result.items ≡ term_numbers terms.now.items }
{
    let mut numbers: ArrayVec<i128, 42> = ArrayVec::new();
    for term in terms.as_slice() {
        numbers.push(term.0 as i128);
        numbers.push(term.1);
    }
    numbers
}

/// Writes the line of a facet.
fn write_facet<K: Sink>(out: &mut K, normal: &Normal, form: &Form) -> Result<(), Failed>
    ensures bytes { Wrote (K.held out.old) (K.held out.new) result (verdict_line normal.now (wall form.now)) }
    ensures cause { HasCause (K.faults out.old) (K.faults out.new) result }
{
    write_start(out, b"facet", normal.numbers())?;
    write_line(out, b" wall", form.numbers())
}

/// Writes the scale and the terms of a combination, to the end of the line: ` scale`, the scale, ` terms`, their number, and the place
/// and the coefficient of each.
pub fn write_terms<K: Sink>(out: &mut K, scale: &i128, terms: &Terms) -> Result<(), Failed>
    ensures bytes { Wrote (K.held out.old) (K.held out.new) result (combination_part scale.now terms.now.items) }
    ensures cause { HasCause (K.faults out.old) (K.faults out.new) result }
{
    write_start(out, b" scale", &[*scale])?;
    write_list(
        out,
        b" terms",
        terms.len() as u64,
        numbers_of(terms).as_slice(),
    )
}

/// Writes the line of a redundant normal.
fn write_redundant<K: Sink>(
    out: &mut K,
    normal: &Normal,
    scale: &i128,
    terms: &Terms,
) -> Result<(), Failed>
    ensures bytes { Wrote (K.held out.old) (K.held out.new) result
        (verdict_line normal.now (combination scale.now terms.now.items)) }
    ensures cause { HasCause (K.faults out.old) (K.faults out.new) result }
{
    write_start(out, b"redundant", normal.numbers())?;
    write_terms(out, scale, terms)
}

/// Writes the line of a normal with its verdict.
fn write_verdict<K: Sink>(out: &mut K, normal: &Normal, verdict: &Verdict) -> Result<(), Failed>
    ensures bytes { Wrote (K.held out.old) (K.held out.new) result (verdict_line normal.now (verdict_of verdict.now)) }
    ensures cause { HasCause (K.faults out.old) (K.faults out.new) result }
{
    match verdict {
        Verdict::Wall(form) => write_facet(out, normal, form),
        Verdict::Combination { scale, terms } => write_redundant(out, normal, scale, terms),
    }
}

impl Line for Row {
    ghost text = { row_line };

    fn write<K: Sink>(&self, out: &mut K) -> Result<(), Failed> {
        write_verdict(out, &self.normal, &self.verdict)
    }
}

/// Writes a line for each row by way of the block.
fn gather_rows<K: Sink>(block: &mut Block, out: &mut K, rows: &[Row]) -> Result<(), Failed>
    ensures bytes { Gathered (K.held out.old) (K.held out.new) block.old.held block.new.held result
        (flat_map row_line rows.now) }
    ensures cause { HasCause (K.faults out.old) (K.faults out.new) result }
{
    for row in rows {
        gather(block, out, row)?;
    }
    Ok(())
}

/// Writes the number of rows and the rows by way of the block.
fn gather_regulators<K: Sink>(block: &mut Block, out: &mut K, rows: &[Row]) -> Result<(), Failed>
    ensures bytes { Gathered (K.held out.old) (K.held out.new) block.old.held block.new.held result
        (rows_text rows.now) }
    ensures cause { HasCause (K.faults out.old) (K.faults out.new) result }
{
    gather_count(block, out, b"regulators", rows.len() as u64)?;
    gather_rows(block, out, rows)
}

/// Writes the rows and the form of a cone by way of the block.
pub fn gather_cone<K: Sink>(block: &mut Block, out: &mut K, cone: &Cone) -> Result<(), Failed>
    ensures bytes { Gathered (K.held out.old) (K.held out.new) block.old.held block.new.held result
        (cone_text cone.now) }
    ensures cause { HasCause (K.faults out.old) (K.faults out.new) result }
{
    gather_regulators(block, out, cone.rows.as_slice())?;
    gather_line(block, out, b"form", cone.form.numbers())
}
