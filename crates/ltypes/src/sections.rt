//! The command on a linear section of a secondary cone.

ghost use Rattle.std.specs.Prelude.{◌≡◌, ◌≤◌, ◌⊎◌, pos, [], ◌∷◌, codes, get_or, IfOk, IfErr};
ghost use Rattle.std.specs.List.{flat_map};
ghost use Rattle.lt_io.specs.Causes.{HasCause};
ghost use Rattle.lt_io.specs.Bytes.{Wrote};
ghost use Rattle.lt_lines.specs.Lines.{line};
ghost use Rattle.lt_text.specs.Texts.{start};
ghost use Rattle.lt_triang.specs.Kept.{dimension_of};
ghost use Rattle.lt_words.specs.Grammar.{AreGiven, most_crossings};
ghost use Rattle.ltypes.specs.Changes.{change};
ghost use Rattle.ltypes.specs.Complete.{NotRisen, EndsForm};
ghost use Rattle.ltypes.specs.declared.status.Cause.TheVariants.{Memory};
ghost use Rattle.ltypes.specs.Forms.{IsLocated, AnswersForm};
ghost use Rattle.ltypes.specs.Sections.{IsCut, IsTooHeavy, IsSectionText, AnswersSection, live_line, dead_line, redundant_line, section_row_line, facets_line, section_text, one_if_facet, one_if_dead, facets, dead};
ghost use Rattle.ltypes.specs.Texts.{code_of, err_text, named};
ghost use Rattle.ltypes.specs.Writings.{Reports};

use crate::forms::located;
use crate::printed::{write_named, write_named_point};
use crate::status::{Cause, Status};
use arrayvec::ArrayVec;
use lt_io::{Failed, Sink};
use lt_lattice::{Form, Point};
use lt_lines::{write_count, write_line};
use lt_locate::Located;
use lt_section::{Section, SectionError, SectionRow, SectionVerdict, section};
use lt_text::{Terms, write_start, write_terms};
use std::alloc::Global;

/// Numbers, one for each form.
type Numbers = ArrayVec<i128, 21>;

/// Writes a word and numbers, with no end of line.
fn start_with<K: Sink>(out: &mut K, word: &[u8], numbers: &Numbers) -> Result<(), Failed>
    ensures bytes { Wrote (K.held out.old) (K.held out.new) result (start word.now numbers.now.items) }
    ensures cause { HasCause (K.faults out.old) (K.faults out.new) result }
{
    write_start(out, word, numbers.as_slice())
}

/// Writes the numbers of a form, with no end of line.
fn start_form<K: Sink>(out: &mut K, form: &Form) -> Result<(), Failed>
    ensures bytes { Wrote (K.held out.old) (K.held out.new) result (start (codes " form") form.now) }
    ensures cause { HasCause (K.faults out.old) (K.faults out.new) result }
{
    write_start(out, b" form", form.numbers())
}

/// Writes the numbers of a form, to the end of the line.
fn write_form<K: Sink>(out: &mut K, form: &Form) -> Result<(), Failed>
    ensures bytes { Wrote (K.held out.old) (K.held out.new) result (line (codes " form") form.now) }
    ensures cause { HasCause (K.faults out.old) (K.faults out.new) result }
{
    write_line(out, b" form", form.numbers())
}

/// Writes the row of a live facet.
fn write_live<K: Sink>(
    out: &mut K,
    normal: &Numbers,
    at: &Numbers,
    form: &Form,
) -> Result<(), Failed>
    ensures bytes { Wrote (K.held out.old) (K.held out.new) result (live_line normal.now.items at.now.items form.now) }
    ensures cause { HasCause (K.faults out.old) (K.faults out.new) result }
{
    start_with(out, b"live", normal)?;
    start_with(out, b" at", at)?;
    write_form(out, form)
}

/// Writes the row of a dead facet.
fn write_dead<K: Sink>(
    out: &mut K,
    normal: &Numbers,
    at: &Numbers,
    form: &Form,
    x: &Point,
) -> Result<(), Failed>
    ensures bytes { Wrote (K.held out.old) (K.held out.new) result
        (dead_line normal.now.items at.now.items form.now x.now) }
    ensures cause { HasCause (K.faults out.old) (K.faults out.new) result }
{
    start_with(out, b"dead", normal)?;
    start_with(out, b" at", at)?;
    start_form(out, form)?;
    write_named_point(out, b" vector", x)
}

/// Writes the row of a normal that is no facet.
fn write_redundant<K: Sink>(
    out: &mut K,
    normal: &Numbers,
    scale: &i128,
    terms: &Terms,
) -> Result<(), Failed>
    ensures bytes { Wrote (K.held out.old) (K.held out.new) result
        (redundant_line normal.now.items scale.now terms.now.items) }
    ensures cause { HasCause (K.faults out.old) (K.faults out.new) result }
{
    start_with(out, b"redundant", normal)?;
    write_terms(out, scale, terms)
}

/// Writes a row.
fn write_row<K: Sink>(out: &mut K, row: &SectionRow) -> Result<(), Failed>
    ensures bytes { Wrote (K.held out.old) (K.held out.new) result (section_row_line row.now) }
    ensures cause { HasCause (K.faults out.old) (K.faults out.new) result }
{
    match &row.verdict {
        SectionVerdict::Live { at, form } => write_live(out, &row.normal, at, form),
        SectionVerdict::Dead { at, form, x } => write_dead(out, &row.normal, at, form, x),
        SectionVerdict::Combination { scale, terms } => write_redundant(
            out,
            &row.normal,
            scale,
            terms,
        ),
    }
}

/// Writes a line for each row.
fn write_rows<K: Sink>(out: &mut K, rows: &[SectionRow]) -> Result<(), Failed>
    ensures bytes { Wrote (K.held out.old) (K.held out.new) result (flat_map section_row_line rows.now) }
    ensures cause { HasCause (K.faults out.old) (K.faults out.new) result }
{
    for row in rows {
        write_row(out, row)?;
    }
    Ok(())
}

/// One for a facet, live or dead.
fn facet(row: &SectionRow) -> u64
    ensures one { result ≡ one_if_facet row.now.verdict }
    ensures few { result ≤ 1 }
{
    match &row.verdict {
        SectionVerdict::Live { .. } | SectionVerdict::Dead { .. } => 1,
        SectionVerdict::Combination { .. } => 0,
    }
}

/// One for a dead facet.
fn dead_facet(row: &SectionRow) -> u64
    ensures one { result ≡ one_if_dead row.now.verdict }
    ensures few { result ≤ 1 }
{
    match &row.verdict {
        SectionVerdict::Dead { .. } => 1,
        SectionVerdict::Live { .. } | SectionVerdict::Combination { .. } => 0,
    }
}

/// The number of facets, live or dead.
fn facets_of(rows: &[SectionRow]) -> u64
    ensures { result ≡ facets rows.now }
{
    let mut facets = 0;
    for row in rows {
        facets += facet(row);
    }
    facets
}

/// The number of dead facets.
fn dead_of(rows: &[SectionRow]) -> u64
    ensures { result ≡ dead rows.now }
{
    let mut dead = 0;
    for row in rows {
        dead += dead_facet(row);
    }
    dead
}

/// Writes the number of facets, with no end of line.
fn start_facets<K: Sink>(out: &mut K, rows: &[SectionRow]) -> Result<(), Failed>
    ensures bytes { Wrote (K.held out.old) (K.held out.new) result (named (codes "facets") (facets rows.now)) }
    ensures cause { HasCause (K.faults out.old) (K.faults out.new) result }
{
    write_named(out, b"facets", facets_of(rows))
}

/// Writes the number of dead facets, to the end of the line.
fn write_dead_facets<K: Sink>(out: &mut K, rows: &[SectionRow]) -> Result<(), Failed>
    ensures bytes { Wrote (K.held out.old) (K.held out.new) result (line (codes " dead") (pos (dead rows.now) ∷ [])) }
    ensures cause { HasCause (K.faults out.old) (K.faults out.new) result }
{
    write_count(out, b" dead", dead_of(rows))
}

/// Writes the numbers of facets and of dead ones.
fn write_facets<K: Sink>(out: &mut K, rows: &[SectionRow]) -> Result<(), Failed>
    ensures bytes { Wrote (K.held out.old) (K.held out.new) result (facets_line rows.now) }
    ensures cause { HasCause (K.faults out.old) (K.faults out.new) result }
{
    start_facets(out, rows)?;
    write_dead_facets(out, rows)
}

/// Writes the number of crossings, the rows, and the numbers of facets.
fn write_lines<K: Sink>(out: &mut K, located: &Located, rows: &[SectionRow]) -> Result<(), Failed>
    ensures bytes { Wrote (K.held out.old) (K.held out.new) result (section_text located.now.crossed rows.now) }
    ensures cause { HasCause (K.faults out.old) (K.faults out.new) result }
{
    write_count(out, b"located after", located.crossed as u64)?;
    write_count(out, b"rows", rows.len() as u64)?;
    write_rows(out, rows)?;
    write_facets(out, rows)
}

/// The cone of a triangulation cut by the forms, the first of which has the triangulation.
fn cut(alloc: Global, located: &Located, steps: u32, forms: &[Form]) -> Result<Section, Cause>
    requires forms { AreGiven forms.now }
    requires located { IsLocated (dimension_of located.now.triangulation) steps (get_or forms.now 0 [])
        located.now.crossed located.now.triangulation }
    ensures cut { IfOk result (λ s. IsCut (dimension_of located.now.triangulation) located.now.triangulation forms.now
        s.rows.items) }
    ensures why { IfErr result (λ c. (c ≡ Memory) ⊎ IsTooHeavy forms.now (dimension_of located.now.triangulation)
        located.now.triangulation c) }
{
    match section(alloc, &located.triangulation, forms) {
        Ok(section) => Ok(section),
        Err(SectionError::Heavy { weight }) => Err(Cause::SectionHeavy { weight }),
        Err(SectionError::Memory) => Err(Cause::Memory),
    }
}

/// Walks to the triangulation of the first form, and writes its cone cut by the forms.
fn write_cut<K: Sink>(alloc: Global, first: &Form, forms: &[Form], steps: u32, out: &mut K) -> Cause
    requires given { AreGiven forms.now }
    requires first { first.now ≡ get_or forms.now 0 [] }
    ensures { AnswersForm (IsSectionText forms.now) (IsTooHeavy forms.now) steps first.now
        (change (K.held out.old) (K.held out.new) (K.faults out.old) (K.faults out.new)) result }
{
    let located = match located(alloc, first, steps) {
        Ok(located) => located,
        Err(cause) => return cause,
    };
    match cut(alloc, &located, steps, forms) {
        Err(cause) => cause,
        Ok(section) => match write_lines(out, &located, &section.rows) {
            Ok(()) => Cause::Done,
            Err(Failed) => Cause::WriteFault,
        },
    }
}

/// Walks to the triangulation of the first of the forms, and writes its cone cut by them.
fn write_section<K: Sink>(alloc: Global, forms: &[Form], steps: u32, out: &mut K) -> Cause
    requires { AreGiven forms.now }
    ensures { AnswersSection steps forms.now
        (change (K.held out.old) (K.held out.new) (K.faults out.old) (K.faults out.new)) result }
{
    write_cut(alloc, &forms[0], forms, steps, out)
}

/// The command `section D B M` and M forms in D variables, 2 to 6, from 1 to d(d+1)/2 of them, with numbers of at most 4096 in absolute
/// value: the secondary cone of the first form's triangulation, to which at most `steps` crossings lead, cut by the linear space of the forms.
///
/// It writes to `out` a line `located after I`, a line `rows R`, and a row for each of the R normals of the section, which are the values of the
/// regulators at the forms, in ascending order: `live`, the normal, `at`, a wall, `form`, the form at it; or `dead`, the same, `vector` and
/// the first edge at which the form is 0; or `redundant`, the normal, `scale`, the scale, `terms`, their number, and place and coefficient of
/// each. The last line is `facets F dead G`, where the F facets are the live and the dead ones. SectionHeavy exactly where the weight of the
/// normals, filled up with zeros, is at least 2^112.
pub fn section_command<K: Sink, E: Sink>(
    alloc: Global,
    forms: &[Form],
    steps: u32,
    out: &mut K,
    err: &mut E,
) -> Status
    requires steps { steps ≤ most_crossings }
    requires forms { AreGiven forms.now }
    ensures code { result.code ≡ code_of result.cause }
    ensures answer { AnswersSection steps forms.now
        (change (K.held out.old) (K.held out.new) (K.faults out.old) (K.faults out.new)) result.cause }
    ensures complete { NotRisen (K.faults out.old) (K.faults out.new) →
        EndsForm (IsTooHeavy forms.now) steps (get_or forms.now 0 []) result.cause }
    ensures line { Reports (change (E.held err.old) (E.held err.new) (E.faults err.old) (E.faults err.new))
        (err_text result.cause) }
{
    write_section(alloc, forms, steps, out).report(err)
}
