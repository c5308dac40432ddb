//! The commands on a form.

ghost use Rattle.std.specs.Prelude.{◌≡◌, ◌<◌, ◌⊎◌, [], ◌∷◌, get_or, codes, IfOk, IfErr};
ghost use Rattle.std.specs.Prelude as prelude;
ghost use Rattle.std.specs.List.{All, flat_map};
ghost use Rattle.lt_cover.specs.Covers.{AreShort, IsCover};
ghost use Rattle.lt_io.specs.Causes.{HasCause};
ghost use Rattle.lt_io.specs.Bytes.{Wrote};
ghost use Rattle.lt_lattice.specs.Ranges.{IsWithin};
ghost use Rattle.lt_lines.specs.Lines.{behind_spaces, line, numbers_line};
ghost use Rattle.lt_text.specs.Texts.{class_numbers};
ghost use Rattle.lt_model.specs.Triangulations.{IsDelaunay};
ghost use Rattle.lt_num.specs.Fractions.{IsReduced};
ghost use Rattle.lt_triang.specs.Kept.{dimension_of};
ghost use Rattle.lt_words.specs.Grammar.{IsWalkGiven, most_of_form};
ghost use Rattle.ltypes.specs.Changes.{change};
ghost use Rattle.ltypes.specs.Complete.{NotRisen, EndsForm};
ghost use Rattle.ltypes.specs.declared.status.Cause.TheVariants.{Memory};
ghost use Rattle.ltypes.specs.Forms.{IsLocated, IsUnlocated, IsTooLong, refuses_none, AnswersLocate, AnswersCover, AnswersShortest, locate_text, cover_text, shortest_text, vectors_text, radius_line};
ghost use Rattle.ltypes.specs.Texts.{code_of, err_text};
ghost use Rattle.ltypes.specs.Writings.{Reports};

use crate::printed::{write_named_number, write_point};
use crate::status::{Cause, Status};
use lt_cover::{Cover, CoverError, cover};
use lt_io::{Failed, Sink, write_all};
use lt_lattice::{Form, Point};
use lt_lines::{write_count, write_line, write_numbers, write_part};
use lt_locate::{LocateError, Located, locate};
use lt_num::Fraction;
use lt_relevant::{Shortest, shortest};
use lt_text::{coordinates_of, write_triangulation};
use lt_triang::Class;
use std::alloc::Global;

/// The triangulation of a form, to which at most so many crossings lead.
pub fn located(alloc: Global, q: &Form, steps: u32) -> Result<Located, Cause>
    requires { All (IsWithin most_of_form) q.now }
    ensures found { IfOk result (λ l. IsLocated (dimension_of l.triangulation) steps q.now l.crossed l.triangulation) }
    ensures why { IfErr result (IsUnlocated steps q.now) }
{
    let _dimension = q.dimension();
    match locate(alloc, q, steps) {
        Ok(located) => Ok(located),
        Err(LocateError::NotPositive { x }) => Err(Cause::NotPositive { x }),
        Err(LocateError::OnWall { facet }) => Err(Cause::OnWall { facet }),
        Err(LocateError::Stopped { crossed, why }) => Err(Cause::Walked {
            after: crossed,
            why,
        }),
        Err(LocateError::Memory) => Err(Cause::Memory),
    }
}

/// Writes the number of crossings and the triangulation.
fn write_located<K: Sink>(out: &mut K, located: &Located) -> Result<(), Failed>
    ensures bytes { Wrote (K.held out.old) (K.held out.new) result
        (locate_text located.now.crossed located.now.triangulation) }
    ensures cause { HasCause (K.faults out.old) (K.faults out.new) result }
{
    write_count(out, b"located after", located.crossed as u64)?;
    write_triangulation(out, &located.triangulation)
}

/// Walks to the triangulation of a form, and writes it.
fn write_locate<K: Sink>(alloc: Global, q: &Form, steps: u32, out: &mut K) -> Cause
    requires { All (IsWithin most_of_form) q.now }
    ensures { AnswersLocate steps q.now
        (change (K.held out.old) (K.held out.new) (K.faults out.old) (K.faults out.new)) result }
{
    match located(alloc, q, steps) {
        Err(cause) => cause,
        Ok(located) => match write_located(out, &located) {
            Ok(()) => Cause::Done,
            Err(Failed) => Cause::WriteFault,
        },
    }
}

/// The command `locate D B` and a form in D variables, 2 to 6, with numbers of at most 2^40 in absolute value: the Delaunay triangulation
/// of the form, to which at most `steps` crossings lead from the principal one (Voronoi 1908).
///
/// It writes to `out` a line `located after I` with the number of crossings, a line `simplices M`, and a line for each of the M classes in
/// ascending order, with the coordinates of its points. NotPositive, OnWall and Walked exactly where the walk ends otherwise.
pub fn locate_command<K: Sink, E: Sink>(
    alloc: Global,
    q: &Form,
    steps: u32,
    out: &mut K,
    err: &mut E,
) -> Status
    requires { IsWalkGiven steps q.now }
    ensures code { result.code ≡ code_of result.cause }
    ensures answer { AnswersLocate steps q.now
        (change (K.held out.old) (K.held out.new) (K.faults out.old) (K.faults out.new)) result.cause }
    ensures complete { NotRisen (K.faults out.old) (K.faults out.new) → EndsForm refuses_none steps q.now result.cause }
    ensures line { Reports (change (E.held err.old) (E.held err.new) (E.faults err.old) (E.faults err.new))
        (err_text result.cause) }
{
    write_locate(alloc, q, steps, out).report(err)
}

/// The covering radius of a form with this triangulation.
fn covered(alloc: Global, q: &Form, located: &Located) -> Result<Cover, Cause>
    requires within { All (IsWithin most_of_form) q.now }
    requires delaunay { IsDelaunay (dimension_of located.now.triangulation) q.now located.now.triangulation }
    ensures lowest { IfOk result (λ c. IsReduced c.radius) }
    ensures short { IfOk result (λ _. AreShort (dimension_of located.now.triangulation) q.now
        located.now.triangulation) }
    ensures cover { IfOk result (λ c. IsCover (dimension_of located.now.triangulation) q.now located.now.triangulation
        c.radius c.class) }
    ensures why { IfErr result (λ c. (c ≡ Memory) ⊎ IsTooLong q.now (dimension_of located.now.triangulation)
        located.now.triangulation c) }
{
    match cover(alloc, q, &located.triangulation) {
        Ok(cover) => Ok(cover),
        Err(CoverError::LongEdge { x, length }) => Err(Cause::LongEdge { x, length }),
        Err(CoverError::Memory) => Err(Cause::Memory),
    }
}

/// Writes the numerator of a fraction behind a space.
fn write_numerator<K: Sink>(out: &mut K, fraction: &Fraction) -> Result<(), Failed>
    ensures bytes { Wrote (K.held out.old) (K.held out.new) result (behind_spaces (fraction.now.num ∷ [])) }
    ensures cause { HasCause (K.faults out.old) (K.faults out.new) result }
{
    write_part(out, &[fraction.num()])
}

/// Writes a line of the denominator of a fraction.
fn write_denominator<K: Sink>(out: &mut K, fraction: &Fraction) -> Result<(), Failed>
    ensures bytes { Wrote (K.held out.old) (K.held out.new) result (numbers_line (fraction.now.den ∷ [])) }
    ensures cause { HasCause (K.faults out.old) (K.faults out.new) result }
{
    write_numbers(out, &[fraction.den()])
}

/// Writes a squared radius.
fn write_radius<K: Sink>(out: &mut K, radius: &Fraction) -> Result<(), Failed>
    ensures bytes { Wrote (K.held out.old) (K.held out.new) result (radius_line radius.now) }
    ensures cause { HasCause (K.faults out.old) (K.faults out.new) result }
{
    write_all(out, b"radius")?;
    write_numerator(out, radius)?;
    write_all(out, b"/")?;
    write_denominator(out, radius)
}

/// Writes a line of a word and the coordinates of a class.
fn write_class<K: Sink>(out: &mut K, class: &Class) -> Result<(), Failed>
    ensures bytes { Wrote (K.held out.old) (K.held out.new) result (line (codes "class") (class_numbers class.now)) }
    ensures cause { HasCause (K.faults out.old) (K.faults out.new) result }
{
    write_line(out, b"class", coordinates_of(class).as_slice())
}

/// Writes the number of crossings, the squared covering radius, and the member that has it.
fn write_covered<K: Sink>(out: &mut K, located: &Located, cover: &Cover) -> Result<(), Failed>
    requires { cover.now.class < prelude.length located.now.triangulation }
    ensures bytes { Wrote (K.held out.old) (K.held out.new) result
        (cover_text located.now.crossed cover.now.radius (get_or located.now.triangulation cover.now.class [])) }
    ensures cause { HasCause (K.faults out.old) (K.faults out.new) result }
{
    write_count(out, b"located after", located.crossed as u64)?;
    write_radius(out, &cover.radius)?;
    write_class(out, located.triangulation.class(cover.class))
}

/// Walks to the triangulation of a form, and writes its covering radius.
fn write_cover<K: Sink>(alloc: Global, q: &Form, steps: u32, out: &mut K) -> Cause
    requires { All (IsWithin most_of_form) q.now }
    ensures { AnswersCover steps q.now
        (change (K.held out.old) (K.held out.new) (K.faults out.old) (K.faults out.new)) result }
{
    let located = match located(alloc, q, steps) {
        Ok(located) => located,
        Err(cause) => return cause,
    };
    match covered(alloc, q, &located) {
        Err(cause) => cause,
        Ok(cover) => match write_covered(out, &located, &cover) {
            Ok(()) => Cause::Done,
            Err(Failed) => Cause::WriteFault,
        },
    }
}

/// The command `cover D B` and a form as in `locate_command`: the squared covering radius of the lattice of integer points under the form, which
/// is the greatest squared circumradius of a member of its triangulation.
///
/// It writes to `out` a line `located after I`, a line `radius P/Q` in lowest terms, and a line `class` with the coordinates of the points of the
/// first member that has this squared circumradius. LongEdge exactly where an edge of the triangulation has a value above the span limit.
pub fn cover_command<K: Sink, E: Sink>(
    alloc: Global,
    q: &Form,
    steps: u32,
    out: &mut K,
    err: &mut E,
) -> Status
    requires { IsWalkGiven steps q.now }
    ensures code { result.code ≡ code_of result.cause }
    ensures answer { AnswersCover steps q.now
        (change (K.held out.old) (K.held out.new) (K.faults out.old) (K.faults out.new)) result.cause }
    ensures complete { NotRisen (K.faults out.old) (K.faults out.new) → EndsForm (IsTooLong q.now) steps q.now
        result.cause }
    ensures line { Reports (change (E.held err.old) (E.held err.new) (E.faults err.old) (E.faults err.new))
        (err_text result.cause) }
{
    write_cover(alloc, q, steps, out).report(err)
}

/// Writes a line for each vector.
fn write_lines<K: Sink>(out: &mut K, vectors: &[Point]) -> Result<(), Failed>
    ensures bytes { Wrote (K.held out.old) (K.held out.new) result (flat_map numbers_line vectors.now) }
    ensures cause { HasCause (K.faults out.old) (K.faults out.new) result }
{
    for vector in vectors {
        write_point(out, vector)?;
    }
    Ok(())
}

/// Writes the number of vectors, and a line for each.
pub fn write_vectors<K: Sink>(out: &mut K, vectors: &[Point]) -> Result<(), Failed>
    ensures bytes { Wrote (K.held out.old) (K.held out.new) result (vectors_text vectors.now) }
    ensures cause { HasCause (K.faults out.old) (K.faults out.new) result }
{
    write_count(out, b"vectors", vectors.len() as u64)?;
    write_lines(out, vectors)
}

/// Writes the least value and the vectors that have it.
fn write_least<K: Sink>(out: &mut K, shortest: &Shortest) -> Result<(), Failed>
    ensures bytes { Wrote (K.held out.old) (K.held out.new) result
        (shortest_text shortest.now.least shortest.now.vectors.items) }
    ensures cause { HasCause (K.faults out.old) (K.faults out.new) result }
{
    write_named_number(out, b"least", &shortest.least)?;
    write_vectors(out, &shortest.vectors)
}

/// Walks to the triangulation of a form, and writes its shortest vectors.
fn write_shortest<K: Sink>(alloc: Global, q: &Form, steps: u32, out: &mut K) -> Cause
    requires { All (IsWithin most_of_form) q.now }
    ensures { AnswersShortest steps q.now
        (change (K.held out.old) (K.held out.new) (K.faults out.old) (K.faults out.new)) result }
{
    let located = match located(alloc, q, steps) {
        Ok(located) => located,
        Err(cause) => return cause,
    };
    match shortest(alloc, q, &located.triangulation) {
        Err(_) => Cause::Memory,
        Ok(shortest) => match write_least(out, &shortest) {
            Ok(()) => Cause::Done,
            Err(Failed) => Cause::WriteFault,
        },
    }
}

/// The command `shortest D B` and a form as in `locate_command`: the shortest vectors of the lattice of integer points under the form.
///
/// It writes to `out` a line `least L` with the least value of the form at integer points other than 0, a line `vectors V`, and a line with the
/// coordinates of each of the V points that have it, in ascending order, one of each pair of opposite ones.
pub fn shortest_command<K: Sink, E: Sink>(
    alloc: Global,
    q: &Form,
    steps: u32,
    out: &mut K,
    err: &mut E,
) -> Status
    requires { IsWalkGiven steps q.now }
    ensures code { result.code ≡ code_of result.cause }
    ensures answer { AnswersShortest steps q.now
        (change (K.held out.old) (K.held out.new) (K.faults out.old) (K.faults out.new)) result.cause }
    ensures complete { NotRisen (K.faults out.old) (K.faults out.new) → EndsForm refuses_none steps q.now result.cause }
    ensures line { Reports (change (E.held err.old) (E.held err.new) (E.faults err.old) (E.faults err.new))
        (err_text result.cause) }
{
    write_shortest(alloc, q, steps, out).report(err)
}
