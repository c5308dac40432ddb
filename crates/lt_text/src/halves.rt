//! The half of the classes that a text lists: of each pair of a class and that of its negatives the one that comes first.

ghost use Rattle.std.specs.Prelude.{◌≡◌, length};
ghost use Rattle.lt_io.specs.Causes.{HasCause};
ghost use Rattle.lt_model.specs.Negatives as negatives;
ghost use Rattle.lt_model.specs.Negatives.{negative, half};
ghost use Rattle.lt_text.specs.Gathered.{Gathered};
ghost use Rattle.lt_text.specs.Texts.{class_lines, triangulation_text};

use crate::gathering::{gather, gather_count};
use arrayvec::ArrayVec;
use lt_io::{Block, Failed, Sink};
use lt_lattice::Point;
use lt_triang::{Class, Triangulation};

/// The vertices of the class of the negatives, in ascending order.
fn negative_vertices(class: &Class) -> ArrayVec<Point, 7>
    ensures { result.items ≡ negative class.now }
{
    // It shows that the vertices are near to one another.
    let _dimension = class.dimension();
    let vertices = class.vertices();
    let count = vertices.len();
    let mut points: ArrayVec<Point, 7> = ArrayVec::new();
    for i in 0..count {
        match vertices[count - 1].minus(&vertices[count - 1 - i]) {
            Some(point) => points.push(point),
            None => unreachable!(),
        }
    }
    points
}

/// Whether a class comes before that of its negatives, in the order of classes.
pub fn comes_first(class: &Class) -> bool
    ensures { result ≡ negatives.comes_first class.now }
{
    let points = negative_vertices(class);
    class.vertices().cmp(points.as_slice()).is_lt()
}

/// The number of classes that come before those of their negatives.
fn count_half(triangulation: &Triangulation) -> usize
    ensures { result ≡ length (half triangulation.now) }
{
    let mut count = 0;
    for i in 0..triangulation.len() {
        if comes_first(triangulation.class(i)) {
            count += 1;
        }
    }
    count
}

/// Writes a line for each class that comes before that of its negatives by way of the block.
fn gather_each<K: Sink>(
    block: &mut Block,
    out: &mut K,
    triangulation: &Triangulation,
) -> Result<(), Failed>
    ensures bytes { Gathered (K.held out.old) (K.held out.new) block.old.held block.new.held result
        (class_lines (half triangulation.now)) }
    ensures cause { HasCause (K.faults out.old) (K.faults out.new) result }
{
    for i in 0..triangulation.len() {
        let class = triangulation.class(i);
        if comes_first(class) {
            gather(block, out, class)?;
        }
    }
    Ok(())
}

/// Writes the number of classes that come before those of their negatives, and these classes, by way of the block.
pub fn gather_half<K: Sink>(
    block: &mut Block,
    out: &mut K,
    triangulation: &Triangulation,
) -> Result<(), Failed>
    ensures bytes { Gathered (K.held out.old) (K.held out.new) block.old.held block.new.held result
        (triangulation_text (half triangulation.now)) }
    ensures cause { HasCause (K.faults out.old) (K.faults out.new) result }
{
    gather_count(block, out, b"simplices", count_half(triangulation) as u64)?;
    gather_each(block, out, triangulation)
}
