//! The lines of classes.

ghost use Rattle.std.specs.Prelude.{◌≡◌, ◌+◌, ◌≤◌, ◌++◌, length};
ghost use Rattle.arrayvec.specs.ArrayVec.{array_vec_len};
ghost use Rattle.lt_io.specs.Causes.{HasCause};
ghost use Rattle.lt_io.specs.Bytes.{Wrote};
ghost use Rattle.lt_text.specs.Gathered.{Gathered};
ghost use Rattle.lt_text.specs.Texts.{class_numbers, class_line, class_lines, triangulation_text};

use crate::gathering::{Line, gather, gather_count};
use arrayvec::ArrayVec;
use lt_io::{Block, Failed, Sink};
use lt_lattice::Point;
use lt_lines::write_numbers;
use lt_triang::{Class, Triangulation};

/// The room for the coordinates of a class, which has at most 7 points of at most 6 coordinates.
pub const ROOM: usize = 42;

/// Puts the coordinates of a point to the end of the numbers.
fn push_point(numbers: &mut ArrayVec<i128, ROOM>, point: &Point)
    requires { array_vec_len numbers.old + 6 ≤ 42 }
    ensures items { numbers.new.items ≡ numbers.old.items ++ point.now }
    ensures len { array_vec_len numbers.new ≤ array_vec_len numbers.old + 6 }
{
    let coords = point.coords();
    for coord in coords {
        numbers.push(i128::from(*coord));
    }
}

/// The coordinates of points, at most 7, one after the other.
fn coordinates(points: &[Point]) -> ArrayVec<i128, ROOM>
    requires { length points.now ≤ 7 }
    ensures { result.items ≡ class_numbers points.now }
{
    let mut numbers = ArrayVec::new();
    for point in points {
        push_point(&mut numbers, point);
    }
    numbers
}

/// The coordinates of a class, point by point.
pub fn coordinates_of(class: &Class) -> ArrayVec<i128, ROOM>
    ensures { result.items ≡ class_numbers class.now }
{
    // It shows that there are at most 7 vertices.
    let _dimension = class.dimension();
    coordinates(class.vertices())
}

impl Line for Class {
    ghost text = { class_line };

    fn write<K: Sink>(&self, out: &mut K) -> Result<(), Failed> {
        write_numbers(out, coordinates_of(self).as_slice())
    }
}

/// Writes a line for each class by way of the block.
fn gather_classes<K: Sink>(
    block: &mut Block,
    out: &mut K,
    triangulation: &Triangulation,
) -> Result<(), Failed>
    ensures bytes { Gathered (K.held out.old) (K.held out.new) block.old.held block.new.held result
        (class_lines triangulation.now) }
    ensures cause { HasCause (K.faults out.old) (K.faults out.new) result }
{
    for i in 0..triangulation.len() {
        gather(block, out, triangulation.class(i))?;
    }
    Ok(())
}

/// Writes the number of classes and the classes by way of the block.
fn gather_triangulation<K: Sink>(
    block: &mut Block,
    out: &mut K,
    triangulation: &Triangulation,
) -> Result<(), Failed>
    ensures bytes { Gathered (K.held out.old) (K.held out.new) block.old.held block.new.held result
        (triangulation_text triangulation.now) }
    ensures cause { HasCause (K.faults out.old) (K.faults out.new) result }
{
    gather_count(block, out, b"simplices", triangulation.len() as u64)?;
    gather_classes(block, out, triangulation)
}

/// Writes a line `simplices` with the number of classes and a line for each class, in ascending order: the
/// coordinates of its points, point by point. Failed where the sink failed, which then gained a front of these
/// lines. It takes no memory.
pub fn write_triangulation<K: Sink>(
    out: &mut K,
    triangulation: &Triangulation,
) -> Result<(), Failed>
    ensures bytes { Wrote (K.held out.old) (K.held out.new) result (triangulation_text triangulation.now) }
    ensures cause { HasCause (K.faults out.old) (K.faults out.new) result }
{
    let mut block = Block::new();
    gather_triangulation(&mut block, out, triangulation)?;
    block.pass_on(out)
}
