//! The shortest vectors of a form.

use lt_lattice::Point;

/// The least value of a form, and where it is reached.
#[derive(Drop)]
pub struct Shortest {
    /// The least value at an integer point other than 0.
    pub least: i128,
    /// The points with this value, one of each pair of opposite ones: that whose first coordinate other than 0 is positive. In
    /// ascending order, 1 to `2^d - 1` points of `d` coordinates.
    pub vectors: Vec<Point>,
}
