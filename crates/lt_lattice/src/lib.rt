//! Points, forms, normals and matrices of exact numbers, which take no memory.
#![tactic(auto)]

mod forms;
mod matrices;
mod normals;
mod numbers;
mod points;

pub use forms::{Form, squares, value};
pub use matrices::{Matrix, TooLarge, apply, inverse_of, times};
pub use normals::{Normal, pair};
pub use points::Point;
