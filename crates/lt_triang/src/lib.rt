//! Classes of simplices, triangulations, and the neighbours of their facets.
#![tactic(auto)]

mod carrying;
mod classes;
mod codes;
mod dependencies;
mod errors;
mod expressions;
mod indexes;
mod neighbours;
mod rows;
mod spans;
mod triangulations;
mod vertices;
mod walls;

pub use classes::{Class, Flat};
pub use errors::TriangError;
pub use expressions::Expression;
pub use neighbours::{Neighbour, Outer, member};
pub use spans::{are_near, span_limit, span_of};
pub use triangulations::{Triangulation, sorted_distinct};
