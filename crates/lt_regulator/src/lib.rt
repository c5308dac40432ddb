//! The regulators of a Delaunay triangulation.
#![tactic(auto)]

mod excess;
mod facets;

pub use facets::{has_regulator, regulator, regulators};
