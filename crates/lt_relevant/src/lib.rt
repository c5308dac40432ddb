//! Voronoi's relevant vectors of a triangulation, and the shortest vectors of a form.
#![tactic(auto)]

mod answers;
mod laws;
mod minima;
mod vectors;

pub use answers::Shortest;
pub use laws::one_shortest;
pub use minima::shortest;
pub use vectors::relevant;
