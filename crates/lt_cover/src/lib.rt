//! The greatest squared circumradius of a Delaunay triangulation, which is the squared covering radius of its form.
#![tactic(auto)]

mod answers;
mod columns;
mod covers;
mod laws;
mod radii;

pub use answers::{Cover, CoverError};
pub use covers::cover;
pub use laws::covers_are_covering_radii;
