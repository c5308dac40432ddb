//! The secondary cone of a triangulation with a certificate for each regulator.
#![tactic(auto)]

mod checks;
mod cones;
mod error;
mod laws;

pub use checks::check_cone;
pub use cones::cone;
pub use error::{ConeError, ConeFault};
pub use laws::{facets_are_wall_rows, faults_are_wrong};
