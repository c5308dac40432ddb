//! Verdicts on the normals of a list, by the pivot rule: a wall form, or a combination of the others; and the cone of the list.
#![tactic(auto)]

mod checks;
mod combinations;
mod cone_forms;
mod cone_making;
mod cones;
mod copies;
mod deciding;
mod laws;
mod primitives;
mod rows;
mod rule;
mod sums;
mod verdicts;
mod walls;
mod weighing;

pub use checks::check;
pub use cone_forms::form_of;
pub use cone_making::cone_of;
pub use deciding::decide;
pub use laws::alternatives;
pub use verdicts::{Cone, LpError, Row, Verdict};
