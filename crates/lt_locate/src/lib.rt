//! Where a form lies: the edges of a triangulation, and the walk across facets to the triangulation of a form.
#![tactic(auto)]

mod answers;
mod edge_lists;
mod facing;
mod laws;
mod sides;
mod walks;

pub use answers::{LocateError, Located, WalkStop};
pub use edge_lists::edges;
pub use laws::{one_end, walks_end_inside};
pub use walks::locate;
