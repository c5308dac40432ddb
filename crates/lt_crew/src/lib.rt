//! Settling the positions of an atlas's queue: each facet is crossed, and the triangulation beyond it is recorded.
#![tactic(auto)]

mod crew;
mod crossing;
mod desk;
mod gate;
mod known;
mod laws;
mod rest;
mod room;
mod running;
mod settling;

pub use crew::enumerate;
pub use desk::{Desk, Turn};
pub use gate::{Gate, OpenGate};
pub use laws::narrow_runs_are_closed;
pub use running::{Ended, run_alone};
pub use settling::{first_known, settle};
