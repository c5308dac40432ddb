//! Scrambled images of triangulations, by a stated generator.
#![tactic(auto)]

mod draws;
mod scrambles;

pub use draws::Draws;
pub use scrambles::{scramble, scrambles_are_exact};
