//! The text of an atlas, written without memory.
#![tactic(auto)]

mod atlases;
mod classes;
mod entries;
mod gathering;
mod halves;
mod marks;
mod rows;
mod starts;

pub use atlases::{atlases_are_spelt, example_is_spelt, write_atlas};
pub use classes::{coordinates_of, write_triangulation};
pub use halves::comes_first;
pub use rows::{Terms, write_terms};
pub use starts::write_start;
