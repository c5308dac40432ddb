//! The cells of a facet of the secondary cone, and the triangulation across it by exchanged simplices.
#![tactic(auto)]

mod cell_list;
mod exchanges;
mod flips;
mod merging;
mod outers;
mod terms;

pub use cell_list::{Cell, cells};
pub use flips::{FlipError, flip, flipped_classes};
