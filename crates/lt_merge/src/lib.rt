//! Two atlases to one: what the second has found is settled in the first.
#![tactic(auto)]

mod images;
mod laws;
mod merging;
mod places;
mod turns;

pub use laws::facets_have_one_image;
pub use merging::{MergeError, merge};
