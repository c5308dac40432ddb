//! Unimodular matrices that carry one triangulation onto another.
#![tactic(auto)]

mod bases;
mod carrying;
mod facets;
mod images;
mod matching;
mod transforms;

pub use carrying::{carries, carries_classes};
pub use matching::match_types;
pub use transforms::{ImageError, image};
