//! The tableau of the pivot rule in whole numbers over one denominator, and the weight that bounds them.
#![tactic(auto)]

mod divisors;
mod error;
mod pivots;
mod systems;
mod tableau;
mod weights;
mod words;

pub use error::TableauError;
pub use tableau::Tableau;
pub use weights::weight;
