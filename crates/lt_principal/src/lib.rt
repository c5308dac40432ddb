//! The principal triangulation and the principal form (Voronoi 1908; Schürmann, chapter 4).
#![tactic(auto)]

mod classes;
mod form;
mod triangulations;

pub use form::principal_form;
pub use triangulations::principal;
