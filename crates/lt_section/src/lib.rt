//! The secondary cone of a triangulation, cut by a linear space of forms.
#![tactic(auto)]

mod answers;
mod laws;
mod restricting;
mod sections;
mod verdicts;
mod walls;

pub use answers::{Section, SectionError, SectionRow, SectionVerdict};
pub use laws::verdicts_tell;
pub use sections::section;
