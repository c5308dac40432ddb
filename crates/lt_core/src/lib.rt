//! The atlas of triangulations: entries, marks of their facets, the queue of open facets, and the log of what was recorded.
#![tactic(auto)]

ghost use Rattle.lt_core.specs.Laws.{EntriesAreReached, ClosedAtlasesAreComplete, RecordingsKeepThePast};

mod atlas;
mod beginnings;
mod copying;
mod first;
mod lists;
mod marks;
mod prints;
mod refusals;

pub use atlas::Atlas;
pub use first::principal_types_are_light;
pub use marks::{Entry, Event, Mark};
pub use prints::{Print, prints_of};
pub use refusals::{Already, Back, Missed, Why};

/// Facet crossings reach each entry of an atlas from the first one; and where all facets are crossed, each triangulation
/// that they reach is equivalent to exactly one entry.
pub fn closed_atlases_are_complete()
    ensures reached { EntriesAreReached }
    ensures one { ClosedAtlasesAreComplete }
{}

/// A recording keeps the past: the atlas after it, cut to some of the earlier events, is the atlas before it, cut to them.
pub fn recordings_keep_the_past()
    ensures { RecordingsKeepThePast }
{}
