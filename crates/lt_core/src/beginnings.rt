//! Whether the parts of an atlas are those at the beginning of another.

ghost use Rattle.std.specs.Prelude.{◌≡◌, ◌<◌, ◌≤◌, ◌-◌, ℕ, IsTrue, ◌↔◌, length, get_or, map, sum, []};
ghost use Rattle.lt_model.specs.Atlases.{cross, wide, heavy, place_of};
ghost use Rattle.lt_core.specs.Beginnings.{fresh_events, Stands, AreStanding, AllStand};
ghost use Rattle.lt_core.specs.Marks.{mark_of, marks_of, event_of, entry_of, matrix_rows};

use crate::marks::{Entry, Event, Mark};
use lt_lattice::Matrix;
use lt_triang::Class;

/// Whether two crossings are the same.
fn same_cross(target: u32, matrix: &Matrix, other: u32, theirs: &Matrix) -> bool
    ensures { IsTrue result ↔ (cross target (matrix_rows matrix.now) ≡ cross other (matrix_rows theirs.now)) }
{
    let _rows = matrix.dimension();
    let _their_rows = theirs.dimension();
    target == other && matrix == theirs
}

/// Whether two wide classes are the same.
fn same_wide(class: &Class, span: u64, other: &Class, theirs: u64) -> bool
    ensures { IsTrue result ↔ (wide class.now span ≡ wide other.now theirs) }
{
    class == other && span == theirs
}

/// Whether two weights are the same.
fn same_heavy(weight: u128, theirs: u128) -> bool
    ensures { IsTrue result ↔ (heavy weight ≡ heavy theirs) }
{
    weight == theirs
}

impl Mark {
    /// Whether the marks are the same.
    pub fn is_same(&self, other: &Mark) -> bool
        ensures { IsTrue result ↔ (mark_of self.now ≡ mark_of other.now) }
    {
        match self {
            Mark::Open => other.is_open(),
            Mark::Cross { target, matrix } => match other {
                Mark::Cross {
                    target: to,
                    matrix: by,
                } => same_cross(*target, matrix, *to, by),
                Mark::Open => false,
                Mark::Wide { .. } => false,
                Mark::Heavy { .. } => false,
            },
            Mark::Wide { class, span } => match other {
                Mark::Wide {
                    class: theirs,
                    span: length,
                } => same_wide(class, *span, theirs, *length),
                Mark::Open => false,
                Mark::Cross { .. } => false,
                Mark::Heavy { .. } => false,
            },
            Mark::Heavy { weight } => match other {
                Mark::Heavy { weight: theirs } => same_heavy(*weight, *theirs),
                Mark::Open => false,
                Mark::Cross { .. } => false,
                Mark::Wide { .. } => false,
            },
        }
    }
}

/// Whether two origins are the same.
fn same_origin(place: Option<(u32, u32)>, other: Option<(u32, u32)>) -> bool
    ensures { IsTrue result ↔ (place_of place ≡ place_of other) }
{
    match place {
        None => other.is_none(),
        Some((entry, facet)) => match other {
            None => false,
            Some((theirs, at)) => entry == theirs && facet == at,
        },
    }
}

impl Entry {
    /// Whether the entries are the same.
    pub fn is_same(&self, other: &Entry) -> bool
        ensures { IsTrue result ↔ (entry_of self.now ≡ entry_of other.now) }
    {
        self.triangulation == other.triangulation
            && self.cone == other.cone
            && same_origin(self.origin, other.origin)
    }
}

/// Whether the entries are the same.
pub fn same_entries(entries: &[Entry], others: &[Entry]) -> bool
    ensures { IsTrue result ↔ (map entry_of entries.now ≡ map entry_of others.now) }
{
    if entries.len() != others.len() {
        return false;
    }
    for i in 0..entries.len() {
        if !entries[i].is_same(&others[i]) {
            return false;
        }
    }
    true
}

/// Whether the places are the same.
pub fn same_places(places: &[(u32, u32)], others: &[(u32, u32)]) -> bool
    ensures { IsTrue result ↔ (places.now ≡ others.now) }
{
    places == others
}

/// Whether a mark, which may have been open, stands.
fn stands(mark: &Mark, now: &Mark) -> bool
    ensures { IsTrue result ↔ Stands (mark_of mark.now) (mark_of now.now) }
{
    mark.is_open() || mark.is_same(now)
}

/// Whether the marks of an entry that aren't open stand.
fn are_standing(marks: &[Mark], now: &[Mark]) -> bool
    requires { length marks.now ≤ length now.now }
    ensures { IsTrue result ↔ AreStanding (map mark_of marks.now) (map mark_of now.now) }
{
    for i in 0..marks.len() {
        if !stands(&marks[i], &now[i]) {
            return false;
        }
    }
    true
}

/// Whether all marks that aren't open stand.
pub fn all_stand(marks: &[Vec<Mark>], now: &[Vec<Mark>]) -> bool
    requires rows { length marks.now ≤ length now.now }
    requires facets { (k : ℕ) → k < length marks.now →
        length (get_or (marks_of marks.now) k []) ≤ length (get_or (marks_of now.now) k []) }
    ensures { IsTrue result ↔ AllStand (marks_of marks.now) (marks_of now.now) }
{
    for k in 0..marks.len() {
        if !are_standing(&marks[k], &now[k]) {
            return false;
        }
    }
    true
}

/// The number of events that appended an entry.
pub fn fresh_count(log: &[Event]) -> usize
    ensures { result ≡ fresh_events (map event_of log.now) }
{
    let mut count = 0;
    for event in log {
        if event.fresh {
            count += 1;
        }
    }
    count
}

/// What is left of so many places without those of the rows.
pub fn places_before(places: usize, rows: &[Vec<Mark>]) -> usize
    ensures { result ≡ places - sum (map length (marks_of rows.now)) }
{
    let mut left = places;
    for row in rows {
        left = left.saturating_sub(row.len());
    }
    left
}
