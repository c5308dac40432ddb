//! Writing and growing the lists of an atlas.

ghost use Rattle.std.specs.Prelude.{◌≡◌, ◌<◌, ◌≤◌, ◌+◌, ◌^◌, ℕ, length, get_or, map, vec_len, vec_capacity, [], ◌∷◌, ◌++◌};
ghost use Rattle.std.specs.Result.{OnOk, IfOk};
ghost use Rattle.lt_model.specs.Atlases.{set_mark, opens, places_from};
ghost use Rattle.lt_model.specs.RightAtlases.{open_in, open_places};
ghost use Rattle.lt_core.specs.Marks.{mark_of, marks_of};

use crate::marks::{Entry, Event, Mark};
use crate::prints::Print;
use lt_model::Memory;
use std::alloc::Global;

/// Writes a mark.
pub fn put(marks: &mut Vec<Vec<Mark>>, entry: usize, facet: usize, mark: Mark)
    requires entry_within { entry < length (marks_of marks.old.items) }
    requires facet_within { facet < length (get_or (marks_of marks.old.items) entry []) }
    ensures value { marks_of marks.new.items ≡ set_mark (marks_of marks.old.items) (entry, facet) (mark_of mark) }
    ensures len { vec_len marks.new ≡ vec_len marks.old }
    ensures capacity { vec_capacity marks.new ≡ vec_capacity marks.old }
{
    let row = &mut marks[entry];
    row[facet] = mark;
}

/// Appends an element for which there is room.
pub fn push_within<T: Drop>(all: &mut Vec<T>, item: T)
    requires { vec_len all.old < vec_capacity all.old }
    ensures items { all.new.items ≡ all.old.items ++ item ∷ [] }
    ensures len { vec_len all.new ≡ vec_len all.old + 1 }
    ensures capacity { vec_capacity all.old ≤ vec_capacity all.new }
{
    match all.push(item) {
        Ok(()) => {}
        Err(_) => unreachable!(),
    }
}

/// As many open marks.
pub fn opens_of(alloc: Global, count: usize) -> Result<Vec<Mark>, Memory>
    ensures { IfOk result (λ v. map mark_of v.items ≡ opens count) }
{
    let mut row = Vec::new(alloc);
    for i in 0..count {
        row.push(Mark::Open)?;
    }
    Ok(row)
}

/// Appends the places of a new entry, for which there is room.
pub fn append_places(queue: &mut Vec<(u32, u32)>, entry: u32, count: u32)
    requires { vec_len queue.old + count ≤ vec_capacity queue.old }
    ensures { queue.new.items ≡ queue.old.items ++ places_from entry 0 count }
{
    for facet in 0..count {
        push_within(queue, (entry, facet));
    }
}

/// Appends the places of the open marks of an entry.
pub fn append_open(queue: &mut Vec<(u32, u32)>, entry: u32, row: &[Mark]) -> Result<(), Memory>
    requires { length row.now < 2 ^ 32 }
    ensures { OnOk result (queue.new.items ≡ queue.old.items ++ open_in entry 0 (map mark_of row.now)) }
{
    for (facet, mark) in row.iter().enumerate() {
        if mark.is_open() {
            queue.push((entry, facet as u32))?;
        }
    }
    Ok(())
}

/// The places of all open marks, by entry and facet.
pub fn open_queue(alloc: Global, marks: &[Vec<Mark>]) -> Result<Vec<(u32, u32)>, Memory>
    requires few { length marks.now < 2 ^ 32 }
    requires few_facets { (k : ℕ) → k < length marks.now → length (get_or (marks_of marks.now) k []) < 2 ^ 32 }
    ensures { IfOk result (λ q. q.items ≡ open_places 0 (marks_of marks.now)) }
{
    let mut queue = Vec::new(alloc);
    for (entry, row) in marks.iter().enumerate() {
        append_open(&mut queue, entry as u32, row)?;
    }
    Ok(queue)
}

/// Makes room for an entry with so many facets and for so many events; the lists stay as they are.
pub fn make_room(
    entries: &mut Vec<Entry>,
    marks: &mut Vec<Vec<Mark>>,
    prints: &mut Vec<Print>,
    queue: &mut Vec<(u32, u32)>,
    log: &mut Vec<Event>,
    facets: usize,
    events: usize,
) -> Result<(), Memory>
    ensures entries { (entries.new.items ≡ entries.old.items) × (vec_len entries.new ≡ vec_len entries.old) }
    ensures marks { (marks.new.items ≡ marks.old.items) × (vec_len marks.new ≡ vec_len marks.old) }
    ensures prints { (prints.new.items ≡ prints.old.items) × (vec_len prints.new ≡ vec_len prints.old) }
    ensures queue { (queue.new.items ≡ queue.old.items) × (vec_len queue.new ≡ vec_len queue.old) }
    ensures log { (log.new.items ≡ log.old.items) × (vec_len log.new ≡ vec_len log.old) ×
        (vec_capacity log.old ≤ vec_capacity log.new) }
    ensures ok { OnOk result ((vec_len entries.new < vec_capacity entries.new) ×
        (vec_len marks.new < vec_capacity marks.new) × (vec_len queue.new + facets ≤ vec_capacity queue.new) ×
        (vec_len log.new + events ≤ vec_capacity log.new) × (vec_len prints.new < vec_capacity prints.new)) }
{
    entries.reserve(1)?;
    marks.reserve(1)?;
    prints.reserve(1)?;
    queue.reserve(facets)?;
    log.reserve(events)?;
    Ok(())
}
