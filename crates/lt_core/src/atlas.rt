//! The atlas and its recordings.

ghost use Rattle.std.specs.Prelude.{◌≡◌, ◌≢◌, ◌↔◌, IsTrue, ◌<◌, ◌≤◌, ◌+◌, ◌^◌, ℕ, length, get_or, map, false, [], IfSome, IfNone};
ghost use Rattle.std.specs.Result.{OnOk, OnErr, IfOk, IfErr, MatchResult};
ghost use Rattle.lt_model.specs.Atlases.{begin, open_mark, cross, entry_at, mark_at, place_at, push, grow, undecided, stuck, one_if_stuck};
ghost use Rattle.lt_model.specs.Walls.{IsAcross};
ghost use Rattle.lt_model.specs.Logs.{IsLegal, IsKept, IsCandidate, IsStuck};
ghost use Rattle.lt_model.specs.RightAtlases.{IsOpenAt, AreRight, fresh_atlas};
ghost use Rattle.lt_colour.specs.Signatures.{IsFingerprint};
ghost use Rattle.lt_core.specs.Candidates.{candidate};
ghost use Rattle.lt_core.specs.Refusals.{standing_at, IsWhy, IsHeavyMark, IsMissed};
ghost use Rattle.lt_core.specs.Marks.{mark_of, marks_of, entry_of, matrix_rows};

use crate::beginnings::{all_stand, fresh_count, places_before, same_entries, same_places};
use crate::copying::{entries_copy, log_copy, marks_copy, prints_copy, queue_copy};
use crate::lists::{append_places, make_room, open_queue, opens_of, push_within, put};
use crate::marks::{Entry, Event, Mark};
use crate::prints::{Print, digest, print_of, prints_of};
use crate::refusals::{Already, Back, Missed, Why};
use lt_lattice::Matrix;
use lt_lp::Cone;
use lt_model::Memory;
use lt_triang::Triangulation;
use std::alloc::Global;
use std::marker::Model;

/// An atlas whose entries and marks are right, with the log of what was recorded.
#[derive(Drop)]
pub struct Atlas {
    dimension: u8,
    entries: Vec<Entry>,
    marks: Vec<Vec<Mark>>,
    prints: Vec<Print>,
    queue: Vec<(u32, u32)>,
    log: Vec<Event>,
    undecided: usize,
    stuck: usize,
}

impl Model for Atlas {
    ghost use Rattle.lt_model.specs.Atlases.{Atlas};

    ghost Value = { Atlas };

    ghost use Rattle.lt_core.specs.Meaning.{value_of, KeepsAtlas};

    ghost view = { value_of };

    ghost invariant = { KeepsAtlas };
}

impl Atlas {
    /// The atlas with these entries and marks, and an empty log.
    pub fn of(
        alloc: Global,
        dimension: u8,
        entries: Vec<Entry>,
        marks: Vec<Vec<Mark>>,
    ) -> Result<Atlas, Memory>
        requires right { AreRight (IsAcross dimension) dimension (map entry_of entries.items) (marks_of marks.items) }
        requires few { length entries.items ≤ 100001 }
        requires settled { stuck (marks_of marks.items) ≡ 0 }
        requires low { 2 ≤ dimension }
        requires high { dimension ≤ 6 }
        ensures { IfOk result (λ a. a ≡ fresh_atlas dimension (map entry_of entries.items) (marks_of marks.items)) }
    {
        let prints = prints_of(alloc, &entries)?;
        let queue = open_queue(alloc, &marks)?;
        let mut log = Vec::new(alloc);
        log.reserve(queue.len())?;
        let undecided = queue.len();
        Ok(Atlas {
            dimension,
            entries,
            marks,
            prints,
            queue,
            log,
            undecided,
            stuck: 0,
        })
    }

    /// A copy, or want of memory.
    pub fn try_copy(&self) -> Result<Atlas, Memory>
        ensures { IfOk result (λ b. b ≡ self.now) }
    {
        let alloc = *self.entries.allocator();
        Ok(Atlas {
            dimension: self.dimension,
            entries: entries_copy(alloc, &self.entries)?,
            marks: marks_copy(alloc, &self.marks)?,
            prints: prints_copy(alloc, &self.prints)?,
            queue: queue_copy(alloc, &self.queue)?,
            log: log_copy(alloc, &self.log, self.undecided)?,
            undecided: self.undecided,
            stuck: self.stuck,
        })
    }

    /// Whether `start` is this atlas without its events.
    pub fn begins_with(&self, start: &Atlas) -> bool
        ensures { IsTrue result ↔ (begin self.now ≡ start.now) }
    {
        if self.dimension != start.dimension {
            return false;
        }
        if !start.log.is_empty() {
            return false;
        }
        let entries = self.entries.len().saturating_sub(fresh_count(&self.log));
        if !same_entries(&self.entries[..entries], &start.entries) {
            return false;
        }
        let places = places_before(self.queue.len(), &self.marks[entries..]);
        if !same_places(&self.queue[..places], &start.queue) {
            return false;
        }
        all_stand(&start.marks, &self.marks)
    }

    /// The number of coordinates.
    pub fn dimension(&self) -> u8
        ensures { result ≡ self.now.dimension }
    {
        self.dimension
    }

    /// The number of places in the queue.
    pub fn queued(&self) -> u64
        ensures { result ≡ length self.now.queue }
    {
        self.queue.len() as u64
    }

    /// The entry and the facet at a position of the queue.
    pub fn place(&self, position: u64) -> (u32, u32)
        requires { position < length self.now.queue }
        ensures entry { result.0 ≡ (place_at self.now.queue position).0 }
        ensures facet { result.1 ≡ (place_at self.now.queue position).1 }
    {
        self.queue[position as usize]
    }

    /// The number of events in the log.
    pub fn events(&self) -> u64
        ensures { result ≡ length self.now.log }
    {
        self.log.len() as u64
    }

    /// The entry with the number `k`, from 0.
    pub fn entry(&self, k: u32) -> &Entry
        requires { k < length self.now.entries }
        ensures { entry_of result.now ≡ entry_at self.now.entries k }
    {
        &self.entries[k as usize]
    }

    /// The mark of facet `facet` of the entry with the number `k`.
    pub fn mark(&self, k: u32, facet: u32) -> &Mark
        requires entry { k < length self.now.marks }
        requires facet { facet < length (get_or self.now.marks k []) }
        ensures { mark_of result.now ≡ mark_at self.now.marks (k, facet) }
    {
        &self.marks[k as usize][facet as usize]
    }

    /// The number of facets of the entry with the number `k`, each of which has a mark.
    pub fn facets(&self, k: u32) -> usize
        requires { k < length self.now.marks }
        ensures { result ≡ length (get_or self.now.marks k []) }
    {
        self.marks[k as usize].len()
    }

    /// The marks of the facets of the entry with the number `k`.
    pub fn marks(&self, k: u32) -> &[Mark]
        requires { k < length self.now.marks }
        ensures { map mark_of result.now ≡ get_or self.now.marks k [] }
    {
        self.marks[k as usize].as_slice()
    }

    /// The number of wide and heavy marks.
    pub fn stuck(&self) -> u64
        ensures { result ≡ stuck self.now.marks }
    {
        self.stuck as u64
    }

    /// The number of open marks.
    pub fn undecided(&self) -> u64
        ensures { result ≡ undecided self.now.marks }
    {
        self.undecided as u64
    }

    /// Shows what every atlas keeps: it is right, and its log is legal.
    pub fn keeps(&self)
        ensures kept { IsKept (IsAcross self.now.dimension) self.now }
        ensures low { 2 ≤ self.now.dimension }
        ensures high { self.now.dimension ≤ 6 }
        ensures few { length self.now.entries ≤ 2 ^ 30 }
    {
        let _ = &self.dimension;
    }

    /// The mark that stands at a position.
    pub fn standing(&self, position: u64) -> &Mark
        requires { position < length self.now.queue }
        ensures { mark_of result.now ≡ mark_at self.now.marks (place_at self.now.queue position) }
    {
        let (entry, facet) = self.queue[position as usize];
        &self.marks[entry as usize][facet as usize]
    }

    /// Writes a mark and its event, for which there is room.
    fn note(&mut self, position: u64, mark: Mark, noted: Mark, stuck: usize)
        requires counted { stuck ≡ one_if_stuck (mark_of mark) }
        requires same { mark_of noted ≡ mark_of mark }
        requires legal { IsLegal (IsAcross self.old.dimension) self.old self.old.entries
            (record { position = position; mark = mark_of mark; fresh = false }) }
        ensures { self.new ≡ push self.old position (mark_of mark) }
    {
        let (entry, facet) = self.queue[position as usize];
        put(&mut self.marks, entry as usize, facet as usize, mark);
        self.undecided -= 1;
        self.stuck += stuck;
        match self.log.push(Event {
            position,
            mark: noted,
            fresh: false,
        }) {
            Ok(()) => {}
            Err(_) => unreachable!(),
        }
    }

    /// Records that the facet at a position leads to an entry that is there.
    pub fn record_cross(
        &mut self,
        position: u64,
        target: u32,
        matrix: Matrix,
    ) -> Result<(), Already>
        requires queued { position < length self.old.queue }
        requires legal { mark_at self.old.marks (place_at self.old.queue position) ≡ open_mark →
            IsLegal (IsAcross self.old.dimension) self.old self.old.entries
            (record { position = position; mark = cross target (matrix_rows matrix); fresh = false }) }
        ensures ok { OnOk result (self.new ≡ push self.old position (cross target (matrix_rows matrix))) }
        ensures err { OnErr result (self.new ≡ self.old) }
        ensures cause { MatchResult result (λ _. mark_at self.old.marks (place_at self.old.queue position)
            ≡ open_mark) (λ e. (mark_at self.old.marks (place_at self.old.queue position) ≢ open_mark) ×
            (mark_of e.mark ≡ mark_at self.old.marks (place_at self.old.queue position))) }
    {
        let here = self.standing(position);
        if !here.is_open() {
            return Err(Already { mark: here.copy() });
        }
        let noted = matrix.copy();
        self.note(
            position,
            Mark::Cross { target, matrix },
            Mark::Cross {
                target,
                matrix: noted,
            },
            0,
        );
        Ok(())
    }

    /// Appends an entry with its event, or hands the parts back for want of memory.
    fn extend(
        &mut self,
        position: u64,
        triangulation: Triangulation,
        cone: Cone,
    ) -> Result<u32, (Triangulation, Cone)>
        requires here { IsOpenAt self.old position }
        requires candidate { IsCandidate (IsAcross self.old.dimension) self.old position (length self.old.entries)
            (candidate self.old position triangulation cone) }
        requires few { length self.old.entries < 2 ^ 30 }
        ensures ok { IfOk result (λ k. (k ≡ length self.old.entries) ×
            (self.new ≡ grow self.old position (candidate self.old position triangulation cone))) }
        ensures err { IfErr result (λ b. (b.0 ≡ triangulation) × (b.1 ≡ cone)) }
        ensures unchanged { OnErr result (self.new ≡ self.old) }
    {
        let (entry, facet) = self.queue[position as usize];
        let number = self.entries.len() as u32;
        let facets = cone.facets();
        let events = match self.undecided.checked_add(facets) {
            Some(events) => events,
            None => return Err((triangulation, cone)),
        };
        let print = match print_of(*self.prints.allocator(), &triangulation) {
            Ok(print) => print,
            Err(_) => return Err((triangulation, cone)),
        };
        let row = match opens_of(*self.marks.allocator(), facets) {
            Ok(row) => row,
            Err(_) => return Err((triangulation, cone)),
        };
        match make_room(
            &mut self.entries,
            &mut self.marks,
            &mut self.prints,
            &mut self.queue,
            &mut self.log,
            facets,
            events,
        ) {
            Ok(()) => {}
            Err(_) => return Err((triangulation, cone)),
        }
        let matrix = Matrix::identity(self.dimension);
        let noted = Matrix::identity(self.dimension);
        put(
            &mut self.marks,
            entry as usize,
            facet as usize,
            Mark::Cross {
                target: number,
                matrix,
            },
        );
        push_within(
            &mut self.entries,
            Entry {
                triangulation,
                cone,
                origin: Some((entry, facet)),
            },
        );
        push_within(&mut self.marks, row);
        push_within(&mut self.prints, print);
        append_places(&mut self.queue, number, facets as u32);
        push_within(
            &mut self.log,
            Event {
                position,
                mark: Mark::Cross {
                    target: number,
                    matrix: noted,
                },
                fresh: true,
            },
        );
        self.undecided = self.undecided - 1 + facets;
        Ok(number)
    }

    /// The number of entries.
    pub fn entries(&self) -> u32
        ensures { result ≡ length self.now.entries }
    {
        self.entries.len() as u32
    }

    /// The first entry, from the one with the number `from`, whose triangulation has this fingerprint.
    pub fn likely(&self, print: &[i128], from: u32) -> Option<u32>
        ensures found { IfSome result (λ k. (from ≤ k) × (k < length self.now.entries) ×
            IsFingerprint self.now.dimension (entry_at self.now.entries k).triangulation print.now) }
        ensures before { IfSome result (λ k. (i : ℕ) → from ≤ i → i < k →
            IsFingerprint self.now.dimension (entry_at self.now.entries i).triangulation print.now → ⊥) }
        ensures none { IfNone result ((i : ℕ) → from ≤ i → i < length self.now.entries →
            IsFingerprint self.now.dimension (entry_at self.now.entries i).triangulation print.now → ⊥) }
    {
        let digest = digest(print);
        for k in from..self.entries() {
            if self.prints[k as usize].has_numbers(digest, print) {
                return Some(k);
            }
        }
        None
    }

    /// Records that the triangulation across a facet is too wide or too heavy.
    pub fn record_stuck(&mut self, position: u64, tested: u32, mark: Mark) -> Result<(), Missed>
        requires queued { position < length self.old.queue }
        requires tested { tested ≤ length self.old.entries }
        requires stuck { standing_at self.old position ≡ open_mark →
            IsStuck (IsAcross self.old.dimension) self.old position tested (mark_of mark) }
        ensures ok { OnOk result (self.new ≡ push self.old position (mark_of mark)) }
        ensures unchanged { OnErr result (self.new ≡ self.old) }
        ensures cause { MatchResult result (λ _. (standing_at self.old position ≡ open_mark) ×
            (IsHeavyMark mark → length self.old.entries ≤ tested)) (λ e. IsMissed self.old position tested mark e) }
    {
        let here = self.standing(position);
        if !here.is_open() {
            return Err(Missed::Already { mark: here.copy() });
        }
        let entries = self.entries();
        if mark.is_heavy() && entries > tested {
            return Err(Missed::Again { entries });
        }
        let noted = mark.copy();
        self.note(position, mark, noted, 1);
        Ok(())
    }

    /// Records that the facet at a position leads to a new entry.
    pub fn record_new(
        &mut self,
        position: u64,
        tested: u32,
        triangulation: Triangulation,
        cone: Cone,
    ) -> Result<u32, Back>
        requires queued { position < length self.old.queue }
        requires tested { tested ≤ length self.old.entries }
        requires candidate { standing_at self.old position ≡ open_mark →
            IsCandidate (IsAcross self.old.dimension) self.old position tested
            (candidate self.old position triangulation cone) }
        requires few { length self.old.entries < 2 ^ 30 }
        ensures ok { IfOk result (λ k. (k ≡ length self.old.entries) ×
            (self.new ≡ grow self.old position (candidate self.old position triangulation cone))) }
        ensures unchanged { OnErr result (self.new ≡ self.old) }
        ensures back { IfErr result (λ b. (b.triangulation ≡ triangulation) × (b.cone ≡ cone)) }
        ensures cause { MatchResult result (λ _. (standing_at self.old position ≡ open_mark) ×
            (length self.old.entries ≤ tested)) (λ b. IsWhy self.old position tested b.why) }
    {
        let here = self.standing(position);
        if !here.is_open() {
            let mark = here.copy();
            return Err(Back {
                why: Why::Already { mark },
                triangulation,
                cone,
            });
        }
        let entries = self.entries();
        if entries > tested {
            return Err(Back {
                why: Why::Again { entries },
                triangulation,
                cone,
            });
        }
        match self.extend(position, triangulation, cone) {
            Ok(number) => Ok(number),
            Err((triangulation, cone)) => Err(Back {
                why: Why::Memory,
                triangulation,
                cone,
            }),
        }
    }
}
