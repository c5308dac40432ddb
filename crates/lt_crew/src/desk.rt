//! What lies under the lock.

ghost use Rattle.std.specs.Prelude.{◌≡◌, ◌≢◌, ◌<◌, ◌≤◌, ◌+◌, ◌^◌, ◌⊎◌, ℕ, ℤ, length, map, get_or, false, true, []};
ghost use Rattle.std.specs.Result.{OnOk, OnErr, IfOk, IfErr};
ghost use Rattle.std.specs.Option.{IfSome};
ghost use Rattle.std.specs.Arc.{arc_value};
ghost use Rattle.lt_model.specs.Limits.{most_steps};
ghost use Rattle.lt_crew.specs.Runs.{AreBelow, AreSettled};
ghost use Rattle.lt_crew.specs.Shared.{triangulation_of};

use crate::known::{are_known, same_normal};
use lt_core::{Atlas, Back, Mark, Missed, Why};
use lt_lattice::{Matrix, Normal};
use lt_lp::Cone;
use lt_model::Memory;
use lt_triang::{Class, Triangulation};
use std::alloc::Global;
use std::sync::Arc;
use std::sync::ledger::{Book, Ledger, Share};

/// What a worker is to do at a position.
#[derive(Drop)]
pub enum Turn {
    Over,
    Work { entry: u32, facet: u32 },
    Later,
}

/// What became of a recording.
#[derive(Drop)]
pub enum Answer {
    Done,
    Already,
    Again,
    Changed,
    Memory,
}

/// A new entry handed back.
#[derive(Drop)]
pub struct Refused {
    pub answer: Answer,
    pub beyond: Triangulation,
    pub cone: Cone,
}

/// What the workers share.
#[derive(Drop)]
pub struct Desk<L: Ledger> {
    atlas: Atlas,
    shared: Vec<Arc<Triangulation, Global>>,
    steps: u64,
    memory: bool,
    book: Book<L>,
    ghost counted: { book.total ≡ length atlas.log },
    ghost all_shared: { map arc_value shared.items ≡ map triangulation_of atlas.entries },
    ghost below: { AreBelow steps atlas.log },
    ghost settled: { AreSettled atlas },
    ghost few_steps: { steps ≤ most_steps },
    ghost few: { length atlas.entries ≤ 100001 + length atlas.log },
}

/// Copies of the triangulation and the facet that stand at a position.
#[derive(Drop)]
pub struct Task {
    pub home: Arc<Triangulation, Global>,
    pub normal: Normal,
}

/// The entries that a worker has compared with a triangulation.
#[derive(Drop)]
pub struct Test {
    /// The fingerprint of the triangulation.
    pub print: Vec<i128>,
    /// The triangulations of those entries below `tested` that have the same, in their order.
    pub known: Vec<Arc<Triangulation, Global>>,
    pub tested: u32,
}

impl<L: Ledger> Desk<L> {
    ghost use Rattle.lt_model.specs.Atlases.{Atlas, push, grow, wide, heavy, cross};
    ghost use Rattle.lt_model.specs.Matrices.{AreEquivalent};
    ghost use Rattle.lt_model.specs.Cones.{IsRightCone};
    ghost use Rattle.lt_triang.specs.Kept.{dimension_of, IsOfSomeForm};
    ghost use Rattle.lt_colour.specs.Signatures.{IsFingerprint};
    ghost use Rattle.lt_core.specs.Candidates.{candidate};
    ghost use Rattle.lt_core.specs.Marks.{matrix_rows};
    ghost use Rattle.lt_cone.specs.Errors.{IsHeavyCone};
    ghost use Rattle.lt_cone.specs.declared.error.ConeError.TheVariants.{Heavy};
    ghost use Rattle.lt_flip.specs.Flipped.{IsWideFlip};
    ghost use Rattle.std.specs.Prelude.{nat_abs};
    ghost use Rattle.lt_crew.specs.Desks.{IsTurn, MayGoOn, IsDone, IsCounted};
    ghost use Rattle.lt_crew.specs.Standing.{StandsAt};
    ghost use Rattle.lt_crew.specs.Tasks.{home_of, known_of, IsTask, IsBeyond, IsCarried, IsTest, AreKnown};

    pub fn new(
        atlas: Atlas,
        shared: Vec<Arc<Triangulation, Global>>,
        steps: u64,
        book: Book<L>,
    ) -> Desk<L>
        requires unrun { atlas.log ≡ [] }
        requires few { length atlas.entries ≤ 100001 }
        requires steps { steps ≤ most_steps }
        requires all_shared { map arc_value shared.items ≡ map triangulation_of atlas.entries }
        requires empty { book.total ≡ 0 }
        ensures atlas { result.atlas ≡ atlas }
        ensures steps { result.steps ≡ steps }
        ensures memory { result.memory ≡ false }
    {
        Desk {
            atlas,
            shared,
            steps,
            memory: false,
            book,
        }
    }

    /// The atlas, the limit, and whether memory was refused. The share with every part has as its amount the number of events.
    pub fn open(self, all: &mut Share<L>) -> (Atlas, u64, bool)
        ensures parts { (result.0 ≡ self.atlas) × (result.1 ≡ self.steps) × (result.2 ≡ self.memory) }
        ensures below { AreBelow result.1 result.0.log }
        ensures settled { AreSettled result.0 }
        ensures few_steps { result.1 ≤ most_steps }
        ensures few { length result.0.entries ≤ 100001 + length result.0.log }
        ensures gathered { all.old.parts ≡ L.parts → all.new.amount ≡ length result.0.log }
    {
        let Desk {
            atlas,
            shared: _,
            steps,
            memory,
            mut book,
        } = self;
        book.audit(all);
        (atlas, steps, memory)
    }

    pub fn turn(&self, position: u64) -> Turn
        ensures { IsTurn self.now position result }
    {
        if position >= self.steps || self.memory {
            return Turn::Over;
        }
        if position < self.atlas.queued() {
            let (entry, facet) = self.atlas.place(position);
            return Turn::Work { entry, facet };
        }
        if self.atlas.undecided() == 0 {
            Turn::Over
        } else {
            Turn::Later
        }
    }

    pub fn is_later(&self, position: u64) -> bool
        ensures { result ≡ false → MayGoOn self.now position }
    {
        matches!(self.turn(position), Turn::Later)
    }

    /// Notes that memory was refused.
    pub fn note_memory(&mut self)
        ensures atlas { self.new.atlas ≡ self.old.atlas }
        ensures memory { self.new.memory ≡ true }
    {
        self.memory = true;
    }

    /// Copies of what stands at a position.
    pub fn task(&self, position: u64) -> Result<Task, Memory>
        requires { position < length self.now.atlas.queue }
        ensures { IfOk result IsTask }
    {
        self.atlas.keeps();
        let (k, facet) = self.atlas.place(position);
        let entry = self.atlas.entry(k);
        let row = entry.cone.facet(facet as usize);
        Ok(Task {
            home: Arc::try_clone(&self.shared[k as usize])?,
            normal: row.normal.copy(),
        })
    }

    /// The next entry, from the one with the number `from`, with this fingerprint: its number and a copy. And the number of entries.
    pub fn next_known(
        &self,
        print: &[i128],
        from: u32,
    ) -> Result<(Option<(u32, Arc<Triangulation, Global>)>, u32), Memory>
        ensures form { IfOk result (λ r. IfSome r.0 (λ x. IsOfSomeForm (arc_value x.1))) }
        ensures within { IfOk result (λ r. IfSome r.0 (λ x. x.0 < 2 ^ 30)) }
    {
        let entries = self.atlas.entries();
        match self.atlas.likely(print, from) {
            Some(k) => {
                self.atlas.keeps();
                let image = Arc::try_clone(&self.shared[k as usize])?;
                Ok((Some((k, image)), entries))
            }
            None => Ok((None, entries)),
        }
    }

    /// Whether the facet that a worker crossed is that at the position.
    fn stands(&self, position: u64, task: &Task) -> bool
        ensures { result ≡ true → (position < self.now.steps) × (position < length self.now.atlas.queue)
            × StandsAt self.now.atlas position (dimension_of (home_of task.now)) (home_of task.now) task.now.normal }
    {
        if position >= self.steps || position >= self.atlas.queued() {
            return false;
        }
        self.atlas.keeps();
        let (k, facet) = self.atlas.place(position);
        let entry = self.atlas.entry(k);
        let row = entry.cone.facet(facet as usize);
        entry.triangulation == *task.home && same_normal(&row.normal, &task.normal)
    }

    /// Records that a matrix carries the triangulation beyond a facet onto an entry, of which `image` is a copy.
    pub fn cross(
        &mut self,
        position: u64,
        task: &Task,
        target: u32,
        image: &Triangulation,
        matrix: Matrix,
        share: &mut Share<L>,
    ) -> Answer
        requires part { 0 < share.old.parts }
        requires carried { IsCarried task.now image.now (matrix_rows matrix) }
        ensures done { IsDone result (push self.old.atlas position (cross target (matrix_rows matrix))) self.old.atlas
            self.new.atlas }
        ensures parts { share.new.parts ≡ share.old.parts }
        ensures counted { IsCounted result share.old.amount share.new.amount }
    {
        if !self.stands(position, task) || target >= self.atlas.entries() {
            return Answer::Changed;
        }
        let same = self.atlas.entry(target).triangulation == *image;
        if !same {
            return Answer::Changed;
        }
        self.atlas.keeps();
        let Desk { atlas, book, .. } = self;
        match atlas.record_cross(position, target, matrix) {
            Ok(()) => {
                book.add(share, 1);
                Answer::Done
            }
            Err(_) => Answer::Already,
        }
    }

    /// Records that the flip at a facet has a class that is too wide.
    pub fn widen(
        &mut self,
        position: u64,
        task: &Task,
        class: Class,
        span: i64,
        share: &mut Share<L>,
    ) -> Answer
        requires part { 0 < share.old.parts }
        requires wide { IsWideFlip (dimension_of (home_of task.now)) (home_of task.now) task.now.normal class span }
        ensures done { IsDone result (push self.old.atlas position (wide class (nat_abs span))) self.old.atlas
            self.new.atlas }
        ensures parts { share.new.parts ≡ share.old.parts }
        ensures counted { IsCounted result share.old.amount share.new.amount }
    {
        if !self.stands(position, task) {
            return Answer::Changed;
        }
        self.atlas.keeps();
        let entries = self.atlas.entries();
        let Desk { atlas, book, .. } = self;
        let span = span.unsigned_abs();
        match atlas.record_stuck(position, entries, Mark::Wide { class, span }) {
            Ok(()) => {
                book.add(share, 1);
                Answer::Done
            }
            Err(_) => Answer::Already,
        }
    }

    /// Records that the triangulation beyond a facet is too heavy, where the entries below `tested` are those that the worker compared.
    pub fn weigh(
        &mut self,
        position: u64,
        task: &Task,
        beyond: &Triangulation,
        weight: i128,
        test: &Test,
        share: &mut Share<L>,
    ) -> Answer
        requires part { 0 < share.old.parts }
        requires beyond { IsBeyond task.now beyond.now }
        requires heavy { IsHeavyCone (dimension_of beyond.now) beyond.now (Heavy weight) }
        requires tested { IsTest beyond.now test.now }
        ensures done { IsDone result (push self.old.atlas position (heavy (nat_abs weight))) self.old.atlas
            self.new.atlas }
        ensures parts { share.new.parts ≡ share.old.parts }
        ensures counted { IsCounted result share.old.amount share.new.amount }
    {
        if !self.stands(position, task) || !self.knows(test) {
            return Answer::Changed;
        }
        self.atlas.keeps();
        let Desk { atlas, book, .. } = self;
        let weight = weight.unsigned_abs();
        match atlas.record_stuck(position, test.tested, Mark::Heavy { weight }) {
            Ok(()) => {
                book.add(share, 1);
                Answer::Done
            }
            Err(missed) => Answer::of_missed(missed),
        }
    }

    /// Records that a facet leads to a new entry, where the entries below `tested` are those that the worker compared.
    pub fn grow(
        &mut self,
        position: u64,
        task: &Task,
        beyond: Triangulation,
        copy: Arc<Triangulation, Global>,
        cone: Cone,
        test: &Test,
        share: &mut Share<L>,
    ) -> Result<(), Refused>
        requires part { 0 < share.old.parts }
        requires beyond { IsBeyond task.now beyond }
        requires copy { arc_value copy ≡ beyond }
        requires cone { IsRightCone (dimension_of beyond) beyond cone }
        requires tested { IsTest beyond test.now }
        ensures ok { OnOk result ((self.new.atlas ≡ grow self.old.atlas position
            (candidate self.old.atlas position beyond cone)) × (share.new.amount ≡ share.old.amount + 1)) }
        ensures err { OnErr result ((self.new.atlas ≡ self.old.atlas) × (share.new.amount ≡ share.old.amount)) }
        ensures back { IfErr result (λ b. (b.beyond ≡ beyond) × (b.cone ≡ cone)) }
        ensures parts { share.new.parts ≡ share.old.parts }
    {
        if !self.stands(position, task) || !self.knows(test) {
            return Err(Refused {
                answer: Answer::Changed,
                beyond,
                cone,
            });
        }
        if self.shared.reserve(1).is_err() {
            return Err(Refused {
                answer: Answer::Memory,
                beyond,
                cone,
            });
        }
        self.atlas.keeps();
        let Desk {
            atlas,
            shared,
            book: counts,
            ..
        } = self;
        match atlas.record_new(position, test.tested, beyond, cone) {
            Ok(_) => {
                shared.push_reserved(copy);
                counts.add(share, 1);
                Ok(())
            }
            Err(
                Back {
                    why,
                    triangulation,
                    cone,
                },
            ) => Err(Refused {
                answer: answer_of(why),
                beyond: triangulation,
                cone,
            }),
        }
    }

    /// Whether the entries that the worker compared are those with the fingerprint here.
    fn knows(&self, test: &Test) -> bool
        ensures { result ≡ true → (test.now.tested ≤ length self.now.atlas.entries)
            × AreKnown self.now.atlas test.now.print.items (known_of test.now) test.now.tested }
    {
        test.tested <= self.atlas.entries()
            && are_known(
                &self.atlas,
                test.print.as_slice(),
                test.known.as_slice(),
                test.tested,
            )
    }
}

/// Why nothing was recorded.
fn answer_of(why: Why) -> Answer {
    match why {
        Why::Already { .. } => Answer::Already,
        Why::Again { .. } => Answer::Again,
        Why::Memory => Answer::Memory,
    }
}

impl Answer {
    ghost use Rattle.lt_crew.specs.Desks.{IsMiss};

    /// Why no mark was recorded.
    fn of_missed(missed: Missed) -> Answer
        ensures { IsMiss result }
    {
        match missed {
            Missed::Already { .. } => Answer::Already,
            Missed::Again { .. } => Answer::Again,
        }
    }
}
