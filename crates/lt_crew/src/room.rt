//! The desk under its lock.

ghost use Rattle.std.specs.Prelude.{◌≡◌, ◌<◌, ◌^◌};
ghost use Rattle.std.specs.Result.{IfOk, IfErr};
ghost use Rattle.std.specs.Option.{IfSome};
ghost use Rattle.lt_model.specs.Cones.{IsRightCone};
ghost use Rattle.lt_triang.specs.Kept.{dimension_of, IsOfSomeForm};
ghost use Rattle.lt_cone.specs.Errors.{IsHeavyCone};
ghost use Rattle.lt_cone.specs.declared.error.ConeError.TheVariants.{Heavy};
ghost use Rattle.lt_flip.specs.Flipped.{IsWideFlip};
ghost use Rattle.lt_core.specs.Marks.{matrix_rows};
ghost use Rattle.std.specs.Arc.{arc_value};
ghost use Rattle.lt_crew.specs.Tasks.{home_of, IsBeyond, IsCarried, IsTest};
ghost use Rattle.lt_crew.specs.Orders.{IsOrder};

use crate::desk::{Answer, Desk, Refused, Task, Test, Turn};
use lt_lattice::Matrix;
use lt_lp::Cone;
use lt_model::Memory;
use lt_triang::{Class, Triangulation};
use std::alloc::Global;
use std::sync::ledger::{Ledger, Share};
use std::sync::{Arc, Condvar, Mutex, Wait};

/// What the workers share, and what a waiting worker sleeps on.
#[derive(Drop)]
pub struct Room<L: Ledger> {
    desk: Mutex<Desk<L>>,
    recorded: Condvar,
}

/// What a worker is to do at once.
#[derive(Drop)]
pub enum Order {
    /// Nothing is left for it.
    Over,
    /// It crosses the facet of this task.
    Cross { task: Task },
    /// Memory for the task was refused.
    Memory,
}

impl<L: Ledger> Room<L> {
    /// A room with this desk, which no worker holds.
    pub fn new(desk: Desk<L>) -> Room<L> {
        Room {
            desk: Mutex::new(desk),
            recorded: Condvar::new(),
        }
    }

    /// The desk, where the workers have ended. Nothing is known of it but what its type says.
    pub fn into_desk(self) -> Desk<L> {
        let Room { desk, recorded: _ } = self;
        desk.into_inner()
    }

    /// Waits until the worker of a position has something to do, and copies what it needs.
    pub fn order<R: Wait>(&self, rt: &R, position: u64) -> Order
        ensures { IsOrder result }
    {
        let desk = self
            .recorded
            .wait_while(rt, self.desk.lock(rt), |desk| desk.is_later(position));
        match desk.turn(position) {
            Turn::Work { .. } => match desk.task(position) {
                Ok(task) => Order::Cross { task },
                Err(_) => Order::Memory,
            },
            Turn::Over => Order::Over,
            Turn::Later => unreachable!(),
        }
    }

    /// The next entry with this fingerprint from the one with the number `from`, and the number of entries (`Desk::next_known`).
    pub fn next_known<R: Wait>(
        &self,
        rt: &R,
        print: &[i128],
        from: u32,
    ) -> Result<(Option<(u32, Arc<Triangulation, Global>)>, u32), Memory>
        ensures form { IfOk result (λ r. IfSome r.0 (λ x. IsOfSomeForm (arc_value x.1))) }
        ensures within { IfOk result (λ r. IfSome r.0 (λ x. x.0 < 2 ^ 30)) }
    {
        self.desk.lock(rt).next_known(print, from)
    }

    /// Records an entry onto which a matrix carries (`Desk::cross`), and wakes those who wait.
    pub fn cross<R: Wait>(
        &self,
        rt: &R,
        position: u64,
        task: &Task,
        target: u32,
        image: &Triangulation,
        matrix: Matrix,
        share: &mut Share<L>,
    ) -> Answer
        requires part { 0 < share.old.parts }
        requires carried { IsCarried task.now image.now (matrix_rows matrix) }
        ensures { share.new.parts ≡ share.old.parts }
    {
        let answer = self
            .desk
            .lock(rt)
            .cross(position, task, target, image, matrix, share);
        self.recorded.notify_all();
        answer
    }

    /// Records a class that is too wide (`Desk::widen`), and wakes those who wait.
    pub fn widen<R: Wait>(
        &self,
        rt: &R,
        position: u64,
        task: &Task,
        class: Class,
        span: i64,
        share: &mut Share<L>,
    ) -> Answer
        requires part { 0 < share.old.parts }
        requires wide { IsWideFlip (dimension_of (home_of task.now)) (home_of task.now) task.now.normal class span }
        ensures { share.new.parts ≡ share.old.parts }
    {
        let answer = self.desk.lock(rt).widen(position, task, class, span, share);
        self.recorded.notify_all();
        answer
    }

    /// Records a weight that is too great (`Desk::weigh`), and wakes those who wait.
    pub fn weigh<R: Wait>(
        &self,
        rt: &R,
        position: u64,
        task: &Task,
        beyond: &Triangulation,
        weight: i128,
        test: &Test,
        share: &mut Share<L>,
    ) -> Answer
        requires part { 0 < share.old.parts }
        requires beyond { IsBeyond task.now beyond.now }
        requires heavy { IsHeavyCone (dimension_of beyond.now) beyond.now (Heavy weight) }
        requires tested { IsTest beyond.now test.now }
        ensures { share.new.parts ≡ share.old.parts }
    {
        let answer = self
            .desk
            .lock(rt)
            .weigh(position, task, beyond, weight, test, share);
        self.recorded.notify_all();
        answer
    }

    /// Records a new entry (`Desk::grow`), and wakes those who wait.
    pub fn grow<R: Wait>(
        &self,
        rt: &R,
        position: u64,
        task: &Task,
        beyond: Triangulation,
        copy: Arc<Triangulation, Global>,
        cone: Cone,
        test: &Test,
        share: &mut Share<L>,
    ) -> Result<(), Refused>
        requires part { 0 < share.old.parts }
        requires copy { arc_value copy ≡ beyond }
        requires beyond { IsBeyond task.now beyond }
        requires cone { IsRightCone (dimension_of beyond) beyond cone }
        requires tested { IsTest beyond test.now }
        ensures back { IfErr result (λ b. (b.beyond ≡ beyond) × (b.cone ≡ cone)) }
        ensures parts { share.new.parts ≡ share.old.parts }
    {
        let grown = self
            .desk
            .lock(rt)
            .grow(position, task, beyond, copy, cone, test, share);
        self.recorded.notify_all();
        grown
    }

    /// Notes that memory was refused, and wakes those who wait.
    pub fn note_memory<R: Wait>(&self, rt: &R) {
        self.desk.lock(rt).note_memory();
        self.recorded.notify_all();
    }
}
