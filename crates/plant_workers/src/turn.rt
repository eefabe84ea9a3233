//! What is done under an operator's lock.

ghost use Rattle.std.specs.Prelude.{◌≡◌, IfOk, IfErr, IfSome};
ghost use Rattle.plant_workers.specs.cell_state.Receiving.{IsOfSomeBook};
ghost use Rattle.plant_workers.specs.cell_state.Taking.{IsFrameOfSomeBook};
ghost use Rattle.plant_workers.specs.cell_state.Telling.{IsOfBook, IsOfTurn, IsOfTaking};

use crate::cell_state::{CellFault, Held};
use crate::gate::Gate;
use crate::receipts::Receipt;
use crate::signal::Signal;
use operator_model::Action;
use plant::Op;
use slice_scheduler::Elements;
use std::alloc::{AllocError, Global};
use std::sync::{Mutex, MutexGuard, Wait};

/// An operator's lock, what signals those who wait for a turn that the history has grown or the
/// turns have stopped, and how often one who waits looks before it sleeps.
#[derive(Clone, Copy)]
pub(crate) struct Turn<'a> {
    pub op: Op,
    pub held: &'a Mutex<Held>,
    pub signal: &'a Signal,
    pub looks: usize,
}

/// An operator whose turns the threads of a run take: its cell. A trait of its own, so that what threads share asks for no more of a
/// cell than that it may be shared.
pub(crate) trait Turns<R: Wait> {
    ghost use Rattle.std.specs.Prelude.{ℕ};

    /// The operator's place.
    ghost place: { Self → ℕ };

    /// Returns the operator of which this is the cell.
    fn op(&self) -> Op
        ensures { result ≡ place self.now };

    /// Waits until the history has `index` entries, looks so many times before it sleeps, and does an action.
    fn act_in_turn<G: Gate<R>>(
        &self,
        rt: &R,
        alloc: Global,
        looks: usize,
        index: usize,
        action: Action,
        gate: &G,
    ) -> Result<Receipt, CellFault>
        ensures action { IfOk result (λ receipt. receipt.action ≡ action) }
        ensures fault { IfErr result (IsOfTurn (place self.now) index action) };

    /// Waits until the history has at least so many entries, looks so many times before it sleeps, and takes the oldest frame that
    /// waits.
    fn take_after(
        &self,
        rt: &R,
        alloc: Global,
        looks: usize,
        index: usize,
    ) -> Result<Option<(u32, Elements)>, CellFault>
        ensures { IfErr result (IsOfTaking (place self.now)) };

    /// Stops the turns: each that waits, and each later one, is refused.
    fn end_turns(&self, rt: &R);
}

impl<'a> Turn<'a> {
    /// Waits until the history has `index` entries or the turns have stopped, and returns the lock.
    fn wait_for<R: Wait>(self, rt: &R, index: usize) -> MutexGuard<'a, Held> {
        self.signal.wait_for(rt, self.held, index, self.looks)
    }

    /// Does an action at once.
    pub(crate) fn act<R: Wait>(
        self,
        rt: &R,
        alloc: Global,
        action: Action,
    ) -> Result<Receipt, CellFault>
        ensures action { IfOk result (λ receipt. receipt.action ≡ action) }
        ensures some_book { IfOk result (IsOfSomeBook action) }
        ensures fault { IfErr result (IsOfBook action) }
    {
        let mut held = self.held.lock(rt);
        match held.act(alloc, action) {
            Ok(receipt) => {
                let count = held.count();
                drop(held);
                self.signal.grow(count);
                Ok(receipt)
            }
            Err(fault) => Err(CellFault::Book(fault)),
        }
    }

    /// Waits until the history has `index` entries, and does an action, which is then the entry at
    /// this place. The method `inside` of `gate` is called before the lock is released, and `outside` after.
    ///
    /// Faults, in this order: `Stopped`; `Passed` where the history is longer; those of the book,
    /// and then the cell's turns are stopped.
    pub(crate) fn in_turn<R: Wait, G: Gate<R>>(
        self,
        rt: &R,
        alloc: Global,
        index: usize,
        action: Action,
        gate: &G,
    ) -> Result<Receipt, CellFault>
        ensures index { IfOk result (λ receipt. receipt.index ≡ index) }
        ensures action { IfOk result (λ receipt. receipt.action ≡ action) }
        ensures some_book { IfOk result (IsOfSomeBook action) }
        ensures fault { IfErr result (IsOfTurn self.entry.op index action) }
    {
        let mut held = self.wait_for(rt, index);
        let told = held.turn(alloc, self.op, index, action);
        if told.is_ok() {
            gate.inside(rt, self.op, index);
        }
        let count = held.count();
        let stopped = held.stopped;
        drop(held);
        if told.is_ok() {
            self.signal.grow(count);
            gate.outside(rt, self.op, index);
        } else if stopped {
            self.signal.stop();
        }
        told
    }

    /// Takes the oldest frame that waits.
    pub(crate) fn collect<R: Wait>(
        self,
        rt: &R,
        alloc: Global,
    ) -> Result<Option<(u32, Elements)>, AllocError>
        ensures { IfOk result (λ taken. IfSome taken IsFrameOfSomeBook) }
    {
        let mut held = self.held.lock(rt);
        held.collect(alloc)
    }

    /// Waits until the history has so many entries, and takes the oldest frame that waits.
    pub(crate) fn collect_after<R: Wait>(
        self,
        rt: &R,
        alloc: Global,
        index: usize,
    ) -> Result<Option<(u32, Elements)>, CellFault>
        ensures some_book { IfOk result (λ taken. IfSome taken IsFrameOfSomeBook) }
        ensures fault { IfErr result (IsOfTaking self.entry.op) }
    {
        let mut held = self.wait_for(rt, index);
        held.take(alloc, self.op)
    }

    /// Stops the turns, and wakes all that wait for one.
    pub(crate) fn stop<R: Wait>(self, rt: &R) {
        let mut held = self.held.lock(rt);
        held.stop();
        drop(held);
        self.signal.stop();
    }
}
