//! An operator's cell.

ghost use Rattle.std.specs.Prelude.{◌≡◌, ◌<◌, ◌≤◌, ◌^◌, length, IfOk, IfErr, IfSome};
ghost use Rattle.operator_book.specs.ViewOf.{view_of};
ghost use Rattle.operator_model.specs.declared.action.Action.TheVariants as actions;
ghost use Rattle.plant_workers.specs.cell_state.Receiving.{IsOfSomeBook};
ghost use Rattle.plant_workers.specs.cell_state.Taking.{frames_at, IsFrameOfSomeBook};
ghost use Rattle.plant_workers.specs.cell_state.Telling.{IsOfBook, IsOfTurn, IsOfTaking};

use crate::cell_state::{CellFault, Held};
use crate::gate::Gate;
use crate::part::LOOKS;
use crate::receipts::Receipt;
use crate::signal::Signal;
use crate::turn::{Turn, Turns};
use dsx_messages::Modem;
use operator_book::Book;
use operator_model::{Action, Heard};
use plant::Op;
use slice_scheduler::Elements;
use std::alloc::{AllocError, Global};
use std::sync::{Mutex, Wait};

/// An operator's book behind a lock, with its frames that wait to be collected and a mark that its turns have stopped.
/// Threads share it by reference.
#[derive(Drop)]
pub struct OperatorCell {
    op: Op,
    held: Mutex<Held>,
    signal: Signal,
}

impl OperatorCell {
    /// Returns a cell round a book. The frames that are in its history count as collected. Takes no
    /// memory.
    pub fn new(op: Op, book: Book) -> OperatorCell
        requires { book.ranking.policy ≡ book.kept.book.row.policy }
        ensures { result.op ≡ op }
    {
        OperatorCell::holding(op, Held::of(book))
    }

    /// Returns a cell round a book of which so many frames are collected: what `into_parts` gives,
    /// put together again. Takes no memory.
    pub fn again(op: Op, book: Book, taken: usize) -> OperatorCell
        requires { taken ≤ length (frames_at (view_of book)) }
        ensures { result.op ≡ op }
    {
        OperatorCell::holding(op, Held::again(book, taken))
    }

    /// Returns the cell round this.
    fn holding(op: Op, held: Held) -> OperatorCell
        ensures { result.op ≡ op }
    {
        let count = held.count();
        OperatorCell {
            op,
            held: Mutex::new(held),
            signal: Signal::new(count),
        }
    }

    /// Returns the book, and how many of its frames were collected. Takes no memory.
    pub fn into_parts(self) -> (Book, usize)
        requires { self.op < 2 ^ 64 }
        ensures { result.1 ≤ length (frames_at (view_of result.0)) }
    {
        let OperatorCell {
            op: _,
            held,
            signal: _,
        } = self;
        held.into_inner().into_parts()
    }

    /// Returns what is done under the lock.
    fn turn(&self) -> Turn<'_>
        ensures { result.op ≡ self.now.op }
    {
        self.turn_after(LOOKS)
    }

    /// Returns what is done under the lock, by a thread that looks so many times whether its turn has come, before it sleeps.
    fn turn_after(&self, looks: usize) -> Turn<'_>
        ensures { result.op ≡ self.now.op }
    {
        Turn {
            op: self.op,
            held: &self.held,
            signal: &self.signal,
            looks,
        }
    }

    /// Puts what was received of a modem into the inbox.
    pub fn arrive<R: Wait>(
        &self,
        rt: &R,
        alloc: Global,
        modem: Modem,
        heard: Heard,
    ) -> Result<Receipt, CellFault>
        ensures action { IfOk result (λ receipt. receipt.action ≡ actions.Arrive modem heard) }
        // The receipt is not made up. That it is of this cell's book is known only after `settle`.
        ensures some_book { IfOk result (IsOfSomeBook (actions.Arrive modem heard)) }
        // The refusals that the action can have. No clause says that a refusal has its cause.
        ensures fault { IfErr result (IsOfBook (actions.Arrive modem heard)) }
    {
        self.turn().act(rt, alloc, Action::Arrive { modem, heard })
    }

    /// Handles the first of the inbox.
    pub fn work<R: Wait>(&self, rt: &R, alloc: Global) -> Result<Receipt, CellFault>
        ensures action { IfOk result (λ receipt. receipt.action ≡ actions.Work) }
        ensures some_book { IfOk result (IsOfSomeBook actions.Work) }
        ensures fault { IfErr result (IsOfBook actions.Work) }
    {
        self.turn().act(rt, alloc, Action::Work)
    }

    /// Counts the timers on, and schedules a frame, which then waits to be collected.
    pub fn tick<R: Wait>(&self, rt: &R, alloc: Global) -> Result<Receipt, CellFault>
        ensures action { IfOk result (λ receipt. receipt.action ≡ actions.Tick) }
        ensures some_book { IfOk result (IsOfSomeBook actions.Tick) }
        ensures fault { IfErr result (IsOfBook actions.Tick) }
    {
        self.turn().act(rt, alloc, Action::Tick)
    }

    /// Takes the oldest frame that waits, as a copy of what the history says; none where none waits.
    pub fn collect<R: Wait>(
        &self,
        rt: &R,
        alloc: Global,
    ) -> Result<Option<(u32, Elements)>, AllocError>
        // The frame is of some book's history. No clause says that it is one that waits.
        ensures { IfOk result (λ taken. IfSome taken IsFrameOfSomeBook) }
    {
        self.turn().collect(rt, alloc)
    }

    /// Waits until the history has `index` entries, and does an action, which is then the entry at
    /// this place. The method `inside` of `gate` is called before the lock is released, and `outside` after.
    ///
    /// Faults, in this order: `Stopped`; `Passed` where the history is longer; those of the book,
    /// and then the cell's turns are stopped.
    pub fn in_turn<R: Wait, G: Gate<R>>(
        &self,
        rt: &R,
        alloc: Global,
        index: usize,
        action: Action,
        gate: &G,
    ) -> Result<Receipt, CellFault>
        ensures index { IfOk result (λ receipt. receipt.index ≡ index) }
        ensures action { IfOk result (λ receipt. receipt.action ≡ action) }
        ensures some_book { IfOk result (IsOfSomeBook action) }
        ensures fault { IfErr result (IsOfTurn self.now.op index action) }
    {
        self.turn().in_turn(rt, alloc, index, action, gate)
    }

    /// Waits until the history has at least so many entries, and takes the oldest frame that waits.
    ///
    /// Faults, in this order: `Stopped`; `Book` of `NoMemory`.
    pub fn collect_after<R: Wait>(
        &self,
        rt: &R,
        alloc: Global,
        index: usize,
    ) -> Result<Option<(u32, Elements)>, CellFault>
        ensures some_book { IfOk result (λ taken. IfSome taken IsFrameOfSomeBook) }
        ensures fault { IfErr result (IsOfTaking self.now.op) }
    {
        self.turn().collect_after(rt, alloc, index)
    }

    /// Stops the turns: each that waits, and each later one, is refused.
    pub fn stop<R: Wait>(&self, rt: &R) {
        self.turn().stop(rt);
    }
}

impl<R: Wait> Turns<R> for OperatorCell {
    ghost place = { λ cell. cell.op };

    fn op(&self) -> Op {
        self.op
    }

    fn act_in_turn<G: Gate<R>>(
        &self,
        rt: &R,
        alloc: Global,
        looks: usize,
        index: usize,
        action: Action,
        gate: &G,
    ) -> Result<Receipt, CellFault> {
        self.turn_after(looks)
            .in_turn(rt, alloc, index, action, gate)
    }

    fn take_after(
        &self,
        rt: &R,
        alloc: Global,
        looks: usize,
        index: usize,
    ) -> Result<Option<(u32, Elements)>, CellFault> {
        self.turn_after(looks).collect_after(rt, alloc, index)
    }

    fn end_turns(&self, rt: &R) {
        self.turn_after(0).stop(rt);
    }
}
