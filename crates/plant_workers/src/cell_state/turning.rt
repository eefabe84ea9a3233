//! Turns at an operator's book.

ghost use Rattle.std.specs.Prelude.{◌≡◌, ◌≢◌, ◌↔◌, [], ◌++◌, ◌≤◌, true, false, length, Some, Ok, Err, IfOk, IfErr, IfSome, OnOk, OnErr};
ghost use Rattle.operator_model.specs.Machine.{own_step};
ghost use Rattle.operator_model.specs.Replay.{operator_of_book, book_after_action};
ghost use Rattle.operator_book.specs.declared.book.BookFault.{BookFault};
ghost use Rattle.run_model.specs.IsStateAfter.{frames_of};
ghost use Rattle.plant_workers.specs.cell_state.HeldView.{cell_book, waiting_of};
ghost use Rattle.plant_workers.specs.cell_state.Receiving.{IsReceiptOf, IsOfSomeBook};
ghost use Rattle.plant_workers.specs.cell_state.Refusing.{refusal_of};
ghost use Rattle.plant_workers.specs.cell_state.Taking.{IsFrontTaken, IsFrameOfSomeBook};
ghost use Rattle.plant_workers.specs.cell_state.Telling.{IsOfTurn, IsOfTaking};

use crate::cell_state::cell_fault::CellFault;
use crate::cell_state::held::Held;
use crate::receipts::Receipt;
use operator_book::BookFault;
use operator_model::Action;
use plant::Op;
use slice_scheduler::Elements;
use std::alloc::Global;

impl Held {
    /// Does an action whose turn comes at this place of the history.
    ///
    /// Faults, in this order: `Stopped`; `Passed` where the history has not just so many entries; those of the book. Each
    /// names the operator that it is asked for. Only a fault of the book stops the turns.
    pub fn turn(
        &mut self,
        alloc: Global,
        op: Op,
        index: usize,
        action: Action,
    ) -> Result<Receipt, CellFault>
        requires within { self.old.collected ≤ length (cell_book self.old).history }
        ensures index { IfOk result (λ receipt. receipt.index ≡ index) }
        ensures receipt { IfOk result (IsReceiptOf (cell_book self.old) action) }
        ensures some_book { IfOk result (IsOfSomeBook action) }
        ensures book { OnOk result (cell_book self.new ≡ book_after_action (cell_book self.old) action) }
        // The frames of the action wait after the others.
        ensures waiting { OnOk result (waiting_of self.new
            ≡ waiting_of self.old ++ frames_of (own_step (operator_of_book (cell_book self.old)) action).outputs) }
        ensures goes_on { OnOk result (self.new.stopped ≡ false) }
        ensures stopped { (result ≡ Err (CellFault.Stopped op)) ↔ (self.old.stopped ≡ true) }
        ensures passed { (result ≡ Err (CellFault.Passed op index))
            ↔ ((self.old.stopped ≡ false) × (length (cell_book self.old).history ≢ index)) }
        // Each refusal comes exactly in its case.
        ensures refused { (fault : BookFault) → fault ≢ BookFault.NoMemory
            → (result ≡ Err (CellFault.Book fault)) ↔ ((self.old.stopped ≡ false)
            × (length (cell_book self.old).history ≡ index)
            × (refusal_of (cell_book self.old) action ≡ Some fault)) }
        // It is one that the action can have: only a tick finds the frame numbers used up, and work is refused only out
        // of memory.
        ensures fault { IfErr result (IsOfTurn op index action) }
        // Only a turn that the book refuses stops the turns.
        ensures stops { (fault : BookFault) → result ≡ Err (CellFault.Book fault) → self.new.stopped ≡ true }
        ensures stays { self.old.stopped ≡ true → self.new.stopped ≡ true }
        ensures waits { result ≡ Err (CellFault.Passed op index) → self.new.stopped ≡ false }
        ensures same_book { OnErr result (cell_book self.new ≡ cell_book self.old) }
        ensures same_waiting { OnErr result (waiting_of self.new ≡ waiting_of self.old) }
    {
        if self.stopped {
            return Err(CellFault::Stopped { op });
        }
        if self.count() != index {
            return Err(CellFault::Passed { op, index });
        }
        match self.act(alloc, action) {
            Ok(receipt) => Ok(receipt),
            Err(fault) => {
                self.stop();
                Err(CellFault::Book(fault))
            }
        }
    }

    /// Takes the oldest frame that waits, unless the turns are stopped.
    ///
    /// Faults, in this order: `Stopped`; `Book` of `NoMemory`.
    pub fn take(&mut self, alloc: Global, op: Op) -> Result<Option<(u32, Elements)>, CellFault>
        requires within { self.old.collected ≤ length (cell_book self.old).history }
        ensures taken { IfOk result (IsFrontTaken (waiting_of self.old) (waiting_of self.new)) }
        ensures some_book { IfOk result (λ taken. IfSome taken IsFrameOfSomeBook) }
        ensures stopped { (result ≡ Err (CellFault.Stopped op)) ↔ (self.old.stopped ≡ true) }
        ensures fault { IfErr result (IsOfTaking op) }
        // Only a frame that waits takes memory.
        ensures memory { (result ≡ Err (CellFault.Book BookFault.NoMemory)) → waiting_of self.old ≢ [] }
        ensures book { cell_book self.new ≡ cell_book self.old }
        ensures same { self.new.stopped ≡ self.old.stopped }
        ensures err { OnErr result (waiting_of self.new ≡ waiting_of self.old) }
    {
        if self.stopped {
            return Err(CellFault::Stopped { op });
        }
        match self.collect(alloc) {
            Ok(taken) => Ok(taken),
            Err(_) => Err(CellFault::Book(BookFault::NoMemory)),
        }
    }

    /// Stops the turns: each that waits, and each later one, is refused.
    pub fn stop(&mut self)
        requires within { self.old.collected ≤ length (cell_book self.old).history }
        ensures stopped { self.new.stopped ≡ true }
        ensures book { self.new.book ≡ self.old.book }
        ensures collected { self.new.collected ≡ self.old.collected }
    {
        self.stopped = true;
    }
}
