//! Actions at an operator's book, and the frames that are taken from it.

ghost use Rattle.std.specs.Prelude.{◌≡◌, ◌≢◌, ◌↔◌, [], ◌++◌, ◌≤◌, length, Some, Err, IfOk, IfErr, IfSome, OnOk, OnErr};
ghost use Rattle.operator_model.specs.Machine.{own_step};
ghost use Rattle.operator_model.specs.Replay.{operator_of_book, book_after_action};
ghost use Rattle.operator_book.specs.declared.book.BookFault.{BookFault};
ghost use Rattle.run_model.specs.IsStateAfter.{frames_of};
ghost use Rattle.plant_workers.specs.cell_state.HeldView.{cell_book, waiting_of};
ghost use Rattle.plant_workers.specs.cell_state.Receiving.{IsReceiptOf, IsOfSomeBook};
ghost use Rattle.plant_workers.specs.cell_state.Refusing.{refusal_of, IsActionFault};
ghost use Rattle.plant_workers.specs.cell_state.Taking.{IsFrontTaken, IsFrameOfSomeBook};

use crate::cell_state::collecting::oldest_from;
use crate::cell_state::held::Held;
use crate::cell_state::refusing::refusal_of;
use crate::receipts::Receipt;
use operator_book::BookFault;
use operator_model::{Action, Outputs};
use slice_scheduler::Elements;
use std::alloc::{AllocError, Global};

impl Held {
    /// Returns how many entries the history has.
    pub fn count(&self) -> usize
        ensures { result ≡ length (cell_book self.now).history }
    {
        self.book.history().len()
    }

    /// Does an action, and returns its receipt. All memory is taken first.
    pub fn act(&mut self, alloc: Global, action: Action) -> Result<Receipt, BookFault>
        requires within { self.old.collected ≤ length (cell_book self.old).history }
        // Its place is after all that was done, and its outputs are those of the operator's machine.
        ensures receipt { IfOk result (IsReceiptOf (cell_book self.old) action) }
        // It is of an action that some book took, whose state is the replay of its history.
        ensures some_book { IfOk result (IsOfSomeBook action) }
        ensures book { OnOk result (cell_book self.new ≡ book_after_action (cell_book self.old) action) }
        // The frames of the action wait after the others.
        ensures waiting { OnOk result (waiting_of self.new
            ≡ waiting_of self.old ++ frames_of (own_step (operator_of_book (cell_book self.old)) action).outputs) }
        // Each refusal comes exactly in its case.
        ensures refused { (fault : BookFault) → fault ≢ BookFault.NoMemory
            → (result ≡ Err fault) ↔ (refusal_of (cell_book self.old) action ≡ Some fault) }
        // It is one that the action can have.
        ensures of_action { IfErr result (IsActionFault action) }
        ensures same_book { OnErr result (cell_book self.new ≡ cell_book self.old) }
        ensures same_waiting { OnErr result (waiting_of self.new ≡ waiting_of self.old) }
        ensures stopped { self.new.stopped ≡ self.old.stopped }
    {
        if let Some(fault) = refusal_of(&self.book, &action) {
            return Err(fault);
        }
        let index = self.count();
        // For the proof: the state of the book is the replay of its history.
        self.book.always_replayed();
        let Ok(told) = action.copy(alloc) else {
            return Err(BookFault::NoMemory);
        };
        match self.book.act(alloc, action) {
            Ok(outputs) => Ok(Receipt {
                index,
                action: told,
                outputs: Outputs::from_vec(outputs),
            }),
            Err(_) => Err(BookFault::NoMemory),
        }
    }

    /// Takes the oldest frame that waits, as a copy of what the history has; none if none waits.
    pub fn collect(&mut self, alloc: Global) -> Result<Option<(u32, Elements)>, AllocError>
        requires within { self.old.collected ≤ length (cell_book self.old).history }
        ensures taken { IfOk result (IsFrontTaken (waiting_of self.old) (waiting_of self.new)) }
        ensures some_book { IfOk result (λ taken. IfSome taken IsFrameOfSomeBook) }
        ensures book { cell_book self.new ≡ cell_book self.old }
        ensures stopped { self.new.stopped ≡ self.old.stopped }
        ensures err { OnErr result (waiting_of self.new ≡ waiting_of self.old) }
        // Only a frame that waits takes memory.
        ensures memory { OnErr result (waiting_of self.old ≢ []) }
    {
        // For the proof: the state of the book is the replay of its history.
        self.book.always_replayed();
        let Some(oldest) = oldest_from(alloc, self.book.history(), self.collected)? else {
            return Ok(None);
        };
        self.collected = oldest.behind;
        Ok(Some((oldest.number, oldest.elements)))
    }
}
