//! The book: one operator's machine, its history, and the ranking of its flows.

ghost use Rattle.std.specs.Prelude.{◌≡◌, ◌≢◌, ◌↔◌, ◌<◌, ◌≤◌, true, length, Err, Some, None, IfOk, OnOk, OnErr};
ghost use Rattle.dsx_messages.specs.declared.modem.Modem.{Modem};
ghost use Rattle.plant.specs.Row.{IsRowOf};
ghost use Rattle.operator_model.specs.declared.action.Unfit.{Unfit};
ghost use Rattle.operator_model.specs.declared.action.Action.{Action};
ghost use Rattle.operator_model.specs.declared.action.Action.TheVariants as actions;
ghost use Rattle.operator_model.specs.Machine.{own_step, stranger_of, is_spent, unfit_of, unfit_from, IsAllowed};
ghost use Rattle.operator_model.specs.Replay.{operator_of_book, opened_book, IsReplayed, book_after_action};
ghost use Rattle.operator_model.specs.Sound.{IsSound};
ghost use Rattle.operator_book.specs.MostOutputs.{most_outputs_of};
ghost use Rattle.operator_book.specs.declared.book.OpenFault.TheVariants as open_faults;
ghost use Rattle.operator_book.specs.declared.book.BookFault.TheVariants.{NoMemory};

use crate::logged::RecordedMachine;
use crate::state_view::StateView;
use dsx_messages::Modem;
use grant_policy::Ranking;
use operator_model::{Action, Entry, Output, SliceRow, Unfit};
use plant::{Consts, OperatorRow};
use std::alloc::{AllocError, Global};

/// Why a book was not opened, in the order tried.
#[derive(Clone, Copy, Debug, PartialEq, Eq)]
pub enum OpenFault {
    /// The ranking follows another policy than the row's.
    PolicyMismatch,
    /// Memory ran out before any effect.
    NoMemory,
}

impl From<AllocError> for OpenFault {
    ghost from_gives = { λ _ fault. fault ≡ open_faults.NoMemory };

    fn from(_error: AllocError) -> OpenFault {
        OpenFault::NoMemory
    }
}

/// Says why an action was refused. `NotMine` is tried first, then `FramesSpent`, then `Unfit`, and `NoMemory` last.
#[derive(Clone, Copy, Debug, PartialEq, Eq)]
pub enum BookFault {
    /// The frame number is the last one: no tick follows it.
    FramesSpent,
    /// Memory ran out before any effect.
    NoMemory,
    /// The modem is not of this operator.
    NotMine { modem: Modem },
    /// A slice that was offered cannot be taken.
    Unfit(Unfit),
}

impl From<AllocError> for BookFault {
    ghost from_gives = { λ _ fault. fault ≡ NoMemory };

    fn from(_error: AllocError) -> BookFault {
        BookFault::NoMemory
    }
}

/// One operator's book. What contracts say of it they say of `kept.book`: its row, what all operators share, its state and
/// its history; and of `kept.spare`: how many actions more its history takes without memory. Nobody outside can put another
/// in its place. The type keeps that the state is the replay of the history from the opened state, and that the ranking
/// follows the row's policy.
pub struct Book {
    kept: RecordedMachine,
    ranking: Ranking,
    ghost same_policy: { ranking.policy ≡ kept.book.row.policy },
}

/// Written out, so that the crates above prove nothing of how the parts of a book are dropped.
impl Drop for Book {
    fn drop(self) {
        let Book {
            kept: _,
            ranking: _,
        } = self;
    }
}

impl Book {
    /// Returns the book of an operator with nothing done: its provisioned flows exist, and nothing
    /// else. The caller knows that the row is one of a plant with these constants.
    pub fn open(
        alloc: Global,
        row: &OperatorRow,
        consts: &Consts,
        ranking: Ranking,
    ) -> Result<Book, OpenFault>
        requires { IsRowOf consts.now row.now }
        ensures ok { IfOk result (λ book. book.kept.book ≡ opened_book consts.now row.now) }
        // A ranking of another policy is refused, and only such a one.
        ensures mismatch { (result ≡ Err OpenFault.PolicyMismatch) ↔ (ranking.policy ≢ row.now.policy) }
    {
        if ranking.policy() != row.get_fields().policy {
            return Err(OpenFault::PolicyMismatch);
        }
        let kept = RecordedMachine::open(alloc, row, consts)?;
        Ok(Book { kept, ranking })
    }

    /// Does an action, and reports what it outputs. A refused action changes nothing but that there
    /// may be more spare room.
    pub fn act(&mut self, alloc: Global, action: Action) -> Result<Vec<Output>, BookFault>
        // A step of the operator's own machine.
        ensures state { OnOk result (self.new.kept.book ≡ book_after_action self.old.kept.book action) }
        // The outputs are those of this step.
        ensures outputs { IfOk result (λ outputs. outputs.items
            ≡ (own_step (operator_of_book self.old.kept.book) action).outputs) }

        // Refused in exactly three cases: another operator's modem, a tick past the last frame, a slice that does not
        // fit.
        ensures not_mine { (modem : Modem) → (result ≡ Err (BookFault.NotMine modem))
            ↔ (stranger_of self.old.kept.book.row action ≡ Some modem) }
        ensures spent { (result ≡ Err BookFault.FramesSpent) ↔ (is_spent self.old.kept.book.state action ≡ true) }
        ensures unfit { (u : Unfit) → (result ≡ Err (BookFault.Unfit u))
            ↔ (unfit_of (operator_of_book self.old.kept.book) action ≡ Some u) }
        ensures allowed { OnOk result (IsAllowed (operator_of_book self.old.kept.book) action) }
        // A refusal changes nothing, and neither does a failed allocation.
        ensures err { OnErr result (self.new.kept.book ≡ self.old.kept.book) }
        ensures ranking { self.new.ranking ≡ self.old.ranking }
    {
        if let Err(fault) = self.kept.machine.judge(&action) {
            return Err(fault);
        }
        Ok(self.kept.act(alloc, &self.ranking, action)?)
    }

    /// Returns whether a slice and a budget can be taken from this frame on. Takes no memory.
    pub fn offer(&self, from: u32, row: SliceRow) -> Result<(), Unfit>
        // Refused exactly for why the slice or the budget does not fit.
        ensures unfit { (u : Unfit) → (result ≡ Err u)
            ↔ (unfit_from (operator_of_book self.now.kept.book) from row ≡ Some u) }
        ensures fit { OnOk result (unfit_from (operator_of_book self.now.kept.book) from row ≡ None) }
    {
        match self.kept.machine.unfit_from(from, row) {
            Some(unfit) => Err(unfit),
            None => Ok(()),
        }
    }

    /// Makes room for one entry more, which a slice change will take.
    pub fn make_room(&mut self) -> Result<(), AllocError>
        ensures ok { OnOk result (0 < self.new.kept.spare) }
        ensures book { self.new.kept.book ≡ self.old.kept.book }
    {
        self.kept.make_room()
    }

    /// Takes a slice that `offer` found fit, in the room that `make_room` made. Takes no memory, and cannot fail.
    pub fn reslice(&mut self, from: u32, row: SliceRow)
        requires fit { unfit_from (operator_of_book self.old.kept.book) from row ≡ None }
        requires spare { 0 < self.old.kept.spare }
        ensures { self.new.kept.book ≡ book_after_action self.old.kept.book (actions.Reslice from row) }
    {
        self.kept.reslice(from, row);
    }

    /// Returns how many outputs an action has at most, if it is done next: a tick what it
    /// retransmits and its frame, any other action one. At most 65,537.
    pub fn most_outputs(&self, action: &Action) -> usize
        ensures value { result ≡ most_outputs_of self.now.kept.book.state action.now }
        // The action has at most so many outputs.
        ensures bound { length (own_step (operator_of_book self.now.kept.book) action.now).outputs ≤ result }
        ensures few { result ≤ 65537 }
    {
        self.kept.machine.most_outputs(action)
    }

    /// Returns whether this is a tick past the last frame.
    pub fn is_spent(&self, action: &Action) -> bool
        ensures { result ≡ is_spent self.now.kept.book.state action.now }
    {
        self.kept.machine.is_spent(action)
    }

    /// Returns a copy of the state.
    pub fn state_view(&self, alloc: Global) -> Result<StateView, AllocError>
        ensures { IfOk result (λ view. view ≡ self.now.kept.book.state) }
    {
        self.kept.machine.state_view(alloc)
    }

    /// Returns all that was done, in order.
    pub fn history(&self) -> &[Entry]
        ensures { result.now ≡ self.now.kept.book.history }
    {
        self.kept.history.as_slice()
    }

    /// Returns the operator's row, as the book was opened with it.
    pub fn row(&self) -> &OperatorRow
        ensures { result.now ≡ self.now.kept.book.row }
    {
        &self.kept.machine.row
    }

    /// Returns what all operators of the plant share.
    pub fn consts(&self) -> &Consts
        ensures { result.now ≡ self.now.kept.book.consts }
    {
        &self.kept.machine.consts
    }

    /// Returns the book taken apart: its machine with its history, and its ranking, which follows
    /// the row's policy.
    pub fn into_parts(self) -> (RecordedMachine, Ranking)
        requires { self.ranking.policy ≡ self.kept.book.row.policy }
        ensures { (result.0 ≡ self.kept) × (result.1 ≡ self.ranking) × (result.1.policy ≡ result.0.book.row.policy) }
    {
        let Book { kept, ranking } = self;
        (kept, ranking)
    }

    /// Returns the book of these parts.
    pub fn of_parts(kept: RecordedMachine, ranking: Ranking) -> Book
        requires { ranking.policy ≡ kept.book.row.policy }
        ensures { (result.kept ≡ kept) × (result.ranking ≡ ranking) }
    {
        Book { kept, ranking }
    }

    /// States that the state is the replay of the history, and each entry's outputs are the run's.
    pub fn always_replayed(&self)
        ensures { IsReplayed self.now.kept.book }
    {
        // For the proof: what always holds of `self.kept`.
        self.kept.always();
    }

    /// States that the state is sound. A flow's SFID and SID lie in the row's ranges and are its
    /// own; flows, cached responses and inbox never pass the row's limits; what is committed never
    /// passes the quota, nor the budget in force, nor one that waits for its frame.
    pub fn always_sound(&self)
        ensures { IsSound (operator_of_book self.now.kept.book) }
    {
        // For the proof: what always holds of `self.kept`.
        self.kept.always();
    }
}
