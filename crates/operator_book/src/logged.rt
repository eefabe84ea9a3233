//! A machine next to the history of all that was done.

ghost use Rattle.std.specs.Prelude.{◌≡◌, ◌<◌, None, IfOk, OnOk, OnErr};
ghost use Rattle.plant.specs.Row.{IsRowOf};
ghost use Rattle.operator_model.specs.declared.action.Action.TheVariants as actions;
ghost use Rattle.operator_model.specs.Machine.{own_step, unfit_from, IsAllowed};
ghost use Rattle.operator_model.specs.Replay.{operator_of_book, opened_book, IsReplayed, book_after_action};
ghost use Rattle.operator_model.specs.Sound.{IsSound};

use crate::history::History;
use crate::machine::MachineState;
use crate::plan::{SpareOutputs, output_copies};
use crate::tick_memory::TickMemory;
use grant_policy::Ranks;
use operator_model::{Action, Entry, Output, Outputs, SliceRow, replay_is_sound};
use plant::{Consts, OperatorRow};
use std::alloc::{AllocError, Global};
use std::marker::Model;

/// A machine next to the history of all that was done. Contracts see `book`: the row, what all
/// operators share, the state and the history; and `spare`: how many entries more the history takes
/// without memory. The type keeps that the state is the replay of the history.
#[derive(Drop)]
pub struct RecordedMachine {
    pub(crate) machine: MachineState,
    pub(crate) history: History,
}

impl Model for RecordedMachine {
    ghost use Rattle.operator_book.specs.Kept.{HeldBook, IsBook};

    ghost Value = { HeldBook };

    ghost view = { λ b. record {
      book = record { row = b.machine.row; consts = b.machine.consts; state = b.machine.state; history = b.history.entries };
      spare = b.history.spare;
    } };

    ghost invariant = { λ b. IsBook b.machine.consts b.machine.row b.history.entries b.machine.state };
}

impl RecordedMachine {
    /// Returns the machine of an operator as it is opened, with nothing done.
    pub(crate) fn open(
        alloc: Global,
        row: &OperatorRow,
        consts: &Consts,
    ) -> Result<RecordedMachine, AllocError>
        requires { IsRowOf consts.now row.now }
        ensures { IfOk result (λ held. held.book ≡ opened_book consts.now row.now) }
    {
        // For the proof: what the type of `row.get_fields().slice.get_length()` keeps.
        let _some = row.get_fields().slice.get_length();
        Ok(RecordedMachine {
            machine: MachineState::open(alloc, row, consts)?,
            history: History::new(alloc),
        })
    }

    /// Does an action that is not refused, and reports what it outputs.
    pub(crate) fn act<R: Ranks>(
        &mut self,
        alloc: Global,
        ranking: &R,
        action: Action,
    ) -> Result<Vec<Output>, AllocError>
        requires policy { R.policy ranking.now ≡ self.old.book.row.policy }
        requires allowed { IsAllowed (operator_of_book self.old.book) action }
        ensures state { OnOk result (self.new.book ≡ book_after_action self.old.book action) }
        ensures outputs { IfOk result (λ outputs. outputs.items
            ≡ (own_step (operator_of_book self.old.book) action).outputs) }
        ensures err { OnErr result (self.new.book ≡ self.old.book) }
    {
        // For the proof: what always holds of `self`.
        self.always();
        self.history.make_room()?;
        let recorded = action.copy(alloc)?;
        let mut memory = TickMemory::new(alloc);
        let spare = SpareOutputs::new(alloc);
        let plan = self
            .machine
            .plan(alloc, spare, &mut memory, ranking, action)?;
        let copies = output_copies(alloc, plan.outputs())?;
        let outputs = self.machine.commit(plan, &mut memory)?;
        self.history.push(Entry {
            action: recorded,
            outputs: Outputs::from_vec(copies),
        });
        Ok(outputs)
    }

    /// Makes room for one entry more, which a slice change will take.
    pub(crate) fn make_room(&mut self) -> Result<(), AllocError>
        ensures ok { OnOk result (0 < self.new.spare) }
        ensures book { self.new.book ≡ self.old.book }
    {
        self.history.make_room()
    }

    /// Takes a slice that fits from a later frame on, with no memory.
    #[tactic(auto, using(crate::proofs::Replays::resliced_is))]
    pub(crate) fn reslice(&mut self, from: u32, row: SliceRow)
        requires fit { unfit_from (operator_of_book self.old.book) from row ≡ None }
        requires spare { 0 < self.old.spare }
        ensures { self.new.book ≡ book_after_action self.old.book (actions.Reslice from row) }
    {
        self.machine.reslice(from, row);
        self.history.push(Entry {
            action: Action::Reslice { from, row },
            outputs: Outputs::new(self.history.allocator()),
        });
    }

    /// States what always holds, for a caller's proof. Does nothing.
    pub(crate) fn always(&self)
        ensures replay { IsReplayed self.now.book }
        ensures sound { IsSound (operator_of_book self.now.book) }
    {
        // For the proof: the replay of a history is sound, whatever was done.
        replay_is_sound();
        let _ = &self.history;
    }
}
