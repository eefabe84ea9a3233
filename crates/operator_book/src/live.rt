//! One operator's machine at work, with no history.

ghost use Rattle.std.specs.Prelude.{◌≡◌, ◌≢◌, ◌≤◌, ◌↔◌, ◌⊎◌, vec_len, true, Err, Some, None, IfOk, IfErr, OnOk, OnErr};
ghost use Rattle.dsx_messages.specs.declared.modem.Modem.{Modem};
ghost use Rattle.plant.specs.Row.{IsRowOf};
ghost use Rattle.operator_model.specs.declared.action.Unfit.{Unfit};
ghost use Rattle.operator_model.specs.declared.action.Action.TheVariants as actions;
ghost use Rattle.operator_model.specs.State.{operator, opened_state, opened_before};
ghost use Rattle.operator_model.specs.Machine.{stranger_of, is_spent, unfit_of, unfit_from, own_step, after_step, IsAllowed};
ghost use Rattle.operator_model.specs.Sound.{IsSound};
ghost use Rattle.operator_book.specs.declared.handling.FirstRequest.{FirstRequest};
ghost use Rattle.operator_book.specs.Planned.{IsFirstRequest, IsPlanOf, IsCommittable, after_effect};
ghost use Rattle.operator_book.specs.Resuming.{state_fault, IsStateUnder};
ghost use Rattle.operator_book.specs.declared.state_fault.StateFault.TheVariants.{NoMemory};

use crate::book::BookFault;
use crate::handling::FirstRequest;
use crate::machine::MachineState;
use crate::plan::{Plan, SpareOutputs};
use crate::state_fault::StateFault;
use crate::state_view::StateView;
use crate::tick_memory::TickMemory;
use dsx_messages::Modem;
use grant_policy::Ranks;
use operator_model::{Action, Heard, NextShare, Output, Share, SliceRow, Unfit, step_keeps_sound};
use plant::{Consts, OperatorRow};
use std::alloc::{AllocError, Global};
use std::marker::Model;

/// A machine of which the state is sound. Contracts see the operator.
#[derive(Drop)]
pub struct SoundMachine {
    machine: MachineState,
}

impl Model for SoundMachine {
    ghost use Rattle.operator_model.specs.State.{Operator};
    ghost use Rattle.operator_model.specs.Sound.{IsSound};

    ghost Value = { Operator };

    ghost view = { λ s. s.machine };

    ghost invariant = { λ s. IsSound s.machine };
}

/// One operator's machine at work, with no history and no ranking: what a `Book` is except its ranking
/// and what it remembers, so that its memory does not grow with what is done. What contracts say of it
/// they say of `sound`: what all operators share, the row and the state, which is sound.
pub struct Machine {
    sound: SoundMachine,
}

/// Written out, so that the crates above prove nothing of how the parts of a machine are dropped.
impl Drop for Machine {
    fn drop(self) {
        let Machine { sound: _ } = self;
    }
}

impl SoundMachine {
    /// Returns the machine of an operator as it is opened before this frame.
    #[tactic(auto, using(operator_model::proofs::OpenedBeforeLemmas::opened_before_sound))]
    fn open_before(
        alloc: Global,
        row: &OperatorRow,
        consts: &Consts,
        frame: u32,
    ) -> Result<SoundMachine, AllocError>
        requires { IsRowOf consts.now row.now }
        // Opened before this frame, with the provisioned flows and nothing else.
        ensures { IfOk result (λ sound. sound ≡ operator consts.now row.now (opened_before frame consts.now row.now)) }
    {
        // For the proof: that the slice has a minislot, which makes the opened machine sound.
        let _some = row.get_fields().slice.get_length();
        let machine = MachineState::open_before(alloc, row, consts, frame)?;
        Ok(SoundMachine { machine })
    }

    /// States that the state is sound. Does nothing.
    fn always(&self)
        ensures { IsSound self.now }
    {
        // For the proof: what the type keeps, which is known where a field is read.
        let _ = &self.machine;
    }

    /// Returns the machine of an operator that goes on from a state.
    #[tactic(auto, using(crate::proofs::UnderState::only_memory))]
    fn resume(
        alloc: Global,
        row: &OperatorRow,
        consts: &Consts,
        state: StateView,
    ) -> Result<SoundMachine, StateFault>
        ensures ok { IfOk result (λ sound. sound ≡ operator consts.now row.now state) }
        ensures fault { IfErr result (λ f. (f ≡ NoMemory) ⊎ (state_fault consts.now row.now state ≡ Some f)) }
        ensures only { IsStateUnder consts.now row.now state → IfErr result (λ f. f ≡ NoMemory) }
    {
        match MachineState::resume(alloc, row, consts, state) {
            Ok(machine) => Ok(SoundMachine { machine }),
            Err(fault) => Err(fault),
        }
    }

    /// Plans an action that is not refused.
    #[inline(always)]
    fn plan<R: Ranks>(
        &self,
        alloc: Global,
        spare: SpareOutputs,
        memory: &mut TickMemory,
        ranking: &R,
        action: Action,
    ) -> Result<Plan, AllocError>
        requires policy { R.policy ranking.now ≡ self.now.row.policy }
        requires allowed { IsAllowed self.now action }
        ensures plan { IfOk result (IsPlanOf self.now action) }
        ensures committable { IfOk result (IsCommittable self.now) }
    {
        // For the proof: an action that is not refused leaves a sound state.
        step_keeps_sound();
        self.machine.plan(alloc, spare, memory, ranking, action)
    }

    /// Commits a plan, and returns its outputs. The memory of a tick's grants is given back. If memory
    /// runs out nothing changes.
    #[inline(always)]
    fn commit(&mut self, plan: Plan, memory: &mut TickMemory) -> Result<Vec<Output>, AllocError>
        requires { IsCommittable self.old plan }
        ensures state { OnOk result (self.new ≡ after_effect self.old plan.effect) }
        ensures outputs { IfOk result (λ outputs. outputs.items ≡ plan.outputs.items) }
        ensures err { OnErr result (self.new ≡ self.old) }
    {
        self.machine.commit(plan, memory)
    }

    /// Puts what was received of a modem of the row at the end of the inbox, and returns the outputs
    /// of that. If memory runs out nothing changes.
    #[tactic(auto, unfolding(operator_model::specs::Machine::own_step), using(crate::proofs::Few::few_outputs))]
    #[inline(always)]
    fn receive(
        &mut self,
        alloc: Global,
        modem: Modem,
        heard: Heard,
    ) -> Result<Vec<Output>, AllocError>
        requires { IsAllowed self.old (actions.Arrive modem heard) }
        ensures state { OnOk result (self.new ≡ after_step self.old (actions.Arrive modem heard)) }
        // The outputs are those of a step of the operator's own machine.
        ensures outputs { IfOk result (λ outputs. outputs.items ≡ (own_step self.old (actions.Arrive modem heard)).outputs) }
        ensures few { IfOk result (λ outputs. vec_len outputs ≤ 1) }
        ensures err { OnErr result (self.new ≡ self.old) }
    {
        // For the proof: an action that is not refused leaves a sound state.
        step_keeps_sound();
        self.machine.receive(alloc, modem, heard)
    }

    /// Handles the bandwidth request that was received first, and takes it out of the inbox. Returns
    /// the outputs of that. If memory runs out nothing changes.
    #[tactic(auto, unfolding(operator_model::specs::Machine::own_step), using(crate::proofs::Few::few_outputs))]
    #[inline(always)]
    fn take_request(
        &mut self,
        alloc: Global,
        first: FirstRequest,
    ) -> Result<Vec<Output>, AllocError>
        requires { IsFirstRequest self.old.state.inbox first }
        ensures state { OnOk result (self.new ≡ after_step self.old actions.Work) }
        ensures outputs { IfOk result (λ outputs. outputs.items ≡ (own_step self.old actions.Work).outputs) }
        ensures few { IfOk result (λ outputs. vec_len outputs ≤ 1) }
        ensures err { OnErr result (self.new ≡ self.old) }
    {
        // For the proof: an action that is not refused leaves a sound state.
        step_keeps_sound();
        self.machine.take_request(alloc, first)
    }

    /// Takes a slice that fits from a later frame on, with no memory.
    #[tactic(auto, using(crate::proofs::Replays::resliced_is, crate::proofs::Replays::reslice_allowed))]
    fn reslice(&mut self, from: u32, row: SliceRow)
        requires { unfit_from self.old from row ≡ None }
        ensures { self.new ≡ after_step self.old (actions.Reslice from row) }
    {
        // For the proof: an action that is not refused leaves a sound state.
        step_keeps_sound();
        self.machine.reslice(from, row);
    }
}

impl Machine {
    /// Returns the machine of an operator with nothing done: its provisioned flows exist, and
    /// nothing else. The caller knows that the row is one of a plant with these constants.
    pub fn open(alloc: Global, row: &OperatorRow, consts: &Consts) -> Result<Machine, AllocError>
        requires { IsRowOf consts.now row.now }
        ensures { IfOk result (λ live. live.sound ≡ operator consts.now row.now (opened_state consts.now row.now)) }
    {
        let frame = consts.get_fields().channel.first_frame;
        Machine::open_before(alloc, row, consts, frame)
    }

    /// Returns the machine of an operator that joins a running plant before this frame, with
    /// nothing done: its provisioned flows exist from this frame on, and nothing else. The caller
    /// knows that the row is one of a plant with these constants.
    pub fn open_before(
        alloc: Global,
        row: &OperatorRow,
        consts: &Consts,
        frame: u32,
    ) -> Result<Machine, AllocError>
        requires { IsRowOf consts.now row.now }
        ensures { IfOk result (λ live. live.sound ≡ operator consts.now row.now (opened_before frame consts.now row.now)) }
    {
        let sound = SoundMachine::open_before(alloc, row, consts, frame)?;
        Ok(Machine { sound })
    }

    /// Returns the machine of an operator that goes on from a state under this row: a state that was
    /// saved, or that of a machine with another row. It goes on from every state that is sound under
    /// the row, whose responses are as the cache keeps them, and of which all modems are the row's.
    pub fn resume(
        alloc: Global,
        row: &OperatorRow,
        consts: &Consts,
        state: StateView,
    ) -> Result<Machine, StateFault>
        ensures ok { IfOk result (λ live. live.sound ≡ operator consts.now row.now state) }
        // The fault is the first one of the state in a stated order, or memory ran out.
        ensures fault { IfErr result (λ f. (f ≡ NoMemory) ⊎ (state_fault consts.now row.now state ≡ Some f)) }
        // No other fault than memory comes of a sound state whose responses are as the cache keeps them, and whose
        // modems the row lists.
        ensures only { IsStateUnder consts.now row.now state → IfErr result (λ fault. fault ≡ NoMemory) }
    {
        let sound = SoundMachine::resume(alloc, row, consts, state)?;
        Ok(Machine { sound })
    }

    /// Plans an action, or says why it is refused. A refusal comes before memory is taken: a stranger
    /// first, then a tick past the last frame, then a slice that does not fit. A tick ranks the flows by
    /// the row's policy.
    #[inline(always)]
    pub fn plan(&self, alloc: Global, action: Action) -> Result<Plan, BookFault>
        // The plan has the outputs of the step.
        ensures outputs { IfOk result (λ plan. plan.outputs.items ≡ (own_step self.now.sound action).outputs) }
        // It leads to the state of the step.
        ensures plan { IfOk result (IsPlanOf self.now.sound action) }
        // It may be committed while the machine is as it was.
        ensures committable { IfOk result (IsCommittable self.now.sound) }

        // Refused in exactly three cases: another operator's modem, a tick past the last frame, a slice that does not
        // fit.
        ensures not_mine { (modem : Modem) → (result ≡ Err (BookFault.NotMine modem))
            ↔ (stranger_of self.now.sound.row action ≡ Some modem) }
        ensures spent { (result ≡ Err BookFault.FramesSpent) ↔ (is_spent self.now.sound.state action ≡ true) }
        ensures unfit { (u : Unfit) → (result ≡ Err (BookFault.Unfit u))
            ↔ (unfit_of self.now.sound action ≡ Some u) }
        ensures allowed { OnOk result (IsAllowed self.now.sound action) }
    {
        if let Err(fault) = self.sound.machine.judge(&action) {
            return Err(fault);
        }
        let mut memory = TickMemory::new(alloc);
        Ok(self.plan_allowed(alloc, SpareOutputs::new(alloc), &mut memory, action)?)
    }

    /// Plans an action as `plan` does, for a caller that knows that it is not refused, and has memory
    /// for the outputs and for the lists of a tick. A tick ranks the flows by the row's policy.
    #[inline(always)]
    pub fn plan_allowed(
        &self,
        alloc: Global,
        spare: SpareOutputs,
        memory: &mut TickMemory,
        action: Action,
    ) -> Result<Plan, AllocError>
        requires { IsAllowed self.now.sound action }
        // No clause speaks of the memory that the caller gives.
        ensures outputs { IfOk result (λ plan. plan.outputs.items ≡ (own_step self.now.sound action).outputs) }
        ensures plan { IfOk result (IsPlanOf self.now.sound action) }
        ensures committable { IfOk result (IsCommittable self.now.sound) }
    {
        let policy = self.row().get_fields().policy;
        self.plan_allowed_by(alloc, spare, memory, &policy, action)
    }

    /// Plans an action as `plan_allowed` does. A tick ranks the flows by what the caller gives, which
    /// follows the row's policy.
    #[inline(always)]
    pub fn plan_allowed_by<R: Ranks>(
        &self,
        alloc: Global,
        spare: SpareOutputs,
        memory: &mut TickMemory,
        ranking: &R,
        action: Action,
    ) -> Result<Plan, AllocError>
        requires policy { R.policy ranking.now ≡ self.now.sound.row.policy }
        requires allowed { IsAllowed self.now.sound action }
        ensures outputs { IfOk result (λ plan. plan.outputs.items ≡ (own_step self.now.sound action).outputs) }
        ensures plan { IfOk result (IsPlanOf self.now.sound action) }
        ensures committable { IfOk result (IsCommittable self.now.sound) }
    {
        self.sound.plan(alloc, spare, memory, ranking, action)
    }

    /// Commits a plan, and returns its outputs. The memory of a tick's grants is given back. If memory
    /// runs out nothing changes. The caller knows that the plan was made for the machine as it is.
    #[inline(always)]
    pub fn commit(&mut self, plan: Plan, memory: &mut TickMemory) -> Result<Vec<Output>, AllocError>
        requires { IsCommittable self.old.sound plan }
        // It leads to the state of the plan.
        ensures state { OnOk result (self.new.sound ≡ after_effect self.old.sound plan.effect) }
        ensures outputs { IfOk result (λ outputs. outputs.items ≡ plan.outputs.items) }
        ensures err { OnErr result (self.new.sound ≡ self.old.sound) }
    {
        self.sound.commit(plan, memory)
    }

    /// Puts what was received of a modem of the row at the end of the inbox, and returns the outputs
    /// of that, as the action `Arrive` has them. If memory runs out nothing changes.
    #[inline(always)]
    pub fn receive(
        &mut self,
        alloc: Global,
        modem: Modem,
        heard: Heard,
    ) -> Result<Vec<Output>, AllocError>
        requires { IsAllowed self.old.sound (actions.Arrive modem heard) }
        ensures state { OnOk result (self.new.sound ≡ after_step self.old.sound (actions.Arrive modem heard)) }
        ensures outputs { IfOk result (λ outputs. outputs.items
            ≡ (own_step self.old.sound (actions.Arrive modem heard)).outputs) }
        // It has at most one output.
        ensures few { IfOk result (λ outputs. vec_len outputs ≤ 1) }
        ensures err { OnErr result (self.new.sound ≡ self.old.sound) }
    {
        self.sound.receive(alloc, modem, heard)
    }

    /// Returns what was received first, if that is a bandwidth request.
    #[inline(always)]
    pub fn first_request(&self) -> Option<FirstRequest>
        ensures { (first : FirstRequest) → (result ≡ Some first) ↔ IsFirstRequest self.now.sound.state.inbox first }
    {
        self.sound.machine.first_request()
    }

    /// Handles the bandwidth request that was received first, and takes it out of the inbox. Returns
    /// the outputs of that, as the action `Work` has them. If memory runs out nothing changes.
    #[inline(always)]
    pub fn take_request(
        &mut self,
        alloc: Global,
        first: FirstRequest,
    ) -> Result<Vec<Output>, AllocError>
        requires { IsFirstRequest self.old.sound.state.inbox first }
        ensures state { OnOk result (self.new.sound ≡ after_step self.old.sound actions.Work) }
        ensures outputs { IfOk result (λ outputs. outputs.items ≡ (own_step self.old.sound actions.Work).outputs) }
        // It has at most one output.
        ensures few { IfOk result (λ outputs. vec_len outputs ≤ 1) }
        ensures err { OnErr result (self.new.sound ≡ self.old.sound) }
    {
        self.sound.take_request(alloc, first)
    }

    /// Plans an action and commits the plan. A refused action changes nothing. A tick ranks the flows by
    /// the row's policy.
    pub fn act(&mut self, alloc: Global, action: Action) -> Result<Vec<Output>, BookFault>
        // What `plan` and then `commit` do: a step of the operator's own machine.
        ensures state { OnOk result (self.new.sound ≡ after_step self.old.sound action) }
        ensures outputs { IfOk result (λ outputs. outputs.items ≡ (own_step self.old.sound action).outputs) }

        // Refused in exactly three cases: another operator's modem, a tick past the last frame, a slice that does not
        // fit.
        ensures not_mine { (modem : Modem) → (result ≡ Err (BookFault.NotMine modem))
            ↔ (stranger_of self.old.sound.row action ≡ Some modem) }
        ensures spent { (result ≡ Err BookFault.FramesSpent) ↔ (is_spent self.old.sound.state action ≡ true) }
        ensures unfit { (u : Unfit) → (result ≡ Err (BookFault.Unfit u))
            ↔ (unfit_of self.old.sound action ≡ Some u) }
        ensures allowed { OnOk result (IsAllowed self.old.sound action) }
        ensures err { OnErr result (self.new.sound ≡ self.old.sound) }
    {
        match self.plan(alloc, action) {
            Ok(plan) => Ok(self.commit(plan, &mut TickMemory::new(alloc))?),
            Err(fault) => Err(fault),
        }
    }

    /// Returns whether a slice and a budget can be taken from this frame on. Takes no memory.
    pub fn offer(&self, from: u32, row: SliceRow) -> Result<(), Unfit>
        ensures unfit { (u : Unfit) → (result ≡ Err u)
            ↔ (unfit_from self.now.sound from row ≡ Some u) }
        ensures fit { OnOk result (unfit_from self.now.sound from row ≡ None) }
    {
        match self.sound.machine.unfit_from(from, row) {
            Some(unfit) => Err(unfit),
            None => Ok(()),
        }
    }

    /// Takes a slice that `offer` found fit. Takes no memory, and cannot fail.
    pub fn reslice(&mut self, from: u32, row: SliceRow)
        requires { unfit_from self.old.sound from row ≡ None }
        ensures { self.new.sound ≡ after_step self.old.sound (actions.Reslice from row) }
    {
        self.sound.reslice(from, row);
    }

    /// States that the state is sound. Does nothing.
    pub fn always(&self)
        ensures { IsSound self.now.sound }
    {
        // For the proof: what always holds of `self.sound`.
        self.sound.always();
    }

    /// Returns a copy of the state.
    pub fn state_view(&self, alloc: Global) -> Result<StateView, AllocError>
        ensures { IfOk result (λ view. view ≡ self.now.sound.state) }
    {
        self.sound.machine.state_view(alloc)
    }

    /// Returns the operator's row, as the machine was opened with it.
    pub fn row(&self) -> &OperatorRow
        ensures { result.now ≡ self.now.sound.row }
    {
        &self.sound.machine.row
    }

    /// Returns what all operators of the plant share.
    pub fn consts(&self) -> &Consts
        ensures { result.now ≡ self.now.sound.consts }
    {
        &self.sound.machine.consts
    }

    /// Returns the number of the next frame.
    pub fn frame(&self) -> u32
        ensures { result ≡ self.now.sound.state.frame }
    {
        self.sound.machine.frame
    }

    /// Returns the slice and the budget in force.
    pub fn share(&self) -> Share
        ensures { result ≡ self.now.sound.state.share }
    {
        self.sound.machine.share
    }

    /// Returns those that wait for their frame.
    pub fn next(&self) -> Option<NextShare>
        ensures { result ≡ self.now.sound.state.next }
    {
        self.sound.machine.next
    }

    /// Returns whether this is a tick past the last frame.
    pub fn is_spent(&self, action: &Action) -> bool
        ensures { result ≡ is_spent self.now.sound.state action.now }
    {
        self.sound.machine.is_spent(action)
    }
}
