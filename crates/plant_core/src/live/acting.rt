//! Actions of an operator, and the collection of its oldest frame.

ghost use Rattle.std.specs.Prelude.{◌≡◌, ◌+◌, ◌<◌, ◌≤◌, ◌++◌, length, vec_len, vec_capacity, slice_get, option_to_list, Some, None, IfOk, IfSome, OnOk, OnErr};
ghost use Rattle.std.specs.VecDeque.{deque_len, deque_capacity};
ghost use Rattle.operator_model.specs.declared.action.Action.TheVariants as actions;
ghost use Rattle.operator_model.specs.Machine.{stranger_of, unfit_of, own_step, after_step, IsAllowed};
ghost use Rattle.operator_book.specs.Planned.{IsFirstRequest, IsPlanOf, IsCommittable, after_effect};
ghost use Rattle.run_model.specs.OwnSteps.{outputs_under};
ghost use Rattle.run_model.specs.IsStateAfter.{frames_of};
ghost use Rattle.run_model.specs.Steps.{told_map};
ghost use Rattle.plant_core.specs.live.Faults.{act_fault, collect_fault, IsReported};
ghost use Rattle.plant_core.specs.live.DeskView.{slot_book, slot_waiting};
ghost use Rattle.plant_core.specs.live.Putting.{FitsOldest, PutsOldest, CollectsOldest};

use crate::live::act_plan::ActPlan;
use crate::live::core_fault::CoreFault;
use crate::live::core_memory::CoreMemory;
use crate::live::desk::LiveSlot;
use dsx_messages::Modem;
use grant_policy::Ranks;
use map_assembly::{Gather, MapBytes};
use operator_book::{BookFault, FirstRequest, Plan, SpareOutputs, TickMemory};
use operator_model::{Action, Heard, Output};
use plant::Op;
use run_model::Out;
use slice_scheduler::Elements;
use std::alloc::{AllocError, Global};
use std::collections::VecDeque;

/// Adds an operator's outputs, for which there is room.
fn append_all(outs: &mut Vec<Out>, op: Op, told: Vec<Output>)
    requires { vec_len outs.old + vec_len told ≤ vec_capacity outs.old }
    ensures { outs.new.items ≡ outs.old.items ++ outputs_under op told.items }
{
    for output in told {
        outs.push_reserved(Out::Of { op, output });
    }
}

/// Adds an operator's outputs, of which there mostly are none. There is room for them.
#[inline(always)]
fn append_few(outs: &mut Vec<Out>, op: Op, told: Vec<Output>)
    requires { vec_len outs.old + vec_len told ≤ vec_capacity outs.old }
    ensures { outs.new.items ≡ outs.old.items ++ outputs_under op told.items }
{
    if told.is_empty() {
        return;
    }
    append_all(outs, op, told);
}

/// Adds an operator's outputs, for which there is room. Returns their memory, which most actions use
/// for one output or none.
#[inline(always)]
fn append(alloc: Global, outs: &mut Vec<Out>, op: Op, told: Vec<Output>) -> SpareOutputs
    requires { vec_len outs.old + vec_len told ≤ vec_capacity outs.old }
    ensures { outs.new.items ≡ outs.old.items ++ outputs_under op told.items }
{
    let mut told = told;
    if told.len() > 1 {
        append_all(outs, op, told);
        return SpareOutputs::new(alloc);
    }
    if let Some(only) = told.pop() {
        outs.push_reserved(Out::Of { op, output: only });
    }
    SpareOutputs::of_list(told)
}

/// Adds a MAP that is made, for which there is room.
fn append_map(outs: &mut Vec<Out>, made: Option<MapBytes>)
    requires { vec_len outs.old < vec_capacity outs.old }
    ensures { outs.new.items ≡ outs.old.items ++ told_map made }
{
    if let Some(made) = made {
        outs.push_reserved(Out::Map(made));
    }
}

/// Reserves room for a frame that will wait, if there is one.
#[inline(always)]
fn reserve_for(
    waiting: &mut VecDeque<(u32, Elements)>,
    frame: &Option<(u32, Elements)>,
) -> Result<(), AllocError>
    ensures room { OnOk result (IfSome frame.now (λ _. deque_len waiting.new < deque_capacity waiting.new)) }
    ensures same { waiting.new.items ≡ waiting.old.items }
{
    match frame {
        Some(_frame) => waiting.reserve(1),
        None => Ok(()),
    }
}

/// Returns a part of this operator that is in a MAP, for its memory, if the assembly kept one and the
/// outputs end in a frame, as those of a tick do.
#[inline(always)]
fn spent_part(op: Op, outputs: &[Output], gather: &mut Gather) -> Option<Elements>
    ensures { gather.new ≡ gather.old }
{
    match outputs.last() {
        Some(
            Output::Frame {
                number: _,
                elements: _,
            },
        ) => gather.take_spent(op),
        _ => None,
    }
}

/// Returns a copy of the first frame among outputs, in the memory of another one.
#[inline(always)]
fn frame_copy(
    alloc: Global,
    outputs: &[Output],
    spent: Option<Elements>,
) -> Result<Option<(u32, Elements)>, AllocError>
    ensures { IfOk result (λ frame. frame ≡ slice_get (frames_of outputs.now) 0) }
{
    for output in outputs {
        if let Output::Frame { number, elements } = output {
            return Ok(Some((*number, elements.copy_in(alloc, spent)?)));
        }
    }
    Ok(None)
}

impl LiveSlot {
    /// Plans an action of the operator at this place. A tick ranks the flows by what the caller gives, which follows the row's
    /// policy. The caller knows that the operator's row lists the modem of the action, and that a slice of the action fits.
    #[inline(always)]
    pub(crate) fn plan<R: Ranks>(
        &self,
        alloc: Global,
        spare: SpareOutputs,
        memory: &mut TickMemory,
        op: Op,
        ranking: &R,
        action: Action,
    ) -> Result<ActPlan, CoreFault>
        requires policy { R.policy ranking.now ≡ self.now.live.sound.row.policy }
        requires mine { stranger_of self.now.live.sound.row action ≡ None }
        requires fit { unfit_of self.now.live.sound action ≡ None }
        ensures op { IfOk result (λ act. act.op ≡ op) }
        ensures plan { IfOk result (λ act. IsPlanOf self.now.live.sound action act.plan) }
        ensures committable { IfOk result (λ act. IsCommittable self.now.live.sound act.plan) }
        ensures allowed { OnOk result (IsAllowed self.now.live.sound action) }
        ensures fault { IsReported result (act_fault op action (Some (slot_book self.now))) }
    {
        if self.live.is_spent(&action) {
            return Err(CoreFault::Book(BookFault::FramesSpent));
        }
        match self
            .live
            .plan_allowed_by(alloc, spare, memory, ranking, action)
        {
            Ok(plan) => Ok(ActPlan { op, plan }),
            Err(AllocError) => Err(CoreFault::NoMemory),
        }
    }

    /// Puts what was received of a modem of the operator at the end of the inbox, and appends the outputs of that. If memory runs
    /// out nothing changes.
    #[inline(always)]
    pub(crate) fn receive(
        &mut self,
        alloc: Global,
        op: Op,
        modem: Modem,
        heard: Heard,
        outs: &mut Vec<Out>,
    ) -> Result<(), AllocError>
        requires { IsAllowed self.old.live.sound (actions.Arrive modem heard) }
        ensures book { OnOk result (self.new.live.sound ≡ after_step self.old.live.sound (actions.Arrive modem heard)) }
        ensures waiting { OnOk result (slot_waiting self.new ≡ slot_waiting self.old) }
        ensures outputs { OnOk result (outs.new.items ≡ outs.old.items
            ++ outputs_under op (own_step self.old.live.sound (actions.Arrive modem heard)).outputs) }
        ensures outs { OnErr result (outs.new.items ≡ outs.old.items) }
        ensures same_book { OnErr result (slot_book self.new ≡ slot_book self.old) }
        ensures same_waiting { OnErr result (slot_waiting self.new ≡ slot_waiting self.old) }
    {
        outs.reserve(1)?;
        let told = self.live.receive(alloc, modem, heard)?;
        append_few(outs, op, told);
        Ok(())
    }

    /// Handles the bandwidth request that the operator received first, and appends the outputs of that. If memory runs out nothing
    /// changes.
    #[inline(always)]
    pub(crate) fn take_request(
        &mut self,
        alloc: Global,
        op: Op,
        first: FirstRequest,
        outs: &mut Vec<Out>,
    ) -> Result<(), AllocError>
        requires { IsFirstRequest self.old.live.sound.state.inbox first }
        ensures book { OnOk result (self.new.live.sound ≡ after_step self.old.live.sound actions.Work) }
        ensures waiting { OnOk result (slot_waiting self.new ≡ slot_waiting self.old) }
        ensures outputs { OnOk result (outs.new.items ≡ outs.old.items
            ++ outputs_under op (own_step self.old.live.sound actions.Work).outputs) }
        ensures outs { OnErr result (outs.new.items ≡ outs.old.items) }
        ensures same_book { OnErr result (slot_book self.new ≡ slot_book self.old) }
        ensures same_waiting { OnErr result (slot_waiting self.new ≡ slot_waiting self.old) }
    {
        outs.reserve(1)?;
        let told_of_request = self.live.take_request(alloc, first)?;
        append_few(outs, op, told_of_request);
        Ok(())
    }

    /// Commits the plan of an action, and appends its outputs, whose memory is used again. A copy of its frame waits. If memory
    /// runs out nothing changes.
    #[inline(always)]
    pub(crate) fn commit(
        &mut self,
        alloc: Global,
        op: Op,
        plan: Plan,
        outs: &mut Vec<Out>,
        memory: &mut CoreMemory,
        gather: &mut Gather,
    ) -> Result<(), AllocError>
        requires { IsCommittable self.old.live.sound plan }
        ensures book { OnOk result (self.new.live.sound ≡ after_effect self.old.live.sound plan.effect) }
        ensures waiting { OnOk result (slot_waiting self.new
            ≡ slot_waiting self.old ++ option_to_list (slice_get (frames_of plan.outputs.items) 0)) }
        ensures outputs { OnOk result (outs.new.items ≡ outs.old.items ++ outputs_under op plan.outputs.items) }
        ensures gather { gather.new ≡ gather.old }
        ensures outs { OnErr result (outs.new.items ≡ outs.old.items) }
        ensures same_book { OnErr result (slot_book self.new ≡ slot_book self.old) }
        ensures same_waiting { OnErr result (slot_waiting self.new ≡ slot_waiting self.old) }
    {
        let spent = spent_part(op, plan.outputs(), gather);
        let frame = frame_copy(alloc, plan.outputs(), spent)?;
        reserve_for(&mut self.waiting, &frame)?;
        outs.reserve(plan.outputs().len())?;
        let outputs = self.live.commit(plan, &mut memory.tick)?;
        memory.outputs = append(alloc, outs, op, outputs);
        if let Some(frame) = frame {
            self.waiting.push_back_reserved(frame);
        }
        Ok(())
    }

    /// Puts the frame that waits longest into the assembly, and returns the MAP that it completes.
    /// This fails only if memory runs out, and the frame waits as before then.
    pub fn put_oldest(
        &mut self,
        alloc: Global,
        op: Op,
        gather: &mut Gather,
    ) -> Result<Option<MapBytes>, AllocError>
        requires waits { 0 < length (slot_waiting self.old) }
        requires fits { FitsOldest op (slot_waiting self.old) gather.old }
        ensures ok { IfOk result (PutsOldest op (slot_waiting self.old) (slot_waiting self.new) gather.old gather.new) }
        ensures book { slot_book self.new ≡ slot_book self.old }
        ensures same_waiting { OnErr result (slot_waiting self.new ≡ slot_waiting self.old) }
        ensures same_gather { OnErr result (gather.new ≡ gather.old) }
    {
        let (number, elements) = self.waiting.pop_front().unwrap();
        match gather.put(alloc, op, number, elements) {
            Ok(made) => Ok(made),
            Err(refused) => {
                self.waiting.push_front_reserved((number, refused.elements));
                Err(AllocError)
            }
        }
    }

    /// Puts the frame that waits longest into the assembly, and appends the MAP that it completes.
    #[inline(always)]
    pub(crate) fn collect_into(
        &mut self,
        alloc: Global,
        op: Op,
        gather: &mut Gather,
        outs: &mut Vec<Out>,
    ) -> Result<(), CoreFault>
        requires { FitsOldest op (slot_waiting self.old) gather.old }
        ensures ok { OnOk result (CollectsOldest op (slot_waiting self.old) (slot_waiting self.new) gather.old gather.new
            outs.old.items outs.new.items) }
        ensures book { slot_book self.new ≡ slot_book self.old }
        ensures outs { OnErr result (outs.new.items ≡ outs.old.items) }
        ensures same_waiting { OnErr result (slot_waiting self.new ≡ slot_waiting self.old) }
        ensures same_gather { OnErr result (gather.new ≡ gather.old) }
        ensures fault { IsReported result (collect_fault op (Some (slot_waiting self.old))) }
    {
        if self.waiting.is_empty() {
            return Err(CoreFault::NothingToCollect { op });
        }
        if outs.reserve(1).is_err() {
            return Err(CoreFault::NoMemory);
        }
        match self.put_oldest(alloc, op, gather) {
            Ok(made) => {
                append_map(outs, made);
                Ok(())
            }
            Err(_) => Err(CoreFault::NoMemory),
        }
    }
}
