//! One step of a live core.

ghost use Rattle.std.specs.Prelude.{◌≡◌, [], ◌∷◌, ◌++◌, List, map, slice_get, Some, OnOk, OnErr, IfOk};
ghost use Rattle.operator_model.specs.declared.action.Action.TheVariants as actions;
ghost use Rattle.operator_model.specs.Replay.{BookView};
ghost use Rattle.plant.specs.Roster.{holder};
ghost use Rattle.plant.specs.declared.operator_row.RowFields.{RowFields};
ghost use Rattle.run_model.specs.declared.step.Out.{Out};
ghost use Rattle.run_model.specs.declared.step.Step.{Step};
ghost use Rattle.run_model.specs.declared.step.Step.TheVariants as steps;
ghost use Rattle.run_model.specs.Steps.{Acts, Collects, Steps};
ghost use Rattle.run_model.specs.Placed.{IsPlaced};
ghost use Rattle.plant_core.specs.live.Faults.{act_fault, collect_fault, step_fault, IsReported};
ghost use Rattle.plant_core.specs.live.Reachable.{IsOfAStep};
ghost use Rattle.plant_core.specs.live.Performing.{Performs};
ghost use Rattle.plant_core.specs.live.After.{LeadsOnFromStart};
ghost use Rattle.plant_core.specs.live.Following.{FollowRows};
ghost use Rattle.plant_core.specs.live.LiveView.{live_view};

use crate::live::core_fault::CoreFault;
use crate::live::held::LiveCore;
use dsx_messages::Modem;
use grant_policy::Ranks;
use map_assembly::Gather;
use operator_book::TickMemory;
use operator_model::{Action, Heard, Output};
use plant::{Op, Routing};
use run_model::{Out, Step};
use std::alloc::{AllocError, Global};
use std::mem::replace;

/// Takes the memory of an output back that nobody needs any more: a frame's for the lists of a tick,
/// and a MAP's for the assembly.
fn take_back(memory: &mut TickMemory, gather: &mut Gather, out: Out)
    ensures { gather.new ≡ gather.old }
{
    match out {
        Out::Of {
            op: _,
            output: Output::Frame {
                number: _,
                elements,
            },
        } => memory.take_back(elements),
        Out::Of { op: _, output: _ } => {}
        Out::Map(made) => gather.take_back(made),
    }
}

/// Takes all outputs out of a list, which has none after most steps, and their memory back.
#[inline(always)]
fn empty(memory: &mut TickMemory, gather: &mut Gather, outs: &mut Vec<Out>)
    ensures outs { outs.new.items ≡ [] }
    ensures gather { gather.new ≡ gather.old }
{
    while let Some(out) = outs.pop() {
        take_back(memory, gather, out);
    }
}

impl LiveCore {
    /// Returns a list for outputs, which has none, in memory of the core. `keep_list` gives it back.
    pub fn take_list(&mut self, alloc: Global) -> Vec<Out>
        ensures list { result.items ≡ [] }
        ensures core { live_view self.new ≡ live_view self.old }
    {
        let mut list = replace(&mut self.memory.list, Vec::new(alloc));
        empty(&mut self.memory.tick, &mut self.gather, &mut list);
        list
    }

    /// Keeps a list of outputs for its memory.
    pub fn keep_list(&mut self, outs: Vec<Out>)
        ensures { live_view self.new ≡ live_view self.old }
    {
        self.memory.list = outs;
    }

    /// Performs an action of the operator at this place, if there is one. A tick ranks the flows by what the caller gives, which
    /// follows the policy of the operator's row.
    #[inline(always)]
    fn act_by<R: Ranks>(
        &mut self,
        alloc: Global,
        op: Op,
        ranking: &R,
        action: Action,
        outs: &mut Vec<Out>,
    ) -> Result<(), CoreFault>
        requires step { IsOfAStep (live_view self.old).plant op action }
        requires policy { (book : BookView) → slice_get (live_view self.old).books op ≡ Some book
            → R.policy ranking.now ≡ book.row.policy }
        ensures ok { OnOk result ((now : List Out) × (outs.new.items ≡ outs.old.items ++ now)
            × Performs (Acts op action) (live_view self.old) (live_view self.new) now) }
        ensures outs { OnErr result (outs.new.items ≡ outs.old.items) }
        ensures err { OnErr result (live_view self.new ≡ live_view self.old) }
        ensures fault { IsReported result (act_fault op action (slice_get (live_view self.old).books op)) }
    {
        let act = self.plan_act_in_memory(alloc, op, ranking, action)?;
        match self.commit_act(alloc, act, outs) {
            Ok(()) => Ok(()),
            Err(AllocError) => Err(CoreFault::NoMemory),
        }
    }

    /// Performs an action of the operator at this place, if there is one. A tick ranks the flows by the policy of the operator's
    /// row.
    #[inline(always)]
    fn act_if(
        &mut self,
        alloc: Global,
        op: Op,
        action: Action,
        outs: &mut Vec<Out>,
    ) -> Result<(), CoreFault>
        requires { IsOfAStep (live_view self.old).plant op action }
        ensures ok { OnOk result ((now : List Out) × (outs.new.items ≡ outs.old.items ++ now)
            × Performs (Acts op action) (live_view self.old) (live_view self.new) now) }
        ensures outs { OnErr result (outs.new.items ≡ outs.old.items) }
        ensures err { OnErr result (live_view self.new ≡ live_view self.old) }
        ensures fault { IsReported result (act_fault op action (slice_get (live_view self.old).books op)) }
    {
        match self.policy_of(op) {
            None => Err(CoreFault::UnknownOperator { op }),
            Some(policy) => self.act_by(alloc, op, &policy, action, outs),
        }
    }

    /// Performs a tick of the operator at this place, if there is one, and appends its outputs. The flows are ranked by what the
    /// caller gives, which follows the policy of the operator's row (implementation-specific). A refused tick changes nothing, and
    /// appends nothing.
    #[inline(always)]
    pub fn tick_by<R: Ranks>(
        &mut self,
        alloc: Global,
        op: Op,
        ranking: &R,
        outs: &mut Vec<Out>,
    ) -> Result<(), CoreFault>
        // The ranking follows the policy of the operator's row.
        requires { (book : BookView) → slice_get (live_view self.old).books op ≡ Some book
            → R.policy ranking.now ≡ book.row.policy }
        // The tick is the same step as with the policy of the row.
        ensures ok { OnOk result ((now : List Out) × (outs.new.items ≡ outs.old.items ++ now)
            × Performs (Acts op actions.Tick) (live_view self.old) (live_view self.new) now) }
        ensures outs { OnErr result (outs.new.items ≡ outs.old.items) }
        ensures err { OnErr result (live_view self.new ≡ live_view self.old) }
        ensures fault { IsReported result (act_fault op actions.Tick (slice_get (live_view self.old).books op)) }
    {
        self.act_by(alloc, op, ranking, Action::Tick, outs)
    }

    /// Lets the operator at this place, if there is one, handle what it received first.
    #[inline(always)]
    fn work(&mut self, alloc: Global, op: Op, outs: &mut Vec<Out>) -> Result<(), CoreFault>
        ensures ok { OnOk result ((now : List Out) × (outs.new.items ≡ outs.old.items ++ now)
            × Performs (Acts op actions.Work) (live_view self.old) (live_view self.new) now) }
        ensures outs { OnErr result (outs.new.items ≡ outs.old.items) }
        ensures err { OnErr result (live_view self.new ≡ live_view self.old) }
        ensures fault { IsReported result (act_fault op actions.Work (slice_get (live_view self.old).books op)) }
    {
        match self.request_at(op) {
            None => self.act_if(alloc, op, Action::Work, outs),
            Some(first) => match self.take_request_at(alloc, op, first, outs) {
                Ok(()) => Ok(()),
                Err(AllocError) => Err(CoreFault::NoMemory),
            },
        }
    }

    /// Puts what was received of a modem into the inbox of the operator that has this modem.
    #[inline(always)]
    fn arrive(
        &mut self,
        alloc: Global,
        modem: Modem,
        heard: Heard,
        outs: &mut Vec<Out>,
    ) -> Result<(), CoreFault>
        ensures ok { OnOk result ((now : List Out) × (outs.new.items ≡ outs.old.items ++ now)
            × Performs (Steps (steps.Arrive modem heard)) (live_view self.old) (live_view self.new) now) }
        ensures outs { OnErr result (outs.new.items ≡ outs.old.items) }
        ensures err { OnErr result (live_view self.new ≡ live_view self.old) }
        ensures fault { IsReported result (step_fault (live_view self.old) (steps.Arrive modem heard)) }
    {
        match self.place_of(modem) {
            None => Err(CoreFault::UnknownModem { modem }),
            Some(op) => self.receive(alloc, op, modem, heard, outs),
        }
    }

    /// Puts the oldest waiting frame of the operator at this place into the assembly, if there is
    /// one.
    #[inline(always)]
    pub fn collect(&mut self, alloc: Global, op: Op, outs: &mut Vec<Out>) -> Result<(), CoreFault>
        // The step is done to the core as it is, with the outputs that are added.
        ensures ok { OnOk result ((now : List Out) × (outs.new.items ≡ outs.old.items ++ now)
            × Performs (Collects op) (live_view self.old) (live_view self.new) now) }
        ensures outs { OnErr result (outs.new.items ≡ outs.old.items) }
        ensures err { OnErr result (live_view self.new ≡ live_view self.old) }
        ensures fault { IsReported result (collect_fault op (slice_get (live_view self.old).queues op)) }
    {
        // For the proof: what always holds of `self`.
        self.always();
        if op >= self.desks.len() {
            return Err(CoreFault::UnknownOperator { op });
        }
        let gather = &mut self.gather;
        match self.desks[op].collect_into(alloc, op, gather, outs) {
            Ok(()) => {
                gather.let_go();
                // For the proof: what always holds of `gather`.
                gather.always();
                Ok(())
            }
            Err(fault) => Err(fault),
        }
    }

    /// Performs a step, and appends its outputs. A refused step changes nothing, and appends nothing.
    #[inline(always)]
    pub fn step_into(
        &mut self,
        alloc: Global,
        step: Step,
        outs: &mut Vec<Out>,
    ) -> Result<(), CoreFault>
        // The step is done to the core as it is, with the outputs that are added.
        ensures ok { OnOk result ((now : List Out) × (outs.new.items ≡ outs.old.items ++ now)
            × Performs (Steps step) (live_view self.old) (live_view self.new) now) }
        ensures outs { OnErr result (outs.new.items ≡ outs.old.items) }
        ensures err { OnErr result (live_view self.new ≡ live_view self.old) }
        ensures fault { IsReported result (step_fault (live_view self.old) step) }
    {
        match step {
            Step::Arrive { modem, heard } => self.arrive(alloc, modem, heard, outs),
            Step::Work { op } => self.work(alloc, op, outs),
            Step::Tick { op } => self.act_if(alloc, op, Action::Tick, outs),
            Step::Collect { op } => self.collect(alloc, op, outs),
            Step::Reslice { from, rows } => self.reslice(alloc, from, rows.as_slice()),
        }
    }

    /// Performs a step, whose outputs replace those that are in `outs`. A refused step changes nothing of the core, and has no outputs.
    #[inline(always)]
    pub fn step_over(
        &mut self,
        alloc: Global,
        step: Step,
        outs: &mut Vec<Out>,
    ) -> Result<(), CoreFault>
        ensures ok { OnOk result (Performs (Steps step) (live_view self.old) (live_view self.new) outs.new.items) }
        ensures reached { OnOk result (LeadsOnFromStart (live_view self.old) (step ∷ []) outs.new.items (live_view self.new)) }
        ensures err { OnErr result (live_view self.new ≡ live_view self.old) }
        // If the step is refused there are no outputs.
        ensures outs { OnErr result (outs.new.items ≡ []) }
        ensures fault { IsReported result (step_fault (live_view self.old) step) }
    {
        // For the proof: what always holds of `self`.
        self.always();
        empty(&mut self.memory.tick, &mut self.gather, outs);
        self.step_into(alloc, step, outs)?;
        Ok(())
    }

    /// Performs a tick as `step_over` does. The flows are ranked by what the caller gives, which follows the policy of the operator's
    /// row.
    #[inline(always)]
    fn tick_over_by<R: Ranks>(
        &mut self,
        alloc: Global,
        op: Op,
        ranking: &R,
        outs: &mut Vec<Out>,
    ) -> Result<(), CoreFault>
        requires { (row : RowFields) → slice_get (live_view self.old).plant.rows op ≡ Some row
            → R.policy ranking.now ≡ row.policy }
        ensures ok { OnOk result (Performs (Steps (steps.Tick op)) (live_view self.old) (live_view self.new) outs.new.items) }
        ensures reached { OnOk result (LeadsOnFromStart (live_view self.old) (steps.Tick op ∷ []) outs.new.items
            (live_view self.new)) }
        ensures err { OnErr result (live_view self.new ≡ live_view self.old) }
        ensures outs { OnErr result (outs.new.items ≡ []) }
        ensures fault { IsReported result (step_fault (live_view self.old) (steps.Tick op)) }
    {
        // For the proof: what always holds of `self`, and that each machine has the policy of the row at its place.
        self.always();
        self.always_policies();
        empty(&mut self.memory.tick, &mut self.gather, outs);
        self.tick_by(alloc, op, ranking, outs)?;
        Ok(())
    }

    /// Puts what was received of a modem into the inbox of the operator at this place, as `step_over` does with it. The caller knows
    /// that this operator has the modem.
    #[inline(always)]
    fn receive_over(
        &mut self,
        alloc: Global,
        op: Op,
        modem: Modem,
        heard: Heard,
        outs: &mut Vec<Out>,
    ) -> Result<(), CoreFault>
        requires { holder (live_view self.old).plant.rows modem ≡ Some op }
        ensures ok { OnOk result (Performs (Steps (steps.Arrive modem heard)) (live_view self.old) (live_view self.new)
            outs.new.items) }
        ensures reached { OnOk result (LeadsOnFromStart (live_view self.old) (steps.Arrive modem heard ∷ []) outs.new.items
            (live_view self.new)) }
        ensures err { OnErr result (live_view self.new ≡ live_view self.old) }
        ensures outs { OnErr result (outs.new.items ≡ []) }
        ensures fault { IsReported result (step_fault (live_view self.old) (steps.Arrive modem heard)) }
    {
        // For the proof: what always holds of `self`.
        self.always();
        empty(&mut self.memory.tick, &mut self.gather, outs);
        self.receive(alloc, op, modem, heard, outs)?;
        Ok(())
    }

    /// Performs a step as `step_over` does. A tick of the operator at a place for which there is a ranking is ranked by it, and any
    /// other by the policy of the row (implementation-specific). What arrives goes to the operator at `place`, if that is stated: no
    /// address is looked for. The caller knows that the rankings follow the rows' policies, and that the operator lists the modem.
    #[inline(always)]
    pub fn step_over_by<R: Ranks>(
        &mut self,
        alloc: Global,
        step: Step,
        place: Option<Op>,
        rankings: &[R],
        outs: &mut Vec<Out>,
    ) -> Result<(), CoreFault>
        // Each ranking follows the policy of the operator's row.
        requires policies { FollowRows (map R.policy rankings.now) (live_view self.old).plant.rows }
        requires placed { IsPlaced (live_view self.old).plant step place }
        // This is the step of `step_over`. No clause says how often an address is looked up.
        ensures ok { OnOk result (Performs (Steps step) (live_view self.old) (live_view self.new) outs.new.items) }
        ensures reached { OnOk result (LeadsOnFromStart (live_view self.old) (step ∷ []) outs.new.items (live_view self.new)) }
        ensures err { OnErr result (live_view self.new ≡ live_view self.old) }
        ensures outs { OnErr result (outs.new.items ≡ []) }
        ensures fault { IsReported result (step_fault (live_view self.old) step) }
    {
        match step {
            Step::Tick { op } => match rankings.get(op) {
                Some(ranking) => self.tick_over_by(alloc, op, ranking, outs),
                None => self.step_over(alloc, Step::Tick { op }, outs),
            },
            Step::Arrive { modem, heard } => match place {
                Some(op) => self.receive_over(alloc, op, modem, heard, outs),
                None => self.step_over(alloc, Step::Arrive { modem, heard }, outs),
            },
            other => self.step_over(alloc, other, outs),
        }
    }

    /// Performs a step, and returns its outputs. A refused step changes nothing.
    pub fn step(&mut self, alloc: Global, step: Step) -> Result<Vec<Out>, CoreFault>
        // The step is done to the core as it is, with these outputs.
        ensures ok { IfOk result (λ outs. Performs (Steps step) (live_view self.old) (live_view self.new) outs.items) }
        // After any steps each operator is as its own machine run alone. `live_run_is_shown` says that the run is one
        // of the plant.
        ensures reached { IfOk result (λ outs. LeadsOnFromStart (live_view self.old) (step ∷ []) outs.items (live_view self.new)) }
        ensures err { OnErr result (live_view self.new ≡ live_view self.old) }
        // A step is refused exactly for the stated fault. The assembly refuses no frame.
        ensures fault { IsReported result (step_fault (live_view self.old) step) }
    {
        // For the proof: what always holds of `self`.
        self.always();
        let mut outs = Vec::new(alloc);
        self.step_into(alloc, step, &mut outs)?;
        Ok(outs)
    }
}
