//! Planning an action of an operator, and committing the plan.

ghost use Rattle.std.specs.Prelude.{◌≡◌, ◌<◌, ◌++◌, ◌↔◌, ℕ, List, option_map, slice_get, vec_len, Some, IfOk, OnOk, OnErr};
ghost use Rattle.operator_model.specs.declared.action.Action.{Action};
ghost use Rattle.operator_model.specs.declared.action.Action.TheVariants as actions;
ghost use Rattle.operator_model.specs.Replay.{BookView};
ghost use Rattle.operator_book.specs.declared.handling.FirstRequest.{FirstRequest};
ghost use Rattle.run_model.specs.declared.step.Out.{Out};
ghost use Rattle.run_model.specs.Steps.{Acts};
ghost use Rattle.plant_core.specs.live.Faults.{act_fault, IsReported};
ghost use Rattle.plant_core.specs.live.Reachable.{IsOfAStep};
ghost use Rattle.plant_core.specs.live.Performing.{Performs};
ghost use Rattle.plant_core.specs.live.LiveView.{live_view};
ghost use Rattle.plant_core.specs.live.Planning.{HasRequest, IsActPlan, IsSomeActPlan};

use crate::live::act_plan::ActPlan;
use crate::live::core_fault::CoreFault;
use crate::live::held::LiveCore;
use dsx_messages::Modem;
use grant_policy::{Policy, Ranks};
use operator_book::{FirstRequest, SpareOutputs, TickMemory};
use operator_model::{Action, Heard};
use plant::{Op, Plant, Routing};
use run_model::Out;
use std::alloc::{AllocError, Global};
use std::mem::replace;

/// A core knows to which operator a modem's messages go.
impl Routing for LiveCore {
    ghost plant_of = { λ core. core.routes };

    fn plant(&self) -> &Plant {
        self.routes.plant()
    }

    #[inline(always)]
    fn place_of(&mut self, modem: Modem) -> Option<Op> {
        self.routes.place_of(modem)
    }
}

impl LiveCore {
    /// Returns the policy of the operator at this place, or nothing past the last operator.
    #[inline(always)]
    pub(crate) fn policy_of(&self, op: Op) -> Option<Policy>
        ensures { result ≡ option_map (λ book. book.row.policy) (slice_get (live_view self.now).books op) }
    {
        let machine = self.machine(op)?;
        Some(machine.row().get_fields().policy)
    }

    /// Plans an action of the operator at this place, if there is one. The action is one of a step. A tick ranks the flows by the
    /// policy of the operator's row.
    pub fn plan_act(&self, alloc: Global, op: Op, action: Action) -> Result<ActPlan, CoreFault>
        requires { IsOfAStep (live_view self.now).plant op action }
        ensures plan { IfOk result (IsActPlan (live_view self.now) op action) }
        // Refused as the step is.
        ensures fault { IsReported result (act_fault op action (slice_get (live_view self.now).books op)) }
    {
        let Some(policy) = self.policy_of(op) else {
            return Err(CoreFault::UnknownOperator { op });
        };
        self.plan_act_by(alloc, op, &policy, action)
    }

    /// Plans a tick of the operator at this place, if there is one, as `plan_act` does. The flows are ranked by what the caller
    /// gives, which follows the policy of the operator's row.
    pub fn plan_tick_by<R: Ranks>(
        &self,
        alloc: Global,
        op: Op,
        ranking: &R,
    ) -> Result<ActPlan, CoreFault>
        // What the caller gives follows the policy of the operator's row.
        requires { (book : BookView) → slice_get (live_view self.now).books op ≡ Some book
            → R.policy ranking.now ≡ book.row.policy }
        ensures plan { IfOk result (IsActPlan (live_view self.now) op actions.Tick) }
        ensures fault { IsReported result (act_fault op actions.Tick (slice_get (live_view self.now).books op)) }
    {
        self.plan_act_by(alloc, op, ranking, Action::Tick)
    }

    /// Plans an action of the operator at this place, if there is one, and ranks the flows of a tick by what the caller gives.
    fn plan_act_by<R: Ranks>(
        &self,
        alloc: Global,
        op: Op,
        ranking: &R,
        action: Action,
    ) -> Result<ActPlan, CoreFault>
        requires step { IsOfAStep (live_view self.now).plant op action }
        requires policy { (book : BookView) → slice_get (live_view self.now).books op ≡ Some book
            → R.policy ranking.now ≡ book.row.policy }
        ensures plan { IfOk result (IsActPlan (live_view self.now) op action) }
        ensures fault { IsReported result (act_fault op action (slice_get (live_view self.now).books op)) }
    {
        if op >= self.desks.len() {
            return Err(CoreFault::UnknownOperator { op });
        }
        let mut memory = TickMemory::new(alloc);
        let spare = SpareOutputs::new(alloc);
        self.desks[op].plan(alloc, spare, &mut memory, op, ranking, action)
    }

    /// Plans an action as `plan_act_by` does, in the core's memory.
    #[inline(always)]
    pub(crate) fn plan_act_in_memory<R: Ranks>(
        &mut self,
        alloc: Global,
        op: Op,
        ranking: &R,
        action: Action,
    ) -> Result<ActPlan, CoreFault>
        requires step { IsOfAStep (live_view self.old).plant op action }
        requires policy { (book : BookView) → slice_get (live_view self.old).books op ≡ Some book
            → R.policy ranking.now ≡ book.row.policy }
        ensures plan { IfOk result (IsActPlan (live_view self.old) op action) }
        ensures fault { IsReported result (act_fault op action (slice_get (live_view self.old).books op)) }
        ensures core { live_view self.new ≡ live_view self.old }
    {
        if self.desks.len() <= op {
            return Err(CoreFault::UnknownOperator { op });
        }
        let spare = replace(&mut self.memory.outputs, SpareOutputs::new(alloc));
        self.desks[op].plan(alloc, spare, &mut self.memory.tick, op, ranking, action)
    }

    /// Puts what was received of a modem into the inbox of the operator at this place, which has the modem, and appends the outputs
    /// of that. If memory runs out nothing changes, and nothing is appended.
    #[inline(always)]
    fn receive_at(
        &mut self,
        alloc: Global,
        op: Op,
        modem: Modem,
        heard: Heard,
        outs: &mut Vec<Out>,
    ) -> Result<(), AllocError>
        requires step { IsOfAStep (live_view self.old).plant op (actions.Arrive modem heard) }
        requires place { op < vec_len self.old.desks }
        ensures ok { OnOk result ((now : List Out) × (outs.new.items ≡ outs.old.items ++ now)
            × Performs (Acts op (actions.Arrive modem heard)) (live_view self.old) (live_view self.new) now) }
        ensures outs { OnErr result (outs.new.items ≡ outs.old.items) }
        ensures err { OnErr result (live_view self.new ≡ live_view self.old) }
    {
        // For the proof: what always holds of `self`.
        self.always();
        self.desks[op].receive(alloc, op, modem, heard, outs)
    }

    /// Puts what was received of a modem into the inbox of the operator at this place, if there is one, and appends the outputs of
    /// that, as the action `Arrive` has them. The action is one of a step: the caller knows that this operator has the modem.
    #[inline(always)]
    pub fn receive(
        &mut self,
        alloc: Global,
        op: Op,
        modem: Modem,
        heard: Heard,
        outs: &mut Vec<Out>,
    ) -> Result<(), CoreFault>
        requires { IsOfAStep (live_view self.old).plant op (actions.Arrive modem heard) }
        // This is the step `Arrive`.
        ensures ok { OnOk result ((now : List Out) × (outs.new.items ≡ outs.old.items ++ now)
            × Performs (Acts op (actions.Arrive modem heard)) (live_view self.old) (live_view self.new) now) }
        ensures outs { OnErr result (outs.new.items ≡ outs.old.items) }
        ensures err { OnErr result (live_view self.new ≡ live_view self.old) }
        // Refused exactly for the fault of an arrival.
        ensures fault { IsReported result (act_fault op (actions.Arrive modem heard) (slice_get (live_view self.old).books op)) }
    {
        if self.desks.len() <= op {
            return Err(CoreFault::UnknownOperator { op });
        }
        match self.receive_at(alloc, op, modem, heard, outs) {
            Ok(()) => Ok(()),
            Err(AllocError) => Err(CoreFault::NoMemory),
        }
    }

    /// Returns what the operator at this place received first, if there is one and that is a bandwidth request.
    #[inline(always)]
    pub(crate) fn request_at(&self, op: Op) -> Option<FirstRequest>
        ensures { (first : FirstRequest) → (result ≡ Some first) ↔ HasRequest (live_view self.now) op first }
    {
        let machine = self.machine(op)?;
        machine.first_request()
    }

    /// Lets the operator at this place handle the bandwidth request that it received first, and appends the outputs of that. If
    /// memory runs out nothing changes, and nothing is appended.
    #[inline(always)]
    pub(crate) fn take_request_at(
        &mut self,
        alloc: Global,
        op: Op,
        first: FirstRequest,
        outs: &mut Vec<Out>,
    ) -> Result<(), AllocError>
        requires { HasRequest (live_view self.old) op first }
        ensures ok { OnOk result ((now : List Out) × (outs.new.items ≡ outs.old.items ++ now)
            × Performs (Acts op actions.Work) (live_view self.old) (live_view self.new) now) }
        ensures outs { OnErr result (outs.new.items ≡ outs.old.items) }
        ensures err { OnErr result (live_view self.new ≡ live_view self.old) }
    {
        // For the proof: what always holds of `self`.
        self.always();
        self.desks[op].take_request(alloc, op, first, outs)
    }

    /// Commits the plan of an action, and appends its outputs. If memory runs out nothing changes, and nothing is appended. The
    /// caller knows that the plan was made for the core as it is.
    #[inline(always)]
    pub fn commit_act(
        &mut self,
        alloc: Global,
        act: ActPlan,
        outs: &mut Vec<Out>,
    ) -> Result<(), AllocError>
        requires { IsSomeActPlan (live_view self.old) act }
        // The operator of the plan acts, with the outputs that are added.
        ensures ok { OnOk result ((op : ℕ) (action : Action) → IsActPlan (live_view self.old) op action act
            → (now : List Out) × (outs.new.items ≡ outs.old.items ++ now)
            × Performs (Acts op action) (live_view self.old) (live_view self.new) now) }
        ensures outs { OnErr result (outs.new.items ≡ outs.old.items) }
        ensures err { OnErr result (live_view self.new ≡ live_view self.old) }
    {
        // For the proof: what always holds of `self`.
        self.always();
        let ActPlan { op, plan } = act;
        let (memory, gather) = (&mut self.memory, &mut self.gather);
        self.desks[op].commit(alloc, op, plan, outs, memory, gather)
    }
}
