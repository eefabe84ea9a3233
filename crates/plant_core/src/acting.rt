//! An operator's action, and its entry in the history.

ghost use Rattle.std.specs.Prelude.{◌≡◌, ◌++◌, List, map, slice_get, IfOk, OnOk, OnErr};
ghost use Rattle.operator_model.specs.declared.action.Action.TheVariants as actions;
ghost use Rattle.run_model.specs.declared.step.Out.{Out};
ghost use Rattle.run_model.specs.Steps.{Acts};
ghost use Rattle.plant_core.specs.live.Faults.{act_fault, IsReported};
ghost use Rattle.plant_core.specs.live.Reachable.{IsOfAStep};
ghost use Rattle.plant_core.specs.live.Planning.{IsActPlan};
ghost use Rattle.plant_core.specs.RecordView.{record_view};

use crate::live::{ActPlan, CoreFault};
use crate::recorded::RecordedCore;
use grant_policy::Ranking;
use operator_book::output_copies;
use operator_model::{Action, Entry, Outputs};
use plant::Op;
use run_model::Out;
use std::alloc::{AllocError, Global};

impl RecordedCore {
    /// Commits the plan of this action of the operator, appends its outputs, and records both. All memory is taken first.
    fn carry_out(
        &mut self,
        alloc: Global,
        op: Op,
        action: Action,
        act: ActPlan,
        outs: &mut Vec<Out>,
    ) -> Result<(), AllocError>
        requires { IsActPlan (record_view self.old) op action act }
        ensures ok { OnOk result ((now : List Out) × (outs.new.items ≡ outs.old.items ++ now)
            × Acts op action (record_view self.old) (record_view self.new) now) }
        ensures outs { OnErr result (outs.new.items ≡ outs.old.items) }
        ensures err { OnErr result (record_view self.new ≡ record_view self.old) }
    {
        // For the proof: what always holds of `self.live`.
        self.live.always();
        let copies = output_copies(alloc, act.outputs())?;
        let history = &mut self.histories[op];
        history.make_room()?;
        self.live.commit_act(alloc, act, outs)?;
        history.push(Entry {
            action,
            outputs: Outputs::from_vec(copies),
        });
        Ok(())
    }

    /// Performs an action of the operator at this place, if there is one, appends its outputs, and records both.
    pub(crate) fn act_if(
        &mut self,
        alloc: Global,
        op: Op,
        action: Action,
        outs: &mut Vec<Out>,
    ) -> Result<(), CoreFault>
        requires { IsOfAStep (record_view self.old).plant op action }
        ensures ok { OnOk result ((now : List Out) × (outs.new.items ≡ outs.old.items ++ now)
            × Acts op action (record_view self.old) (record_view self.new) now) }
        ensures outs { OnErr result (outs.new.items ≡ outs.old.items) }
        ensures err { OnErr result (record_view self.new ≡ record_view self.old) }
        ensures fault { IsReported result (act_fault op action (slice_get (record_view self.old).books op)) }
    {
        // For the proof: what always holds of `self.live`.
        self.live.always();
        // A refusal is told before want of memory.
        let copy = action.copy(alloc);
        let act = self.live.plan_act(alloc, op, action)?;
        let Ok(action) = copy else {
            return Err(CoreFault::NoMemory);
        };
        match self.carry_out(alloc, op, action, act, outs) {
            Ok(()) => Ok(()),
            Err(AllocError) => Err(CoreFault::NoMemory),
        }
    }

    /// Plans a tick of the operator at this place, if there is one. The flows are ranked by the operator's ranking: there is one for
    /// each row of the plant, which follows its policy.
    fn plan_tick(&self, alloc: Global, op: Op, rankings: &[Ranking]) -> Result<ActPlan, CoreFault>
        requires { map (λ ranking. ranking.policy) rankings.now
            ≡ map (λ row. row.policy) (record_view self.now).plant.rows }
        ensures plan { IfOk result (IsActPlan (record_view self.now) op actions.Tick) }
        ensures fault { IsReported result (act_fault op actions.Tick (slice_get (record_view self.now).books op)) }
    {
        // For the proof: what always holds of `self.live`, and that its machines have the policies of the plant's rows.
        self.live.always();
        self.live.always_policies();
        match rankings.get(op) {
            None => Err(CoreFault::UnknownOperator { op }),
            Some(ranking) => self.live.plan_tick_by(alloc, op, ranking),
        }
    }

    /// Performs a tick of the operator at this place, if there is one, appends its outputs, and records both. The flows are ranked
    /// by the operator's ranking.
    pub(crate) fn tick_by(
        &mut self,
        alloc: Global,
        op: Op,
        rankings: &[Ranking],
        outs: &mut Vec<Out>,
    ) -> Result<(), CoreFault>
        requires { map (λ ranking. ranking.policy) rankings.now
            ≡ map (λ row. row.policy) (record_view self.old).plant.rows }
        ensures ok { OnOk result ((now : List Out) × (outs.new.items ≡ outs.old.items ++ now)
            × Acts op actions.Tick (record_view self.old) (record_view self.new) now) }
        ensures outs { OnErr result (outs.new.items ≡ outs.old.items) }
        ensures err { OnErr result (record_view self.new ≡ record_view self.old) }
        ensures fault { IsReported result (act_fault op actions.Tick (slice_get (record_view self.old).books op)) }
    {
        let act = self.plan_tick(alloc, op, rankings)?;
        match self.carry_out(alloc, op, Action::Tick, act, outs) {
            Ok(()) => Ok(()),
            Err(AllocError) => Err(CoreFault::NoMemory),
        }
    }
}
