//! One step of a plant.

ghost use Rattle.std.specs.Prelude.{◌≡◌, [], ◌∷◌, ◌++◌, List, map, slice_get, IfOk, OnOk, OnErr};
ghost use Rattle.plant.specs.Plant.{IsPlant};
ghost use Rattle.run_model.specs.declared.step.Out.{Out};
ghost use Rattle.run_model.specs.declared.step.Step.TheVariants as steps;
ghost use Rattle.run_model.specs.Steps.{Collects, Steps};
ghost use Rattle.plant_core.specs.live.Faults.{collect_fault, step_fault, IsReported};
ghost use Rattle.plant_core.specs.live.Reachable.{LeadsOn};
ghost use Rattle.plant_core.specs.CoreView.{core_view};
ghost use Rattle.plant_core.specs.RecordView.{record_view};

use crate::held::PlantCore;
use crate::live::CoreFault;
use crate::recorded::RecordedCore;
use dsx_messages::Modem;
use grant_policy::Ranking;
use operator_model::{Action, Heard};
use plant::{Op, Routing};
use run_model::{Out, Step};
use std::alloc::Global;

impl RecordedCore {
    /// Puts a copy of what was received of a modem into the inbox of the operator that has this
    /// modem.
    fn arrive(
        &mut self,
        alloc: Global,
        modem: Modem,
        heard: &Heard,
        outs: &mut Vec<Out>,
    ) -> Result<(), CoreFault>
        requires { IsPlant (record_view self.old).plant }
        ensures ok { OnOk result ((now : List Out) × (outs.new.items ≡ outs.old.items ++ now)
            × Steps (steps.Arrive modem heard.now) (record_view self.old) (record_view self.new) now) }
        ensures outs { OnErr result (outs.new.items ≡ outs.old.items) }
        ensures err { OnErr result (record_view self.new ≡ record_view self.old) }
        ensures fault { IsReported result (step_fault (record_view self.old) (steps.Arrive modem heard.now)) }
    {
        // For the proof: what always holds of `self.live`, and that there is an operator for each row.
        self.live.always();
        self.live.always_one_each();
        let Some(op) = self.live.place_of(modem) else {
            return Err(CoreFault::UnknownModem { modem });
        };
        match heard.copy(alloc) {
            Ok(heard) => self.act_if(alloc, op, Action::Arrive { modem, heard }, outs),
            Err(_) => Err(CoreFault::NoMemory),
        }
    }

    /// Puts the oldest waiting frame of the operator at this place into the assembly, if there is
    /// one.
    fn collect(&mut self, alloc: Global, op: Op, outs: &mut Vec<Out>) -> Result<(), CoreFault>
        requires { IsPlant (record_view self.old).plant }
        ensures ok { OnOk result ((now : List Out) × (outs.new.items ≡ outs.old.items ++ now)
            × Collects op (record_view self.old) (record_view self.new) now) }
        ensures outs { OnErr result (outs.new.items ≡ outs.old.items) }
        ensures err { OnErr result (record_view self.new ≡ record_view self.old) }
        ensures fault { IsReported result (collect_fault op (slice_get (record_view self.old).queues op)) }
    {
        // For the proof: what always holds of `self.live`.
        self.live.always();
        self.live.collect(alloc, op, outs)
    }

    /// Performs a step that the caller keeps, appends its outputs, and records it. A tick ranks the flows by the operator's ranking.
    pub(crate) fn step_into(
        &mut self,
        alloc: Global,
        step: &Step,
        rankings: &[Ranking],
        outs: &mut Vec<Out>,
    ) -> Result<(), CoreFault>
        requires plant { IsPlant (record_view self.old).plant }
        requires follow { map (λ ranking. ranking.policy) rankings.now
            ≡ map (λ row. row.policy) (record_view self.old).plant.rows }
        ensures ok { OnOk result ((now : List Out) × (outs.new.items ≡ outs.old.items ++ now)
            × Steps step.now (record_view self.old) (record_view self.new) now) }
        ensures outs { OnErr result (outs.new.items ≡ outs.old.items) }
        ensures err { OnErr result (record_view self.new ≡ record_view self.old) }
        ensures fault { IsReported result (step_fault (record_view self.old) step.now) }
    {
        match step {
            Step::Arrive { modem, heard } => self.arrive(alloc, *modem, heard, outs),
            Step::Work { op } => self.act_if(alloc, *op, Action::Work, outs),
            Step::Tick { op } => self.tick_by(alloc, *op, rankings, outs),
            Step::Collect { op } => self.collect(alloc, *op, outs),
            Step::Reslice { from, rows } => self.reslice(alloc, *from, rows),
        }
    }
}

impl PlantCore {
    /// Performs a step that the caller keeps, and appends its outputs. A refused step changes
    /// nothing, and appends nothing.
    pub(crate) fn step_into(
        &mut self,
        alloc: Global,
        step: &Step,
        outs: &mut Vec<Out>,
    ) -> Result<(), CoreFault>
        ensures ok { OnOk result ((now : List Out) × (outs.new.items ≡ outs.old.items ++ now)
            × Steps step.now (core_view self.old) (core_view self.new) now) }
        ensures outs { OnErr result (outs.new.items ≡ outs.old.items) }
        ensures err { OnErr result (core_view self.new ≡ core_view self.old) }
        ensures fault { IsReported result (step_fault (core_view self.old) step.now) }
    {
        // For the proof: what always holds of `self.recorded`.
        self.recorded.always();
        let rankings = self.rankings.as_slice();
        self.recorded.step_into(alloc, step, rankings, outs)
    }

    /// Performs a step, and returns its outputs. A refused step changes nothing.
    pub fn step(&mut self, alloc: Global, step: Step) -> Result<Vec<Out>, CoreFault>
        // A step of the definitions.
        ensures ok { IfOk result (λ outs. Steps step (core_view self.old) (core_view self.new) outs.items) }
        // The core stays one that a run of the plant reaches, with this step more.
        ensures reached { IfOk result (λ outs. LeadsOn (core_view self.old) (step ∷ []) outs.items (core_view self.new)) }
        ensures err { OnErr result (core_view self.new ≡ core_view self.old) }
        // Refused as a step of the live core is.
        ensures fault { IsReported result (step_fault (core_view self.old) step) }
    {
        // For the proof: what always holds of `self`.
        self.always();
        let mut outs = Vec::new(alloc);
        self.step_into(alloc, &step, &mut outs)?;
        Ok(outs)
    }
}
