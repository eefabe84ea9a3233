//! Steps one after the other.

ghost use Rattle.std.specs.Prelude.{◌≡◌, ◌<◌, [], ◌∷◌, take, length, slice_get, Some, Err, IfOk, IfErr, OnOk, OnErr};
ghost use Rattle.run_model.specs.declared.step.Step.{Step};
ghost use Rattle.run_model.specs.Steps.{Steps};
ghost use Rattle.plant_core.specs.live.Faults.{step_fault, IsReported};
ghost use Rattle.plant_core.specs.live.Reachable.{LeadsOn};
ghost use Rattle.plant_core.specs.CoreView.{core_view};

use crate::held::PlantCore;
use crate::live::CoreFault;
use run_model::{Out, Step};
use std::alloc::Global;

/// Where a run stopped: the place of the step that was refused, why, and what the steps before it
/// output.
#[derive(Debug, Drop)]
pub struct RunStop {
    pub at: usize,
    pub fault: CoreFault,
    pub outs: Vec<Out>,
}

impl PlantCore {
    /// Does one step, whose outputs replace those that are in `outs`. A refused step changes nothing of the core, and has no outputs.
    pub fn step_over(
        &mut self,
        alloc: Global,
        step: Step,
        outs: &mut Vec<Out>,
    ) -> Result<(), CoreFault>
        ensures ok { OnOk result (Steps step (core_view self.old) (core_view self.new) outs.new.items) }
        ensures reached { OnOk result (LeadsOn (core_view self.old) (step ∷ []) outs.new.items (core_view self.new)) }
        ensures err { OnErr result (core_view self.new ≡ core_view self.old) }
        // If the step is refused there are no outputs.
        ensures outs { OnErr result (outs.new.items ≡ []) }
        ensures fault { IsReported result (step_fault (core_view self.old) step) }
    {
        // For the proof: what always holds of `self`.
        self.always();
        outs.clear();
        self.step_into(alloc, &step, outs)?;
        Ok(())
    }

    /// Performs steps one after the other, up to the first that is refused, and returns their
    /// outputs in order. The core then is as after the steps before it.
    pub fn run(&mut self, alloc: Global, steps: &[Step]) -> Result<Vec<Out>, RunStop>
        // All steps were done, and the core is what they lead to.
        ensures reached { IfOk result (λ outs. LeadsOn (core_view self.old) steps.now outs.items (core_view self.new)) }
        // The core is as after the steps before the refused one.
        ensures stopped { IfErr result (λ stop. LeadsOn (core_view self.old) (take stop.at steps.now) stop.outs.items
            (core_view self.new)) }
        ensures within { IfErr result (λ stop. stop.at < length steps.now) }
        // The step at which it stopped is refused for this fault.
        ensures fault { IfErr result (λ stop. (step : Step) → slice_get steps.now stop.at ≡ Some step
            → IsReported {A = Unit {0}} (Err stop.fault) (step_fault (core_view self.new) step)) }
    {
        let mut outs = Vec::new(alloc);
        for (at, step) in steps.iter().enumerate() {
            // For the proof: what always holds of `self`.
            self.always();
            if let Err(fault) = self.step_into(alloc, step, &mut outs) {
                return Err(RunStop { at, fault, outs });
            }
        }
        Ok(outs)
    }
}
