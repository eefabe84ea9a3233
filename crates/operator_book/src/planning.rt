//! The plan of an action that is not refused.

ghost use Rattle.std.specs.Prelude.{◌≡◌, false, None, IfOk};
ghost use Rattle.operator_model.specs.Machine.{is_spent, unfit_of, own_step};
ghost use Rattle.operator_model.specs.Sound.{IsSound};
ghost use Rattle.operator_book.specs.Planned.{IsPlanOf};

use crate::machine::MachineState;
use crate::plan::{Effect, Plan, SpareOutputs};
use crate::tick_memory::TickMemory;
use grant_policy::Ranks;
use operator_model::Action;
use std::alloc::{AllocError, Global};

impl MachineState {
    /// Plans an action that is not refused. Fails only if memory runs out.
    #[tactic(auto, unfolding(operator_model::specs::Machine::own_step))]
    #[inline(always)]
    pub(crate) fn plan<R: Ranks>(
        &self,
        alloc: Global,
        spare: SpareOutputs,
        memory: &mut TickMemory,
        ranking: &R,
        action: Action,
    ) -> Result<Plan, AllocError>
        requires sound { IsSound self.now }
        requires policy { R.policy ranking.now ≡ self.now.row.policy }
        requires not_spent { is_spent self.now.state action ≡ false }
        requires fit { unfit_of self.now action ≡ None }
        ensures { IfOk result (IsPlanOf self.now action) }
    {
        match action {
            Action::Arrive { modem, heard } => self.arrival_plan(spare, modem, heard),
            Action::Work => self.work_plan(alloc, spare),
            Action::Tick => {
                // For the proof: what the type of `self.frame` keeps.
                let _frame = self.frame;
                self.tick_plan(alloc, spare, memory, ranking)
            }
            Action::Reslice { from, row } => Ok(Plan {
                outputs: spare.into_list(),
                effect: Effect::Resliced { from, row },
            }),
        }
    }
}
