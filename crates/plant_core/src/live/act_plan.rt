//! The plan of an operator's action.

ghost use Rattle.std.specs.Prelude.{◌≡◌};

use operator_book::Plan;
use operator_model::Output;
use plant::Op;

/// What an action of an operator will do: the plan of its machine. All memory for the outputs is taken. The core changes when
/// the plan is committed.
#[derive(Drop)]
pub struct ActPlan {
    pub(crate) op: Op,
    pub(crate) plan: Plan,
}

impl ActPlan {
    /// Returns the outputs of the action, in order.
    pub fn outputs(&self) -> &[Output]
        ensures { result.now ≡ self.now.plan.outputs.items }
    {
        self.plan.outputs()
    }
}
