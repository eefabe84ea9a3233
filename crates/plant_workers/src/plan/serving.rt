//! The first step that does not find what it asks for.

ghost use Rattle.std.specs.Prelude.{◌≡◌, ◌↔◌, ◌+◌, ◌<◌, [], length, take, slice_get, Some, None, IfSome, IfNone};
ghost use Rattle.plant_core.specs.declared.live.core_fault.CoreFault.{CoreFault};
ghost use Rattle.run_model.specs.declared.step.Step.{Step};
ghost use Rattle.plant_workers.specs.audit.Outcome.{AreTicked};
ghost use Rattle.plant_workers.specs.plan.Serving.{unserved_by, IsServable, IsFirstUnserved, AreWaiting};

use plant::Plant;
use plant_core::CoreFault;
use run_model::Step;

/// The most operators that a plant has.
const MOST_OPERATORS: usize = 32;

/// Returns why the step at a place does not find what it asks for, if it does not; `waiting` has
/// how many frames of each operator were output and not collected.
fn serving_fault(
    plant: &Plant,
    waiting: &mut [usize],
    steps: &[Step],
    at: usize,
) -> Option<CoreFault>
    requires within { at < length steps.now }
    requires room { at < usize.MAX }
    requires waiting { AreWaiting (length plant.now.rows) (take at steps.now) waiting.old }
    ensures value { (step : Step) → slice_get steps.now at ≡ Some step
        → result ≡ unserved_by plant.now (take at steps.now) step }
    ensures waiting { result ≡ None → AreWaiting (length plant.now.rows) (take (at + 1) steps.now) waiting.new }
{
    match &steps[at] {
        Step::Arrive { modem, heard: _ } => match plant.operator_of(*modem) {
            Some(_) => None,
            None => Some(CoreFault::UnknownModem { modem: *modem }),
        },
        Step::Work { op } => {
            if *op >= waiting.len() {
                return Some(CoreFault::UnknownOperator { op: *op });
            }
            None
        }
        Step::Tick { op } => {
            if *op >= waiting.len() {
                return Some(CoreFault::UnknownOperator { op: *op });
            }
            waiting[*op] += 1;
            None
        }
        Step::Collect { op } => {
            if *op >= waiting.len() {
                return Some(CoreFault::UnknownOperator { op: *op });
            }
            if waiting[*op] == 0 {
                return Some(CoreFault::NothingToCollect { op: *op });
            }
            waiting[*op] -= 1;
            None
        }
        Step::Reslice { from: _, rows: _ } => None,
    }
}

/// Finds why the first step that does not find what it asks for does not; `waiting` has a 0 for each operator.
fn walk(plant: &Plant, waiting: &mut [usize], steps: &[Step]) -> Option<CoreFault>
    requires { AreWaiting (length plant.now.rows) [] waiting.old }
    ensures served { IfNone result (IsServable plant.now steps.now) }
    ensures ticked { IfNone result (AreTicked plant.now steps.now) }
    ensures first { IfSome result (IsFirstUnserved plant.now steps.now) }
{
    for at in 0..steps.len() {
        if let Some(fault) = serving_fault(plant, waiting, steps, at) {
            return Some(fault);
        }
    }
    None
}

/// Finds why the first step that does not find what it asks for does not, if there is one: its modem's operator or the
/// operator that it names is not there, or a Collect has no Tick of its operator before it whose frame is not collected
/// yet. Takes no memory, and time in proportion to the steps.
pub fn first_unserved(plant: &Plant, steps: &[Step]) -> Option<CoreFault>
    // None exactly if each step finds its modem, its operator or a frame to collect.
    ensures served { (result ≡ None) ↔ IsServable plant.now steps.now }
    ensures ticked { IfNone result (AreTicked plant.now steps.now) }
    // Otherwise exactly the fault of the first step that does not.
    ensures first { (fault : CoreFault) → (result ≡ Some fault) ↔ IsFirstUnserved plant.now steps.now fault }
{
    let operators = plant.rows().len();
    let mut waiting = [0; MOST_OPERATORS];
    walk(plant, &mut waiting[..operators], steps)
}
