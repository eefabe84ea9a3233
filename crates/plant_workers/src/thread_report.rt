//! What a thread of a run reports when it has ended.

ghost use Rattle.std.specs.Prelude.{◌≡◌, List, is_some, map, IfSome};
ghost use Rattle.std.specs.List.{list_any};
ghost use Rattle.plant.specs.declared.plant.PlantFields.{PlantFields};
ghost use Rattle.run_model.specs.declared.step.Step.{Step};
ghost use Rattle.plant_workers.specs.Faulting.{IsRunFault};
ghost use Rattle.plant_workers.specs.Refusing.{own_turn, lesser_turn, IsLeastTurn};
ghost use Rattle.plant_workers.specs.Refusing.{fault_of_turn, fault_of_assembly, of_assembly, IsFirstOfAssembly};
ghost use Rattle.plant_workers.specs.Refusing.{IsEndWithoutTurn, IsEndOfRun};

use crate::cell_state::{CellFault, Told};
use crate::receipts::RunFault;
use map_assembly::GatherFault;
use operator_book::BookFault;
use plant::Op;
use plant_core::CoreFault;

/// Why a thread ended before its last job.
#[derive(Clone, Copy)]
pub(crate) enum EarlyEnd {
    /// An operator refused a turn.
    Turn { op: Op, fault: CellFault },
    /// The assembly refused a frame.
    Assembly(GatherFault),
}

/// What a thread of a run reports when it has ended.
#[derive(Drop)]
pub(crate) struct ThreadReport {
    pub told: Vec<Told>,
    pub refused: Option<EarlyEnd>,
}

/// Returns the fault of a run of which an operator refused a turn.
fn fault_of_turn(op: Op, fault: CellFault) -> RunFault
    ensures value { result ≡ fault_of_turn op fault }
    ensures of_run { (plant : PlantFields) (steps : List Step) → IsRunFault plant steps result }
{
    match fault {
        CellFault::Book(BookFault::NoMemory) => RunFault::NoMemory,
        CellFault::Book(refused) => RunFault::Core(CoreFault::Book(refused)),
        CellFault::Passed { op: _, index } => RunFault::Strayed { op, index },
        CellFault::Stopped { op: _ } | CellFault::Closed => RunFault::NoMemory,
    }
}

/// Returns the fault of a run of which the assembly refused a frame.
fn fault_of_assembly(fault: GatherFault) -> RunFault
    ensures value { result ≡ fault_of_assembly fault }
    ensures of_run { (plant : PlantFields) (steps : List Step) → IsRunFault plant steps result }
{
    match fault {
        GatherFault::NoMemory => RunFault::NoMemory,
        _ => RunFault::Core(CoreFault::Gather(fault)),
    }
}

/// Returns the turn on which a thread ended, if the operator refused it for itself, and was not stopped for another's sake.
fn own_turn(refused: Option<EarlyEnd>) -> Option<(Op, CellFault)>
    ensures { result ≡ own_turn refused }
{
    match refused {
        None
        | Some(EarlyEnd::Assembly(_))
        | Some(
            EarlyEnd::Turn {
                op: _,
                fault: CellFault::Stopped { op: _ } | CellFault::Closed,
            },
        ) => None,
        Some(EarlyEnd::Turn { op, fault }) => Some((op, fault)),
    }
}

/// Returns the turn of the lesser operator, where there are two.
fn lesser_turn(a: Option<(Op, CellFault)>, b: Option<(Op, CellFault)>) -> Option<(Op, CellFault)>
    ensures { result ≡ lesser_turn a b }
{
    match (a, b) {
        (Some(a), Some(b)) => { if b.0 < a.0 { Some(b) } else { Some(a) } }
        (Some(a), None) => Some(a),
        (None, b) => b,
    }
}

/// Returns the turn that the least operator refused for itself.
fn least_turn(thread_reports: &[ThreadReport]) -> Option<(Op, CellFault)>
    ensures { IsLeastTurn (map (λ thread_report. thread_report.refused) thread_reports.now) result }
{
    let mut least = None;
    for thread_report in thread_reports {
        least = lesser_turn(least, own_turn(thread_report.refused));
    }
    least
}

/// Returns what the assembly refused, where a thread ended on that.
fn of_assembly(refused: Option<EarlyEnd>) -> Option<GatherFault>
    ensures { result ≡ of_assembly refused }
{
    match refused {
        Some(EarlyEnd::Assembly(fault)) => Some(fault),
        Some(EarlyEnd::Turn { op: _, fault: _ }) | None => None,
    }
}

/// Finds what the assembly refused first, thread by thread.
fn first_of_assembly(thread_reports: &[ThreadReport]) -> Option<GatherFault>
    ensures { IsFirstOfAssembly (map (λ thread_report. thread_report.refused) thread_reports.now) result }
{
    for thread_report in thread_reports {
        if let Some(fault) = of_assembly(thread_report.refused) {
            return Some(fault);
        }
    }
    None
}

/// Returns whether a thread ended before its last job.
fn has_refused(thread_reports: &[ThreadReport]) -> bool
    ensures { result ≡ list_any (λ thread_report. is_some thread_report.refused) thread_reports.now }
{
    thread_reports
        .iter()
        .any(|thread_report| thread_report.refused.is_some())
}

/// Returns whether one of the refusals is there, thread by thread.
fn is_any_refused(thread_reports: &[ThreadReport]) -> bool
    ensures { result ≡ list_any is_some (map (λ thread_report. thread_report.refused) thread_reports.now) }
{
    has_refused(thread_reports)
}

/// Returns why threads ended early of which no operator refused a turn for itself: what the assembly refused first, or out
/// of memory where a thread was stopped for one that could not be made.
fn end_without_turn(thread_reports: &[ThreadReport]) -> Option<RunFault>
    ensures value { IsEndWithoutTurn (map (λ thread_report. thread_report.refused) thread_reports.now) result }
    ensures of_run { IfSome result (λ fault. (plant : PlantFields) (steps : List Step) → IsRunFault plant steps fault) }
{
    if let Some(fault) = first_of_assembly(thread_reports) {
        return Some(fault_of_assembly(fault));
    }
    if is_any_refused(thread_reports) {
        return Some(RunFault::NoMemory);
    }
    None
}

/// Returns why the threads ended before their last jobs: the fault of the least operator that refused a turn for itself, else
/// that of the assembly.
pub(crate) fn first_fault(thread_reports: &[ThreadReport]) -> Option<RunFault>
    // The fault of the least operator that refused a turn for itself, else the first refusal of the assembly.
    ensures value { IsEndOfRun (map (λ thread_report. thread_report.refused) thread_reports.now) result }
    ensures of_run { IfSome result (λ fault. (plant : PlantFields) (steps : List Step) → IsRunFault plant steps fault) }
{
    match least_turn(thread_reports) {
        Some((op, fault)) => Some(fault_of_turn(op, fault)),
        None => end_without_turn(thread_reports),
    }
}
