//! A run between its pieces: no thread is there.

ghost use Rattle.std.specs.Prelude.{◌≡◌, List, Some, length, map, slice_get, IfErr, IsErrAnd};
ghost use Rattle.plant.specs.declared.plant.PlantFields.{PlantFields};
ghost use Rattle.run_model.specs.declared.step.Step.{Step};
ghost use Rattle.run_model.specs.declared.step.Step.TheVariants as steps_of;
ghost use Rattle.plant_core.specs.declared.live.core_fault.ResliceFault.{ResliceFault};
ghost use Rattle.plant_core.specs.live.Reslicing.{reslice_fault};
ghost use Rattle.plant_workers.specs.cell_state.HeldView.{cell_book};
ghost use Rattle.plant_workers.specs.Faulting.{IsOfReslice, IsRunFault};

use crate::audit::Assembly;
use crate::cell::OperatorCell;
use crate::cell_state::{Held, Told, reslice};
use crate::cells::Cells;
use crate::following::fault_of_reslice;
use crate::gate::Gate;
use crate::job::Job;
use crate::part::parts_of;
use crate::receipt_lists::{Lists, add_tales, add_told, no_lists};
use crate::receipts::RunFault;
use crate::shared::run_shared;
use crate::thread_report::{ThreadReport, first_fault};
use operator_model::SliceRow;
use plant::Plant;
use run_model::Step;
use std::alloc::{AllocError, Global};
use std::sync::{Mutex, Wait};
use std::thread::Threads;

/// A run between its pieces: the operators' cells, the assembly, and the receipts so far.
#[derive(Drop)]
pub(crate) struct RunState {
    pub cells: Cells,
    pub assembly: Assembly,
    pub lists: Vec<Lists>,
}

/// Does these jobs in threads, and joins them all: what each reports, or the first fault that one
/// reports.
fn thread_reports_of<R: Threads + Wait + Sync, G: Gate<R> + Sync>(
    rt: &R,
    alloc: Global,
    cells: &[OperatorCell],
    assembly: &Mutex<Assembly>,
    jobs: &[Job],
    gate: &G,
    stacks: &[usize],
) -> Result<Vec<ThreadReport>, RunFault>
    ensures { IfErr result (λ fault. (plant : PlantFields) (steps : List Step) → IsRunFault plant steps fault) }
{
    let parts = parts_of(alloc, cells.len(), jobs)?;
    let of_all = parts.as_slice();
    let thread_reports = run_shared(rt, alloc, cells, assembly, gate, of_all, stacks)?;
    if let Some(fault) = first_fault(thread_reports.as_slice()) {
        return Err(fault);
    }
    if thread_reports.len() != parts.len() {
        return Err(RunFault::NoMemory);
    }
    Ok(thread_reports)
}

/// Gives the operators new slices, as the step of this place says. A refused change is reported by its fault.
fn reslice_helds(
    alloc: Global,
    plant: &Plant,
    helds: &mut Vec<Held>,
    steps: &[Step],
    at: usize,
    from: u32,
    rows: &[SliceRow],
) -> Result<Vec<Told>, RunFault>
    requires { slice_get steps.now at ≡ Some (steps_of.Reslice from rows.now) }
    ensures of_run { IfErr result (IsRunFault plant.now steps.now) }
    ensures refused { (refusal : ResliceFault)
        → reslice_fault from (map cell_book helds.old.items) rows.now ≡ Some refusal
        → length (map cell_book helds.old.items) ≡ length plant.now.rows
        → IsErrAnd result (IsOfReslice plant.now steps.now at (map cell_book helds.old.items) refusal) }
{
    match reslice(alloc, helds, from, rows) {
        Ok(told) => Ok(told),
        Err(fault) => {
            let helds = helds.as_slice();
            Err(fault_of_reslice(plant, helds, steps, at, fault))
        }
    }
}

impl RunState {
    /// Returns a run with nothing done.
    pub(crate) fn new(alloc: Global, plant: &Plant, cells: Cells) -> Result<RunState, AllocError> {
        let lists = no_lists(alloc, cells.as_slice().len())?;
        let assembly = Assembly::new(alloc, plant)?;
        Ok(RunState {
            cells,
            assembly,
            lists,
        })
    }

    /// Does these jobs, none of which is of a `Reslice`, in threads that have all ended when this
    /// answers.
    pub(crate) fn run_piece<R: Threads + Wait + Sync, G: Gate<R> + Sync>(
        self,
        rt: &R,
        alloc: Global,
        jobs: &[Job],
        gate: &G,
        stacks: &[usize],
    ) -> Result<RunState, RunFault>
        ensures { IfErr result (λ fault. (plant : PlantFields) (steps : List Step) → IsRunFault plant steps fault) }
    {
        if jobs.is_empty() {
            return Ok(self);
        }
        let RunState {
            cells,
            assembly,
            mut lists,
        } = self;
        let assembly = Mutex::new(assembly);
        let thread_reports = thread_reports_of(
            rt,
            alloc,
            cells.as_slice(),
            &assembly,
            jobs,
            gate,
            stacks,
        )?;
        add_tales(&mut lists, thread_reports)?;
        Ok(RunState {
            cells,
            assembly: assembly.into_inner(),
            lists,
        })
    }

    /// Does the step of this place, where it is a `Reslice`.
    pub(crate) fn reslice_at(
        self,
        alloc: Global,
        plant: &Plant,
        steps: &[Step],
        at: usize,
    ) -> Result<RunState, RunFault>
        ensures { IfErr result (IsRunFault plant.now steps.now) }
    {
        match steps.get(at) {
            Some(Step::Reslice { from, rows }) => {
                self.reslice(alloc, plant, steps, at, *from, rows.as_slice())
            }
            _ => Ok(self),
        }
    }

    /// Takes the cells apart, gives the operators new slices, and puts the cells together again.
    fn reslice(
        self,
        alloc: Global,
        plant: &Plant,
        steps: &[Step],
        at: usize,
        from: u32,
        rows: &[SliceRow],
    ) -> Result<RunState, RunFault>
        requires { slice_get steps.now at ≡ Some (steps_of.Reslice from rows.now) }
        ensures { IfErr result (IsRunFault plant.now steps.now) }
    {
        let RunState {
            cells,
            assembly,
            lists,
        } = self;
        let mut helds = cells.into_helds(alloc)?;
        let told = reslice_helds(alloc, plant, &mut helds, steps, at, from, rows)?;
        let mut resliced = RunState {
            cells: Cells::again(alloc, helds)?,
            assembly,
            lists,
        };
        match resliced.note_reslice(alloc, from, rows, told) {
            Ok(()) => Ok(resliced),
            Err(fault) => Err(fault),
        }
    }

    /// Keeps the owner's receipts of new slices, and gives these slices to the assembly.
    fn note_reslice(
        &mut self,
        alloc: Global,
        from: u32,
        rows: &[SliceRow],
        told: Vec<Told>,
    ) -> Result<(), RunFault>
        ensures { IfErr result (λ fault. (plant : PlantFields) (steps : List Step) → IsRunFault plant steps fault) }
    {
        add_told(&mut self.lists, told)?;
        if self.assembly.reslice(alloc, from, rows)? {
            Ok(())
        } else {
            Err(RunFault::MapStrayed { frame: from })
        }
    }
}
