//! What the threads of a run share, and what each does with it.

ghost use Rattle.std.specs.Prelude.{◌≡◌, IfOk, IfErr};
ghost use Rattle.operator_book.specs.declared.book.BookFault.TheVariants.{NoMemory};
ghost use Rattle.plant_workers.specs.declared.cell_state.cell_fault.CellFault.TheVariants.{Book};
ghost use Rattle.plant_workers.specs.receipts.Callers.{caller_of};
ghost use Rattle.plant_workers.specs.Parts.{caller_in, IsOfPart};
ghost use Rattle.plant_workers.specs.Refusing.{IsOfAct, IsOfPut};

use crate::audit::Assembly;
use crate::cell_state::{CellFault, Told};
use crate::gate::Gate;
use crate::job::Job;
use crate::part::{Part, PartJobs};
use crate::thread_report::{EarlyEnd, ThreadReport};
use crate::threads::run_threads;
use crate::turn::Turns;
use operator_book::BookFault;
use operator_model::Action;
use plant::Op;
use std::alloc::{AllocError, Global};
use std::sync::{Mutex, Wait};
use std::thread::Threads;

/// What the threads of a run share: each operator's cell, and the assembly's lock.
#[derive(Drop)]
pub(crate) struct Shared<'a, C> {
    pub cells: &'a [C],
    pub assembly: &'a Mutex<Assembly>,
}

/// Returns the refusal of an operator's turn that found no memory.
fn no_memory(op: Op) -> EarlyEnd
    ensures { result ≡ EarlyEnd.Turn op (Book NoMemory) }
{
    EarlyEnd::Turn {
        op,
        fault: CellFault::Book(BookFault::NoMemory),
    }
}

/// Does an action of this part in its turn, and returns its receipt with the operator and the caller.
fn act<R: Wait, G: Gate<R>, C: Turns<R>>(
    rt: &R,
    alloc: Global,
    cell: &C,
    index: usize,
    part: Part,
    action: Action,
    gate: &G,
) -> Result<Told, EarlyEnd>
    requires { caller_of action ≡ caller_in part }
    ensures op { IfOk result (λ told. told.op ≡ C.place cell.now) }
    ensures caller { IfOk result (λ told. told.caller ≡ caller_in part) }
    ensures action { IfOk result (λ told. told.receipt.action ≡ action) }
    ensures fault { IfErr result (IsOfAct (C.place cell.now) index action) }
{
    let op = cell.op();
    match cell.act_in_turn(rt, alloc, part.looks(), index, action, gate) {
        Ok(receipt) => Ok(Told {
            op,
            caller: part.caller(),
            receipt,
        }),
        Err(fault) => Err(EarlyEnd::Turn { op, fault }),
    }
}

/// Puts the operator's oldest frame that waits into the assembly.
fn put_oldest_frame<R: Wait, C: Turns<R>>(
    rt: &R,
    alloc: Global,
    assembly: &Mutex<Assembly>,
    cell: &C,
    index: usize,
    part: Part,
) -> Result<(), EarlyEnd>
    ensures { IfErr result (IsOfPut (C.place cell.now)) }
{
    let op = cell.op();
    let taken = match cell.take_after(rt, alloc, part.looks(), index) {
        Ok(taken) => taken,
        Err(fault) => return Err(EarlyEnd::Turn { op, fault }),
    };
    let Some((frame, elements)) = taken else {
        return Ok(());
    };
    let mut assembly = assembly.lock(rt);
    match assembly.put_part(alloc, op, frame, elements) {
        Ok(()) => Ok(()),
        Err(fault) => Err(EarlyEnd::Assembly(fault)),
    }
}

/// Does a job of this part.
fn do_job<R: Wait, G: Gate<R>, C: Turns<R>>(
    shared: &Shared<'_, C>,
    rt: &R,
    alloc: Global,
    part: Part,
    job: &Job,
    gate: &G,
    told: &mut Vec<Told>,
) -> Result<(), EarlyEnd>
    requires { IsOfPart part job.now.step.now }
{
    let Some(cell) = shared.cells.get(job.op) else {
        return Ok(());
    };
    // Room for a receipt, before anything is done.
    if told.reserve(1).is_err() {
        return Err(no_memory(job.op));
    }
    match job.action(alloc) {
        Ok(Some(action)) => {
            let receipt = act(rt, alloc, cell, job.turn, part, action, gate)?;
            told.push_reserved(receipt);
            Ok(())
        }
        Ok(None) => put_oldest_frame(rt, alloc, shared.assembly, cell, job.turn, part),
        Err(_) => Err(no_memory(job.op)),
    }
}

/// Does the jobs of a part, in order, up to the first that is refused.
fn do_jobs<R: Wait, G: Gate<R>, C: Turns<R>>(
    shared: &Shared<'_, C>,
    rt: &R,
    alloc: Global,
    gate: &G,
    share: &PartJobs,
    told: &mut Vec<Told>,
) -> Result<(), EarlyEnd> {
    let part = share.part;
    for job in &share.jobs {
        if part.has(job) {
            do_job(shared, rt, alloc, part, job, gate, told)?;
        }
    }
    Ok(())
}

/// What the threads of a run do, each its part of it. A trait of its own, so that a thread that borrows it asks for no
/// more of it than that it may be shared.
pub(crate) trait Chores<R: Wait, G: Gate<R>> {
    /// Returns what one thread does: its part of the jobs. Where one is refused all operators are
    /// stopped, so that no other thread waits for it.
    fn run_part(&self, rt: &R, alloc: Global, gate: &G, share: &PartJobs<'_>) -> ThreadReport;

    /// Stops the turns of all operators.
    fn stop_all(&self, rt: &R);
}

impl<R: Wait, G: Gate<R>, C: Turns<R>> Chores<R, G> for Shared<'_, C> {
    fn run_part(&self, rt: &R, alloc: Global, gate: &G, share: &PartJobs<'_>) -> ThreadReport {
        let mut told = Vec::new(alloc);
        let refused = match do_jobs(self, rt, alloc, gate, share, &mut told) {
            Ok(()) => None,
            Err(refusal) => {
                Chores::<R, G>::stop_all(self, rt);
                Some(refusal)
            }
        };
        ThreadReport { told, refused }
    }

    fn stop_all(&self, rt: &R) {
        for cell in self.cells {
            cell.end_turns(rt);
        }
    }
}

/// Runs each part of the jobs in a thread of its own, and joins them all. Where a thread cannot be made there are fewer
/// thread_reports than parts.
pub(crate) fn run_shared<R: Threads + Wait + Sync, G: Gate<R> + Sync, C: Turns<R> + Sync>(
    rt: &R,
    alloc: Global,
    cells: &[C],
    assembly: &Mutex<Assembly>,
    gate: &G,
    parts: &[PartJobs],
    stacks: &[usize],
) -> Result<Vec<ThreadReport>, AllocError> {
    let shared = Shared { cells, assembly };
    run_threads(rt, alloc, &shared, gate, parts, stacks)
}
