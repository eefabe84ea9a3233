//! A plant run on threads.

ghost use Rattle.std.specs.Prelude.{◌≡◌, ℕ, map, Err, IfOk, IfErr, OnOk};
ghost use Rattle.operator_book.specs.ViewOf.{view_of, policy_of};
ghost use Rattle.operator_book.specs.declared.book.BookFault.TheVariants.{FramesSpent};
ghost use Rattle.plant_core.specs.declared.live.core_fault.CoreFault.{CoreFault};
ghost use Rattle.plant_core.specs.declared.live.core_fault.CoreFault.TheVariants.{Book};
ghost use Rattle.plant_workers.specs.declared.receipts.run_fault.RunFault.TheVariants.{Core};
ghost use Rattle.plant_workers.specs.audit.Outcome.{AreTicked, IsOutcome};
ghost use Rattle.plant_workers.specs.plan.Serving.{IsServable, IsFirstUnserved};
ghost use Rattle.plant_workers.specs.plan.Spending.{IsFirstSpent, before_reslice};
ghost use Rattle.plant_workers.specs.Faulting.{IsRunFault, IsFault};

use crate::cells::Cells;
use crate::finishing::finish;
use crate::gate::Gate;
use crate::job::{Job, jobs_of};
use crate::plan::{before_reslice, first_spent, first_unserved};
use crate::receipts::{RunFault, Settled};
use crate::run_state::RunState;
use grant_policy::Ranking;
use operator_book::BookFault;
use plant::Plant;
use plant_core::CoreFault;
use run_model::Step;
use std::alloc::Global;
use std::sync::Wait;
use std::thread::Threads;

/// Returns the jobs from one place up to another.
fn between<'a, 'b>(jobs: &'a [Job<'b>], from: usize, to: usize) -> &'a [Job<'b>] {
    let end = to.min(jobs.len());
    let begin = from.min(end);
    &jobs[begin..end]
}

/// Does all jobs: in pieces between the steps `Reslice`, each of which is done while no thread is
/// there.
fn run_steps<R: Threads + Wait + Sync, G: Gate<R> + Sync>(
    rt: &R,
    alloc: Global,
    plant: &Plant,
    run_state: RunState,
    steps: &[Step],
    jobs: &[Job],
    gate: &G,
    stacks: &[usize],
) -> Result<RunState, RunFault>
    ensures { IfErr result (IsRunFault plant.now steps.now) }
{
    let mut run_state = run_state;
    let mut begin = 0;
    for (at, step) in steps.iter().enumerate() {
        if let Step::Reslice { from: _, rows: _ } = step {
            run_state = match run_state.run_piece(
                rt,
                alloc,
                between(jobs, begin, at),
                gate,
                stacks,
            ) {
                Ok(run_state) => run_state,
                Err(fault) => return Err(fault),
            };
            run_state = run_state.reslice_at(alloc, plant, steps, at)?;
            begin = at + 1;
        }
    }
    run_state.run_piece(rt, alloc, between(jobs, begin, jobs.len()), gate, stacks)
}

/// Does steps each of which finds what it asks for.
fn run_served<R: Threads + Wait + Sync, G: Gate<R> + Sync>(
    rt: &R,
    alloc: Global,
    plant: &Plant,
    rankings: Vec<Ranking>,
    steps: &[Step],
    gate: &G,
    stacks: &[usize],
) -> Result<Settled, RunFault>
    requires ticked { AreTicked plant.now steps.now }
    ensures ok { IfOk result (λ s.
        IsOutcome plant.now steps.now (map view_of s.books.items) s.receipts.items s.maps.items) }
    ensures err { IfErr result (IsRunFault plant.now steps.now) }
{
    let cells = Cells::open(alloc, plant, rankings)?;
    let run_state = RunState::new(alloc, plant, cells)?;
    let jobs = jobs_of(alloc, plant, steps)?;
    let run_state = run_steps(
        rt,
        alloc,
        plant,
        run_state,
        steps,
        jobs.as_slice(),
        gate,
        stacks,
    )?;
    finish(alloc, plant, run_state, steps)
}

/// Does steps, once it is known that each finds what it asks for.
fn run_walked<R: Threads + Wait + Sync, G: Gate<R> + Sync>(
    rt: &R,
    alloc: Global,
    plant: &Plant,
    rankings: Vec<Ranking>,
    steps: &[Step],
    gate: &G,
    stacks: &[usize],
) -> Result<Settled, RunFault>
    ensures ok { IfOk result (λ s.
        IsOutcome plant.now steps.now (map view_of s.books.items) s.receipts.items s.maps.items) }
    ensures walked { OnOk result (IsServable plant.now steps.now) }
    ensures walk { (fault : CoreFault) → IsFirstUnserved plant.now steps.now fault → result ≡ Err (Core fault) }
    ensures spent { (place : ℕ) → IsServable plant.now steps.now
        → IsFirstSpent plant.now (before_reslice steps.now) place → result ≡ Err (Core (Book FramesSpent)) }
    ensures err { IfErr result (IsFault plant.now steps.now) }
{
    if let Some(fault) = first_unserved(plant, steps) {
        return Err(RunFault::Core(fault));
    }
    match first_spent(plant, before_reslice(steps)) {
        Some(_) => Err(RunFault::Core(CoreFault::Book(BookFault::FramesSpent))),
        None => run_served(rt, alloc, plant, rankings, steps, gate, stacks),
    }
}

/// Returns as `run_workers`, with the bytes of each thread's stack: the dispatcher's, the ticker's,
/// and the worker's of each operator. Those for which none are given get 2 MiB. A thread that
/// cannot be made is out of memory.
pub fn run_workers_on<R: Threads + Wait + Sync, G: Gate<R> + Sync>(
    rt: &R,
    alloc: Global,
    plant: Plant,
    rankings: Vec<Ranking>,
    steps: Vec<Step>,
    gate: &G,
    stacks: &[usize],
) -> Result<Settled, RunFault>
    requires ranked { map policy_of rankings.items ≡ map (λ row. row.policy) plant.rows }
    // This is the clause of `run_workers`. No clause speaks of the size of a stack.
    ensures ok { IfOk result (λ s.
        IsOutcome plant steps.items (map view_of s.books.items) s.receipts.items s.maps.items) }
    ensures walked { OnOk result (IsServable plant steps.items) }
    ensures walk { (fault : CoreFault) → IsFirstUnserved plant steps.items fault → result ≡ Err (Core fault) }
    // A Tick past the last frame number before any slice change is reported before a thread starts.
    ensures spent { (place : ℕ) → IsServable plant steps.items
        → IsFirstSpent plant (before_reslice steps.items) place → result ≡ Err (Core (Book FramesSpent)) }
    ensures err { IfErr result (IsFault plant steps.items) }
{
    run_walked(rt, alloc, &plant, rankings, steps.as_slice(), gate, stacks)
}

/// Runs a plant's steps on threads: one dispatcher does the Arrives, one ticker the Ticks, and one
/// worker for each operator that operator's Works and Collects, each in the order of the steps. An
/// action waits for the earlier actions of its own operator and of its own thread, and for nothing
/// else. `Reslice` steps are done while no thread is there.
///
/// Faults: `Core` of the first step that does not find its modem, its operator or a frame to
/// collect, before a thread starts; `FramesSpent` where a Tick before the first `Reslice` finds its
/// operator's frame numbers spent, likewise; both are reported also if memory runs out. Then that
/// of the least operator that refused an action, and then that of the assembly; `ResliceRefused`
/// with the fault of the core at that step; those of `settle` and of `compare`. Nothing is left of
/// what was handed in. It answers once all threads have ended; that they do is not claimed.
pub fn run_workers<R: Threads + Wait + Sync, G: Gate<R> + Sync>(
    rt: &R,
    alloc: Global,
    plant: Plant,
    rankings: Vec<Ranking>,
    steps: Vec<Step>,
    gate: &G,
) -> Result<Settled, RunFault>
    requires ranked { map policy_of rankings.items ≡ map (λ row. row.policy) plant.rows }
    // The run is an outcome of these steps, so `non_interference` applies to it.
    ensures ok { IfOk result (λ s.
        IsOutcome plant steps.items (map view_of s.books.items) s.receipts.items s.maps.items) }
    // Each step finds what it needs.
    ensures walked { OnOk result (IsServable plant steps.items) }
    // Otherwise the first step that does not is reported, even without memory.
    ensures walk { (fault : CoreFault) → IsFirstUnserved plant steps.items fault → result ≡ Err (Core fault) }
    // So is a Tick past the last frame number, before the first `Reslice`.
    ensures spent { (place : ℕ) → IsServable plant steps.items
        → IsFirstSpent plant (before_reslice steps.items) place → result ≡ Err (Core (Book FramesSpent)) }
    // Which faults there can be. Of `Strayed`, `Short` and `MapStrayed` it says nothing more.
    ensures err { IfErr result (IsFault plant steps.items) }
{
    run_workers_on(rt, alloc, plant, rankings, steps, gate, &[])
}
