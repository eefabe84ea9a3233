//! The threads of a run.

use crate::gate::Gate;
use crate::part::PartJobs;
use crate::shared::Chores;
use crate::thread_report::ThreadReport;
use std::alloc::{AllocError, Global};
use std::sync::Wait;
use std::thread;
use std::thread::{Builder, JoinHandle, Threads};

/// The bytes of a thread's stack, where its caller wants no other.
const STACK: usize = 2 * 1024 * 1024;

/// Returns the bytes of the stack of the thread at this place.
fn stack_at(stacks: &[usize], place: usize) -> usize {
    match stacks.get(place) {
        Some(stack) => *stack,
        None => STACK,
    }
}

/// Joins all threads, and puts what they report into a list that has room for it.
fn join_all<R: Threads>(
    rt: &R,
    handles: Vec<JoinHandle<ThreadReport>>,
    thread_reports: &mut Vec<ThreadReport>,
) -> Result<(), AllocError> {
    for handle in handles {
        thread_reports.push(handle.join(rt))?;
    }
    Ok(())
}

/// Runs each part in a thread of its own, and joins them all. Where a thread cannot be made all operators are stopped, and
/// there are fewer thread_reports than parts.
pub(crate) fn run_threads<R: Threads + Wait + Sync, G: Gate<R> + Sync, C: Chores<R, G> + Sync>(
    rt: &R,
    alloc: Global,
    chores: &C,
    gate: &G,
    parts: &[PartJobs],
    stacks: &[usize],
) -> Result<Vec<ThreadReport>, AllocError> {
    thread::scope(
        thread::scope_env(),
        rt,
        |scope| -> Result<Vec<ThreadReport>, AllocError> {
            let mut handles = Vec::with_capacity(alloc, parts.len())?;
            let mut thread_reports = Vec::with_capacity(alloc, parts.len())?;
            for (place, part) in parts.iter().enumerate() {
                let made = Builder::new()
                    .stack_size(stack_at(stacks, place))
                    .spawn_scoped(scope, move || { chores.run_part(rt, alloc, gate, part) });
                match made {
                    Ok(handle) => handles.push(handle)?,
                    Err(_refused) => {
                        chores.stop_all(rt);
                        break;
                    }
                }
            }
            join_all(rt, handles, &mut thread_reports)?;
            Ok(thread_reports)
        },
    )
}
