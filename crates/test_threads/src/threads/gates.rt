//! Operators that work at the same time, as a gate can see.

use crate::threads::playing::{FirstModem, steps_come_to, steps_of_both};
use plant::Op;
use plant_workers::Gate;
use std::alloc::{AllocError, Global};
use std::process::Abort;
use std::sync::Wait;
use std::sync::atomic::{AtomicU64, Ordering};
use std::thread;
use std::thread::Threads;
use std::time::{Clock, Duration};

/// Holds one operator inside its second action until the other's second action is outside. The other's first action waits inside until
/// that operator is held, so that its second action comes later. Each wait ends after ten seconds.
#[derive(Drop)]
struct HoldingGate<'a, C: Clock> {
    clock: &'a C,
    held: Op,
    other: Op,
    /// How often the operator was held.
    holds: AtomicU64,
    /// How often the other's second action was outside.
    releases: AtomicU64,
    /// How often the other's second action came while the operator was held.
    passes: AtomicU64,
}

/// The milliseconds of a wait that only a wrong cell lets end.
pub(crate) const LONG: u32 = 10_000;

/// Waits until a count is not 0, for so many milliseconds at most. Returns whether it is not 0.
pub(crate) fn is_counted<C: Clock>(clock: &C, count: &AtomicU64, millis: u32) -> bool {
    for _ in 0..millis {
        if count.load(Ordering::SeqCst) > 0 {
            return true;
        }
        thread::sleep(clock, Duration::from_millis(1));
    }
    false
}

impl<R: Wait, C: Clock> Gate<R> for HoldingGate<'_, C> {
    fn inside(&self, _rt: &R, op: Op, index: usize) {
        if op == self.other && index == 0 {
            let _held = is_counted(self.clock, &self.holds, LONG);
        }
        if op == self.held && index == 1 {
            let is_first = self.releases.load(Ordering::SeqCst) == 0;
            self.holds.fetch_add(1, Ordering::SeqCst);
            if is_counted(self.clock, &self.releases, LONG) && is_first {
                self.passes.fetch_add(1, Ordering::SeqCst);
            }
        }
    }

    fn outside(&self, _rt: &R, op: Op, index: usize) {
        if op == self.other && index == 1 {
            self.releases.fetch_add(1, Ordering::SeqCst);
        }
    }
}

/// Returns whether a run gives its MAP, one operator is held inside its work once, and the other's work ends meanwhile, once.
fn work_overlaps<R: Threads + Wait + Sync + Clock>(
    rt: &R,
    alloc: Global,
    held: Op,
    other: Op,
    order: FirstModem,
) -> Result<bool, AllocError> {
    let gate = HoldingGate {
        clock: rt,
        held,
        other,
        holds: AtomicU64::new(0),
        releases: AtomicU64::new(0),
        passes: AtomicU64::new(0),
    };
    let steps = steps_of_both(alloc, order)?;
    let ran = steps_come_to(rt, alloc, steps, &gate, &[], Ok(1))?;
    let holds = gate.holds.load(Ordering::SeqCst);
    let releases = gate.releases.load(Ordering::SeqCst);
    let passes = gate.passes.load(Ordering::SeqCst);
    Ok(ran && holds == 1 && releases == 1 && passes == 1)
}

/// Each operator works while the other is held: not with one thread for both, nor with one lock round both.
#[test]
fn one_thread_or_one_lock(rt: HostRuntime) -> Result<(), AllocError> {
    assert!(rt; work_overlaps(&rt, rt.alloc(), 0, 1, FirstModem::FirstIsA)?);
    assert!(rt; work_overlaps(&rt, rt.alloc(), 1, 0, FirstModem::FirstIsB)?);
    Ok(())
}
