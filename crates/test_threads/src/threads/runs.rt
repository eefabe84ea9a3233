//! Runs of which a thread cannot be made.

use crate::threads::playing::comes_to;
use plant_workers::{OpenGate, RunFault};
use std::alloc::AllocError;
use std::process::Abort;

/// A stack that no thread can be given.
const TOO_LARGE: usize = usize::MAX;

/// A stack that is enough.
const ENOUGH: usize = 2 * 1024 * 1024;

/// Where one of the four threads cannot be made the run ends, and says that memory ran out; where
/// all can, it ends with a MAP. A run that always answers one fault, or collects no frame, is seen
/// here, since no clause can refuse it.
#[test]
fn each_thread_refused_in_turn(rt: HostRuntime) -> Result<(), AllocError> {
    for refused in 0..4 {
        let mut stacks = [ENOUGH; 4];
        stacks[refused] = TOO_LARGE;
        let wanted = Err(RunFault::NoMemory);
        assert!(rt; comes_to(&rt, rt.alloc(), &OpenGate, &stacks, wanted)?);
    }
    assert!(rt; comes_to(&rt, rt.alloc(), &OpenGate, &[ENOUGH; 4], Ok(1))?);
    Ok(())
}
