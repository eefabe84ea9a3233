//! The threads of the inputs.

use crate::fault::IntakeFault;
use crate::intake::Intake;
use crate::serving::{Input, ReadsInputs, TakesBatches};
use std::alloc::Global;
use std::sync::Wait;
use std::thread;
use std::thread::{Builder, Threads};

/// Reads each input in a thread of its own, and takes batches in this one. If a thread cannot be made, all is stopped before anything is
/// read. It returns once all readers have ended.
pub fn run_inputs<R: Threads + Wait + Sync, I: ReadsInputs<R> + Sync, T: TakesBatches<R>>(
    rt: &R,
    alloc: Global,
    intake: &Intake,
    inputs: &I,
    taker: &mut T,
) -> Result<(), IntakeFault> {
    thread::scope(
        thread::scope_env(),
        rt,
        |scope| -> Result<(), IntakeFault> {
            let mut is_refused = Builder::new()
                .spawn_scoped(scope, move || {
                    inputs.read_input(rt, alloc, intake, Input::Owner)
                })
                .is_err();
            for op in 0..intake.operators() {
                let made = Builder::new().spawn_scoped(scope, move || {
                    inputs.read_input(rt, alloc, intake, Input::Operator(op))
                });
                if made.is_err() {
                    is_refused = true;
                    break;
                }
            }
            if !is_refused {
                intake.begin(rt);
                taker.take_all(rt, alloc, intake);
            }
            intake.stop(rt);
            inputs.wake_readers(rt, alloc);
            if is_refused {
                Err(IntakeFault::ThreadRefused)
            } else {
                Ok(())
            }
        },
    )
}
