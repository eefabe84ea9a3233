//! What a service notes of lines and steps before it does them.

ghost use Rattle.std.specs.Prelude.{◌≡◌, None, OnErr};
ghost use Rattle.plant_core.specs.live.Faults.{step_fault};
ghost use Rattle.plant_core.specs.live.LiveView.{live_view};

use plant_core::LiveCore;
use run_model::Step;
use std::alloc::{AllocError, Global};
use std::io::Write;

/// What a service notes in its writer, before it does it. Nothing is written by that.
pub trait StepNotes<W: Write> {
    /// Notes the number of a line of the script, before it is answered.
    fn note_line(&self, number: u64, writer: &mut W)
        // Nothing is written. No clause says that a line or a step is noted: that is only tested.
        ensures { W.contents writer.new ≡ W.contents writer.old };

    /// Notes a step before the core does it. An error is out of memory, which only a step needs that the core does not refuse.
    fn note_step(
        &self,
        alloc: Global,
        core: &LiveCore,
        step: &Step,
        writer: &mut W,
    ) -> Result<(), AllocError>
        // Nothing is written.
        ensures kept { W.contents writer.new ≡ W.contents writer.old }
        // The step is not refused, and is then not performed, as if memory had run out for it.
        ensures memory { OnErr result (step_fault (live_view core.now) step.now ≡ None) };
}

/// No notes: a service that writes what steps output and nothing else.
#[derive(Clone, Copy, Debug)]
pub struct NoNotes;

impl<W: Write> StepNotes<W> for NoNotes {
    fn note_line(&self, _number: u64, _writer: &mut W) {}

    fn note_step(
        &self,
        _alloc: Global,
        _core: &LiveCore,
        _step: &Step,
        _writer: &mut W,
    ) -> Result<(), AllocError> {
        Ok(())
    }
}
