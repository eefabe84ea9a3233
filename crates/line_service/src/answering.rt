//! Steps that are done one after the other, and the answer to one line.

ghost use Rattle.std.specs.Prelude.{◌≡◌, ◌≤◌, length, map, IfOk, OnOk};
ghost use Rattle.std.specs.Io.KnownBytes.{Appends};
ghost use Rattle.plant_core.specs.live.After.{BehindEachRun, IsReachableFromStart};
ghost use Rattle.plant_core.specs.live.LiveView.{live_view};
ghost use Rattle.plant_core.specs.live.Following.{FollowRows};
ghost use Rattle.lists.specs.Results.{Gives};
ghost use Rattle.line_service.specs.script.Fields.{field_cause};
ghost use Rattle.line_service.specs.script.Script.{ArePlaced};
ghost use Rattle.line_service.specs.declared.script.fields.FieldFault.TheVariants.{NoMemory};
ghost use Rattle.line_service.specs.Service.{steps_said, end_text};
ghost use Rattle.line_service.specs.Ends.{line_outcome};
ghost use Rattle.line_service.specs.SoFar.{HasAnswered, LineIsAnswered};
ghost use Rattle.line_service.specs.Steps.{HasDone};

use crate::line_buffer::MOST_BYTES;
use crate::line_outcome::LineOutcome;
use crate::script::{FieldError, FieldFault, LineStep, put_line, write_outs};
use crate::step_notes::StepNotes;
use crate::steps_end::{StepsEnd, end_of};
use grant_policy::{Policy, Ranks};
use plant::Routing;
use plant_core::LiveCore;
use run_model::Out;
use std::alloc::Global;
use std::io;
use std::io::Write;

/// Parses a line of at most 4,096 bytes into its steps. A longer one is invalid.
pub fn steps_said<P: Routing>(
    alloc: Global,
    routes: &mut P,
    number: u64,
    line: &[u8],
) -> Result<Vec<LineStep>, FieldFault>
    ensures said { Gives field_cause (λ steps. steps.items) result (steps_said (P.plant_of routes.old) number line.now) }
    ensures placed { IfOk result (λ steps. ArePlaced (P.plant_of routes.old) steps.items) }
    ensures memory { result ≡ Err NoMemory → length line.now ≤ 4096 }
    ensures same { routes.new ≡ routes.old }
{
    if line.len() > MOST_BYTES {
        return Err(FieldFault::Invalid(FieldError::TooLong));
    }
    let mut fields = Vec::new(alloc);
    let mut steps = Vec::new(alloc);
    match put_line(alloc, routes, number, line, &mut fields, &mut steps) {
        Ok(()) => Ok(steps),
        Err(fault) => Err(fault),
    }
}

/// Does steps as `run_steps_by` does, in a list for the outputs of each.
fn run_steps_in<R: Ranks, W: Write, N: StepNotes<W>>(
    alloc: Global,
    core: &mut LiveCore,
    steps: Vec<LineStep>,
    rankings: &[R],
    outs: &mut Vec<Out>,
    notes: &N,
    writer: &mut W,
) -> io::Result<StepsEnd>
    requires reached { IsReachableFromStart (live_view core.old) }
    requires policies { FollowRows (map R.policy rankings.now) (live_view core.old).plant.rows }
    requires placed { ArePlaced (live_view core.old).plant steps.items }
    ensures { IfOk result (λ end. BehindEachRun (live_view core.old) (λ plant start before shown. HasDone plant start before shown
        steps.items (live_view core.new) end (W.contents writer.old) (W.contents writer.new))) }
{
    for LineStep {
        number,
        step,
        place,
    } in steps {
        let Ok(()) = notes.note_step(alloc, core, &step, writer) else {
            return Ok(StepsEnd::NoMemory);
        };
        match core.step_over_by(alloc, step, place, rankings, outs) {
            Ok(()) if outs.is_empty() => {}
            Ok(()) => write_outs(writer, core.plant(), outs.as_slice())?,
            Err(fault) => return Ok(end_of(number, fault)),
        }
    }
    Ok(StepsEnd::Done)
}

/// Does steps up to the first that the core does not do: notes each, and writes what it outputs. Returns how that ended: no step is
/// left, the next one is refused, or it is not refused and an allocation for it or for its note failed. A step that is not done has
/// changed nothing, and those before it remain done. An error is one of the writer's; then no clause says how much was done.
///
/// A tick of the operator at a place for which there is a ranking is ranked by it, and any other by the policy of the row. The
/// caller knows that each step of a line has the place of the operator whose modem it names, as a step that was read has.
pub fn run_steps_by<R: Ranks, W: Write, N: StepNotes<W>>(
    alloc: Global,
    core: &mut LiveCore,
    steps: Vec<LineStep>,
    rankings: &[R],
    notes: &N,
    writer: &mut W,
) -> io::Result<StepsEnd>
    requires reached { IsReachableFromStart (live_view core.old) }
    requires policies { FollowRows (map R.policy rankings.now) (live_view core.old).plant.rows }
    requires placed { ArePlaced (live_view core.old).plant steps.items }
    // After whatever run led to the core, so many steps are done, and what they output is written. It ends at the end,
    // at a refused step, or out of memory at a step that is not refused.
    ensures { IfOk result (λ end. BehindEachRun (live_view core.old) (λ plant start before shown. HasDone plant start before shown
        steps.items (live_view core.new) end (W.contents writer.old) (W.contents writer.new))) }
{
    let mut outs = core.take_list(alloc);
    let end = run_steps_in(alloc, core, steps, rankings, &mut outs, notes, writer)?;
    core.keep_list(outs);
    Ok(end)
}

/// Does steps as `run_steps_by` does, each tick ranked by the policy of the operator's row. The steps have their operators'
/// places, as there.
pub fn run_steps<W: Write, N: StepNotes<W>>(
    alloc: Global,
    core: &mut LiveCore,
    steps: Vec<LineStep>,
    notes: &N,
    writer: &mut W,
) -> io::Result<StepsEnd>
    requires reached { IsReachableFromStart (live_view core.old) }
    requires placed { ArePlaced (live_view core.old).plant steps.items }
    // As that of `run_steps_by`.
    ensures { IfOk result (λ end. BehindEachRun (live_view core.old) (λ plant start before shown. HasDone plant start before shown
        steps.items (live_view core.new) end (W.contents writer.old) (W.contents writer.new))) }
{
    let rankings: Vec<Policy> = Vec::new(alloc);
    run_steps_by(alloc, core, steps, rankings.as_slice(), notes, writer)
}

/// Returns how a line ends whose steps ended so.
pub fn outcome_of(end: StepsEnd) -> LineOutcome
    ensures { result ≡ line_outcome end }
{
    match end {
        StepsEnd::Done => LineOutcome::Done,
        StepsEnd::Refused { number: _ } => LineOutcome::AtFault,
        StepsEnd::NoMemory => LineOutcome::NoMemory,
    }
}

/// Does what a line says, and writes what that outputs. Returns how the line ended.
#[tactic(auto, using(crate::proofs::LineLemmas::steps_answered, crate::proofs::LineLemmas::none_answered, crate::proofs::LineLemmas::memory_answered))]
fn do_line<W: Write, N: StepNotes<W>>(
    alloc: Global,
    core: &mut LiveCore,
    number: u64,
    line: &[u8],
    notes: &N,
    writer: &mut W,
) -> io::Result<LineOutcome>
    requires reached { IsReachableFromStart (live_view core.old) }
    ensures { IfOk result (λ end. BehindEachRun (live_view core.old) (λ plant start before shown. HasAnswered plant start before shown
        number line.now (live_view core.new) end (W.contents writer.old) (W.contents writer.new))) }
{
    match steps_said(alloc, core, number, line) {
        Ok(steps) => {
            let end = run_steps(alloc, core, steps, notes, writer)?;
            Ok(outcome_of(end))
        }
        Err(FieldFault::Invalid(_error)) => Ok(LineOutcome::AtFault),
        Err(FieldFault::NoMemory) => Ok(LineOutcome::NoMemory),
    }
}

/// Writes how a line ended: nothing if all is done, else its fault.
pub fn write_end<W: Write>(writer: &mut W, number: u64, end: LineOutcome) -> io::Result<()>
    ensures { OnOk result (Appends (W.contents writer.old) (W.contents writer.new) (end_text number end)) }
{
    match end {
        LineOutcome::Done => Ok(()),
        LineOutcome::AtFault => write!(writer, "fault: line {number}\n"),
        LineOutcome::NoMemory => writer.write_all(b"fault: memory\n"),
    }
}

/// Answers a line: does its steps up to the first that is refused, notes each and writes what it
/// outputs, and then the line's number if the line is invalid. The steps before a refused one are
/// done, and their outputs written. Of a line of more than 4,096 bytes nothing is done. If memory
/// runs out for a step or its note, that is reported in place of the fault, and the plant is as
/// before that step. An error is one of the writer's; then no clause says how much was done.
pub fn answer_line<W: Write, N: StepNotes<W>>(
    alloc: Global,
    core: &mut LiveCore,
    number: u64,
    line: &[u8],
    notes: &N,
    writer: &mut W,
) -> io::Result<()>
    requires reached { IsReachableFromStart (live_view core.old) }
    // After whatever run led to the core, the line's steps are done up to the end or the first that is not. Their
    // outputs are written, and then the line's number, `fault: memory` or nothing.
    ensures { OnOk result (BehindEachRun (live_view core.old) (λ plant start before shown. LineIsAnswered plant start before shown number
        line.now (live_view core.new) (W.contents writer.old) (W.contents writer.new))) }
{
    let end = do_line(alloc, core, number, line, notes, writer)?;
    write_end(writer, number, end)?;
    writer.flush()
}
