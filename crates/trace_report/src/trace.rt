//! Steps that are done one after the other, each reported.

ghost use Rattle.std.specs.Prelude.{[], IfOk, OnOk};
ghost use Rattle.run_model.specs.IsStateAfter.{IsStateAfter};
ghost use Rattle.plant_core.specs.CoreView.{core_view};
ghost use Rattle.trace_report.specs.Trace.{HasTraced};
ghost use Rattle.trace_report.specs.Told.{HasToldDecision, HasToldStep};

use crate::decision::Decision;
use crate::names::{check_name, message_check_name};
use crate::remarks::{write_line, write_no_words, write_words};
use crate::seen::{StepReport, decision_of};
use crate::words::words_of;
use line_service::{LineStep, StepsEnd, end_of};
use plant_core::PlantCore;
use run_model::Out;
use std::alloc::Global;
use std::io;
use std::io::Write;

/// Writes the line of a check.
fn write_decision<W: Write>(writer: &mut W, decision: Option<Decision>) -> io::Result<()>
    ensures { OnOk result (HasToldDecision decision (W.contents writer.old) (W.contents writer.new)) }
{
    match decision {
        None => Ok(()),
        Some(Decision::Message(check)) => {
            let (number, name) = (check.number(), message_check_name(check));
            write!(writer, "  check {number}, {name}\n")
        }
        Some(Decision::Request(check)) => {
            let (number, name) = (check.number(), check_name(check));
            write!(writer, "  check {number}, {name}\n")
        }
    }
}

/// Writes the check that decided a step, and what the step output in words. Returns false where an allocation failed for the
/// words, and writes so in their place.
fn write_done<W: Write>(
    alloc: Global,
    writer: &mut W,
    core: &PlantCore,
    seen: &StepReport,
    outs: &[Out],
) -> io::Result<bool>
    ensures { IfOk result (λ has_words. HasToldStep seen.now.decision has_words
        (W.contents writer.old) (W.contents writer.new)) }
{
    write_decision(writer, seen.decision)?;
    match words_of(alloc, core, seen, outs) {
        Ok(words) => {
            write_words(writer, words.as_bytes())?;
            Ok(true)
        }
        Err(_) => {
            write_no_words(writer)?;
            Ok(false)
        }
    }
}

/// Does the steps of a script on a plant as it is opened, up to the first that is not done, and writes a trace: for each line with
/// a step its number and its text in `script`, for each step that is done the check that decided what it answered (`decision_of`),
/// the numbers that the check compares, and what the step output, in words. Returns how that ended: no step is left, the next one
/// is refused, or it is not refused and an allocation for it failed. An allocation that fails for the words of a step that is done
/// ends the trace too, and a line in their place says so. An error is one of the writer's; then no clause says how much was done.
pub fn write_trace<W: Write>(
    alloc: Global,
    core: &mut PlantCore,
    script: &[u8],
    steps: Vec<LineStep>,
    writer: &mut W,
) -> io::Result<StepsEnd>
    requires opened { IsStateAfter (core_view core.old).plant [] [] (core_view core.old) }
    // Each step that is done has its decision, by a core that the steps before it lead to. Lines are quoted before
    // their steps; between quotes and decisions are only lines indented by four spaces, of which no clause says what
    // they say.
    ensures { IfOk result (λ end. HasTraced (core_view core.old).plant script.now steps.items (core_view core.new) end
        (W.contents writer.old) (W.contents writer.new)) }
{
    let mut outs = Vec::new(alloc);
    let (mut rest, mut last) = (script, 0u64);
    for LineStep {
        number,
        step,
        place: _,
    } in steps {
        rest = write_line(writer, rest, last, number)?;
        last = last.max(number);
        let Ok(seen) = decision_of(alloc, core, &step) else {
            return Ok(StepsEnd::NoMemory);
        };
        match core.step_over(alloc, step, &mut outs) {
            Ok(()) => {
                if !write_done(alloc, writer, core, &seen, outs.as_slice())? {
                    return Ok(StepsEnd::NoMemory);
                }
            }
            Err(fault) => return Ok(end_of(number, fault)),
        }
    }
    Ok(StepsEnd::Done)
}
