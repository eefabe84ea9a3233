//! The check that decides a step, as objects have it.

ghost use Rattle.std.specs.Prelude.{◌≡◌, IsSome, None, option_map, IfOk, OnErr};
ghost use Rattle.std.specs.String.{string_bytes};
ghost use Rattle.trace_report.specs.Names.{decision_name};
ghost use Rattle.trace_report.specs.Trace.{IsCheckNumber};
ghost use Rattle.json_service.specs.Numbers.{numbers_of};

use json_lines::{Comparison, DecidingCheck, JsonLines};
use line_service::StepNotes;
use plant_core::LiveCore;
use run_model::Step;
use std::alloc::{AllocError, Global};
use std::io::Write;
use trace_report::{CheckComparison, Decision, StepReport, live_decision_of};

/// Returns the frame from which a limit counts, as a number of 64 bits.
fn wide(frame: Option<u32>) -> Option<u64>
    ensures { result ≡ frame }
{
    match frame {
        Some(frame) => Some(u64::from(frame)),
        None => None,
    }
}

/// Returns the numbers of a check that compares what is present with the most that may be.
fn of_count(held: u64, limit: u16) -> Comparison
    ensures { result ≡ record { held = held; limit = limit; needed = None; from_frame = None } }
{
    Comparison {
        held,
        limit: u64::from(limit),
        needed: None,
        from_frame: None,
    }
}

/// Returns the numbers that a check compares, as objects have them.
fn comparison_of(comparison: CheckComparison) -> Comparison
    ensures { result ≡ numbers_of comparison }
{
    match comparison {
        CheckComparison::Budget {
            held,
            limit,
            needed,
            from_frame,
        } => Comparison {
            held,
            limit: u64::from(limit),
            needed: Some(needed),
            from_frame: wide(from_frame),
        },
        CheckComparison::Quota {
            held,
            limit,
            needed,
        } => Comparison {
            held,
            limit: u64::from(limit),
            needed: Some(needed),
            from_frame: None,
        },
        CheckComparison::Flows { held, limit } => of_count(held, limit),
        CheckComparison::Transactions { held, limit } => of_count(held, limit),
    }
}

/// Returns the numbers that a check compares, where it compares any.
fn comparison_if(comparison: Option<CheckComparison>) -> Option<Comparison>
    ensures { result ≡ option_map numbers_of comparison }
{
    match comparison {
        Some(comparison) => Some(comparison_of(comparison)),
        None => None,
    }
}

/// Returns a check with its number, its name and the numbers that it compares, as objects have it.
fn check_of(
    alloc: Global,
    decision: Decision,
    comparison: Option<CheckComparison>,
) -> Result<DecidingCheck, AllocError>
    // Which objects have a check, and that it is the one that decided, is only tested.
    ensures number { IfOk result (λ check. IsCheckNumber decision check.number) }
    ensures name { IfOk result (λ check. string_bytes check.name ≡ decision_name decision) }
    ensures comparison { IfOk result (λ check. check.comparison ≡ option_map numbers_of comparison) }
{
    let name = String::from_str(alloc, decision.name())?;
    Ok(DecidingCheck {
        number: u64::from(decision.number()),
        name,
        comparison: comparison_if(comparison),
    })
}

/// Notes what was seen of a step before it is done. An error is out of memory, which only a step needs that a check decides.
fn note_report<W: Write>(
    alloc: Global,
    seen: StepReport,
    lines: &mut JsonLines<'_, W>,
) -> Result<(), AllocError>
    ensures { OnErr result (IsSome seen.decision) }
{
    match seen.decision {
        Some(decision) => {
            let check = check_of(alloc, decision, seen.comparison)?;
            lines.say_check(Some(check));
        }
        None => lines.say_check(None),
    }
    Ok(())
}

/// Notes of each line its number, and of each step the check that decides what it outputs.
#[derive(Clone, Copy, Debug)]
pub struct CheckNotes;

impl<W: Write> StepNotes<JsonLines<'_, W>> for CheckNotes {
    fn note_line(&self, number: u64, lines: &mut JsonLines<'_, W>) {
        lines.begin_line(number);
    }

    fn note_step(
        &self,
        alloc: Global,
        core: &LiveCore,
        step: &Step,
        lines: &mut JsonLines<'_, W>,
    ) -> Result<(), AllocError> {
        let seen = live_decision_of(alloc, core, step)?;
        note_report(alloc, seen, lines)
    }
}
