//! Lines that are done one after the other, with enough memory.

ghost use Rattle.std.specs.Prelude.{◌≡◌, ◌≤◌, ◌+◌, ◌++◌, ℕ, List, length, Err, IfOk, OnOk};
ghost use Rattle.state_service.specs.declared.durable.fault.LineFailure.TheVariants as failures;
ghost use Rattle.plant_core.specs.live.After.{BehindEachRun, IsReachableFromStart};
ghost use Rattle.plant_core.specs.live.LiveView.{live_view};
ghost use Rattle.line_journal.specs.Found.{texts};
ghost use Rattle.state_service.specs.durable.Durable.{LineIsDone, LinesAreDone};

use crate::durable::fault::LineFailure;
use line_service::{NoNotes, answer_line};
use plant_core::LiveCore;
use std::alloc::Global;

/// The answer to a line for which memory ran out.
const OUT_OF_MEMORY: &[u8; 14] = b"fault: memory\n";

/// Returns the number of the line after so many.
fn number_after(count: u64) -> Result<u64, LineFailure>
    ensures next { IfOk result (λ next. next ≡ count + 1) }
    ensures many { result ≡ Err failures.TooManyLines → count ≡ 18446744073709551615 }
{
    match count.checked_add(1) {
        Some(next) => Ok(next),
        None => Err(LineFailure::TooManyLines),
    }
}

/// Does a line, and adds its answer to a text. If memory runs out, no clause says how much was done.
fn do_line(
    alloc: Global,
    core: &mut LiveCore,
    number: u64,
    line: &[u8],
    text: &mut Vec<u8>,
) -> Result<(), LineFailure>
    requires reached { IsReachableFromStart (live_view core.old) }
    ensures reached { OnOk result (IsReachableFromStart (live_view core.new)) }
    ensures done { OnOk result (BehindEachRun (live_view core.old) (λ plant start before shown. LineIsDone plant start before shown number line.now
        (live_view core.new) text.old.items text.new.items)) }
    ensures memory { result ≡ Err failures.TooManyLines → ⊥ }
{
    match answer_line(alloc, core, number, line, &NoNotes, text) {
        Ok(()) => {}
        Err(_error) => return Err(LineFailure::NoMemory),
    }
    if text.ends_with(OUT_OF_MEMORY) {
        return Err(LineFailure::NoMemory);
    }
    Ok(())
}

/// Does lines one after the other, after so many lines, and adds their answers to a text.
pub(crate) fn do_lines(
    alloc: Global,
    core: &mut LiveCore,
    count: &mut u64,
    lines: &[Vec<u8>],
    text: &mut Vec<u8>,
) -> Result<(), LineFailure>
    requires reached { IsReachableFromStart (live_view core.old) }
    ensures reached { OnOk result (IsReachableFromStart (live_view core.new)) }
    ensures done { OnOk result (BehindEachRun (live_view core.old) (λ plant start before shown. LinesAreDone plant start before shown
        (count.old + 1) (texts lines.now) (live_view core.new) text.old.items text.new.items)) }
    ensures count { OnOk result (count.new ≡ count.old + length lines.now) }
    ensures many { result ≡ Err failures.TooManyLines → 18446744073709551615 ≤ count.old + length lines.now }
{
    for line in lines {
        let number = number_after(*count)?;
        do_line(alloc, core, number, line, text)?;
        *count = number;
    }
    Ok(())
}
