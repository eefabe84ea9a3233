//! Serving a plant as long as there are lines.

ghost use Rattle.std.specs.Prelude.{◌≡◌, ◌≢◌, ◌↔◌, ◌+◌, [], List, ℕ, IfOk, OnOk, IsOk, IfSome};
ghost use Rattle.plant_core.specs.live.After.{BehindEachRun, IsReachableFromStart};
ghost use Rattle.plant_core.specs.live.LiveView.{live_view};
ghost use Rattle.line_service.specs.Service.{IsServiceOf};
ghost use Rattle.line_service.specs.SoFar.{IsHeld, LineIsAnswered};

use crate::answering::{answer_line, write_end};
use crate::line_break::LineBreak;
use crate::line_buffer::LineBuffer;
use crate::line_outcome::LineOutcome;
use crate::reading::read_line;
use crate::step_notes::StepNotes;
use plant_core::LiveCore;
use std::alloc::Global;
use std::io;
use std::io::{BufRead, Write};

/// Returns the number of the line after this one, or an error after 2^64 - 1 lines.
pub fn next_number(number: u64) -> io::Result<u64>
    ensures next { IfOk result (λ next. next ≡ number + 1) }
    ensures only { IsOk result ↔ (number ≢ 18446744073709551615) }
{
    match number.checked_add(1) {
        Some(next) => Ok(next),
        None => Err(io::Error::from(io::ErrorKind::Other)),
    }
}

/// Notes the number of the line that was read, and answers it as `answer_line` does. A line that is too long is invalid.
pub fn answer_held<W: Write, N: StepNotes<W>>(
    alloc: Global,
    core: &mut LiveCore,
    number: u64,
    held: &LineBuffer,
    notes: &N,
    writer: &mut W,
) -> io::Result<()>
    requires reached { IsReachableFromStart (live_view core.old) }
    ensures reached { OnOk result (IsReachableFromStart (live_view core.new)) }
    ensures answered { OnOk result (BehindEachRun (live_view core.old) (λ plant start before shown. (line : List ℕ)
        → IsHeld held.now.bytes.items held.now.is_long line
        → LineIsAnswered plant start before shown number line (live_view core.new)
        (W.contents writer.old) (W.contents writer.new))) }
{
    notes.note_line(number, writer);
    if held.is_long {
        write_end(writer, number, LineOutcome::AtFault)?;
        return writer.flush();
    }
    answer_line(alloc, core, number, held.bytes.as_slice(), notes, writer)
}

/// Serves the plant: reads lines of a script for as long as there are any, and answers each before
/// it reads the next (`answer_line`). Lines are counted from 1, empty ones too. It takes no memory
/// of its own except the steps of a line. It ends at the end of the input, or where a read or a
/// write fails. It takes from the reader what it has at hand, and writes in small pieces: give it a
/// writer with a buffer.
pub fn serve<R: BufRead, W: Write, N: StepNotes<W>>(
    alloc: Global,
    core: &mut LiveCore,
    mut held: LineBuffer,
    reader: &mut R,
    notes: &N,
    writer: &mut W,
) -> io::Result<()>
    requires reached { IsReachableFromStart (live_view core.old) }
    requires empty { IsHeld held.bytes.items held.is_long [] }
    // After whatever run led to the core, all lines of the input are answered, and their answers written.
    ensures { OnOk result (IfSome (R.remaining reader.old) (λ input. BehindEachRun (live_view core.old)
        (λ plant start before shown. IsServiceOf plant start before shown input (live_view core.new) (W.contents writer.old)
        (W.contents writer.new)))) }
{
    let mut number = 1u64;
    for _ in 0..u64::MAX {
        let end = read_line(reader, &mut held)?;
        answer_held(alloc, core, number, &held, notes, writer)?;
        match end {
            LineBreak::Another => number = next_number(number)?,
            LineBreak::End => return Ok(()),
        }
        held.clear();
    }
    Err(io::Error::from(io::ErrorKind::Other))
}
