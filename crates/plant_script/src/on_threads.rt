//! A script's run on threads.

ghost use Rattle.std.specs.Prelude.{◌≡◌, ◌<◌, ◌++◌, length, map, slice_get, IfOk, OnOk};
ghost use Rattle.std.specs.List.{flat_map};
ghost use Rattle.std.specs.Io.KnownBytes.{Appends};
ghost use Rattle.operator_book.specs.ViewOf.{view_of, policy_of};
ghost use Rattle.plant_workers.specs.audit.Outs.{outs_from, outs_of};
ghost use Rattle.plant_workers.specs.receipts.OwnParts.{history_outputs};
ghost use Rattle.line_service.specs.script.Script.{steps_without_numbers};
ghost use Rattle.line_service.specs.script.Text.{operator_name, map_line, output_line, outs_text};
ghost use Rattle.plant_workers.specs.Faulting.{IsFault};
ghost use Rattle.plant_script.specs.Task.{IsWritten};
ghost use Rattle.plant_script.specs.OnThreads.{IsThreadedRunOf, ReportsCore, ReportsFault, ReportsPlace, ReportsStray, refused_place_text, stray_line};
ghost use Rattle.plant_script.specs.Statuses.{status_code};

use crate::answer::Answer;
use crate::check::answer_to_line;
use crate::ending::{Ending, put_away, write_fault, write_outcome};
use crate::input::AnswerFault;
use crate::rankings::rankings_of;
use crate::status::Status;
use grant_policy::Ranking;
use line_service::{LineStep, write_map, write_name, write_output};
use map_assembly::MapBytes;
use operator_book::{Book, Entry, Output};
use plant::{Op, Plant};
use plant_core::CoreFault;
use plant_workers::{OpenGate, RunFault, Settled, first_spent, run_workers};
use run_model::Step;
use std::alloc::{AllocError, Global};
use std::io;
use std::io::Write;
use std::sync::Wait;
use std::thread::Threads;

/// Returns the steps of lines, with memory of their own.
fn steps_in(alloc: Global, lines: &[LineStep]) -> Result<Vec<Step>, AllocError>
    ensures { IfOk result (λ steps. steps.items ≡ steps_without_numbers lines.now) }
{
    let mut steps = Vec::with_capacity(alloc, lines.len())?;
    for line in lines {
        steps.push(line.step.copy(alloc)?)?;
    }
    Ok(steps)
}

/// Appends the lines of an operator's outputs.
fn put_outputs(text: &mut Vec<u8>, plant: &Plant, op: Op, outputs: &[Output]) -> io::Result<()>
    ensures { OnOk result (text.new.items ≡ text.old.items
        ++ flat_map (output_line (operator_name (slice_get plant.now.rows op))) outputs.now) }
{
    for output in outputs {
        write_output(text, plant, op, output)?;
    }
    Ok(())
}

/// Appends the lines of all that an operator's history output.
fn put_history(text: &mut Vec<u8>, plant: &Plant, op: Op, history: &[Entry]) -> io::Result<()>
    ensures { OnOk result (text.new.items ≡ text.old.items
        ++ flat_map (output_line (operator_name (slice_get plant.now.rows op))) (history_outputs history.now)) }
{
    for entry in history {
        put_outputs(text, plant, op, entry.outputs.as_slice())?;
    }
    Ok(())
}

/// Appends the lines of all that the operators' books output, book by book.
fn put_books(text: &mut Vec<u8>, plant: &Plant, books: &[Book]) -> io::Result<()>
    ensures { OnOk result (text.new.items ≡ text.old.items
        ++ outs_text plant.now (outs_from 0 (map view_of books.now))) }
{
    for (op, book) in books.iter().enumerate() {
        put_history(text, plant, op, book.history())?;
    }
    Ok(())
}

/// Appends the lines of MAPs.
fn put_maps(text: &mut Vec<u8>, maps: &[MapBytes]) -> io::Result<()>
    ensures { OnOk result (text.new.items ≡ text.old.items ++ flat_map map_line maps.now) }
{
    for made in maps {
        write_map(text, made)?;
    }
    Ok(())
}

/// Appends the lines of all that a settled run output: the operators' books, and then the MAPs.
fn put_settled(text: &mut Vec<u8>, plant: &Plant, settled: &Settled) -> io::Result<()>
    ensures { OnOk result (text.new.items ≡ text.old.items
        ++ outs_text plant.now (outs_of (map view_of settled.now.books.items) settled.now.maps.items)) }
{
    put_books(text, plant, settled.books.as_slice())?;
    put_maps(text, settled.maps.as_slice())
}

/// Returns what is answered where the run is settled.
fn answer_of_settled(alloc: Global, plant: &Plant, settled: &Settled) -> Result<Answer, AllocError>
    ensures { IfOk result (λ answer. (status_code answer.status ≡ 0) × (answer.text.items
        ≡ outs_text plant.now (outs_of (map view_of settled.now.books.items) settled.now.maps.items))) }
{
    let mut text = Vec::new(alloc);
    match put_settled(&mut text, plant, settled) {
        Ok(()) => Ok(Answer {
            status: Status::Success,
            text,
        }),
        Err(_full) => Err(AllocError),
    }
}

/// Returns what is answered where the line at a place of the script's steps is refused.
fn answer_to_place(alloc: Global, lines: &[LineStep], place: usize) -> Result<Answer, AllocError>
    requires { place < length lines.now }
    ensures { IfOk result (λ answer. ReportsPlace lines.now place (status_code answer.status) answer.text.items) }
{
    answer_to_line(alloc, lines[place].number)
}

/// Returns what is answered where the core refused a step: the line of the first Tick that finds
/// its operator's frame numbers spent; where there is none, that the run strayed.
fn answer_to_core(alloc: Global, plant: &Plant, lines: &[LineStep]) -> Result<Answer, AllocError>
    ensures { IfOk result (λ answer. ReportsCore plant.now lines.now (status_code answer.status) answer.text.items) }
{
    let steps = steps_in(alloc, lines)?;
    match first_spent(plant, steps.as_slice()) {
        Some(place) => answer_to_place(alloc, lines, place),
        None => Ok(Answer {
            status: Status::Strayed,
            text: Vec::from_slice(alloc, b"fault: strayed - -\n")?,
        }),
    }
}

/// Appends the line of an operator whose history strays, at this place or at none.
fn put_stray(text: &mut Vec<u8>, plant: &Plant, op: Op, index: Option<usize>) -> io::Result<()>
    ensures { OnOk result (text.new.items ≡ text.old.items
        ++ stray_line (operator_name (slice_get plant.now.rows op)) (refused_place_text index)) }
{
    text.write_all(b"fault: strayed ")?;
    write_name(text, plant, op)?;
    match index {
        Some(index) => write!(text, " {index}\n"),
        None => text.write_all(b" -\n"),
    }
}

/// Returns what is answered where an operator's history strays, at this place or at none.
fn answer_to_stray(
    alloc: Global,
    plant: &Plant,
    op: Op,
    index: Option<usize>,
) -> Result<Answer, AllocError>
    ensures { IfOk result (λ answer.
        ReportsStray (operator_name (slice_get plant.now.rows op)) (refused_place_text index) (status_code answer.status) answer.text.items) }
{
    let mut text = Vec::new(alloc);
    match put_stray(&mut text, plant, op, index) {
        Ok(()) => Ok(Answer {
            status: Status::Strayed,
            text,
        }),
        Err(_full) => Err(AllocError),
    }
}

/// Returns what is answered to a fault that comes of the run's steps.
fn answer_of_fault(
    alloc: Global,
    plant: &Plant,
    lines: &[LineStep],
    fault: RunFault,
) -> Result<Answer, AllocError>
    requires { IsFault plant.now (steps_without_numbers lines.now) fault }
    ensures { IfOk result (λ answer. ReportsFault plant.now lines.now fault (status_code answer.status) answer.text.items) }
{
    match fault {
        RunFault::Strayed { op, index } => answer_to_stray(alloc, plant, op, Some(index)),
        RunFault::Short { op } => answer_to_stray(alloc, plant, op, None),
        RunFault::MapStrayed { frame } => {
            let line = format!(in alloc; "fault: strayed - {frame}\n")?;
            let text = line.into_bytes();
            Ok(Answer {
                status: Status::Strayed,
                text,
            })
        }
        RunFault::NoMemory | RunFault::Core(CoreFault::NoMemory) => Err(AllocError),
        RunFault::Core(_) => answer_to_core(alloc, plant, lines),
        RunFault::ResliceRefused { at, fault: _ } => answer_to_place(alloc, lines, at),
    }
}

/// Returns what `threads` answers. The rankings are in the plant's order of operators.
fn answer_of_threads<R: Threads + Wait + Sync>(
    rt: &R,
    alloc: Global,
    plant: Plant,
    lines: Vec<LineStep>,
    rankings: Vec<Ranking>,
    ending: Ending,
) -> Result<Answer, AllocError>
    requires { map policy_of rankings.items ≡ map (λ row. row.policy) plant.rows }
    ensures { IfOk result (λ answer. IsThreadedRunOf plant lines.items (status_code answer.status) answer.text.items) }
{
    let steps = steps_in(alloc, lines.as_slice())?;
    let shown = plant.copy(alloc)?;
    match run_workers(rt, alloc, plant, rankings, steps, &OpenGate) {
        Ok(settled) => {
            let answer = answer_of_settled(alloc, &shown, &settled);
            put_away(settled, ending);
            put_away(lines, ending);
            answer
        }
        Err(fault) => answer_of_fault(alloc, &shown, lines.as_slice(), fault),
    }
}

/// Runs lines on threads, and writes what that results in. The rankings are in the plant's order of
/// operators. Returns the exit status.
fn write_threaded_run<R: Threads + Wait + Sync, W: Write>(
    rt: &R,
    alloc: Global,
    plant: Plant,
    lines: Vec<LineStep>,
    rankings: Vec<Ranking>,
    ending: Ending,
    writer: &mut W,
) -> io::Result<Status>
    requires { map policy_of rankings.items ≡ map (λ row. row.policy) plant.rows }
    ensures { IfOk result (λ status. IsWritten (IsThreadedRunOf plant lines.items) (status_code status)
        (λ text. Appends (W.contents writer.old) (W.contents writer.new) text)) }
{
    let answer = answer_of_threads(rt, alloc, plant, lines, rankings, ending);
    write_outcome(writer, answer)
}

/// Runs lines on threads, each operator ranked by the policy of its row, and writes what that
/// results in. It may wait. Returns the exit status.
pub fn write_threads<R: Threads + Wait + Sync, W: Write>(
    rt: &R,
    alloc: Global,
    plant: Plant,
    lines: Vec<LineStep>,
    ending: Ending,
    writer: &mut W,
) -> io::Result<Status>
    ensures { IfOk result (λ status. IsWritten (IsThreadedRunOf plant lines.items) (status_code status)
        (λ text. Appends (W.contents writer.old) (W.contents writer.new) text)) }
{
    let rankings = rankings_of!(
        alloc,
        plant,
        return write_fault(writer, AnswerFault::Memory)
    );
    write_threaded_run(rt, alloc, plant, lines, rankings, ending, writer)
}
