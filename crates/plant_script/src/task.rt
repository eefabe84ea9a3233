//! A run that is asked for, or what is answered in its place.

ghost use Rattle.std.specs.Prelude.{◌≡◌, ◌≢◌, map, true, IfOk, IfErr};
ghost use Rattle.std.specs.List.{position_from};
ghost use Rattle.toml.specs.Parse.{parse_document};
ghost use Rattle.slice_table.specs.ReadPlant.{text_plant};
ghost use Rattle.line_service.specs.script.Input.{script_text};
ghost use Rattle.line_service.specs.script.Script.{is_named, steps_of};
ghost use Rattle.plant_script.specs.One.{is_readable};
ghost use Rattle.plant_script.specs.Task.{RunsTo, AnswersReport, Comes, IsNotThreaded};
ghost use Rattle.plant_script.specs.Words.{AnswersSteps, AnswersOperator, AnswersPlant, AnswersInput, AnswersThreads};
ghost use Rattle.plant_script.specs.declared.input.AnswerFault.TheVariants.{Memory};

use crate::answer::Answer;
use crate::check::{answer_to_fault, answer_to_line, plant_of_input};
use crate::input::AnswerFault;
use crate::input_outcome::{InputOutcome, Task};
use crate::status::Status;
use command_line::RunReport;
use line_service::{LineFault, before_bar, place_of, script_text, steps_of};
use plant::{Op, Plant, Routes};
use slice_table::PlantFault;
use std::alloc::Global;

/// Returns the run of a script on a plant, or the answer to its first invalid line.
fn task_of_script(
    alloc: Global,
    plant: Plant,
    report: RunReport<Op>,
    script: &[u8],
) -> Result<InputOutcome, AnswerFault>
    ensures value { IfOk result (λ outcome.
        Comes outcome script.now (AnswersSteps (RunsTo plant report script.now) (steps_of plant script.now))) }
    ensures threads { IfOk result IsNotThreaded }
    ensures memory { IfErr result (λ fault. fault ≡ Memory) }
{
    let mut routes = Routes::new(alloc, plant)?;
    match steps_of(alloc, &mut routes, script) {
        Ok(lines) => Ok(InputOutcome::Task(Task {
            plant: routes.into_plant(),
            lines,
            report,
        })),
        Err(LineFault::Shape { number }) => {
            let answer = answer_to_line(alloc, number)?;
            Ok(InputOutcome::Answer(answer))
        }
        Err(LineFault::NoMemory) => Err(AnswerFault::Memory),
    }
}

/// Returns the run of a script on a plant, of which the steps of the operator of this name are
/// printed. Where the plant has no such operator, that is the answer.
fn task_of_operator(
    alloc: Global,
    plant: Plant,
    name: &str,
    script: &[u8],
) -> Result<InputOutcome, AnswerFault>
    ensures value { IfOk result (λ outcome.
        Comes outcome script.now (AnswersOperator plant script.now (position_from (is_named name.now) 0 plant.rows))) }
    ensures threads { IfOk result IsNotThreaded }
    ensures memory { IfErr result (λ fault. fault ≡ Memory) }
{
    match place_of(plant.rows(), name.as_bytes()) {
        Some(op) => task_of_script(alloc, plant, RunReport::History(op), script),
        None => Ok(InputOutcome::Answer(Answer {
            status: Status::WrongArguments,
            text: Vec::from_slice(alloc, b"fault: words\n")?,
        })),
    }
}

/// Returns the run of a script on a plant, and what is printed of it.
fn task_of_plant(
    alloc: Global,
    plant: Plant,
    report: RunReport<&str>,
    script: &[u8],
) -> Result<InputOutcome, AnswerFault>
    ensures value { IfOk result (λ outcome. Comes outcome script.now (AnswersReport report.entry plant script.now)) }
    ensures threads { IfOk result IsNotThreaded }
    ensures memory { IfErr result (λ fault. fault ≡ Memory) }
{
    match report {
        RunReport::Outputs => task_of_script(alloc, plant, RunReport::Outputs, script),
        RunReport::Capture => task_of_script(alloc, plant, RunReport::Capture, script),
        RunReport::Trace => task_of_script(alloc, plant, RunReport::Trace, script),
        RunReport::History(name) => task_of_operator(alloc, plant, name, script),
    }
}

/// Returns the run of an input's script on its plant, and what is printed of it; or the answer to
/// an invalid input.
pub fn task_of(
    alloc: Global,
    report: RunReport<&str>,
    input: &[u8],
) -> Result<InputOutcome, AnswerFault>
    requires { is_readable input.now ≡ true }
    ensures value { IfOk result (λ outcome. Comes outcome (script_text input.now) (AnswersInput (AnswersReport report.entry) input.now)) }
    ensures threads { IfOk result IsNotThreaded }
    ensures memory { IfErr result (λ fault. fault ≡ Memory) }
{
    let place = before_bar(input);
    match plant_of_input(alloc, input, place) {
        Ok(plant) => task_of_plant(alloc, plant, report, script_text(input, place)),
        Err(PlantFault::NoMemory) => Err(AnswerFault::Memory),
        Err(fault) => {
            let answer = answer_to_fault(alloc, fault)?;
            Ok(InputOutcome::Answer(answer))
        }
    }
}

/// Returns the run of a script on threads, or the answer to its first invalid line.
fn threads_of_script(
    alloc: Global,
    plant: Plant,
    script: &[u8],
) -> Result<InputOutcome, AnswerFault>
    ensures value { IfOk result (λ outcome. Comes outcome script.now (AnswersThreads plant script.now)) }
    ensures memory { IfErr result (λ fault. fault ≡ Memory) }
{
    let mut routes = Routes::new(alloc, plant)?;
    match steps_of(alloc, &mut routes, script) {
        Ok(lines) => Ok(InputOutcome::Threads {
            plant: routes.into_plant(),
            lines,
        }),
        Err(LineFault::Shape { number }) => {
            let answer = answer_to_line(alloc, number)?;
            Ok(InputOutcome::Answer(answer))
        }
        Err(LineFault::NoMemory) => Err(AnswerFault::Memory),
    }
}

/// Returns the run of an input's script on its plant, on threads; or the answer to an invalid input.
pub fn threads_of(alloc: Global, input: &[u8]) -> Result<InputOutcome, AnswerFault>
    requires { is_readable input.now ≡ true }
    ensures value { IfOk result (λ outcome. Comes outcome (script_text input.now) (AnswersInput AnswersThreads input.now)) }
    ensures memory { IfErr result (λ fault. fault ≡ Memory) }
{
    let place = before_bar(input);
    match plant_of_input(alloc, input, place) {
        Ok(plant) => threads_of_script(alloc, plant, script_text(input, place)),
        Err(PlantFault::NoMemory) => Err(AnswerFault::Memory),
        Err(fault) => {
            let answer = answer_to_fault(alloc, fault)?;
            Ok(InputOutcome::Answer(answer))
        }
    }
}
