//! A script's run on a plant's core.

ghost use Rattle.std.specs.Prelude.{◌≡◌, ◌≢◌, ◌++◌, [], map, slice_get, IfOk, OnOk};
ghost use Rattle.std.specs.Io.KnownBytes.{Appends};
ghost use Rattle.plant.specs.declared.plant.PlantFields.{PlantFields};
ghost use Rattle.run_model.specs.IsStateAfter.{IsStateAfter};
ghost use Rattle.plant_core.specs.CoreView.{core_view};
ghost use Rattle.plant_core.specs.live.After.{IsAfter, IsReachableFromStart};
ghost use Rattle.plant_core.specs.live.Following.{FollowRows};
ghost use Rattle.plant_core.specs.live.LiveView.{live_view};
ghost use Rattle.operator_book.specs.ViewOf.{policy_of};
ghost use Rattle.line_service.specs.script.Script.{ArePlaced};
ghost use Rattle.line_service.specs.script.Text.{outs_text};
ghost use Rattle.plant_script.specs.Done.{HasRun, book_text};
ghost use Rattle.plant_script.specs.Run.{IsScriptRun, IsCapturedRunOf};
ghost use Rattle.plant_script.specs.Statuses.{status_code};
ghost use Rattle.plant_script.specs.Task.{history_at, RunsTo, IsWritten, EndsRun, IsEnded};

use crate::answer::Answer;
use crate::capturing::answer_of_capture;
use crate::ending::{Ending, put_away, refused_line, write_end, write_fault, write_outcome};
use crate::input::AnswerFault;
use crate::input_outcome::Task;
use crate::rankings::rankings_of;
use crate::status::Status;
use crate::tracing::write_traced_run;
use command_line::RunReport;
use grant_policy::Ranking;
use line_service::{LineStep, NoNotes, open_core, run_steps_by, write_actions};
use plant::{Op, Plant};
use plant_core::{CoreOpenFault, LiveCore, PlantCore};
use std::alloc::{AllocError, Global};
use std::io;
use std::io::Write;

/// Does the steps of lines, and drops their outputs. Returns the number of the first line whose
/// step is refused, at which it stops; none where all are done.
fn run_unheard(
    alloc: Global,
    core: &mut PlantCore,
    lines: Vec<LineStep>,
) -> Result<Option<u64>, AllocError>
    requires { IsStateAfter (core_view core.old).plant [] [] (core_view core.old) }
    ensures { IfOk result (λ refused.
        HasRun (core_view core.old).plant lines.items (λ told. []) refused (core_view core.new) []) }
{
    for LineStep {
        number,
        step,
        place: _,
    } in lines {
        match core.step(alloc, step) {
            Ok(_outs) => {}
            Err(fault) => return refused_line(number, fault),
        }
    }
    Ok(None)
}

/// Returns the text, and after it the invalid line, if there is one.
fn answer_of_text(mut text: Vec<u8>, refused: Option<u64>) -> Result<Answer, AllocError>
    ensures { IfOk result (λ answer. IsEnded text.items refused answer) }
{
    let mut status = Status::Success;
    if let Some(number) = refused {
        if write!(text, "fault: line {number}\n").is_err() {
            return Err(AllocError);
        }
        status = Status::InvalidLine;
    }
    Ok(Answer { status, text })
}

/// Appends the lines of all that an operator did; none past the last operator.
fn put_history(text: &mut Vec<u8>, core: &PlantCore, op: Op) -> io::Result<()>
    ensures { OnOk result (text.new.items ≡ text.old.items
        ++ book_text (slice_get (core_view core.now).books op)) }
{
    match core.history(op) {
        Some(history) => write_actions(text, history),
        None => Ok(()),
    }
}

/// Returns what `history` of an operator answers.
fn answer_of_history(
    alloc: Global,
    core: &mut PlantCore,
    op: Op,
    lines: Vec<LineStep>,
) -> Result<Answer, AllocError>
    requires { IsStateAfter (core_view core.old).plant [] [] (core_view core.old) }
    ensures { IfOk result (λ answer. IsScriptRun (core_view core.old).plant lines.items
        (λ done told. history_at (slice_get (core_view core.old).plant.rows op) op done) (status_code answer.status) answer.text.items) }
{
    let refused = run_unheard(alloc, core, lines)?;
    let mut text = Vec::new(alloc);
    match put_history(&mut text, core, op) {
        Ok(()) => answer_of_text(text, refused),
        Err(_full) => Err(AllocError),
    }
}

/// Returns a core of the plant, as it is opened. The rankings are in the plant's order of
/// operators.
pub(crate) fn core_of(
    alloc: Global,
    plant: Plant,
    rankings: Vec<Ranking>,
) -> Result<PlantCore, AllocError>
    requires { map (λ ranking. ranking.policy) rankings.items ≡ map (λ row. row.policy) plant.rows }
    ensures { IfOk result (λ core. IsStateAfter plant [] [] (core_view core)) }
{
    match PlantCore::open(alloc, plant, rankings) {
        Ok(core) => Ok(core),
        Err(CoreOpenFault::NoMemory) => Err(AllocError),
        Err(CoreOpenFault::RankingsMismatch) => unreachable!(),
    }
}

/// Returns the capture of a run. The rankings are in the plant's order of operators.
fn answer_of_capture_run(
    alloc: Global,
    plant: Plant,
    lines: Vec<LineStep>,
    rankings: Vec<Ranking>,
    ending: Ending,
) -> Result<Answer, AllocError>
    requires { map (λ ranking. ranking.policy) rankings.items ≡ map (λ row. row.policy) plant.rows }
    ensures { IfOk result (λ answer. IsCapturedRunOf plant lines.items (status_code answer.status) answer.text.items) }
{
    let mut core = core_of(alloc, plant, rankings)?;
    let answer = answer_of_capture(alloc, &mut core, lines)?;
    put_away(core, ending);
    Ok(answer)
}

/// Returns the steps of an operator in a run. The rankings are in the plant's order of operators.
fn answer_of_history_run(
    alloc: Global,
    plant: Plant,
    op: Op,
    lines: Vec<LineStep>,
    rankings: Vec<Ranking>,
    ending: Ending,
) -> Result<Answer, AllocError>
    requires { map (λ ranking. ranking.policy) rankings.items ≡ map (λ row. row.policy) plant.rows }
    ensures { IfOk result (λ answer. IsScriptRun plant lines.items
        (λ done told. history_at (slice_get plant.rows op) op done) (status_code answer.status) answer.text.items) }
{
    let mut core = core_of(alloc, plant, rankings)?;
    let answer = answer_of_history(alloc, &mut core, op, lines)?;
    put_away(core, ending);
    Ok(answer)
}

/// Does the steps of lines on a core as it is opened, its ticks ranked by these rankings, and writes
/// what each outputs as it is made, and the last line. Returns the status.
fn write_run<W: Write>(
    alloc: Global,
    core: &mut LiveCore,
    lines: Vec<LineStep>,
    rankings: &[Ranking],
    writer: &mut W,
) -> io::Result<Status>
    requires reached { IsReachableFromStart (live_view core.old) }
    requires policies { FollowRows (map policy_of rankings.now) (live_view core.old).plant.rows }
    requires placed { ArePlaced (live_view core.old).plant lines.items }
    ensures { IfOk result (λ status. (plant : PlantFields) → IsAfter plant [] [] (live_view core.old)
        → EndsRun plant lines.items (status_code status) (λ text. Appends (W.contents writer.old) (W.contents writer.new) text)) }
{
    let end = run_steps_by(alloc, core, lines, rankings, &NoNotes, writer)?;
    let status = write_end(writer, end)?;
    writer.flush()?;
    Ok(status)
}

/// Runs a script, and writes the outputs as they are made. No history is kept. The rankings are in
/// the plant's order of operators. Returns the exit status.
fn write_outputs_run<W: Write>(
    alloc: Global,
    plant: Plant,
    lines: Vec<LineStep>,
    rankings: Vec<Ranking>,
    ending: Ending,
    writer: &mut W,
) -> io::Result<Status>
    requires policies { map (λ ranking. ranking.policy) rankings.items ≡ map (λ row. row.policy) plant.rows }
    requires placed { ArePlaced plant lines.items }
    ensures { IfOk result (λ status. IsWritten (IsScriptRun plant lines.items (λ done told. outs_text plant told)) (status_code status)
        (λ text. Appends (W.contents writer.old) (W.contents writer.new) text)) }
{
    let Ok(mut core) = open_core(alloc, plant) else {
        return write_fault(writer, AnswerFault::Memory);
    };
    let status = write_run(alloc, &mut core, lines, rankings.as_slice(), writer)?;
    put_away(core, ending);
    Ok(status)
}

/// Runs a task, and writes what is printed of its run. The rankings are in the plant's order of
/// operators; of the script, whose steps the task has, `trace` prints the lines. Returns the exit
/// status.
fn write_task<W: Write>(
    alloc: Global,
    task: Task,
    script: &[u8],
    rankings: Vec<Ranking>,
    ending: Ending,
    writer: &mut W,
) -> io::Result<Status>
    requires { map (λ ranking. ranking.policy) rankings.items ≡ map (λ row. row.policy) task.plant.rows }
    ensures { IfOk result (λ status. IsWritten (RunsTo task.plant task.report script.now task.lines.items) (status_code status)
        (λ text. Appends (W.contents writer.old) (W.contents writer.new) text)) }
{
    let Task {
        plant,
        lines,
        report,
    } = task;
    match report {
        RunReport::Outputs => write_outputs_run(alloc, plant, lines, rankings, ending, writer),
        RunReport::Capture => {
            let answer = answer_of_capture_run(alloc, plant, lines, rankings, ending);
            write_outcome(writer, answer)
        }
        RunReport::Trace => write_traced_run(alloc, plant, lines, script, rankings, ending, writer),
        RunReport::History(op) => {
            let answer = answer_of_history_run(alloc, plant, op, lines, rankings, ending);
            write_outcome(writer, answer)
        }
    }
}

/// Runs a task, each operator ranked by the policy of its row, and writes what is printed of its
/// run; of the script, whose steps the task has, `trace` prints the lines. Returns the exit status.
pub fn write_ranked<W: Write>(
    alloc: Global,
    task: Task,
    script: &[u8],
    ending: Ending,
    writer: &mut W,
) -> io::Result<Status>
    ensures { IfOk result (λ status. IsWritten (RunsTo task.plant task.report script.now task.lines.items) (status_code status)
        (λ text. Appends (W.contents writer.old) (W.contents writer.new) text)) }
{
    let rankings = rankings_of!(
        alloc,
        task.plant,
        return write_fault(writer, AnswerFault::Memory)
    );
    write_task(alloc, task, script, rankings, ending, writer)
}
