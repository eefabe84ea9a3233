//! A script's run on a plant's core, as a capture.

ghost use Rattle.std.specs.Prelude.{◌≡◌, ◌++◌, ◌∷◌, [], List, IfOk, OnOk};
ghost use Rattle.plant.specs.declared.plant.PlantFields.{PlantFields};
ghost use Rattle.run_model.specs.declared.step.Step.{Step};
ghost use Rattle.run_model.specs.declared.step.Out.{Out};
ghost use Rattle.run_model.specs.Ordered.{target, IsTold};
ghost use Rattle.run_model.specs.IsStateAfter.{IsStateAfter};
ghost use Rattle.plant_core.specs.CoreView.{core_view};
ghost use Rattle.pcap_capture.specs.Capture.{opened_capture, CapturesRun};
ghost use Rattle.plant_script.specs.Done.{HasCaptured, IsStatusOf};
ghost use Rattle.plant_script.specs.Run.{IsCapturedRunOf};
ghost use Rattle.plant_script.specs.Statuses.{status_code};

use crate::answer::Answer;
use crate::ending::refused_line;
use crate::status::Status;
use line_service::LineStep;
use pcap_capture::Capture;
use plant_core::PlantCore;
use run_model::{Out, Step};
use std::alloc::{AllocError, Global};

/// Captures a step that is done, and its own outputs.
fn put_turn(
    alloc: Global,
    capture: &mut Capture,
    step: &Step,
    outs: &[Out],
) -> Result<(), AllocError>
    ensures { OnOk result ((plant : PlantFields) (steps : List Step) (told : List Out)
        → CapturesRun plant steps told capture.old → IsTold plant steps step.now (target plant step.now) outs.now
        → CapturesRun plant (steps ++ step.now ∷ []) (told ++ outs.now) capture.new) }
{
    capture.add_sent_message(alloc, step)?;
    capture.add_outputs(alloc, outs)?;
    Ok(())
}

/// Does the steps of lines, and captures each after it. Returns the number of the first line whose
/// step is refused, at which it stops; none where all are done. Nothing of the refused step is
/// captured.
fn run_captured(
    alloc: Global,
    core: &mut PlantCore,
    lines: &[LineStep],
    capture: &mut Capture,
) -> Result<Option<u64>, AllocError>
    requires opened { IsStateAfter (core_view core.old).plant [] [] (core_view core.old) }
    requires empty { capture.old ≡ opened_capture (core_view core.old).plant.consts }
    ensures { IfOk result (λ refused.
        HasCaptured (core_view core.old).plant lines.now refused (core_view core.new) capture.new) }
{
    let mut outs = Vec::new(alloc);
    for line in lines {
        let step = line.step.copy(alloc)?;
        match core.step_over(alloc, step, &mut outs) {
            Ok(()) => put_turn(alloc, capture, &line.step, outs.as_slice())?,
            Err(fault) => return refused_line(line.number, fault),
        }
    }
    Ok(None)
}

/// Returns the file, with the status of its run.
fn answer_of_file(file: Vec<u8>, refused: Option<u64>) -> Answer
    ensures text { result.text ≡ file }
    ensures status { IsStatusOf refused (status_code result.status) }
{
    let status = match refused {
        None => Status::Success,
        Some(_number) => Status::InvalidLine,
    };
    Answer { status, text: file }
}

/// Returns the answer of the command `capture`.
pub fn answer_of_capture(
    alloc: Global,
    core: &mut PlantCore,
    lines: Vec<LineStep>,
) -> Result<Answer, AllocError>
    requires { IsStateAfter (core_view core.old).plant [] [] (core_view core.old) }
    ensures { IfOk result (λ answer. IsCapturedRunOf (core_view core.old).plant lines.items (status_code answer.status) answer.text.items) }
{
    let mut capture = Capture::open(alloc, core.plant().consts());
    let refused = run_captured(alloc, core, lines.as_slice(), &mut capture)?;
    let file = capture.to_bytes(alloc)?;
    Ok(answer_of_file(file, refused))
}
