//! What a command results in: a state that is to be saved with an answer, or a refusal.

ghost use Rattle.std.specs.Prelude.{◌≡◌, true, IfOk, IfErr};
ghost use Rattle.plant_core.specs.live.LiveView.{live_view};
ghost use Rattle.snapshot_format.specs.Text.{text_of_snapshot};
ghost use Rattle.state_service.specs.resumed.Items.{asks_snapshot};
ghost use Rattle.state_service.specs.resumed.NewFrames.{asks_frame, frame_text};
ghost use Rattle.state_service.specs.Commands.{is_command, IsOutcomeOf};
ghost use Rattle.state_service.specs.Faults.{IsServingFault};

use crate::commands::asks_snapshot;
use crate::durable::{DurableState, snapshot_to_keep};
use crate::fault::StateServiceFault;
use crate::period_end::DueState;
use crate::resumed::{NewFrameFault, renumbered_core, saved_core};
use plant_restart::SaveFault;
use snapshot_format::{Snapshot, write_snapshot};
use std::alloc::{AllocError, Global};

/// Why a command is not performed.
#[derive(Drop)]
pub(crate) enum CommandRefusal {
    /// The core does not rest, so there is no snapshot.
    NoSnapshot,
    /// The next frame does not get the number of the line.
    NoNumber { why: NewFrameFault },
}

/// What a command results in.
#[derive(Drop)]
pub(crate) enum CommandOutcome {
    /// It is performed once this state is saved.
    Due { due: DueState },
    /// It is refused.
    Refused { refusal: CommandRefusal },
}

/// Returns the text of a snapshot.
fn text_of(alloc: Global, saved: &Snapshot) -> Result<Vec<u8>, StateServiceFault>
    ensures text { IfOk result (λ text. text.items ≡ text_of_snapshot saved.now) }
    ensures fault { IfErr result (IsServingFault 0 0) }
{
    let mut text = Vec::new(alloc);
    match write_snapshot(alloc, &mut text, saved) {
        Ok(()) => Ok(text),
        Err(_full) => Err(StateServiceFault::NoMemory),
    }
}

/// Returns the answer to a line that has given the next frame this number.
fn frame_answer(alloc: Global, frame: u32) -> Result<Vec<u8>, AllocError>
    ensures { IfOk result (λ text. text.items ≡ frame_text frame) }
{
    Ok(format!(in alloc; "N frame {frame}\n")?.into_bytes())
}

/// Returns what a request for a snapshot results in, as the line of this number.
fn snapshot_outcome(
    alloc: Global,
    service: &DurableState,
    number: u64,
    line: &[u8],
) -> Result<CommandOutcome, StateServiceFault>
    requires { asks_snapshot line.now ≡ true }
    ensures outcome { IfOk result (IsOutcomeOf service.now.file (live_view service.now.core) line.now number) }
    ensures fault { IfErr result (IsServingFault 0 0) }
{
    let saved = match saved_core(alloc, &service.core, &service.file) {
        Ok(saved) => saved,
        Err(SaveFault::Unfinished { why: _ }) => {
            return Ok(CommandOutcome::Refused {
                refusal: CommandRefusal::NoSnapshot,
            });
        }
        Err(SaveFault::NoMemory) => return Err(StateServiceFault::NoMemory),
    };
    let answer = text_of(alloc, &saved)?;
    let kept = snapshot_to_keep(alloc, number, &saved)?;
    Ok(CommandOutcome::Due {
        due: DueState { kept, answer },
    })
}

/// Returns what a request for another frame number results in, as the line of this number.
fn frame_outcome(
    alloc: Global,
    service: &DurableState,
    number: u64,
    line: &[u8],
) -> Result<CommandOutcome, StateServiceFault>
    requires { asks_frame line.now ≡ true }
    ensures outcome { IfOk result (IsOutcomeOf service.now.file (live_view service.now.core) line.now number) }
    ensures fault { IfErr result (IsServingFault 0 0) }
{
    let other = match renumbered_core(alloc, &service.core, &service.file, line) {
        Ok(other) => other.saved,
        Err(NewFrameFault::NoMemory) => return Err(StateServiceFault::NoMemory),
        Err(why) => {
            return Ok(CommandOutcome::Refused {
                refusal: CommandRefusal::NoNumber { why },
            });
        }
    };
    let answer = frame_answer(alloc, other.frame)?;
    let kept = snapshot_to_keep(alloc, number, &other)?;
    Ok(CommandOutcome::Due {
        due: DueState { kept, answer },
    })
}

/// Returns what a command results in, as the line of this number. The service stays as it is.
pub(crate) fn command_outcome(
    alloc: Global,
    service: &DurableState,
    number: u64,
    line: &[u8],
) -> Result<CommandOutcome, StateServiceFault>
    requires { is_command line.now ≡ true }
    ensures outcome { IfOk result (IsOutcomeOf service.now.file (live_view service.now.core) line.now number) }
    ensures fault { IfErr result (IsServingFault 0 0) }
{
    if asks_snapshot(line) {
        snapshot_outcome(alloc, service, number, line)
    } else {
        frame_outcome(alloc, service, number, line)
    }
}
