//! What standard error says of a change of the plant, or of its frame numbers, that is refused.

use crate::answering::tell;
use crate::begin_reasons::state_text;
use crate::number_reasons::number_reason;
use crate::shared_reasons::shared_text;
use command_line::Word;
use diagnostics::reason_of;
use frame_numbers::RenumberFault;
use operator_book::StateFault;
use plant::{Op, OperatorName, Plant};
use plant_core::{LiveCore, RestFault, ResumeFault};
use plant_restart::{ChangeFault, RefusedState, RestartFault, refused_states};
use slice_table::read_plant;
use state_service::{NewFrameFault, NewPlantFault, RefusalNotes};
use std::alloc::{AllocError, Global};
use std::io::Write;

/// The status that `check` has for an invalid plant file.
const INVALID_PLANT: u8 = 3;

/// Returns why the plant in service is not at rest, and what to do.
pub(crate) fn rest_text(alloc: Global, why: RestFault) -> Result<String, AllocError> {
    match why {
        RestFault::FrameWaits { op } => format!(in alloc;
            "a frame of operator {op} (counted from 0) waits to be collected; let all operators tick, then repeat the change"
        ),
        RestFault::NotAtFrame { op } => format!(in alloc;
            "operator {op} (counted from 0) is at another frame than operator 0; let all operators tick, then repeat the change"
        ),
    }
}

/// Returns why the operators do not go together under the new plant, and what to do.
fn core_text(alloc: Global, why: ResumeFault) -> Result<String, AllocError> {
    match why {
        ResumeFault::NotAtFrame { op } => format!(in alloc;
            "operator {op} (counted from 0) is at another frame; let all operators tick, then repeat the change"
        ),
        ResumeFault::SliceChangesDiffer { op } => format!(in alloc;
            "a slice change waits, and not for operator {op} (counted from 0); repeat the change after its frame"
        ),
        ResumeFault::BeforeFirstFrame => String::from_str(
            alloc,
            "its first frame is later than the frame in which the plant is; keep first_frame",
        ),
        ResumeFault::InvalidSlice { op } => format!(in alloc;
            "the slice in force of operator {op} (counted from 0) overlaps that of another operator; change the slices first"
        ),
        ResumeFault::InvalidNextSlice { op } => format!(in alloc;
            "the next slice of operator {op} (counted from 0) overlaps that of another operator; repeat the change after its frame"
        ),
        ResumeFault::NoMemory => String::from_str(alloc, "memory ran out; repeat the change"),
    }
}

/// Returns the plant of a valid plant file, or nothing if memory runs out.
fn plant_of(alloc: Global, file: &[u8]) -> Option<Plant> {
    let text = str::from_utf8(file).ok()?;
    read_plant(alloc, text).ok()
}

/// Returns the name of an operator of a plant by its place.
fn operator_named(plant: Option<&Plant>, op: Op) -> Option<OperatorName> {
    let row = plant?.rows().get(op)?;
    Some(row.get_fields().name)
}

/// Returns why an operator of a plant does not go on in its state, and what to do.
fn operator_text(
    alloc: Global,
    plant: Option<&Plant>,
    op: Op,
    why: StateFault,
) -> Result<String, AllocError> {
    let text = state_text(alloc, why)?;
    match operator_named(plant, op) {
        Some(name) => format!(in alloc;
            "operator {name} cannot go on: {text}; change its table, or give it another name"
        ),
        None => format!(in alloc;
            "operator {op} of the file (counted from 0) cannot go on: {text}; change its table, or give it another name"
        ),
    }
}

/// Returns why a plant is not changed to a valid plant file, and what to do. Without the plant in service, it names no value that
/// all operators share.
pub(crate) fn change_text(
    alloc: Global,
    in_service: Option<&Plant>,
    file: &[u8],
    why: ChangeFault,
) -> Result<String, AllocError> {
    match why {
        ChangeFault::ConstantsDiffer => {
            let plant = plant_of(alloc, file);
            shared_text(alloc, in_service, plant.as_ref())
        }
        ChangeFault::Unfinished { why } => rest_text(alloc, why),
        ChangeFault::Restart {
            why: RestartFault::State { op, why },
        } => {
            let plant = plant_of(alloc, file);
            operator_text(alloc, plant.as_ref(), op, why)
        }
        ChangeFault::Restart {
            why: RestartFault::Core { why },
        } => core_text(alloc, why),
        ChangeFault::Restart {
            why: RestartFault::NoMemory,
        } => String::from_str(alloc, "memory ran out; repeat the change"),
    }
}

/// Returns why the plant is not changed to a plant file, and what to do. It is part of a sentence.
fn fault_text(
    alloc: Global,
    core: &LiveCore,
    file: &[u8],
    why: &NewPlantFault,
) -> Result<String, AllocError> {
    match why {
        NewPlantFault::NotEnded => String::from_str(
            alloc,
            "the input ends before a line --- after the plant file; write that line",
        ),
        NewPlantFault::TooLong => String::from_str(
            alloc,
            "the plant file is longer than 1,048,576 bytes; shorten it",
        ),
        NewPlantFault::NotText => String::from_str(
            alloc,
            "the plant file is not UTF-8; save it as UTF-8",
        ),
        NewPlantFault::InvalidPlant { fault: _ } => String::from_str(
            alloc,
            "the plant file is invalid, for the reasons that follow; its lines are counted from 1",
        ),
        NewPlantFault::NotChanged { why } => {
            let text = change_text(alloc, Some(core.plant()), file, *why)?;
            format!(in alloc; "the plant file does not fit the plant in service: {text}")
        }
        NewPlantFault::NoMemory => String::from_str(alloc, "memory ran out; repeat the change"),
    }
}

/// Returns why the plant is not changed to the plant file after the line `P` of this number. Of an invalid file it says what
/// `check` says.
fn refusal_reason(
    alloc: Global,
    core: &LiveCore,
    number: u64,
    file: &[u8],
    why: &NewPlantFault,
) -> Result<String, AllocError> {
    let text = fault_text(alloc, core, file, why)?;
    let mut reason = format!(in alloc; "line {number}: the plant is not changed: {text}\n")?;
    if let NewPlantFault::InvalidPlant { fault: _ } = why {
        let file = str::from_utf8(file).unwrap_or("");
        let more = reason_of(alloc, Word::Serve, file, INVALID_PLANT)?;
        reason.push_str(more.as_str())?;
    }
    Ok(reason)
}

/// Returns the refusal of an operator's state that is the reason of a fault, if one is.
fn reported_refusal(why: ChangeFault) -> Option<RefusedState> {
    match why {
        ChangeFault::Restart {
            why: RestartFault::State { op, why },
        } => Some(RefusedState { op, why }),
        _ => None,
    }
}

/// Returns whether a refusal is reported already: it is the one that is reported first, or it is of the same modem as one of those
/// of its operator before it.
fn is_reported(reported: RefusedState, before: &[RefusedState], refused: RefusedState) -> bool {
    if refused == reported {
        return true;
    }
    let StateFault::ModemInUse { modem: _ } = refused.why else {
        return false;
    };
    before.contains(&refused)
}

/// Returns in words each refusal of an operator's state that is not reported already, and what to do.
fn further_texts(
    alloc: Global,
    plant: &Plant,
    reported: RefusedState,
    refused: &[RefusedState],
) -> Result<Vec<String>, AllocError> {
    let mut texts = Vec::new(alloc);
    // Where the refusals of the operator begin.
    let mut first = 0;
    for (place, one) in refused.iter().enumerate() {
        if refused[first].op != one.op {
            first = place;
        }
        if !is_reported(reported, &refused[first..place], *one) {
            texts.push(operator_text(alloc, Some(plant), one.op, one.why)?)?;
        }
    }
    Ok(texts)
}

/// Returns in words each further refusal of an operator's state under a plant file, if one is the reason of a fault.
pub(crate) fn refusal_texts(
    alloc: Global,
    file: &[u8],
    why: ChangeFault,
    refused: &[RefusedState],
) -> Result<Vec<String>, AllocError> {
    let Some(reported) = reported_refusal(why) else {
        return Ok(Vec::new(alloc));
    };
    let Some(plant) = plant_of(alloc, file) else {
        return Err(AllocError);
    };
    further_texts(alloc, &plant, reported, refused)
}

/// Writes a line for each further refusal of an operator's state under a plant file, if one is reported.
fn report_further<E: Write>(
    alloc: Global,
    core: &LiveCore,
    number: u64,
    file: &[u8],
    why: &NewPlantFault,
    reasons: &mut E,
) -> Result<(), AllocError> {
    let NewPlantFault::NotChanged { why } = why else {
        return Ok(());
    };
    let Some(reported) = reported_refusal(*why) else {
        return Ok(());
    };
    let Some(plant) = plant_of(alloc, file) else {
        return Err(AllocError);
    };
    let refused = refused_states(alloc, core, &plant)?;
    for text in further_texts(alloc, &plant, reported, refused.as_slice())? {
        let line = format!(in alloc;
            "line {number}: the plant is not changed: the plant file does not fit the plant in service: {text}\n"
        );
        tell(reasons, line);
    }
    Ok(())
}

/// Writes the reasons of refused changes to standard error as they come.
#[derive(Drop)]
pub(crate) struct RefusalReasons<'a, E> {
    reasons: &'a mut E,
}

impl<'a, E: Write> RefusalReasons<'a, E> {
    /// Returns the reasons that are written so.
    pub(crate) fn new(reasons: &'a mut E) -> RefusalReasons<'a, E> {
        RefusalReasons { reasons }
    }
}

impl<E: Write> RefusalNotes for RefusalReasons<'_, E> {
    fn note_refused(
        &mut self,
        alloc: Global,
        core: &LiveCore,
        number: u64,
        file: &[u8],
        why: &NewPlantFault,
    ) {
        tell(self.reasons, refusal_reason(alloc, core, number, file, why));
        if report_further(alloc, core, number, file, why, self.reasons).is_err() {
            tell(self.reasons, Err(AllocError));
        }
    }

    fn note_frame_refused(
        &mut self,
        alloc: Global,
        number: u64,
        plant: &Plant,
        why: &NewFrameFault,
    ) {
        tell(self.reasons, number_reason(alloc, number, plant, why));
    }
}
