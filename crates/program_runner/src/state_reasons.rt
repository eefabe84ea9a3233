//! What standard error says of a service with a journal that does not begin, or ends before its input does.

use crate::begin_reasons::{io_reason, restore_text, wrong_text};
use crate::refusal_reasons::{change_text, refusal_texts};
use command_line::Word;
use diagnostics::reason_of;
use journal_file::{JournalOpenFault, JournalPart};
use plant_restart::{ChangeFault, RefusedState};
use state_service::{DurableFault, JournalStateFault, LineFailure, StateServiceFault};
use std::alloc::{AllocError, Global};
use std::io;

/// The status that `check` has for an invalid plant file.
const INVALID_PLANT: u8 = 3;

/// What standard error says if the process is out of memory.
const NO_MEMORY: &str = "out of memory: the run needs more memory than this process may use\n";

/// What to do if the plant of a journal is not changed to the plant file.
const WHAT_TO_START: &str =
    "the journal is as it was: start with the plant file that was saved, or mend the plant file\n";

/// What standard error says of a number of lines that is invalid.
pub(crate) const PERIOD_REASON: &str =
    "the option --snapshot-every has no number from 1 to 9223372036854775808: write --snapshot-every 10000\n";

/// Returns what failed of a folder, and what to do.
fn part_reason(
    alloc: Global,
    folder: &str,
    part: JournalPart,
    error: &io::Error,
) -> Result<String, AllocError> {
    match part {
        JournalPart::Folder => format!(in alloc;
            "the folder {folder} cannot be opened: {error}; check its permissions\n"
        ),
        JournalPart::Lock => format!(in alloc;
            "the file {folder}/lock cannot be locked: {error}; check the permissions of the folder\n"
        ),
        JournalPart::Journal => format!(in alloc;
            "the file {folder}/journal cannot be read or written: {error}; check its permissions and the space on the disk\n"
        ),
    }
}

/// Returns why the journal of a folder is not opened, and what to do.
pub(crate) fn opening_reason(
    alloc: Global,
    folder: &str,
    fault: &JournalOpenFault,
) -> Result<String, AllocError> {
    match fault {
        JournalOpenFault::NotAFolder => format!(in alloc;
            "there is no folder {folder}: make it, or name another folder\n"
        ),
        JournalOpenFault::Io { part, error } => part_reason(alloc, folder, *part, error),
        JournalOpenFault::InUse => format!(in alloc;
            "the folder {folder} is in use by another process: stop that, or name another folder\n"
        ),
        JournalOpenFault::NoMemory => String::from_str(alloc, NO_MEMORY),
    }
}

/// Returns what is wrong with the state in a journal.
fn saved_text(alloc: Global, fault: &JournalStateFault) -> Result<String, AllocError> {
    match fault {
        JournalStateFault::InvalidCount => String::from_str(
            alloc,
            "it does not begin with a number of lines",
        ),
        JournalStateFault::InvalidSnapshot { number, wrong } => {
            let what = wrong_text(*wrong);
            format!(in alloc; "line {number} of its snapshot is invalid: {what}")
        }
        JournalStateFault::NotText => String::from_str(alloc, "its plant file is not UTF-8"),
        JournalStateFault::InvalidPlant { fault: _ } => String::from_str(
            alloc,
            "its plant file is invalid",
        ),
        JournalStateFault::Unfinished { why: _ } => String::from_str(
            alloc,
            "some operators have ticked and others have not",
        ),
        JournalStateFault::NotKept | JournalStateFault::LineFeed => String::from_str(
            alloc,
            "it is not one that the program can save",
        ),
        JournalStateFault::NoMemory => String::from_str(alloc, "out of memory"),
    }
}

/// Returns why a service does not go on from the journal of a folder, and what to do.
fn journal_reason(alloc: Global, folder: &str, fault: &DurableFault) -> Result<String, AllocError> {
    match fault {
        DurableFault::NoJournal => format!(in alloc;
            "the file {folder}/journal is not a journal: move the file away to begin anew\n"
        ),
        DurableFault::State {
            fault: JournalStateFault::NoMemory,
        }
        | DurableFault::Line {
            failure: LineFailure::NoMemory,
        } => String::from_str(alloc, NO_MEMORY),
        DurableFault::State { fault } => {
            let what = saved_text(alloc, fault)?;
            format!(in alloc;
                "the state in {folder}/journal is invalid: {what}; use a copy of the journal, or move the file away to begin anew\n"
            )
        }
        DurableFault::Line {
            failure: LineFailure::TooManyLines,
        } => format!(in alloc;
            "2^64 - 1 lines are in the journal in {folder}: name an empty folder to begin anew\n"
        ),
        DurableFault::Disk => format!(in alloc;
            "the file {folder}/journal cannot be read or written: no line that was answered is lost; check the disk, then start again\n"
        ),
        DurableFault::Full => format!(in alloc;
            "the file {folder}/journal is as long as a journal may be: name an empty folder to begin anew\n"
        ),
    }
}

/// Returns the line for one reason why the plant of a journal is not changed to the plant file.
fn unfit_line(alloc: Global, folder: &str, text: &str) -> Result<String, AllocError> {
    format!(in alloc; "the plant file does not fit the plant in {folder}/journal: {text}\n")
}

/// Returns why the plant of a journal is not changed to the plant file, with a line for each reason, and what to do.
fn changed_reason(
    alloc: Global,
    folder: &str,
    file: Option<Vec<u8>>,
    why: ChangeFault,
    refused: &[RefusedState],
) -> Result<String, AllocError> {
    let file = file.unwrap_or(Vec::new(alloc));
    let text = change_text(alloc, None, file.as_slice(), why)?;
    let mut reason = unfit_line(alloc, folder, text.as_str())?;
    for text in refusal_texts(alloc, file.as_slice(), why, refused)? {
        let line = unfit_line(alloc, folder, text.as_str())?;
        reason.push_str(line.as_str())?;
    }
    reason.push_str(WHAT_TO_START)?;
    Ok(reason)
}

/// Returns what is wrong with a plant file that has a status, as `check` says it: if it is valid, which of its keys are unknown.
pub(crate) fn plant_reason(
    alloc: Global,
    file: Option<Vec<u8>>,
    status: u8,
) -> Result<String, AllocError> {
    let file = file.unwrap_or(Vec::new(alloc));
    let text = str::from_utf8(file.as_slice()).unwrap_or("");
    reason_of(alloc, Word::Serve, text, status)
}

/// Returns why a service with a journal does not begin, or ends before its input does, and what to do.
pub(crate) fn state_reason(
    alloc: Global,
    folder: &str,
    file: Option<Vec<u8>>,
    fault: &StateServiceFault,
) -> Result<String, AllocError> {
    match fault {
        StateServiceFault::NotText => String::from_str(
            alloc,
            "the plant file is not UTF-8: save it as UTF-8\n",
        ),
        StateServiceFault::InvalidPlant { fault: _ } => plant_reason(alloc, file, INVALID_PLANT),
        StateServiceFault::Journal { fault } => journal_reason(alloc, folder, fault),
        StateServiceFault::NotRestored { why } => {
            let what = restore_text(alloc, *why)?;
            format!(in alloc;
                "the state in {folder}/journal does not fit its plant file: {what}; use a copy of the journal, or move the file away to begin anew\n"
            )
        }
        StateServiceFault::NotChanged { why, refused } => {
            changed_reason(alloc, folder, file, *why, refused.as_slice())
        }
        StateServiceFault::Stream { error } => io_reason(alloc, error),
        StateServiceFault::NoMemory => String::from_str(alloc, NO_MEMORY),
    }
}
