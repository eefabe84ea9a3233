//! What the program says on standard error: why its status is not 0, and warnings.

use crate::file::File;
use crate::lines::{add_no_messages, say_line, say_stranger, steps_of};
use crate::parts::{InputParts, parts_of};
use crate::plain::is_plain;
use crate::plants::{say_faults, say_no_bar, say_no_toml};
use crate::reason::{GapText, Reason};
use crate::refusals::refused_of;
use crate::report::Report;
use crate::unread::say_all_unread;
use crate::unworkable::say_unworkable;
use command_line::{BatchWord, RunReport, Word, text_of_wrong};
use line_service::LineStep;
use plant::{Plant, Routes};
use slice_table::{PlantFault, read_plant};
use std::alloc::{AllocError, Global};
use toml::Table;

/// The most invalid lines that are written.
const MOST_LINES: u64 = 20;

/// Why a run did not end as its input says.
#[derive(Clone, Copy)]
pub enum Trouble {
    /// The process is out of memory.
    Memory,
    /// A read failed.
    Read,
    /// The input has more bytes than the program reads.
    TooLong,
    /// The input is not UTF-8: only so many bytes at its start are.
    NoText { valid: usize },
    /// A write failed.
    Write,
    /// The threads did not follow the script.
    Strayed,
}

/// Returns the message of a run that did not end as its input says.
pub fn reason_of_trouble(alloc: Global, trouble: Trouble) -> Result<String, AllocError> {
    let mut reason = Reason::new(alloc);
    let sentence = match trouble {
        Trouble::Memory => "out of memory: the run needs more memory than this process may use\n",
        Trouble::Read => "reading standard input failed\n",
        Trouble::TooLong => "the input is too long: at most 1048576 bytes are read\n",
        Trouble::NoText { valid } => {
            let place = (valid as u64).saturating_add(1);
            reason.say("the input is not UTF-8: byte {}", &[GapText::Number(place)]);
            " is invalid\n"
        }
        Trouble::Write => "writing to standard output failed: the output is incomplete\n",
        Trouble::Strayed => {
            "the threads did not follow the script: use run, which needs no threads\n"
        }
    };
    reason.say(sentence, &[]);
    reason.into_text()
}

/// Returns the message of an invalid command line: which option is wrong, or clap's message and usage, and where the input is read.
pub fn reason_of_words<'a>(alloc: Global, words: &'a [&'a str]) -> Result<String, AllocError> {
    text_of_wrong(alloc, words)
}

/// Says which invalid lines a script has, or if it has none, which step is refused.
fn say_script(reason: &mut Reason, plant: Plant, parts: &InputParts<'_>) {
    let script = parts.script.unwrap_or("");
    let mut report = Report::new(reason.alloc, MOST_LINES);
    let Ok(mut routes) = Routes::new(reason.alloc, plant) else {
        reason.is_lost = true;
        return;
    };
    let steps = steps_of(&mut report, &mut routes, script, parts.bar());
    if report.is_empty() {
        say_refused(reason, routes.into_plant(), parts, steps);
    } else {
        report.say(reason, "invalid line", "invalid lines");
    }
}

/// Says which step is refused.
fn say_refused(reason: &mut Reason, plant: Plant, parts: &InputParts<'_>, steps: Vec<LineStep>) {
    let mut wrong = Reason::new(reason.alloc);
    let number = refused_of(&mut wrong, plant, steps);
    if !wrong.is_silent() {
        let script = parts.script.unwrap_or("");
        let line = script
            .split('\n')
            .nth(number.saturating_sub(1) as usize)
            .unwrap_or("");
        say_line(reason, parts.bar(), number, line);
        reason.say("{}\n", &[GapText::Told(&wrong)]);
    }
}

/// Returns whether a status of a valid plant is about the script.
fn is_of_script(word: Word<'_>, status: u8) -> bool {
    match word {
        Word::Serve => false,
        _ => status == 4,
    }
}

/// Says why a valid plant has a status, where that is not about its script, and what `check` warns of.
fn say_beside_script(
    reason: &mut Reason,
    word: Word<'_>,
    file: &File<'_>,
    plant: &Plant,
    parts: &InputParts<'_>,
    status: u8,
) {
    match (word, status) {
        (Word::Batch(BatchWord::Run(RunReport::History(operator))), 2) => {
            say_stranger(reason, plant.rows(), operator);
            reason.say("\n", &[]);
        }
        (Word::Batch(BatchWord::Check), 0) => say_unworkable(reason, file, plant),
        (Word::Serve, _) | (Word::Batch(BatchWord::Check), _) => {}
        (_, 0) => say_no_bar(reason, parts),
        _ => {}
    }
}

/// Says why a valid plant has a status.
fn say_behind_plant(
    reason: &mut Reason,
    word: Word<'_>,
    file: &File<'_>,
    plant: Plant,
    parts: &InputParts<'_>,
    status: u8,
) {
    if is_of_script(word, status) {
        say_script(reason, plant, parts);
    } else {
        say_beside_script(reason, word, file, &plant, parts, status);
    }
}

/// Says what is wrong with a plant file.
fn say_plant(reason: &mut Reason, file: &File<'_>, parts: &InputParts<'_>, fault: PlantFault) {
    match (parts.plant.trim().is_empty(), parts.script) {
        (true, None) => reason.say(
            "the input is empty: write a plant file, a line --- and a script to standard input\n",
            &[],
        ),
        (true, Some(_)) => reason.say(
            "no plant file before the line ---: write the plant file first\n",
            &[],
        ),
        (false, _) => say_faults(reason, file, fault),
    }
}

/// Returns the parts of the input of a command. Of `serve` the input is the plant file: the lines after it are read as they come.
fn parts_under<'a>(word: Word<'_>, input: &'a str) -> InputParts<'a> {
    let parts = parts_of(input);
    match (word, parts.script) {
        (Word::Serve, None) => InputParts {
            plant: input,
            script: Some(""),
            through_bar: parts.through_bar,
        },
        _ => parts,
    }
}

/// Says why a plant file that is TOML has a status.
fn say_status(
    reason: &mut Reason,
    word: Word<'_>,
    file: &File<'_>,
    parts: &InputParts<'_>,
    status: u8,
) {
    match read_plant(reason.alloc, parts.plant) {
        Ok(plant) => say_behind_plant(reason, word, file, plant, parts, status),
        Err(PlantFault::NoMemory) => reason.is_lost = true,
        Err(fault) => say_plant(reason, file, parts, fault),
    }
}

/// Returns whether of a plant file and its status nothing is said but which keys are not known.
fn is_accepted(word: Word<'_>, parts: &InputParts<'_>, status: u8) -> bool {
    match word {
        Word::Batch(BatchWord::Check) => false,
        _ => status == 0 && parts.script.is_some(),
    }
}

/// Says which keys of a plant file that is TOML are not known, and why it has a status.
fn say_document(
    reason: &mut Reason,
    word: Word<'_>,
    document: &Table,
    parts: &InputParts<'_>,
    status: u8,
) {
    let file = File::new(reason, document, parts.plant);
    say_all_unread(reason, &file);
    if !is_accepted(word, parts, status) {
        say_status(reason, word, &file, parts, status);
    }
}

/// Says why a plant file is not TOML.
fn say_no_table(reason: &mut Reason, parts: &InputParts<'_>, error: &toml::de::Error) {
    if error.is_memory() {
        reason.is_lost = true;
    } else {
        say_no_toml(reason, parts.plant, error);
        say_no_bar(reason, parts);
    }
}

/// Says why an input of a plant and a script has a status.
fn say_of_plant(reason: &mut Reason, word: Word<'_>, input: &str, status: u8) {
    let parts = parts_under(word, input);
    if is_accepted(word, &parts, status) && is_plain(parts.plant) {
        return;
    }
    match toml::table_from_str(reason.alloc, parts.plant) {
        Ok(document) => say_document(reason, word, &document, &parts, status),
        Err(error) => say_no_table(reason, &parts, &error),
    }
}

/// Says which lines of the input of `one` are not messages.
fn say_of_one(reason: &mut Reason, input: &str) {
    let mut report = Report::new(reason.alloc, MOST_LINES);
    add_no_messages(&mut report, input);
    report.say(reason, "invalid line", "invalid lines");
}

/// Returns why an input has a status under a command, and warnings of its plant file: of unknown keys, and under `check` of keys
/// with which no channel works. Empty where there is nothing to say. All invalid keys of a plant file are named, and all invalid lines of a script, up to a limit. The input of
/// `serve` may be the plant file alone, and the lines after it have no message here.
pub fn reason_of(
    alloc: Global,
    word: Word<'_>,
    input: &str,
    status: u8,
) -> Result<String, AllocError> {
    let mut reason = Reason::new(alloc);
    match (word, status) {
        (Word::Batch(BatchWord::One), 4) => say_of_one(&mut reason, input),
        (Word::Batch(BatchWord::One), _) => {}
        _ => say_of_plant(&mut reason, word, input, status),
    }
    reason.into_text()
}
