//! What is wrong with a plant file.

use crate::file::File;
use crate::joint::add_joint_faults;
use crate::keys::add_key_faults;
use crate::parts::{InputParts, last_line};
use crate::provisioned::add_provisioned_faults;
use crate::reason::{GapText, Reason};
use crate::report::Report;
use slice_table::PlantFault;

/// The most faults of a plant file that are written.
const MOST: u64 = 100;

/// Says a fault as its crate prints it.
fn say_printed(reason: &mut Reason, fault: PlantFault) {
    match format!(in reason.alloc; "{fault}") {
        Ok(text) => reason.say("{}\n", &[GapText::Words(text.as_str())]),
        Err(_full) => reason.is_lost = true,
    }
}

/// Says all faults of a plant file that is TOML, of which one is given: first of each key, and where no key has one, of all
/// keys together.
pub(crate) fn say_faults(reason: &mut Reason, file: &File<'_>, fault: PlantFault) {
    let mut report = Report::new(reason.alloc, MOST);
    match fault {
        PlantFault::NotToml | PlantFault::NoMemory => {}
        PlantFault::Missing { .. } | PlantFault::BadValue { .. } => {
            add_key_faults(&mut report, file);
        }
        _ => {
            add_joint_faults(&mut report, file);
            add_provisioned_faults(&mut report, file);
        }
    }
    if report.is_empty() {
        say_printed(reason, fault);
    } else {
        report.say(reason, "fault", "faults");
    }
}

/// Says why a plant file is not TOML: where, and what the line says.
pub(crate) fn say_no_toml<'a>(reason: &mut Reason, plant: &'a str, error: &'a toml::de::Error) {
    let start = match error.span() {
        Some(span) => span.start,
        None => 0,
    };
    let before = plant.get(..start).unwrap_or(plant);
    let number = last_line(before);
    let in_line = before.rsplit('\n').next().unwrap_or("");
    let column = (in_line.chars().count() as u64).saturating_add(1);
    let line = plant.lines().nth(number.saturating_sub(1)).unwrap_or("");
    reason.say(
        "line {}, column {}: not valid TOML: {}: {}\n",
        &[
            GapText::Number(number as u64),
            GapText::Number(column),
            GapText::Words(error.message()),
            GapText::Quoted(line),
        ],
    );
}

/// Returns whether a line is three dashes except for blanks and a carriage return.
fn is_nearly_bar(line: &str) -> bool {
    line != "---" && line.trim() == "---"
}

/// Says why a line of this number is not a line of three dashes, where it nearly is.
fn say_nearly_bar(reason: &mut Reason, number: u64, line: &str) {
    if line == "---\r" {
        reason.say(
            "line {}: --- is followed by a carriage return (CRLF): end lines with LF alone\n",
            &[GapText::Number(number)],
        );
    } else {
        reason.say(
            "line {}: remove the blanks around --- in {}\n",
            &[GapText::Number(number), GapText::Quoted(line)],
        );
    }
}

/// Says what is to be said of an input without a line of three dashes.
pub(crate) fn say_no_bar(reason: &mut Reason, parts: &InputParts<'_>) {
    if parts.script.is_some() {
        return;
    }
    reason.say(
        "no line is ---, so the whole input was read as the plant file: write --- before the script\n",
        &[],
    );
    let mut number = 0u64;
    for line in parts.plant.split('\n') {
        number = number.saturating_add(1);
        if is_nearly_bar(line) {
            return say_nearly_bar(reason, number, line);
        }
    }
}
