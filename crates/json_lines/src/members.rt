//! The members of the object of a line.

ghost use Rattle.std.specs.Prelude.{◌≡◌, Some, OnOk, codes};
ghost use Rattle.serde_json.specs.Data.{put, string};
ghost use Rattle.serde_json.specs.View.{members_view};
ghost use Rattle.json_lines.specs.NoteMembers.{put_if, with_comparison, with_check, with_note};

use crate::context::{Comparison, DecidingCheck, OutputNote};
use crate::object::JsonObject;
use crate::plain_line::PlainLine;
use crate::remark::{Remark, StepSubject, remark_of};
use std::alloc::AllocError;

/// Returns the name of a reply's message, by its type in hexadecimal.
fn message_name(digits: &str) -> Option<&'static str> {
    match digits {
        "10" => Some("DSA-RSP"),
        "13" => Some("DSC-RSP"),
        "16" => Some("DSD-RSP"),
        _ => None,
    }
}

/// Adds a number that is written in hexadecimal at a place of a text.
fn put_hexadecimal(
    object: &mut JsonObject,
    key: &str,
    digits: Option<&str>,
) -> Result<(), AllocError> {
    let Some(digits) = digits else {
        return Ok(());
    };
    match u64::from_str_radix(digits, 16) {
        Ok(number) => object.put_number(key, number),
        Err(_error) => Ok(()),
    }
}

/// Adds what the bytes of a reply begin with: the message, its transaction and its code.
fn put_reply(object: &mut JsonObject, bytes: &str) -> Result<(), AllocError> {
    object.put_text("bytes", bytes)?;
    if let Some(name) = bytes.get(0..2).and_then(message_name) {
        object.put_text("message", name)?;
    }
    put_hexadecimal(object, "transaction", bytes.get(2..6))?;
    put_hexadecimal(object, "code", bytes.get(6..8))
}

/// Adds the numbers that a check compared.
fn put_comparison(object: &mut JsonObject, comparison: Comparison) -> Result<(), AllocError>
    ensures { OnOk result (members_view object.new.members.entries ≡ with_comparison comparison (members_view object.old.members.entries)) }
{
    object.put_number("held", comparison.held)?;
    object.put_number("limit", comparison.limit)?;
    if let Some(needed) = comparison.needed {
        object.put_number("needed", needed)?;
    }
    match comparison.from_frame {
        Some(frame) => object.put_number("from_frame", frame),
        None => Ok(()),
    }
}

/// Adds the check that decided an output, and the numbers that it compared.
fn put_check(object: &mut JsonObject, check: &DecidingCheck) -> Result<(), AllocError>
    ensures { OnOk result (members_view object.new.members.entries ≡ with_check (Some check.now) (members_view object.old.members.entries)) }
{
    object.put_number("check", check.number)?;
    object.put_text("check_name", check.name.as_str())?;
    match check.comparison {
        Some(comparison) => put_comparison(object, comparison),
        None => Ok(()),
    }
}

/// Adds what is known of an output besides its own line.
pub(crate) fn put_note(object: &mut JsonObject, note: &OutputNote) -> Result<(), AllocError>
    // An object has the note's line, its check and the numbers of the check, each under its name, and nothing else.
    ensures { OnOk result (members_view object.new.members.entries ≡ with_note note.now (members_view object.old.members.entries)) }
{
    if let Some(line) = note.line {
        object.put_number("line", line)?;
    }
    match &note.check {
        Some(check) => put_check(object, check),
        None => Ok(()),
    }
}

/// Adds what a fault of a plant says: its number, and the words after it.
fn put_plant_fault(object: &mut JsonObject, words: &str) -> Result<(), AllocError> {
    let (number, detail) = words.split_once(' ').unwrap_or((words, ""));
    if let Ok(number) = number.parse::<u64>() {
        object.put_number("number", number)?;
    }
    if detail.is_empty() {
        Ok(())
    } else {
        object.put_text("detail", detail)
    }
}

/// Adds what a fault says.
fn put_fault(object: &mut JsonObject, fault: &str) -> Result<(), AllocError> {
    let (word, rest) = fault.split_once(' ').unwrap_or((fault, ""));
    object.put_text("fault", word)?;
    match word {
        "plant" => put_plant_fault(object, rest),
        "line" => match rest.parse::<u64>() {
            Ok(line) => object.put_number("line", line),
            Err(_error) => Ok(()),
        },
        _ => Ok(()),
    }
}

/// Adds the transaction or the request that a remark is about.
fn put_subject(object: &mut JsonObject, subject: StepSubject) -> Result<(), AllocError> {
    match subject {
        StepSubject::Nothing => Ok(()),
        StepSubject::Transaction { transaction } => object.put_number("transaction", transaction),
        StepSubject::Request { sid, minislots } => {
            object.put_number("sid", sid)?;
            object.put_number("minislots", minislots)
        }
    }
}

/// Adds a number of what a reply names, by the words for it.
fn put_named(object: &mut JsonObject, words: &str) -> Result<(), AllocError> {
    let Some((name, number)) = words.split_once(' ') else {
        return Ok(());
    };
    let key = match name {
        "SFID" => "sfid",
        "SID" => "sid",
        "reference" => "reference",
        "parameter" => "parameter",
        _ => return Ok(()),
    };
    match number.parse::<u64>() {
        Ok(number) => object.put_number(key, number),
        Err(_error) => Ok(()),
    }
}

/// Adds the numbers that a reply names.
fn put_all_named(object: &mut JsonObject, named: &str) -> Result<(), AllocError> {
    for words in named.split(", ") {
        put_named(object, words)?;
    }
    Ok(())
}

/// Adds what a remark on a reply says.
fn put_reply_remark(object: &mut JsonObject, remark: Remark<'_>) -> Result<(), AllocError> {
    let Remark::Reply {
        message,
        modem,
        transaction,
        code,
        named,
    } = remark
    else {
        return Ok(());
    };
    object.put_text("type", "reply")?;
    object.put_text("message", message)?;
    object.put_text("modem", modem)?;
    object.put_number("transaction", transaction)?;
    object.put_text("code_name", code)?;
    put_all_named(object, named)
}

/// Adds what a remark says that is an output.
fn put_remark(object: &mut JsonObject, remark: Remark<'_>) -> Result<(), AllocError> {
    match remark {
        Remark::Reply { .. } => put_reply_remark(object, remark),
        Remark::Drop {
            modem,
            cause,
            subject,
        } => {
            object.put_text("type", "drop")?;
            if let Some(modem) = modem {
                object.put_text("modem", modem)?;
            }
            object.put_text("cause", cause)?;
            put_subject(object, subject)
        }
        Remark::Frame { frame, operator } => {
            object.put_text("type", "frame")?;
            object.put_number("frame", frame)?;
            object.put_text("operator", operator)
        }
        Remark::Map { frame } => {
            object.put_text("type", "map")?;
            object.put_number("frame", frame)
        }
        Remark::Other => object.put_text("type", "remark"),
    }
}

/// Adds what a line of output says.
fn put_output(object: &mut JsonObject, line: PlainLine<'_>) -> Result<(), AllocError> {
    match line {
        PlainLine::Reply { modem, bytes } => {
            object.put_text("type", "reply")?;
            object.put_text("modem", modem)?;
            put_reply(object, bytes)
        }
        PlainLine::Drop { modem, cause } => {
            object.put_text("type", "drop")?;
            if modem != "-" {
                object.put_text("modem", modem)?;
            }
            object.put_text("cause", cause)
        }
        PlainLine::Frame {
            operator,
            frame,
            elements,
        } => {
            object.put_text("type", "frame")?;
            object.put_text("operator", operator)?;
            object.put_number("frame", frame)?;
            object.put_words("elements", elements)
        }
        PlainLine::Map { frame, bytes } => {
            object.put_text("type", "map")?;
            object.put_number("frame", frame)?;
            object.put_text("bytes", bytes)
        }
        _ => object.put_text("type", "other"),
    }
}

/// Adds what a line says.
pub(crate) fn put_line(object: &mut JsonObject, line: PlainLine<'_>) -> Result<(), AllocError> {
    match line {
        PlainLine::Script { number } => {
            object.put_text("type", "line")?;
            object.put_number("line", number)
        }
        PlainLine::Check { number, name } => {
            object.put_text("type", "check")?;
            object.put_number("check", number)?;
            object.put_text("check_name", name)
        }
        PlainLine::Remark { remark } => put_remark(object, remark_of(remark)),
        PlainLine::Fault { fault } => {
            object.put_text("type", "fault")?;
            put_fault(object, fault)
        }
        PlainLine::Valid => object.put_text("type", "ok"),
        _ => put_output(object, line),
    }
}

/// Adds the numbers that a check compared, as a line of their own.
pub(crate) fn put_comparison_line(
    object: &mut JsonObject,
    line: Option<u64>,
    comparison: Comparison,
) -> Result<(), AllocError>
    ensures { OnOk result (members_view object.new.members.entries
        ≡ with_comparison comparison (put_if (codes "line") line
        (put (codes "type") (string (codes "comparison")) (members_view object.old.members.entries)))) }
{
    object.put_text("type", "comparison")?;
    if let Some(line) = line {
        object.put_number("line", line)?;
    }
    put_comparison(object, comparison)
}
