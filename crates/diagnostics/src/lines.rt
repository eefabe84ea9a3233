//! The invalid lines of a script, and of the input of `one`: why they are invalid. What is wrong with a line is what its parser
//! found first; the texts of its fields are looked up.

use crate::encodings::say_no_hex;
use crate::joint::name_of;
use crate::reason::{GapText, Reason};
use crate::report::Report;
use crate::values::say_address;
use line_service::{FieldError, FieldFault, LineStep, NumberName, message_in, put_line};
use plant::{OperatorRow, Plant, Routes};

/// Returns the field of a line, counted from 0; an empty one where there is none.
fn field_of(line: &str, field: usize) -> &str {
    line.split(' ').nth(field).unwrap_or("")
}

/// Says that a text is not a message.
fn say_bad_message(reason: &mut Reason, text: &str) {
    reason.say("message is invalid: ", &[]);
    say_no_hex(reason, text);
}

/// Says that a text is not an address.
fn say_bad_address<'a>(reason: &mut Reason, text: &'a str) {
    let mut what = Reason::new(reason.alloc);
    what.say("address", &[]);
    say_address(reason, &what, text);
}

/// Says that no operator has a name, and which names the operators have.
pub(crate) fn say_stranger(reason: &mut Reason, rows: &[OperatorRow], name: &str) {
    reason.say(
        "unknown operator {}: the operators are ",
        &[GapText::Quoted(name)],
    );
    let mut lead = "";
    for row in rows {
        let name = name_of(&row.get_fields().name);
        reason.say("{}{}", &[GapText::Words(lead), GapText::Words(name)]);
        lead = ", ";
    }
}

/// Returns the name of a number of a line.
fn name_text(name: NumberName) -> &'static str {
    match name {
        NumberName::Sid => "sid",
        NumberName::Minislots => "minislots",
        NumberName::Frame => "frame",
        NumberName::Start => "start",
        NumberName::Length => "length",
        NumberName::Budget => "budget",
    }
}

/// Returns the text of a number in a field. A slice is three numbers.
fn number_text(text: &str, name: NumberName) -> &str {
    let part = match name {
        NumberName::Start => 0,
        NumberName::Length => 1,
        NumberName::Budget => 2,
        NumberName::Sid | NumberName::Minislots | NumberName::Frame => return text,
    };
    text.split('/').nth(part).unwrap_or("")
}

/// Says that a number is not an integer up to its limit.
fn say_no_number<'a>(reason: &mut Reason, name: NumberName, limit: u32, field: &'a str) {
    reason.say(
        "{} must be an integer from 0 to {}, not {}",
        &[
            GapText::Words(name_text(name)),
            GapText::Number(u64::from(limit)),
            GapText::Quoted(number_text(field, name)),
        ],
    );
}

/// Says that a number has too many digits.
fn say_many_digits<'a>(reason: &mut Reason, name: NumberName, digits: usize, field: &'a str) {
    reason.say(
        "{} must have at most {} digits, not {}",
        &[
            GapText::Words(name_text(name)),
            GapText::Number(digits as u64),
            GapText::Quoted(number_text(field, name)),
        ],
    );
}

/// Says that a command has another number of fields than it must have.
fn say_other_fields(reason: &mut Reason, wanted: &str, count: u64) {
    reason.say(
        "{}, not {}",
        &[GapText::Words(wanted), GapText::Number(count)],
    );
}

/// Says that the command Z has another number of slices than the plant has operators.
fn say_other_slices(reason: &mut Reason, operators: u64, count: u64) {
    reason.say(
        "Z must have {} slices start/length/budget, one for each operator, not {}",
        &[GapText::Number(operators), GapText::Number(count)],
    );
}

/// Says how many fields the command of a line must have.
fn say_field_count(reason: &mut Reason, plant: &Plant, line: &str) {
    let count = (line.split(' ').count() as u64).saturating_sub(1);
    match (field_of(line, 0), count) {
        ("M", _) => say_other_fields(reason, "M must have 2 fields, address message", count),
        ("Q", _) => say_other_fields(reason, "Q must have 3 fields, address sid minislots", count),
        ("T", _) => say_other_fields(
            reason,
            "T must have no field, or 1, the name of an operator",
            count,
        ),
        (_, 0) => reason.say(
            "Z must have a frame and a slice start/length/budget for each operator",
            &[],
        ),
        _ => say_other_slices(reason, plant.rows().len() as u64, count.saturating_sub(1)),
    }
}

/// Says that a first field is a line of other commands.
fn say_service_line(reason: &mut Reason, word: &str, commands: &str) {
    reason.say("{} is a line of ", &[GapText::Words(word)]);
    reason.say(
        "{}: a script after a plant file has M, Q, T and Z",
        &[GapText::Words(commands)],
    );
}

/// Says that a first field is not a command of a script.
fn say_no_word(reason: &mut Reason, word: &str) {
    match word {
        "---" => reason.say(
            "only one line --- is allowed, between the plant file and the script",
            &[],
        ),
        "m" | "q" | "t" | "z" => reason.say(
            "unknown command {}: write it as a capital letter",
            &[GapText::Quoted(word)],
        ),
        "K" | "N" => say_service_line(reason, word, "serve --state, resume, restore and snapshot"),
        "P" => say_service_line(reason, word, "resume, restore and snapshot"),
        _ if word.starts_with('#') => reason.say("a script has no comments: remove the line", &[]),
        _ => reason.say(
            "unknown command {}: a line must begin with M, Q, T or Z",
            &[GapText::Quoted(word)],
        ),
    }
}

/// Returns what is wrong with how a line ends or is separated into fields, whatever these are.
fn separation_error(line: &str) -> Option<&'static str> {
    if line.ends_with('\r') {
        Some("it ends in a carriage return (CRLF): end lines with LF alone")
    } else if line.contains('\t') {
        Some("it has a tab: separate fields by one space")
    } else if line.starts_with(' ') {
        Some("it begins with a space: remove it")
    } else if line.ends_with(' ') {
        Some("it ends in a space: remove it")
    } else if line.contains("  ") {
        Some("it has two spaces in a row: separate fields by one space")
    } else {
        None
    }
}

/// Says what is wrong first with the fields of a line.
fn say_error<'a>(reason: &mut Reason, plant: &Plant, line: &'a str, error: FieldError) {
    match error {
        FieldError::UnknownCommand => say_no_word(reason, field_of(line, 0)),
        FieldError::FieldCount => say_field_count(reason, plant, line),
        FieldError::Address => say_bad_address(reason, field_of(line, 1)),
        FieldError::UnknownModem { modem } => reason.say(
            "unknown modem {}: add it to modems of an operator",
            &[GapText::Modem(modem)],
        ),
        FieldError::Hexadecimal => say_bad_message(reason, field_of(line, 2)),
        FieldError::UnknownOperator => say_stranger(reason, plant.rows(), field_of(line, 1)),
        FieldError::SliceParts { field } => reason.say(
            "each slice must be start/length/budget, not {}",
            &[GapText::Quoted(field_of(line, field))],
        ),
        FieldError::Number { field, name, limit } => {
            say_no_number(reason, name, limit, field_of(line, field))
        }
        FieldError::DigitCount {
            field,
            name,
            digits,
        } => say_many_digits(reason, name, digits, field_of(line, field)),
        FieldError::TooLong => reason.say("the line is too long", &[]),
    }
}

/// Adds that a line is invalid, if the reason says why.
fn add_invalid(report: &mut Report, bar: usize, number: u64, line: &str, wrong: &Reason) {
    if !wrong.is_silent() {
        let mut message = Reason::new(report.alloc());
        if report.is_open() {
            say_line(&mut message, bar, number, line);
        }
        message.say("{}", &[GapText::Told(wrong)]);
        report.add(&message);
    }
}

/// Says which line a message is about. Where a plant file comes before a script, its lines are counted from the input's first
/// and from the script's first.
pub(crate) fn say_line<'a>(reason: &mut Reason, bar: usize, number: u64, line: &'a str) {
    let in_input = number.saturating_add(bar as u64);
    if bar > 0 {
        reason.say(
            "line {} (script line {}), {}: ",
            &[
                GapText::Number(in_input),
                GapText::Number(number),
                GapText::Quoted(line),
            ],
        );
    } else {
        reason.say(
            "line {}, {}: ",
            &[GapText::Number(in_input), GapText::Quoted(line)],
        );
    }
}

/// Adds why a line is invalid.
fn add_fault<'a>(
    report: &mut Report,
    plant: &Plant,
    bar: usize,
    number: u64,
    line: &'a str,
    fault: FieldFault,
) {
    let FieldFault::Invalid(error) = fault else {
        return report.lose();
    };
    let mut wrong = Reason::new(report.alloc());
    match separation_error(line) {
        Some(words) => wrong.say(words, &[]),
        None => say_error(&mut wrong, plant, line, error),
    }
    add_invalid(report, bar, number, line, &wrong);
}

/// Returns the steps of a script, and adds each of its invalid lines; if there is one, the steps are not all. The line of three
/// dashes has the number `bar`.
pub(crate) fn steps_of(
    report: &mut Report,
    routes: &mut Routes,
    script: &str,
    bar: usize,
) -> Vec<LineStep> {
    let alloc = report.alloc();
    let (mut steps, mut fields) = (Vec::new(alloc), Vec::new(alloc));
    let mut number = 0u64;
    for line in script.split('\n') {
        number = number.saturating_add(1);
        let bytes = line.as_bytes();
        match put_line(alloc, routes, number, bytes, &mut fields, &mut steps) {
            Ok(()) => {}
            Err(fault) => {
                steps.clear();
                add_fault(report, routes.plant(), bar, number, line, fault);
            }
        }
    }
    steps
}

/// Says why a line of the input of `one` is not a message, if it is none.
fn say_no_message<'a>(reason: &mut Reason, line: &'a str) {
    if line.is_empty() {
        return;
    }
    if let Some(wrong) = separation_error(line) {
        return reason.say(wrong, &[]);
    }
    match message_in(reason.alloc, line.as_bytes()) {
        Ok(Some(_message)) => {}
        Ok(None) => say_bad_message(reason, line),
        Err(_full) => reason.is_lost = true,
    }
}

/// Adds each line of the input of `one` that is not a message.
pub(crate) fn add_no_messages(report: &mut Report, input: &str) {
    let mut number = 0u64;
    for line in input.split('\n') {
        number = number.saturating_add(1);
        let mut wrong = Reason::new(report.alloc());
        say_no_message(&mut wrong, line);
        add_invalid(report, 0, number, line, &wrong);
    }
}
