//! What is wrong with the keys of a plant file together, where each of them is valid.

use crate::file::{File, say_where};
use crate::reason::{GapText, Reason};
use crate::report::Report;
use crate::tree::{number, pair, table_at, values, values_below};
use hex::FromHex;
use plant::OperatorName;
use slice_table::{Field, Key, Place};
use toml::Value;

/// Returns the name of an operator as a text.
pub(crate) fn name_of(name: &OperatorName) -> &str {
    str::from_utf8(name.as_slice()).unwrap_or("")
}

/// An operator in a message about two of them: its name, a line if one is known, and its first and last number.
#[derive(Clone, Copy)]
pub(crate) struct Side<'a> {
    pub(crate) name: &'a str,
    pub(crate) line: Option<u64>,
    pub(crate) range: (u64, u64),
}

/// Says the name of an operator, and a line if one is known.
fn say_side<'a>(reason: &mut Reason, side: Side<'a>) {
    reason.say("{}", &[GapText::Words(side.name)]);
    if let Some(line) = side.line {
        reason.say(" (line {})", &[GapText::Number(line)]);
    }
}

/// Says that the numbers of two operators overlap: what these are called under their key, and each of them.
pub(crate) fn say_overlap<'a>(
    reason: &mut Reason,
    key: &'a str,
    each: &'a str,
    a: Side<'a>,
    b: Side<'a>,
) {
    reason.say("operators ", &[]);
    say_side(reason, a);
    reason.say(" and ", &[]);
    say_side(reason, b);
    reason.say(
        ": {} overlap: {} {} to {} and {} to {}",
        &[
            GapText::Words(key),
            GapText::Words(each),
            GapText::Number(a.range.0),
            GapText::Number(a.range.1),
            GapText::Number(b.range.0),
            GapText::Number(b.range.1),
        ],
    );
}

/// Returns whether two ranges have a number in common.
fn do_overlap(a: (u64, u64), b: (u64, u64)) -> bool {
    a.0 <= b.1 && b.0 <= a.1
}

/// Returns the first and the last number under a key of an operator: of a slice its minislots.
fn range_at(file: &File<'_>, operator: usize, field: Field) -> (u64, u64) {
    let Some(table) = table_at(file.document, Place::Operator(operator)) else {
        return (1, 0);
    };
    let (first, second) = pair(table, field).unwrap_or((1, 0));
    match field {
        Field::Slice => (first, first.saturating_add(second).saturating_sub(1)),
        _ => (first, second),
    }
}

/// Returns an operator in a message about a key of two operators.
fn side_of<'a>(file: &'a File<'_>, operator: usize, field: Field) -> Side<'a> {
    let place = Place::Operator(operator);
    Side {
        name: file.name_at(place).unwrap_or(""),
        line: file.lines.line_of(Key::Entry(place, field)),
        range: range_at(file, operator, field),
    }
}

/// Returns what the ranges under a key are called, and what each number is.
fn words_of(field: Field) -> (&'static str, &'static str) {
    match field {
        Field::Slice => ("slices", "minislots"),
        Field::Sids => ("sids", "SIDs"),
        _ => ("sfids", "SFIDs"),
    }
}

/// Adds that two operators have numbers under a key in common, if they do.
fn add_pair(report: &mut Report, file: &File<'_>, field: Field, a: usize, b: usize) {
    if do_overlap(range_at(file, a, field), range_at(file, b, field)) {
        let (key, each) = words_of(field);
        let mut message = Reason::new(report.alloc());
        let (a, b) = (side_of(file, a, field), side_of(file, b, field));
        say_overlap(&mut message, key, each, a, b);
        report.add(&message);
    }
}

/// Adds each later operator that has numbers under a key in common with one.
fn add_later(report: &mut Report, file: &File<'_>, field: Field, a: usize, count: usize) {
    for b in 0..count {
        if b > a {
            add_pair(report, file, field, a, b);
        }
    }
}

/// Adds each two operators that have numbers under a key in common.
fn add_pairs(report: &mut Report, file: &File<'_>, field: Field) {
    let count = values(file.document, "operator").len();
    for a in 0..count {
        add_later(report, file, field, a, count);
    }
}

/// An address, and where it is listed. Addresses are ordered by their digits, and then by their places.
type ListedAddress = (u64, usize, usize);

/// Returns the number that an address in hexadecimal is.
fn address_of(value: &Value) -> Option<u64> {
    let [a, b, c, d, e, f] = <[u8; 6] as FromHex>::from_hex(value.as_str()?).ok()?;
    Some(u64::from_be_bytes([0, 0, a, b, c, d, e, f]))
}

/// Lists the addresses of an operator.
fn list_modems(
    report: &mut Report,
    listed: &mut Vec<ListedAddress>,
    operator: usize,
    value: &Value,
) {
    for (item, modem) in values_below(value, "modems").iter().enumerate() {
        if let Some(address) = address_of(modem) {
            if listed.push((address, operator, item)).is_err() {
                report.lose();
            }
        }
    }
}

/// Returns the addresses of all operators, each after those that are less.
fn all_modems(report: &mut Report, file: &File<'_>) -> Vec<ListedAddress> {
    let mut listed = Vec::new(report.alloc());
    for (operator, value) in values(file.document, "operator").iter().enumerate() {
        list_modems(report, &mut listed, operator, value);
    }
    listed.as_mut_slice().sort_unstable();
    listed
}

/// Says where an address is listed.
fn say_listed(reason: &mut Reason, file: &File<'_>, listed: ListedAddress) {
    let (_address, operator, item) = listed;
    let place = Place::Operator(operator);
    let item = item as u64;
    reason.say(
        "{}.modems[{}]",
        &[GapText::Place(place), GapText::Number(item)],
    );
    if let Some(line) = file.lines.line_of_item(place, Field::Modems, item) {
        reason.say(" (line {})", &[GapText::Number(line)]);
    }
}

/// Adds that an address is listed in two places.
fn add_twice(report: &mut Report, file: &File<'_>, a: ListedAddress, b: ListedAddress) {
    let mut message = Reason::new(report.alloc());
    if report.is_open() {
        let text = match value_of(file, a) {
            Some(value) => value.as_str().unwrap_or(""),
            None => "",
        };
        message.say("modem {} is listed twice: ", &[GapText::Words(text)]);
        say_listed(&mut message, file, a);
        message.say(" and ", &[]);
        say_listed(&mut message, file, b);
    } else {
        message.say("modem", &[]);
    }
    report.add(&message);
}

/// Returns the value of an address at its place.
fn value_of<'f>(file: &'f File<'_>, listed: ListedAddress) -> Option<&'f Value> {
    let (_address, operator, item) = listed;
    values_below(values(file.document, "operator").get(operator)?, "modems").get(item)
}

/// Adds each modem that is listed twice.
fn add_modems_twice(report: &mut Report, file: &File<'_>) {
    let listed = all_modems(report, file);
    let mut before: Option<ListedAddress> = None;
    for modem in listed.as_slice() {
        match before {
            Some(earlier) if earlier.0 == modem.0 => add_twice(report, file, earlier, *modem),
            _ => {}
        }
        before = Some(*modem);
    }
}

/// Returns a number under a key of an operator.
fn number_at(file: &File<'_>, operator: usize, field: Field) -> u64 {
    match table_at(file.document, Place::Operator(operator)) {
        Some(table) => number(table, field).unwrap_or(0),
        None => 0,
    }
}

/// Adds that a MAP could need more elements than it has, if it could.
fn add_elements(report: &mut Report, file: &File<'_>) {
    let operators = values(file.document, "operator").len();
    let mut quotas = 0u64;
    for operator in 0..operators {
        quotas = quotas.saturating_add(number_at(file, operator, Field::Elements));
    }
    let others = (operators as u64).saturating_mul(2).saturating_add(3);
    let total = quotas.saturating_add(others);
    if total > 240 {
        let mut message = Reason::new(report.alloc());
        message.say(
            "a MAP could need {} elements, and has at most 240: {} from elements, 2 for each of the {} operators, and 3: lower elements by {} in total",
            &[
                GapText::Number(total),
                GapText::Number(quotas),
                GapText::Number(operators as u64),
                GapText::Number(total.saturating_sub(240)),
            ],
        );
        report.add(&message);
    }
}

/// Says that a budget is more than its slice.
pub(crate) fn say_over_slice(reason: &mut Reason, budget: u64, length: u64) {
    reason.say(
        "budget {} is too large: the slice has {} minislots",
        &[GapText::Number(budget), GapText::Number(length)],
    );
}

/// Adds that the budget of an operator is more than its slice, if it is.
fn add_budget(report: &mut Report, file: &File<'_>, operator: usize) {
    let (first, last) = range_at(file, operator, Field::Slice);
    let length = last.saturating_add(1).saturating_sub(first);
    let budget = number_at(file, operator, Field::Budget);
    if budget > length {
        let place = Place::Operator(operator);
        let mut message = Reason::new(report.alloc());
        let line = file.lines.line_of(Key::Entry(place, Field::Budget));
        say_where(&mut message, file, place, line);
        say_over_slice(&mut message, budget, length);
        report.add(&message);
    }
}

/// Adds each operator whose budget is more than its slice.
fn add_budgets(report: &mut Report, file: &File<'_>) {
    for operator in 0..values(file.document, "operator").len() {
        add_budget(report, file, operator);
    }
}

/// Adds what is wrong with the keys of a plant file together, except its provisioned flows.
pub(crate) fn add_joint_faults(report: &mut Report, file: &File<'_>) {
    add_pairs(report, file, Field::Slice);
    add_pairs(report, file, Field::Sids);
    add_pairs(report, file, Field::Sfids);
    add_modems_twice(report, file);
    add_elements(report, file);
    add_budgets(report, file);
}
