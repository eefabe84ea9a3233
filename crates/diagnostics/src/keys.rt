//! What is wrong with each key of a plant file: with its value, or that it is missing.

use crate::encodings::{encoding_in, need_of, stated_below_7, units_of};
use crate::file::{File, say_where, say_where_at_top};
use crate::reason::{GapText, Reason};
use crate::report::Report;
use crate::tree::{text, value_at, values_below, values_in};
use crate::unread::Nearest;
use crate::values::{
    is_address, say_address, say_item, say_name, say_number, say_range, say_slice_value,
};
use crate::wanted::{bounds_of, say_must, say_wanted};
use dsx_messages::Modem;
use hex::FromHex;
use slice_table::{Field, Key, Place, class_fields, flow_fields, operator_fields, plant_fields};
use toml::{Table, Value};

/// Adds what is wrong in a table, if something is said.
fn add_fault(
    report: &mut Report,
    file: &File<'_>,
    place: Place,
    line: Option<u64>,
    wrong: &Reason,
) {
    if wrong.is_silent() {
        return;
    }
    let mut message = Reason::new(report.alloc());
    if report.is_open() {
        say_where(&mut message, file, place, line);
    }
    message.say("{}", &[GapText::Told(wrong)]);
    report.add(&message);
}

/// Returns whether a table must have a key.
fn is_required(table: &Table, place: Place, field: Field) -> bool {
    match (place, field) {
        (Place::Operator(_), Field::Flow) => false,
        (Place::Operator(_), Field::Step) => text(table, Field::Policy) == Some("aged"),
        (Place::Plant, field) => !has_default(field),
        _ => true,
    }
}

/// Returns whether a key of the table `plant` has a default.
fn has_default(field: Field) -> bool {
    match field {
        Field::RangingStart | Field::RangingEnd | Field::DataStart | Field::DataEnd => true,
        Field::AckWait | Field::Resends | Field::Hold | Field::FirstFrame => true,
        _ => false,
    }
}

/// Says that a key is missing.
fn say_missing(reason: &mut Reason, file: &File<'_>, place: Place, field: Field) {
    reason.say(
        "{} is missing: it must be ",
        &[GapText::Words(field.text())],
    );
    say_wanted(reason, file, place, field);
}

/// Says what is wrong with the encoding of a class.
fn say_class_encoding(reason: &mut Reason, digits: &str) {
    if let Some(flow) = encoding_in(reason, digits) {
        if let Some(subtype) = stated_below_7(&flow) {
            reason.say(
                "a class must not state subtype {}: subtypes 1 to 6 are the flow's",
                &[GapText::Number(u64::from(subtype))],
            );
        }
    }
}

/// Says what is wrong with the encoding of a provisioned flow. Without a valid frame and minislot it is only decoded.
fn say_flow_encoding(reason: &mut Reason, file: &File<'_>, digits: &str) {
    match units_of(file.document) {
        Some(units) => {
            let _need = need_of(reason, file.document, units, digits);
        }
        None => {
            let _flow = encoding_in(reason, digits);
        }
    }
}

/// Says what is wrong with a value that must be an encoding.
fn say_encoding<'v>(reason: &mut Reason, file: &File<'_>, place: Place, value: &'v Value) {
    let Some(digits) = value.as_str() else {
        return say_must(reason, file, place, Field::Encoding, value);
    };
    let mut wrong = Reason::new(reason.alloc);
    match place {
        Place::Flow(..) => say_flow_encoding(&mut wrong, file, digits),
        _ => say_class_encoding(&mut wrong, digits),
    }
    if !wrong.is_silent() {
        reason.say(
            "encoding {} is invalid: {}",
            &[GapText::Quoted(digits), GapText::Told(&wrong)],
        );
    }
}

/// Returns whether a value is the address of a modem.
pub(crate) fn is_address_of(value: &Value, modem: Modem) -> bool {
    match value.as_str() {
        Some(text) => match <[u8; 6] as FromHex>::from_hex(text) {
            Ok(address) => Modem(address) == modem,
            Err(_fault) => false,
        },
        None => false,
    }
}

/// Returns whether a list of addresses may have a modem: it has, or one of its items is invalid.
fn may_list(modems: &[Value], modem: Modem) -> bool {
    for value in modems {
        if !is_address(value.as_str().unwrap_or("")) || is_address_of(value, modem) {
            return true;
        }
    }
    modems.is_empty()
}

/// Says that a modem of a provisioned flow is not one of its operator's, if no address of the operator's list is it.
fn say_stray(reason: &mut Reason, file: &File<'_>, place: Place, address: &str) {
    let Place::Flow(operator, _) = place else {
        return;
    };
    let modems = match value_at(file.document, Place::Operator(operator)) {
        Some(value) => values_below(value, "modems"),
        None => &[],
    };
    if let Ok(bytes) = <[u8; 6] as FromHex>::from_hex(address) {
        if !may_list(modems, Modem(bytes)) {
            reason.say(
                "modem {} is not one of this operator: add it to modems of operator[{}]",
                &[GapText::Quoted(address), GapText::Number(operator as u64)],
            );
        }
    }
}

/// Says what is wrong with a value that must be the address of a provisioned flow's modem.
fn say_modem<'v>(reason: &mut Reason, file: &File<'_>, place: Place, value: &'v Value) {
    let Some(address) = value.as_str() else {
        return say_must(reason, file, place, Field::Modem, value);
    };
    if is_address(address) {
        say_stray(reason, file, place, address);
    } else {
        let mut what = Reason::new(reason.alloc);
        what.say("modem", &[]);
        say_address(reason, &what, address);
    }
}

/// Says what is wrong with a value that must be a policy, and which policy may be meant.
fn say_policy<'v>(reason: &mut Reason, file: &File<'_>, place: Place, value: &'v Value) {
    let name = value.as_str().unwrap_or("");
    if ["strict", "aged", "short"].contains(&name) {
        return;
    }
    say_must(reason, file, place, Field::Policy, value);
    let mut nearest = Nearest::new(name);
    nearest.try_words(reason, &["strict", "aged", "short"]);
    if let Some(policy) = nearest.found {
        reason.say(" (did you mean {}?)", &[GapText::Words(policy)]);
    }
}

/// Says what is wrong with a value that must be a list of modems, its items left aside.
fn say_modems<'v>(reason: &mut Reason, file: &File<'_>, place: Place, value: &'v Value) {
    let count = values_in(value).len();
    if count == 0 {
        say_must(reason, file, place, Field::Modems, value);
    } else if count > 1024 {
        reason.say(
            "modems must have at most 1024 addresses, not {}",
            &[GapText::Number(count as u64)],
        );
    }
}

/// Says what is wrong with a value that must be an array of flows.
fn say_flows<'v>(reason: &mut Reason, file: &File<'_>, place: Place, value: &'v Value) {
    if value.as_array().is_none() {
        say_must(reason, file, place, Field::Flow, value);
    }
}

/// Says what is wrong with a value under a key, if something is.
fn say_wrong<'v>(
    reason: &mut Reason,
    file: &File<'_>,
    place: Place,
    field: Field,
    value: &'v Value,
) {
    match field {
        Field::Encoding => say_encoding(reason, file, place, value),
        Field::Slice => say_slice_value(reason, file, place, field, value),
        Field::Sfids | Field::Sids => say_range(reason, file, place, field, value),
        Field::Policy => say_policy(reason, file, place, value),
        Field::Modem => say_modem(reason, file, place, value),
        Field::Modems => say_modems(reason, file, place, value),
        Field::Flow => say_flows(reason, file, place, value),
        Field::Name => say_name(reason, file, place, field, value),
        Field::Head => say_number(reason, file, place, field, value),
        _ if bounds_of(field).is_some() => say_number(reason, file, place, field, value),
        _ => {}
    }
}

/// Adds what is wrong with a key of a table.
fn add_entry(report: &mut Report, file: &File<'_>, place: Place, table: &Table, field: Field) {
    let mut wrong = Reason::new(report.alloc());
    let is_needed = is_required(table, place, field);
    match table.get(field.text()) {
        None if is_needed => say_missing(&mut wrong, file, place, field),
        Some(value) if is_needed || field != Field::Step => {
            say_wrong(&mut wrong, file, place, field, value);
        }
        _ => {}
    }
    if !wrong.is_silent() {
        let line = if report.is_open() {
            file.lines.line_of(Key::Entry(place, field))
        } else {
            None
        };
        add_fault(report, file, place, line, &wrong);
    }
}

/// Adds what is wrong with the keys of a table.
fn add_entries(
    report: &mut Report,
    file: &File<'_>,
    place: Place,
    table: &Table,
    fields: &[Field],
) {
    for field in fields {
        add_entry(report, file, place, table, *field);
    }
}

/// Adds what is wrong with the table at a place.
fn add_table(report: &mut Report, file: &File<'_>, place: Place, value: &Value, fields: &[Field]) {
    match value.as_table() {
        Some(table) => add_entries(report, file, place, table, fields),
        None => {
            let mut message = Reason::new(report.alloc());
            say_where_at_top(&mut message, file, Key::Table(place));
            message.say("must be a table, not {}", &[GapText::Typed(value)]);
            report.add(&message);
        }
    }
}

/// Adds which items of an operator's list of modems are not addresses.
fn add_modems(report: &mut Report, file: &File<'_>, place: Place, value: &Value) {
    let mut item = 0u64;
    for address in values_below(value, "modems") {
        let mut wrong = Reason::new(report.alloc());
        say_item(&mut wrong, item, address);
        if !wrong.is_silent() {
            let line = if report.is_open() {
                file.lines.line_of_item(place, Field::Modems, item)
            } else {
                None
            };
            add_fault(report, file, place, line, &wrong);
        }
        item = item.saturating_add(1);
    }
}

/// Adds what is wrong with an operator's provisioned flows.
fn add_flows(report: &mut Report, file: &File<'_>, operator: usize, value: &Value) {
    for (flow, table) in values_below(value, "flow").iter().enumerate() {
        let place = Place::Flow(operator, flow);
        add_table(report, file, place, table, &flow_fields());
    }
}

/// Adds what is wrong with the operators.
fn add_operators(report: &mut Report, file: &File<'_>, operators: &[Value]) {
    for (operator, value) in operators.iter().enumerate() {
        let place = Place::Operator(operator);
        add_table(report, file, place, value, &operator_fields());
        add_modems(report, file, place, value);
        add_flows(report, file, operator, value);
    }
}

/// Adds what is wrong with the classes.
fn add_classes(report: &mut Report, file: &File<'_>, classes: &[Value]) {
    for (class, value) in classes.iter().enumerate() {
        add_table(report, file, Place::Class(class), value, &class_fields());
    }
}

/// Adds that an array of tables at the top of the file is none, or has too many tables. Returns its tables, if it is valid.
fn add_array<'f>(
    report: &mut Report,
    file: &File<'_>,
    key: Key,
    value: &'f Value,
    most: usize,
) -> &'f [Value] {
    let tables = values_in(value);
    let mut message = Reason::new(report.alloc());
    if value.as_array().is_none() {
        say_where_at_top(&mut message, file, key);
        message.say(
            "must be an array of tables: write [[{}]], not {}",
            &[GapText::Key(key), GapText::Typed(value)],
        );
        report.add(&message);
        &[]
    } else if tables.len() > most {
        let (count, most) = (tables.len() as u64, most as u64);
        message.say(
            "{} tables [[{}]]: at most {} are allowed",
            &[
                GapText::Number(count),
                GapText::Key(key),
                GapText::Number(most),
            ],
        );
        report.add(&message);
        &[]
    } else {
        tables
    }
}

/// Adds what is wrong with the table `plant`.
fn add_plant(report: &mut Report, file: &File<'_>) {
    match file.document.get("plant") {
        Some(value) => add_table(report, file, Place::Plant, value, &plant_fields()),
        None => {
            let mut message = Reason::new(report.alloc());
            message.say(
                "table [plant] is missing: write it with frame_minislots and its other keys",
                &[],
            );
            report.add(&message);
        }
    }
}

/// Adds that there is no operator.
fn add_no_operator(report: &mut Report) {
    let mut message = Reason::new(report.alloc());
    message.say("no operator: write 1 to 32 tables [[operator]]", &[]);
    report.add(&message);
}

/// Adds what is wrong with each key of a plant file, in the order of the keys.
pub(crate) fn add_key_faults(report: &mut Report, file: &File<'_>) {
    add_plant(report, file);
    if let Some(value) = file.document.get("class") {
        let classes = add_array(report, file, Key::Classes, value, 64);
        add_classes(report, file, classes);
    }
    match file.document.get("operator") {
        Some(value) if value.as_array().is_none() || !values_in(value).is_empty() => {
            let operators = add_array(report, file, Key::Operators, value, 32);
            add_operators(report, file, operators);
        }
        _ => add_no_operator(report),
    }
}
