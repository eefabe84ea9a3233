//! Keys and tables of a plant file that are not known: the program reads none of them.

use crate::file::File;
use crate::key_messages::{KeyMessages, Severity};
use crate::reason::{GapText, Reason};
use crate::tree::{values, values_below, values_in};
use crate::wanted::has;
use slice_table::{Field, Place, class_fields, flow_fields, operator_fields, plant_fields};
use std::alloc::Global;
use strsim::osa_distance;
use toml::Value;

/// The tables that are at the head of a plant file.
const AT_HEAD: [&str; 3] = ["plant", "class", "operator"];

/// The most letters by which a key that is meant differs from what is written.
const NEAR: usize = 2;

/// Of some words the one that is nearest to another, if one is near.
#[derive(Drop)]
pub(crate) struct Nearest<'a> {
    word: &'a str,
    pub(crate) found: Option<&'static str>,
    least: usize,
}

impl<'a> Nearest<'a> {
    /// Starts with no word to compare.
    pub(crate) fn new(word: &'a str) -> Nearest<'a> {
        Nearest {
            word,
            found: None,
            least: NEAR + 1,
        }
    }

    /// Looks at one word more.
    fn try_word(&mut self, reason: &mut Reason, other: &'static str) {
        match osa_distance(reason.alloc, self.word, other) {
            Ok(distance) => {
                if distance < self.least && distance < other.len() {
                    self.found = Some(other);
                    self.least = distance;
                }
            }
            Err(_full) => reason.is_lost = true,
        }
    }

    /// Looks at some words more.
    pub(crate) fn try_words(&mut self, reason: &mut Reason, words: &[&'static str]) {
        for word in words {
            self.try_word(reason, word);
        }
    }

    /// Looks at the names of some keys more.
    fn try_fields(&mut self, reason: &mut Reason, fields: &[Field]) {
        for field in fields {
            self.try_word(reason, field.text());
        }
    }
}

/// Returns the table that has a key of this name, as a file writes it.
fn table_with(word: &str) -> Option<&'static str> {
    if has(&operator_fields(), word) {
        Some("[[operator]]")
    } else if has(&plant_fields(), word) {
        Some("[plant]")
    } else if has(&flow_fields(), word) {
        Some("[[operator.flow]]")
    } else {
        None
    }
}

/// Says what may be meant by a key or a table that is not known.
fn say_meant(reason: &mut Reason, nearest: &Nearest<'_>) {
    let word = nearest.word;
    if let Some(near) = nearest.found {
        reason.say(" (did you mean {}?)", &[GapText::Words(near)]);
    } else if word == "flow" {
        reason.say(" (did you mean [[operator.flow]]?)", &[]);
    } else if let Some(table) = table_with(word) {
        reason.say(
            " ({} belongs in {})",
            &[GapText::Words(word), GapText::Words(table)],
        );
    }
}

/// Adds a key or a table that is not known, with its message: its line, what it is, its name, and what may be meant.
fn add_unread(
    found: &mut KeyMessages,
    line: Option<u64>,
    kind: &str,
    name: &Reason,
    nearest: &Nearest<'_>,
) {
    let mut message = found.new_message();
    if let Some(line) = line {
        message.say("line {}: ", &[GapText::Number(line)]);
    }
    message.say("unknown {} {}", &[GapText::Words(kind), GapText::Cut(name)]);
    say_meant(&mut message, nearest);
    found.add(name, &message);
}

/// Adds a key of a table that is not known, with its message.
fn add_unread_key(
    found: &mut KeyMessages,
    file: &File<'_>,
    word: &str,
    place: Place,
    fields: &[Field],
) {
    let mut name = Reason::new(found.alloc());
    let mut nearest = Nearest::new(word);
    let mut line = None;
    if found.is_open() {
        name.say("{}.{}", &[GapText::Place(place), GapText::Words(word)]);
        nearest.try_fields(&mut name, fields);
        line = file.lines.line_in(place, word);
    }
    add_unread(found, line, "key", &name, &nearest);
}

/// Adds the keys of a table that are not known, where it is one.
fn add_table(
    found: &mut KeyMessages,
    file: &File<'_>,
    value: &Value,
    place: Place,
    fields: &[Field],
) {
    if let Some(table) = value.as_table() {
        for (key, _value) in table.iter() {
            if !has(fields, key.as_str()) {
                add_unread_key(found, file, key.as_str(), place, fields);
            }
        }
    }
}

/// Returns whether a value is an array that has a table.
fn has_tables(value: &Value) -> bool {
    for value in values_in(value) {
        if value.is_table() {
            return true;
        }
    }
    false
}

/// Adds a key or a table at the top of a file that is not known, by its name as a file writes it.
fn add_unread_at_top(found: &mut KeyMessages, file: &File<'_>, word: &str, value: &Value) {
    let (kind, written) = if has_tables(value) {
        ("table", "[[{}]]")
    } else if value.is_table() {
        ("table", "[{}]")
    } else {
        ("key", "{}")
    };
    let mut name = Reason::new(found.alloc());
    let mut nearest = Nearest::new(word);
    let mut line = None;
    if found.is_open() {
        name.say(written, &[GapText::Words(word)]);
        nearest.try_words(&mut name, &AT_HEAD);
        line = file.lines.line_at_top(word);
    }
    add_unread(found, line, kind, &name, &nearest);
}

/// Adds the tables and keys at the top of a file that are not known.
fn add_top(found: &mut KeyMessages, file: &File<'_>) {
    for (key, value) in file.document.iter() {
        if !AT_HEAD.contains(&key.as_str()) {
            add_unread_at_top(found, file, key.as_str(), value);
        }
    }
}

/// Adds the keys of classes that are not known.
fn add_classes(found: &mut KeyMessages, file: &File<'_>) {
    for (class, value) in values(file.document, "class").iter().enumerate() {
        add_table(found, file, value, Place::Class(class), &class_fields());
    }
}

/// Adds the keys of an operator's provisioned flows that are not known.
fn add_flows(found: &mut KeyMessages, file: &File<'_>, operator: usize, flows: &[Value]) {
    for (flow, value) in flows.iter().enumerate() {
        let place = Place::Flow(operator, flow);
        add_table(found, file, value, place, &flow_fields());
    }
}

/// Adds the keys of operators and of their flows that are not known.
fn add_operators(found: &mut KeyMessages, file: &File<'_>) {
    for (operator, value) in values(file.document, "operator").iter().enumerate() {
        let place = Place::Operator(operator);
        add_table(found, file, value, place, &operator_fields());
        add_flows(found, file, operator, values_below(value, "flow"));
    }
}

/// Returns the keys and tables of a plant file that are not known.
pub(crate) fn unknown_keys(alloc: Global, file: &File<'_>, severity: Severity) -> KeyMessages {
    let mut found = KeyMessages::new(alloc, severity, "unknown key", "unknown keys");
    add_top(&mut found, file);
    if let Some(value) = file.document.get("plant") {
        add_table(&mut found, file, value, Place::Plant, &plant_fields());
    }
    add_classes(&mut found, file);
    add_operators(&mut found, file);
    found
}

/// Says in a line of each key and each table of a plant file that it is not known, and which key may be meant.
pub(crate) fn say_all_unread(reason: &mut Reason, file: &File<'_>) {
    unknown_keys(reason.alloc, file, Severity::Warning).say(reason);
}
