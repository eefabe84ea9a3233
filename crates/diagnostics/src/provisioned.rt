//! Provisioned flows that do not fit their operator's keys.

use crate::encodings::{need_of, units_of};
use crate::file::{File, say_where};
use crate::reason::{GapText, Reason};
use crate::report::Report;
use crate::tree::{number, pair, table_at, text, values};
use param_sets::Units;
use slice_table::{Field, Key, Place};
use toml::{Table, Value};

/// What the provisioned flows of an operator need together.
#[derive(Clone, Copy)]
struct ProvisionedNeed {
    flows: u64,
    sids: u64,
    minislots: u64,
    elements: u64,
}

/// Adds what a provisioned flow needs.
fn add_flow(
    reason: &mut Reason,
    document: &Table,
    units: Units,
    value: &Value,
    demand: &mut ProvisionedNeed,
) {
    if let Some(table) = value.as_table() {
        let digits = text(table, Field::Encoding).unwrap_or("");
        if let Some(need) = need_of(reason, document, units, digits) {
            demand.sids = demand.sids.saturating_add(1);
            demand.minislots = demand.minislots.saturating_add(u64::from(need.minislots));
            demand.elements = demand.elements.saturating_add(u64::from(need.elements));
        }
    }
}

/// Returns what provisioned flows need together. Where one of them is invalid the reason says why.
fn demand_of(
    reason: &mut Reason,
    document: &Table,
    units: Units,
    flows: &[Value],
) -> ProvisionedNeed {
    let mut demand = ProvisionedNeed {
        flows: flows.len() as u64,
        sids: 0,
        minislots: 0,
        elements: 0,
    };
    for value in flows {
        add_flow(reason, document, units, value, &mut demand);
    }
    demand
}

/// Returns how many numbers an operator has under a key that is a range.
fn count(table: &Table, field: Field) -> u64 {
    let (first, last) = pair(table, field).unwrap_or((1, 0));
    last.saturating_add(1).saturating_sub(first)
}

/// Says that a range has too few numbers for the provisioned flows.
fn say_few(reason: &mut Reason, table: &Table, field: Field, need: u64, what: &str) {
    let room = count(table, field);
    if need > room {
        reason.say(
            "{} must have at least {} numbers, not {}: {} {}",
            &[
                GapText::Words(field.text()),
                GapText::Number(need),
                GapText::Number(room),
                GapText::Number(need),
                GapText::Words(what),
            ],
        );
    }
}

/// Says that a limit is too small for the provisioned flows.
fn say_small(reason: &mut Reason, table: &Table, field: Field, need: u64, what: &str) {
    let room = number(table, field).unwrap_or(0);
    if need > room {
        reason.say(
            "{} {} is too small: {} {}",
            &[
                GapText::Words(field.text()),
                GapText::Number(room),
                GapText::Number(need),
                GapText::Words(what),
            ],
        );
    }
}

/// Says that the provisioned flows do not fit what an operator has under a key, if they do not.
fn say_over(reason: &mut Reason, table: &Table, demand: ProvisionedNeed, field: Field) {
    match field {
        Field::Flows => say_small(reason, table, field, demand.flows, "flows are provisioned"),
        Field::Sfids => say_few(reason, table, field, demand.flows, "flows are provisioned"),
        Field::Sids => {
            let what = "provisioned flows have an admitted set";
            say_few(reason, table, field, demand.sids, what);
        }
        Field::Budget => {
            let what = "minislots are committed to provisioned flows";
            say_small(reason, table, field, demand.minislots, what);
        }
        _ => {
            let what = "elements are committed to provisioned flows";
            say_small(reason, table, field, demand.elements, what);
        }
    }
}

/// Adds that the provisioned flows do not fit what an operator has under a key, if they do not.
fn add_over(
    report: &mut Report,
    file: &File<'_>,
    place: Place,
    table: &Table,
    demand: ProvisionedNeed,
    field: Field,
) {
    let mut wrong = Reason::new(report.alloc());
    say_over(&mut wrong, table, demand, field);
    if !wrong.is_silent() {
        let mut message = Reason::new(report.alloc());
        let line = file.lines.line_of(Key::Entry(place, field));
        say_where(&mut message, file, place, line);
        message.say("{}", &[GapText::Told(&wrong)]);
        report.add(&message);
    }
}

/// Adds each key of an operator that its provisioned flows do not fit. Adds nothing where a flow is invalid.
fn add_operator(report: &mut Report, file: &File<'_>, units: Units, operator: usize) {
    let place = Place::Operator(operator);
    let Some(table) = table_at(file.document, place) else {
        return;
    };
    let mut wrong = Reason::new(report.alloc());
    let flows = values(table, "flow");
    let demand = demand_of(&mut wrong, file.document, units, flows);
    if wrong.is_lost {
        report.lose();
    }
    if !wrong.is_silent() {
        return;
    }
    for field in [
        Field::Flows,
        Field::Sfids,
        Field::Sids,
        Field::Budget,
        Field::Elements,
    ] {
        add_over(report, file, place, table, demand, field);
    }
}

/// Adds each key of each operator that its provisioned flows do not fit.
pub(crate) fn add_provisioned_faults(report: &mut Report, file: &File<'_>) {
    if let Some(units) = units_of(file.document) {
        for operator in 0..values(file.document, "operator").len() {
            add_operator(report, file, units, operator);
        }
    }
}
