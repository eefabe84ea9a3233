//! Encodings of classes and of provisioned flows that no operator can serve, or not as they say.

use crate::file::File;
use crate::key_messages::KeyMessages;
use crate::reason::{GapText, Reason};
use admission::Budget;
use dsx_messages::Code;
use param_sets::{Refusal, Scheduling, Units, from_tlv, need};
use plant::{Class, Consts, OperatorRow, Plant, Provision, RowFields};
use slice_table::{Field, Place};
use tlv24::{FlowTlv, read_flow};

/// Returns the name of a subtype for which an encoding can be refused.
fn subtype_name(subtype: u8) -> &'static str {
    match subtype {
        15 => "scheduling type",
        17 => "polling interval",
        19 => "grant size",
        20 => "grant interval",
        _ => "grants per interval",
    }
}

/// Returns the value of a subtype for which an encoding can be refused, 0 if it is absent.
fn subtype_value(encoding: &FlowTlv, subtype: u8) -> u64 {
    match subtype {
        15 => u64::from(encoding.get_scheduling_type().unwrap_or(0)),
        17 => u64::from(encoding.get_polling_interval().unwrap_or(0)),
        19 => u64::from(encoding.get_grant_size().unwrap_or(0)),
        20 => u64::from(encoding.get_grant_interval().unwrap_or(0)),
        _ => u64::from(encoding.get_grants_per_interval().unwrap_or(0)),
    }
}

/// Says that the value of a subtype is refused, and what to write.
fn say_invalid(reason: &mut Reason, subtype: u8, value: u64, frame_us: u64) {
    match subtype {
        15 => reason.say("is {}: write 2, 3, 4 or 6", &[GapText::Number(value)]),
        17 | 20 => reason.say(
            "is {} microseconds, less than frame_us {}: write a multiple of {}",
            &[
                GapText::Number(value),
                GapText::Number(frame_us),
                GapText::Number(frame_us),
            ],
        ),
        19 => reason.say("is 0: write the bytes of a grant", &[]),
        _ => reason.say("is {}: write 1 to 127", &[GapText::Number(value)]),
    }
}

/// Adds that a flow which takes all from a class is refused.
fn add_refused(
    found: &mut KeyMessages,
    file: &File<'_>,
    place: Place,
    encoding: &FlowTlv,
    refusal: Refusal,
    units: &Units,
) {
    let subtype = refusal.subtype;
    let mut wrong = Reason::new(found.alloc());
    if refusal.code == Code::RejectRequiredParameterNotPresent {
        wrong.say("is missing: add it", &[]);
    } else {
        let value = subtype_value(encoding, subtype);
        say_invalid(&mut wrong, subtype, value, u64::from(units.get_frame_us()));
    }
    found.add_key(
        file,
        place,
        Field::Encoding,
        "a flow that only names this class is refused: subtype {} ({}) {}",
        &[
            GapText::Number(u64::from(subtype)),
            GapText::Words(subtype_name(subtype)),
            GapText::Told(&wrong),
        ],
    );
}

/// Adds that the interval which an encoding states for its kind of scheduling is not a multiple of a frame.
fn add_interval(
    found: &mut KeyMessages,
    file: &File<'_>,
    place: Place,
    stated: &FlowTlv,
    scheduling: Scheduling,
    units: &Units,
) {
    let (subtype, interval, served) = match scheduling {
        Scheduling::BestEffort => return,
        Scheduling::UnsolicitedGrant => (20, stated.get_grant_interval(), "grants come"),
        _ => (17, stated.get_polling_interval(), "polls come"),
    };
    let interval = interval.unwrap_or(0);
    let frame_us = u64::from(units.get_frame_us());
    let whole = u64::from(units.frames(interval)).saturating_mul(frame_us);
    if u64::from(interval) > whole {
        found.add_key(
            file,
            place,
            Field::Encoding,
            "subtype {} ({}) is {} microseconds, not a multiple of frame_us {}: {} every {}: write {} or {}",
            &[
                GapText::Number(u64::from(subtype)),
                GapText::Words(subtype_name(subtype)),
                GapText::Number(u64::from(interval)),
                GapText::Number(frame_us),
                GapText::Words(served),
                GapText::Number(whole),
                GapText::Number(whole),
                GapText::Number(whole.saturating_add(frame_us)),
            ],
        );
    }
}

/// Returns whether an operator without flows can admit one that needs so much.
fn has_room(row: &RowFields, needed: Budget) -> bool {
    needed.minislots <= u32::from(row.budget) && needed.elements <= u32::from(row.elements)
}

/// Returns whether some operator without flows can admit one that needs so much.
fn have_room(rows: &[OperatorRow], needed: Budget) -> bool {
    for row in rows {
        if has_room(row.get_fields(), needed) {
            return true;
        }
    }
    false
}

/// Returns whether a provisioned flow names a class.
fn does_name(provision: &Provision, class: &Class) -> bool {
    match read_flow(provision.encoding.as_slice()) {
        Ok(stated) => match stated.get_class_name() {
            Some(name) => class.is_named(&name),
            None => false,
        },
        Err(_fault) => false,
    }
}

/// Returns whether a provisioned flow of an operator names a class.
fn does_operator_name(row: &RowFields, class: &Class) -> bool {
    for provision in row.provisions.as_slice() {
        if does_name(provision, class) {
            return true;
        }
    }
    false
}

/// Returns whether a provisioned flow names a class: then the flow is judged, which may state what the class leaves out.
fn is_provisioned(rows: &[OperatorRow], class: &Class) -> bool {
    for row in rows {
        if does_operator_name(row.get_fields(), class) {
            return true;
        }
    }
    false
}

/// Adds that no operator can admit a flow of a class.
fn add_unheld_class(found: &mut KeyMessages, file: &File<'_>, place: Place, needed: Budget) {
    found.add_key(
        file,
        place,
        Field::Encoding,
        "a flow of this class needs budget {} and elements {}, and no operator has both: raise them, or let the class ask for less",
        &[
            GapText::Number(u64::from(needed.minislots)),
            GapText::Number(u64::from(needed.elements)),
        ],
    );
}

/// Adds what keeps the flows of a class from working as it says.
fn add_class(found: &mut KeyMessages, file: &File<'_>, plant: &Plant, place: Place, class: &Class) {
    let units = &plant.consts().get_fields().units;
    match from_tlv(&class.encoding, units) {
        Ok(set) => {
            let scheduling = set.get_scheduling();
            add_interval(found, file, place, &class.encoding, scheduling, units);
            let needed = need(&set, units);
            if !have_room(plant.rows(), needed) && !is_provisioned(plant.rows(), class) {
                add_unheld_class(found, file, place, needed);
            }
        }
        Err(refusal) => {
            if !is_provisioned(plant.rows(), class) {
                add_refused(found, file, place, &class.encoding, refusal, units);
            }
        }
    }
}

/// Adds what keeps the flows of classes from working as these say.
pub(crate) fn add_classes(found: &mut KeyMessages, file: &File<'_>, plant: &Plant) {
    let classes = plant.consts().get_fields().classes.as_slice();
    for (number, class) in classes.iter().enumerate() {
        add_class(found, file, plant, Place::Class(number), class);
    }
}

/// Adds that an operator cannot admit a flow as it is provisioned.
fn add_unheld_flow(
    found: &mut KeyMessages,
    file: &File<'_>,
    place: Place,
    row: &RowFields,
    needed: Budget,
) {
    found.add_key(
        file,
        place,
        Field::Encoding,
        "the flow needs budget {} and elements {}, and the operator has {} and {}: raise them, or let the flow ask for less",
        &[
            GapText::Number(u64::from(needed.minislots)),
            GapText::Number(u64::from(needed.elements)),
            GapText::Number(u64::from(row.budget)),
            GapText::Number(u64::from(row.elements)),
        ],
    );
}

/// Adds what keeps a provisioned flow from working as it says.
fn add_flow(
    found: &mut KeyMessages,
    file: &File<'_>,
    consts: &Consts,
    place: Place,
    row: &RowFields,
    provision: &Provision,
) {
    let provisioned = match provision.sets(consts) {
        Some(sets) => sets.get_provisioned(),
        None => None,
    };
    let Some(set) = provisioned else {
        return;
    };
    let units = &consts.get_fields().units;
    if let Ok(stated) = read_flow(provision.encoding.as_slice()) {
        add_interval(found, file, place, &stated, set.get_scheduling(), units);
    }
    let needed = need(&set, units);
    if !has_room(row, needed) {
        add_unheld_flow(found, file, place, row, needed);
    }
}

/// Adds what keeps the provisioned flows of an operator from working as they say.
pub(crate) fn add_flows(
    found: &mut KeyMessages,
    file: &File<'_>,
    consts: &Consts,
    operator: usize,
    row: &RowFields,
) {
    for (number, provision) in row.provisions.as_slice().iter().enumerate() {
        let place = Place::Flow(operator, number);
        add_flow(found, file, consts, place, row, provision);
    }
}
