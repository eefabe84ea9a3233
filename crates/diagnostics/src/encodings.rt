//! What is wrong with a flow encoding of a plant file, and what a provisioned flow needs.

use crate::reason::{GapText, Reason};
use crate::tree::{number, table_at, table_named, text, values};
use crate::values::{Letters, first_beside};
use admission::Budget;
use dsx_messages::Code;
use hex::FromHexError;
use param_sets::{ParamSet, Refusal, Units, from_tlv, need, overridden};
use slice_table::{Field, Place};
use tlv24::{FlowTlv, SetType, TlvFault, read_flow};
use toml::Table;

/// Says which character of a text is not a hexadecimal digit, or that their number is odd.
pub(crate) fn say_no_hex(reason: &mut Reason, digits: &str) {
    match first_beside(digits, Letters::Hexadecimal) {
        Some((before, c)) => {
            let place = (before as u64).saturating_add(1);
            reason.say(
                "character {}, {}, is not a hexadecimal digit",
                &[GapText::Number(place), GapText::Letter(c)],
            );
        }
        None => reason.say(
            "it must have an even number of hexadecimal digits, not {}",
            &[GapText::Number(digits.len() as u64)],
        ),
    }
}

/// Returns the lengths that a subtype may have, in words.
fn length_of(subtype: u8) -> &'static str {
    match subtype {
        1 | 3 | 19 => "must have length 2",
        4 => "must have a length from 2 to 16",
        5 => "must have length 6",
        6 | 7 | 15 | 22 => "must have length 1",
        _ => "must have length 4",
    }
}

/// Returns the values that a subtype may have, in words.
fn range_of(subtype: u8) -> &'static str {
    match subtype {
        1 | 2 => "must not be 0",
        4 => "must be a name and one byte 0 at its end",
        5 => "must be 01 01 parameter 02 01 code",
        7 => "must be from 0 to 7",
        _ => "is out of range",
    }
}

/// Says what is wrong with a subtype.
fn say_subtype(reason: &mut Reason, subtype: u8, wrong: &str) {
    reason.say(
        "subtype {} {}",
        &[GapText::Number(u64::from(subtype)), GapText::Words(wrong)],
    );
}

/// Says why an encoding cannot be read.
fn say_no_encoding(reason: &mut Reason, fault: TlvFault) {
    match fault {
        TlvFault::Cut { at } => reason.say(
            "the TLV at byte {} is longer than the rest of the encoding",
            &[GapText::Number(at as u64)],
        ),
        TlvFault::WrongLength { subtype } => say_subtype(reason, subtype, length_of(subtype)),
        TlvFault::Twice { subtype } => say_subtype(reason, subtype, "is repeated"),
        TlvFault::Range { subtype } => say_subtype(reason, subtype, range_of(subtype)),
        TlvFault::NoMemory => reason.is_lost = true,
    }
}

/// Returns the flow encoding of bytes. `None` where they are none, and the reason says why.
fn encoding_of(reason: &mut Reason, bytes: &[u8]) -> Option<FlowTlv> {
    match read_flow(bytes) {
        Ok(flow) => Some(flow),
        Err(fault) => {
            say_no_encoding(reason, fault.fault);
            None
        }
    }
}

/// Returns the flow encoding in hexadecimal. `None` where it is none, and the reason says why.
pub(crate) fn encoding_in(reason: &mut Reason, digits: &str) -> Option<FlowTlv> {
    match hex::decode(reason.alloc, digits) {
        Ok(bytes) => encoding_of(reason, bytes.as_slice()),
        Err(FromHexError::OutOfMemory) => {
            reason.is_lost = true;
            None
        }
        Err(_) => {
            say_no_hex(reason, digits);
            None
        }
    }
}

/// Returns the first of the subtypes 1 to 6 that an encoding states.
pub(crate) fn stated_below_7(flow: &FlowTlv) -> Option<u8> {
    if flow.get_reference().is_some() {
        Some(1)
    } else if flow.get_sfid().is_some() {
        Some(2)
    } else if flow.get_sid().is_some() {
        Some(3)
    } else if flow.get_class_name().is_some() {
        Some(4)
    } else if flow.get_errored().is_some() {
        Some(5)
    } else if flow.get_set_type().is_some() {
        Some(6)
    } else {
        None
    }
}

/// Returns how long a frame is and how much a minislot carries, if both keys are valid.
pub(crate) fn units_of(document: &Table) -> Option<Units> {
    let plant = table_at(document, Place::Plant)?;
    match (
        number(plant, Field::FrameUs),
        number(plant, Field::BytesPerMinislot),
    ) {
        (Some(frame_us @ 1..=1_000_000), Some(bytes @ 1..=65_535)) => {
            Some(Units::new(frame_us as u32, bytes as u32))
        }
        _ => None,
    }
}

/// Returns whether each class has a name that a flow can have. Else the class that a flow names may be one of the others.
fn have_names(document: &Table) -> bool {
    for class in values(document, "class") {
        let name = match class.as_table() {
            Some(table) => text(table, Field::Name).unwrap_or(""),
            None => "",
        };
        if name.is_empty() || first_beside(name, Letters::Alphanumeric).is_some() {
            return false;
        }
    }
    match document.get("class") {
        Some(value) => value.as_array().is_some(),
        None => true,
    }
}

/// Returns the encoding of the class of a name. `None` where there is none, and the reason says why, unless a class is invalid: that
/// is said of the class.
fn class_encoding(reason: &mut Reason, document: &Table, name: &str) -> Option<FlowTlv> {
    let Some(class) = table_named(document, "class", name) else {
        if !have_names(document) {
            return None;
        }
        reason.say(
            "unknown class {}: add a table [[class]] of this name",
            &[GapText::Quoted(name)],
        );
        return None;
    };
    let mut of_class = Reason::new(reason.alloc);
    let flow = encoding_in(&mut of_class, text(class, Field::Encoding)?);
    reason.is_lost |= of_class.is_lost;
    flow
}

/// Returns what a flow asks for: its encoding over that of its class, where it names one. `None` where that has none, and the
/// reason says why.
fn requested_encoding(reason: &mut Reason, document: &Table, stated: FlowTlv) -> Option<FlowTlv> {
    match stated.get_class_name() {
        Some(class) => {
            let name = str::from_utf8(class.as_slice()).unwrap_or("");
            let of_class = class_encoding(reason, document, name)?;
            Some(overridden(&of_class, &stated))
        }
        None => Some(stated),
    }
}

/// Returns the set type of a value of subtype 6, where the value has a meaning.
fn set_type_of(number: Option<u8>) -> Option<SetType> {
    SetType::from_number(number?)
}

/// Says that a value of subtype 6 is not one of a provisioned flow.
fn say_set_type(reason: &mut Reason, number: Option<u8>) {
    match number {
        Some(other) => reason.say(
            "subtype 6 (set type) must be 1, 3 or 7, not {}",
            &[GapText::Number(u64::from(other))],
        ),
        None => reason.say("subtype 6 (set type) is missing: it must be 1, 3 or 7", &[]),
    }
}

/// Returns the parameter set that a flow asks for. `None` where it is refused, and the reason says why.
fn set_of(reason: &mut Reason, asked: &FlowTlv, units: Units) -> Option<ParamSet> {
    match from_tlv(asked, &units) {
        Ok(set) => Some(set),
        Err(Refusal { code, subtype }) => {
            let wrong = if code == Code::RejectRequiredParameterNotPresent {
                "is missing"
            } else {
                "has an invalid value"
            };
            say_subtype(reason, subtype, wrong);
            None
        }
    }
}

/// Returns what a provisioned flow needs of each frame. `None` where it has no admitted set, and where it is invalid: then the
/// reason says why.
pub(crate) fn need_of(
    reason: &mut Reason,
    document: &Table,
    units: Units,
    digits: &str,
) -> Option<Budget> {
    let stated = encoding_in(reason, digits)?;
    let number = stated.get_set_type();
    let asked = requested_encoding(reason, document, stated)?;
    let set = set_of(reason, &asked, units)?;
    match set_type_of(number) {
        Some(SetType::Provisioned) => None,
        Some(SetType::ProvisionedAndAdmitted | SetType::AllSets) => Some(need(&set, &units)),
        _ => {
            say_set_type(reason, number);
            None
        }
    }
}
