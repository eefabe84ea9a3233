//! Reading of what all operators share: the table `plant` and the array `class`.

ghost use Rattle.std.specs.Prelude.{codes, List, [], Some, None, if◌then◌else◌, ◌≡◌, ◌≤◌, ◌&&◌, not, IfOk};
ghost use Rattle.std.specs.List.{list_any};
ghost use Rattle.toml.specs.Data.{get_member};
ghost use Rattle.toml.specs.View.{view, table_view, items_view};
ghost use Rattle.tlv24.specs.Flow.{flow_of};
ghost use Rattle.slice_table.specs.declared.plant_key.Key.TheVariants.{Entry};
ghost use Rattle.plant.specs.Classes.{is_class_named};
ghost use Rattle.plant.specs.Consts.{AreBackoffs};
ghost use Rattle.lists.specs.Results.{Gives};
ghost use Rattle.slice_table.specs.Tree.{plant_cause, each};
ghost use Rattle.slice_table.specs.ReadConsts.{units_at, backoffs_at, timers_at, plant_keys_at, plant_keys_of, is_class_name, class_name_at, states_parameters, parameters_in, class_encoding_at, class_read, classes_in, classes_if, with_classes, consts_of, AreKeys};

use crate::plant_fault::PlantFault;
use crate::plant_key::{Field, Key, Place};
use crate::tree::{array_of, bytes_at, entry, number_at, number_of_key, table_of, text_at};
use param_sets::Units;
use plant::{Backoffs, Channel, Class, Classes, Consts, ConstsFields, is_alphanumeric};
use std::alloc::Global;
use tlv24::{ClassName, FlowTlv, read_flow};
use toml::{Table, Value};
use transactions::Timers;

/// The keys of the table `plant`.
#[derive(Clone, Copy)]
pub struct PlantKeys {
    pub channel: Channel,
    pub units: Units,
    pub short_max: u16,
    pub timers: Timers,
}

/// Returns how long a frame is and how much a minislot carries.
#[tactic(auto, unfolding(crate::specs::ReadConsts::units_at))]
fn units_at(table: &Table) -> Result<Units, PlantFault>
    ensures { result ≡ units_at (table_view table.now) }
{
    let frame_us = number_of_key(table, Place::Plant, Field::FrameUs)?;
    let bytes_per_minislot = number_of_key(table, Place::Plant, Field::BytesPerMinislot)?;
    Ok(Units::new(frame_us, bytes_per_minislot))
}

/// Returns the backoff windows, or the first fault of their keys.
#[tactic(auto, unfolding(crate::specs::ReadConsts::backoffs_at))]
fn backoffs_at(table: &Table) -> Result<Backoffs, PlantFault>
    ensures value { result ≡ backoffs_at (table_view table.now) }
    ensures in_range { IfOk result AreBackoffs }
{
    let ranging_start = number_of_key(table, Place::Plant, Field::RangingStart)?;
    let ranging_end = number_of_key(table, Place::Plant, Field::RangingEnd)?;
    let data_start = number_of_key(table, Place::Plant, Field::DataStart)?;
    let data_end = number_of_key(table, Place::Plant, Field::DataEnd)?;
    Ok(Backoffs {
        ranging_start: ranging_start as u8,
        ranging_end: ranging_end as u8,
        data_start: data_start as u8,
        data_end: data_end as u8,
    })
}

/// Returns how long responses are kept.
#[tactic(auto, unfolding(crate::specs::ReadConsts::timers_at))]
fn timers_at(table: &Table) -> Result<Timers, PlantFault>
    ensures { result ≡ timers_at (table_view table.now) }
{
    let ack_wait = number_of_key(table, Place::Plant, Field::AckWait)?;
    let resends = number_of_key(table, Place::Plant, Field::Resends)?;
    let hold = number_of_key(table, Place::Plant, Field::Hold)?;
    Ok(Timers::new(ack_wait as u16, resends as u8, hold as u16))
}

/// Returns the keys of the table `plant`.
#[tactic(auto, unfolding(crate::specs::ReadConsts::plant_keys_at))]
fn plant_keys_at(table: &Table) -> Result<PlantKeys, PlantFault>
    ensures value { result ≡ plant_keys_at (table_view table.now) }
    ensures in_range { IfOk result AreKeys }
{
    let frame_minislots = number_of_key(table, Place::Plant, Field::FrameMinislots)?;
    let head = number_at(table, Place::Plant, Field::Head, 0, frame_minislots)?;
    let units = units_at(table)?;
    let short_max = number_of_key(table, Place::Plant, Field::ShortMax)?;
    let id = number_of_key(table, Place::Plant, Field::Channel)?;
    let ucd_count = number_of_key(table, Place::Plant, Field::UcdCount)?;
    let backoffs = backoffs_at(table)?;
    let timers = timers_at(table)?;
    let first_frame = number_of_key(table, Place::Plant, Field::FirstFrame)?;
    Ok(PlantKeys {
        channel: Channel {
            frame_minislots: frame_minislots as u16,
            head: head as u16,
            id: id as u8,
            ucd_count: ucd_count as u8,
            backoffs,
            first_frame,
        },
        units,
        short_max: short_max as u16,
        timers,
    })
}

/// Returns the keys of the table `plant` of a document.
#[tactic(auto, unfolding(crate::specs::ReadConsts::plant_keys_of))]
fn plant_keys_of(document: &Table) -> Result<PlantKeys, PlantFault>
    ensures value { result ≡ plant_keys_of (table_view document.now) }
    ensures in_range { IfOk result AreKeys }
{
    let Some(value) = entry(document, "plant") else {
        return Err(PlantFault::Missing {
            key: Key::Entry(Place::Plant, Field::FrameMinislots),
        });
    };
    plant_keys_at(table_of(value, Place::Plant)?)
}

/// Returns the name of a class.
fn class_name(text: &[u8]) -> Option<ClassName>
    ensures { result ≡ (if is_class_name text.now then Some text.now else None) }
{
    if is_alphanumeric(text) {
        ClassName::new(text)
    } else {
        None
    }
}

/// Returns whether one of the classes has this name.
fn is_class(name: &ClassName, classes: &[Class]) -> bool
    ensures { result ≡ list_any (is_class_named name.now) classes.now }
{
    classes.iter().any(|class| class.is_named(name))
}

/// Returns the name of a class that comes after others.
#[tactic(auto, unfolding(crate::specs::ReadConsts::class_name_at))]
fn class_name_at(classes: &[Class], table: &Table, place: Place) -> Result<ClassName, PlantFault>
    ensures { result ≡ class_name_at classes.now place (table_view table.now) }
{
    let text = text_at(table, place, Field::Name)?;
    match class_name(text.as_bytes()) {
        Some(name) if !is_class(&name, classes) => Ok(name),
        _ => Err(place.wrong(Field::Name)),
    }
}

/// Returns whether an encoding states none of the subtypes 1 to 6.
#[tactic(auto, unfolding(crate::specs::ReadConsts::states_parameters))]
fn states_parameters(flow: &FlowTlv) -> bool
    ensures { result ≡ states_parameters flow.now }
{
    flow.get_reference().is_none()
        && flow.get_sfid().is_none()
        && flow.get_sid().is_none()
        && flow.get_class_name().is_none()
        && flow.get_errored().is_none()
        && flow.get_set_type().is_none()
}

/// Returns the encoding of a class.
#[tactic(auto, unfolding(crate::specs::ReadConsts::class_encoding_at))]
fn class_encoding_at(alloc: Global, table: &Table, place: Place) -> Result<FlowTlv, PlantFault>
    ensures { Gives plant_cause (λ flow. flow) result (class_encoding_at place (table_view table.now)) }
{
    let bytes = bytes_at(alloc, table, place, Field::Encoding)?;
    match read_flow(bytes.as_slice()) {
        Ok(flow) if states_parameters(&flow) => Ok(flow),
        _ => Err(place.wrong(Field::Encoding)),
    }
}

/// Returns a class that comes after others.
#[tactic(auto, unfolding(crate::specs::ReadConsts::class_read))]
fn class_read(alloc: Global, classes: &[Class], value: &Value) -> Result<Class, PlantFault>
    ensures { Gives plant_cause (λ class. class) result (class_read classes.now (view value.now)) }
{
    let place = Place::Class(classes.len());
    let table = table_of(value, place)?;
    let name = class_name_at(classes, table, place)?;
    let encoding = class_encoding_at(alloc, table, place)?;
    Ok(Class { name, encoding })
}

/// Returns the classes one after the other.
fn classes_each(alloc: Global, values: &[Value]) -> Result<Vec<Class>, PlantFault>
    ensures { Gives plant_cause (λ classes. classes.items) result (each class_read [] (items_view values.now)) }
{
    let mut classes = Vec::with_capacity(alloc, values.len())?;
    for value in values {
        let class = class_read(alloc, classes.as_slice(), value)?;
        classes.push(class)?;
    }
    Ok(classes)
}

/// Returns the classes of an array.
#[tactic(auto, unfolding(crate::specs::ReadConsts::classes_in), using(crate::proofs::Trees::items_len_view))]
fn classes_in(alloc: Global, value: &Value) -> Result<Vec<Class>, PlantFault>
    ensures { Gives plant_cause (λ classes. classes.items) result (classes_in (view value.now)) }
{
    let values = array_of(value, Key::Classes)?;
    if values.len() > 64 {
        return Err(PlantFault::BadValue { key: Key::Classes });
    }
    classes_each(alloc, values)
}

/// Returns the classes of a document.
fn classes_of(alloc: Global, document: &Table) -> Result<Classes, PlantFault>
    ensures { Gives plant_cause (λ classes. classes) result (classes_if (get_member (codes "class") (table_view document.now))) }
{
    match entry(document, "class") {
        Some(value) => Ok(Classes::from_vec(classes_in(alloc, value)?)),
        None => Ok(Classes::from_vec(Vec::new(alloc))),
    }
}

/// Returns what all operators share.
#[tactic(auto, unfolding(crate::specs::ReadConsts::consts_of))]
pub(crate) fn consts_of(alloc: Global, document: &Table) -> Result<Consts, PlantFault>
    ensures { Gives plant_cause (λ consts. consts) result (consts_of (table_view document.now)) }
{
    let keys = plant_keys_of(document)?;
    let classes = classes_of(alloc, document)?;
    Ok(Consts::new(ConstsFields {
        channel: keys.channel,
        units: keys.units,
        short_max: keys.short_max,
        timers: keys.timers,
        classes,
    }))
}
