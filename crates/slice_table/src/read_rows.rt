//! Reading of the array `operator`.

ghost use Rattle.std.specs.Prelude.{codes, ◌≡◌, ◌≤◌, List, [], length, Option, Some, None, if◌then◌else◌, IfOk};
ghost use Rattle.std.specs.List.{list_any};
ghost use Rattle.toml.specs.Data.{get_member};
ghost use Rattle.toml.specs.View.{view, table_view, items_view};
ghost use Rattle.slice_table.specs.declared.plant_key.Key.TheVariants.{Entry};
ghost use Rattle.slice_table.specs.declared.plant_key.Field.TheVariants.{Flow as FlowField};
ghost use Rattle.lists.specs.Results.{Gives};
ghost use Rattle.slice_table.specs.Tree.{plant_cause, each, at_field};
ghost use Rattle.slice_table.specs.Ranges.{range_of};
ghost use Rattle.plant.specs.Name.{is_operator_name};
ghost use Rattle.slice_table.specs.ReadRows.{is_called, name_at, fits_frame, slice_at, is_range, range_at, aged_at, policy_named, policy_at, modem_read, modems_at, own_modem_at, has_sets, HaveSets, provision_at, provision_read, provisions_in, provisions_if, row_at, row_read, rows_of};

use crate::own_modems::OwnModems;
use crate::plant_fault::PlantFault;
use crate::plant_key::{Field, Key, Place};
use crate::ranges::range_of;
use crate::tree::{
    array_at, array_of, bytes_at, entry, modem_at, modem_of, number_of_key, pair_at, table_of,
    text_at,
};
use admission::IdRange;
use dsx_messages::Modem;
use grant_policy::Policy;
use plant::{Consts, Modems, OperatorName, OperatorRow, Provision, Provisions, RowFields};
use slice_scheduler::Slice;
use std::alloc::Global;
use tlv24::Bytes;
use toml::{Table, Value};

/// Returns whether this is the operator of that name.
fn is_called(name: &OperatorName, row: &OperatorRow) -> bool
    ensures { result ≡ is_called name.now row.now }
{
    row.get_fields().name.as_slice() == name.as_slice()
}

/// Returns the name of an operator.
fn operator_name(text: &[u8]) -> Option<OperatorName>
    ensures { result ≡ (if is_operator_name text.now then Some text.now else None) }
{
    OperatorName::new(text)
}

/// Returns whether one of the operators has this name.
fn is_taken(name: &OperatorName, rows: &[OperatorRow]) -> bool
    ensures { result ≡ list_any (is_called name.now) rows.now }
{
    rows.iter().any(|row| is_called(name, row))
}

/// Returns the name of an operator that comes after others.
#[tactic(auto, unfolding(crate::specs::ReadRows::name_at))]
fn name_at(rows: &[OperatorRow], table: &Table, place: Place) -> Result<OperatorName, PlantFault>
    ensures { result ≡ name_at rows.now place (table_view table.now) }
{
    let text = text_at(table, place, Field::Name)?;
    match operator_name(text.as_bytes()) {
        Some(name) if !is_taken(&name, rows) => Ok(name),
        _ => Err(place.wrong(Field::Name)),
    }
}

/// Returns the slice of these minislots, after the head and within the frame.
#[tactic(auto, unfolding(crate::specs::ReadRows::fits_frame))]
fn slice_of(consts: &Consts, start: u64, length: u64) -> Option<Slice>
    ensures { result ≡ (if fits_frame consts.now start length then Some (record { start = start; length = length })
        else None) }
{
    let channel = consts.get_fields().channel;
    let (head, frame) = (u64::from(channel.head), u64::from(channel.frame_minislots));
    if head <= start && 1 <= length && length <= frame && start <= frame - length {
        Some(Slice::new(start as u16, length as u16))
    } else {
        None
    }
}

/// Returns the minislots of an operator.
#[tactic(auto, unfolding(crate::specs::ReadRows::slice_at))]
fn slice_at(consts: &Consts, table: &Table, place: Place) -> Result<Slice, PlantFault>
    ensures { result ≡ slice_at consts.now place (table_view table.now) }
{
    let (start, length) = pair_at(table, place, Field::Slice)?;
    slice_of(consts, start, length).ok_or(place.wrong(Field::Slice))
}

/// Returns a range of identifiers, of the key's range.
#[tactic(auto, unfolding(crate::specs::ReadRows::range_at, crate::specs::ReadRows::is_range))]
fn range_at(table: &Table, place: Place, field: Field) -> Result<IdRange, PlantFault>
    ensures value { result ≡ range_at place field (table_view table.now) }
    ensures in_range { IfOk result (λ range. ((range_of field).low ≤ range.first)
        × (range.last ≤ (range_of field).high)) }
{
    let range = range_of(field);
    let (first, last) = pair_at(table, place, field)?;
    if u64::from(range.low) <= first && first <= last && last <= u64::from(range.high) {
        Ok(IdRange::new(first as u32, last as u32))
    } else {
        Err(place.wrong(field))
    }
}

/// Returns the policy "aged", with its step.
#[tactic(auto, unfolding(crate::specs::ReadRows::aged_at))]
fn aged_at(table: &Table, place: Place) -> Result<Policy, PlantFault>
    ensures { result ≡ aged_at place (table_view table.now) }
{
    let step = number_of_key(table, place, Field::Step)?;
    match Policy::aged(step as u8) {
        Some(policy) => Ok(policy),
        None => unreachable!(),
    }
}

/// Returns the policy of this name.
#[tactic(auto, unfolding(crate::specs::ReadRows::policy_named))]
fn policy_named(text: &str, table: &Table, place: Place) -> Result<Policy, PlantFault>
    ensures { result ≡ policy_named text.now place (table_view table.now) }
{
    match text {
        "strict" => Ok(Policy::Strict),
        "aged" => aged_at(table, place),
        "short" => Ok(Policy::Short),
        _ => Err(place.wrong(Field::Policy)),
    }
}

/// Returns by what an operator's flows are ordered.
#[tactic(auto, unfolding(crate::specs::ReadRows::policy_at))]
fn policy_at(table: &Table, place: Place) -> Result<Policy, PlantFault>
    ensures { result ≡ policy_at place (table_view table.now) }
{
    policy_named(text_at(table, place, Field::Policy)?, table, place)
}

/// Returns the modems one after the other.
fn modems_each(alloc: Global, values: &[Value], place: Place) -> Result<Vec<Modem>, PlantFault>
    ensures { Gives plant_cause (λ modems. modems.items) result (each (modem_read place) [] (items_view values.now)) }
{
    let mut modems = Vec::with_capacity(alloc, values.len())?;
    for value in values {
        let modem = modem_of(value, Key::Entry(place, Field::Modems))?;
        modems.push(modem)?;
    }
    Ok(modems)
}

/// Returns the modems of an operator.
#[tactic(auto, unfolding(crate::specs::ReadRows::modems_at), using(crate::proofs::Trees::items_len_view))]
fn modems_at(alloc: Global, table: &Table, place: Place) -> Result<Modems, PlantFault>
    ensures { Gives plant_cause (λ modems. modems) result (modems_at place (table_view table.now)) }
{
    let values = array_at(table, place, Field::Modems)?;
    if values.is_empty() || values.len() > 1024 {
        return Err(place.wrong(Field::Modems));
    }
    Ok(Modems::from_vec(modems_each(alloc, values, place)?))
}

/// Returns the modem of a flow: one of the operator's.
#[tactic(auto, unfolding(crate::specs::ReadRows::own_modem_at))]
fn own_modem_at(modems: &OwnModems, table: &Table, place: Place) -> Result<Modem, PlantFault>
    ensures { result ≡ own_modem_at modems.now place (table_view table.now) }
{
    let modem = modem_at(table, place, Field::Modem)?;
    if modems.contains(modem) {
        Ok(modem)
    } else {
        Err(place.wrong(Field::Modem))
    }
}

/// Returns whether a flow is given sets by its encoding. Those before it are, and so is this one if
/// the last of them has the same encoding.
#[tactic(auto, unfolding(crate::specs::ReadRows::has_sets))]
fn has_sets(consts: &Consts, flows: &[Provision], provision: &Provision) -> bool
    requires { HaveSets consts.now flows.now }
    ensures { result ≡ has_sets consts.now provision.now }
{
    match flows.last() {
        Some(before) if before.encoding.as_slice() == provision.encoding.as_slice() => true,
        _ => provision.sets(consts).is_some(),
    }
}

/// Returns a provisioned flow, or the first fault of its keys.
#[tactic(auto, unfolding(crate::specs::ReadRows::provision_at))]
fn provision_at(
    alloc: Global,
    consts: &Consts,
    modems: &OwnModems,
    flows: &[Provision],
    table: &Table,
    place: Place,
) -> Result<Provision, PlantFault>
    requires { HaveSets consts.now flows.now }
    ensures { Gives plant_cause (λ provision. provision) result (provision_at consts.now modems.now place (table_view table.now)) }
{
    let modem = own_modem_at(modems, table, place)?;
    let encoding = Bytes::from_vec(bytes_at(alloc, table, place, Field::Encoding)?);
    let provision = Provision { modem, encoding };
    if has_sets(consts, flows, &provision) {
        Ok(provision)
    } else {
        Err(place.wrong(Field::Encoding))
    }
}

/// Returns a provisioned flow that comes after others.
#[tactic(auto, unfolding(crate::specs::ReadRows::provision_read))]
fn provision_read(
    alloc: Global,
    consts: &Consts,
    operator: usize,
    modems: &OwnModems,
    flows: &[Provision],
    value: &Value,
) -> Result<Provision, PlantFault>
    requires { HaveSets consts.now flows.now }
    ensures { Gives plant_cause (λ provision. provision) result
        (provision_read consts.now operator modems.now flows.now (view value.now)) }
{
    let place = Place::Flow(operator, flows.len());
    let table = table_of(value, place)?;
    provision_at(alloc, consts, modems, flows, table, place)
}

/// Returns the provisioned flows one after the other.
fn provisions_each(
    alloc: Global,
    consts: &Consts,
    operator: usize,
    modems: &OwnModems,
    values: &[Value],
) -> Result<Vec<Provision>, PlantFault>
    ensures { Gives plant_cause (λ provisions. provisions.items) result
        (each (provision_read consts.now operator modems.now) [] (items_view values.now)) }
{
    let mut flows = Vec::with_capacity(alloc, values.len())?;
    for value in values {
        let flow = provision_read(alloc, consts, operator, modems, flows.as_slice(), value)?;
        flows.push(flow)?;
    }
    Ok(flows)
}

/// Returns the provisioned flows of an array.
#[tactic(auto, unfolding(crate::specs::ReadRows::provisions_in))]
fn provisions_in(
    alloc: Global,
    consts: &Consts,
    operator: usize,
    modems: &Modems,
    value: &Value,
) -> Result<Provisions, PlantFault>
    ensures { Gives plant_cause (λ provisions. provisions) result (provisions_in consts.now operator modems.now (view value.now)) }
{
    let values = array_of(value, Key::Entry(Place::Operator(operator), Field::Flow))?;
    if values.is_empty() {
        return Ok(Provisions::from_vec(Vec::new(alloc)));
    }
    let own = OwnModems::new(alloc, modems)?;
    Ok(Provisions::from_vec(provisions_each(alloc, consts, operator, &own, values)?))
}

/// Returns the provisioned flows of an operator.
fn provisions_of(
    alloc: Global,
    consts: &Consts,
    operator: usize,
    modems: &Modems,
    table: &Table,
) -> Result<Provisions, PlantFault>
    ensures { Gives plant_cause (λ provisions. provisions) result
        (provisions_if consts.now operator modems.now (at_field FlowField (table_view table.now))) }
{
    match entry(table, Field::Flow.text()) {
        Some(value) => provisions_in(alloc, consts, operator, modems, value),
        None => Ok(Provisions::from_vec(Vec::new(alloc))),
    }
}

/// Returns an operator's row, or the first fault of its keys.
#[tactic(auto, unfolding(crate::specs::ReadRows::row_at))]
fn row_at(
    alloc: Global,
    consts: &Consts,
    rows: &[OperatorRow],
    table: &Table,
) -> Result<OperatorRow, PlantFault>
    ensures { Gives plant_cause (λ row. row) result (row_at consts.now rows.now (length rows.now) (table_view table.now)) }
{
    let operator = rows.len();
    let place = Place::Operator(operator);
    let name = name_at(rows, table, place)?;
    let slice = slice_at(consts, table, place)?;
    let sfids = range_at(table, place, Field::Sfids)?;
    let sids = range_at(table, place, Field::Sids)?;
    let flows = number_of_key(table, place, Field::Flows)?;
    let transactions = number_of_key(table, place, Field::Transactions)?;
    let inbox = number_of_key(table, place, Field::Inbox)?;
    let budget = number_of_key(table, place, Field::Budget)?;
    let elements = number_of_key(table, place, Field::Elements)?;
    let policy = policy_at(table, place)?;
    let modems = modems_at(alloc, table, place)?;
    let provisions = provisions_of(alloc, consts, operator, &modems, table)?;
    Ok(OperatorRow::new(RowFields {
        name,
        slice,
        sfids,
        sids,
        flows: flows as u16,
        transactions: transactions as u16,
        inbox: inbox as u16,
        budget: budget as u16,
        elements: elements as u16,
        policy,
        modems,
        provisions,
    }))
}

/// Returns an operator that comes after others.
#[tactic(auto, unfolding(crate::specs::ReadRows::row_read))]
fn row_read(
    alloc: Global,
    consts: &Consts,
    rows: &[OperatorRow],
    value: &Value,
) -> Result<OperatorRow, PlantFault>
    ensures { Gives plant_cause (λ row. row) result (row_read consts.now rows.now (view value.now)) }
{
    let table = table_of(value, Place::Operator(rows.len()))?;
    row_at(alloc, consts, rows, table)
}

/// Returns the operators one after the other.
fn rows_each(
    alloc: Global,
    consts: &Consts,
    values: &[Value],
) -> Result<Vec<OperatorRow>, PlantFault>
    ensures { Gives plant_cause (λ rows. rows.items) result (each (row_read consts.now) [] (items_view values.now)) }
{
    let mut rows = Vec::with_capacity(alloc, values.len())?;
    for value in values {
        let row = row_read(alloc, consts, rows.as_slice(), value)?;
        rows.push(row)?;
    }
    Ok(rows)
}

/// Returns the operators of a document.
#[tactic(auto, unfolding(crate::specs::ReadRows::rows_of), using(crate::proofs::Trees::items_len_view))]
pub(crate) fn rows_of(
    alloc: Global,
    consts: &Consts,
    document: &Table,
) -> Result<Vec<OperatorRow>, PlantFault>
    ensures { Gives plant_cause (λ rows. rows.items) result (rows_of consts.now (table_view document.now)) }
{
    let Some(value) = entry(document, "operator") else {
        return Err(PlantFault::Missing {
            key: Key::Operators,
        });
    };
    let values = array_of(value, Key::Operators)?;
    if values.is_empty() || values.len() > 32 {
        return Err(PlantFault::BadValue {
            key: Key::Operators,
        });
    }
    rows_each(alloc, consts, values)
}
