//! Whether two values are the same.

ghost use Rattle.std.specs.Prelude.{◌≡◌, ◌↔◌, IsTrue, All, Contains};
ghost use Rattle.plant.specs.Consts.{KeepsConsts};
ghost use Rattle.plant.specs.comparison.Same.{HaveSameLimits, HaveSameRanges, AreOfSameFlow, HaveSameRates, HaveSameIntervals, HaveSameChannel};

use crate::{
    Channel, Class, Consts, ConstsFields, OperatorName, OperatorRow, Plant, Provision, RowFields,
};
use admission::IdRange;
use dsx_messages::Modem;
use slice_scheduler::Slice;
use tlv24::{ClassName, ErrorEncodings, FlowFields, FlowTlv};

/// Returns whether two flows are provisioned alike.
fn is_same_provision(a: &Provision, b: &Provision) -> bool
    ensures { IsTrue result ↔ (a.now ≡ b.now) }
{
    a.modem == b.modem && a.encoding.as_slice() == b.encoding.as_slice()
}

/// Returns whether the same flows are provisioned, in the same order.
fn are_same_provisions(a: &[Provision], b: &[Provision]) -> bool
    ensures { IsTrue result ↔ (a.now ≡ b.now) }
{
    if a.len() != b.len() {
        return false;
    }
    for (place, provision) in a.iter().enumerate() {
        if !is_same_provision(provision, &b[place]) {
            return false;
        }
    }
    true
}

/// Returns whether the limits of two rows are the same.
fn have_same_limits(a: &RowFields, b: &RowFields) -> bool
    ensures { IsTrue result ↔ HaveSameLimits a.now b.now }
{
    a.flows == b.flows
        && a.transactions == b.transactions
        && a.inbox == b.inbox
        && a.budget == b.budget
        && a.elements == b.elements
        && a.policy == b.policy
}

/// Returns whether two ranges are the same.
fn is_same_range(a: IdRange, b: IdRange) -> bool
    ensures { IsTrue result ↔ (a ≡ b) }
{
    a == b
}

/// Returns whether two modems are the same.
fn is_same_modem(a: Modem, b: Modem) -> bool
    ensures { IsTrue result ↔ (a ≡ b) }
{
    a == b
}

/// Returns whether two operators' names are the same.
pub fn is_same_name(a: OperatorName, b: OperatorName) -> bool
    ensures { IsTrue result ↔ (a ≡ b) }
{
    a == b
}

/// Returns whether two slices are the same.
fn is_same_slice(a: Slice, b: Slice) -> bool
    ensures { IsTrue result ↔ (a ≡ b) }
{
    a == b
}

/// Returns whether the modems are the same, in the same order.
fn are_same_modems(a: &[Modem], b: &[Modem]) -> bool
    ensures { IsTrue result ↔ (a.now ≡ b.now) }
{
    if a.len() != b.len() {
        return false;
    }
    for (place, modem) in a.iter().enumerate() {
        if !is_same_modem(*modem, b[place]) {
            return false;
        }
    }
    true
}

/// Returns whether the names and the ranges of two rows are the same.
fn have_same_ranges(a: &RowFields, b: &RowFields) -> bool
    ensures { IsTrue result ↔ HaveSameRanges a.now b.now }
{
    is_same_name(a.name, b.name)
        && is_same_slice(a.slice, b.slice)
        && is_same_range(a.sfids, b.sfids)
        && is_same_range(a.sids, b.sids)
}

/// Returns whether two rows are the same.
pub fn is_same_row(a: &OperatorRow, b: &OperatorRow) -> bool
    ensures { IsTrue result ↔ (a.now ≡ b.now) }
{
    let (a, b) = (a.get_fields(), b.get_fields());
    have_same_limits(a, b)
        && have_same_ranges(a, b)
        && are_same_modems(a.modems.as_slice(), b.modems.as_slice())
        && are_same_provisions(a.provisions.as_slice(), b.provisions.as_slice())
}

/// Returns whether the rows are the same, in the same order.
fn are_same_rows(a: &[OperatorRow], b: &[OperatorRow]) -> bool
    ensures { IsTrue result ↔ (a.now ≡ b.now) }
{
    if a.len() != b.len() {
        return false;
    }
    for (place, row) in a.iter().enumerate() {
        if !is_same_row(row, &b[place]) {
            return false;
        }
    }
    true
}

/// Returns whether two channels are the same.
fn is_same_channel(a: Channel, b: Channel) -> bool
    ensures { IsTrue result ↔ (a ≡ b) }
{
    a == b
}

/// Returns whether two classes have one name.
fn is_same_class_name(a: ClassName, b: ClassName) -> bool
    ensures { IsTrue result ↔ (a ≡ b) }
{
    a == b
}

/// Returns whether two encodings name the same class, or none.
fn is_same_named_class(a: Option<ClassName>, b: Option<ClassName>) -> bool
    ensures { IsTrue result ↔ (a ≡ b) }
{
    a == b
}

/// Returns whether two encodings tell of the same error, or of none.
fn is_same_error(a: Option<ErrorEncodings>, b: Option<ErrorEncodings>) -> bool
    ensures { IsTrue result ↔ (a ≡ b) }
{
    a == b
}

/// Returns whether two encodings are of the same flow and ask for the same kinds of sets.
fn are_of_same_flow(a: &FlowFields, b: &FlowFields) -> bool
    ensures { IsTrue result ↔ AreOfSameFlow a.now b.now }
{
    a.reference == b.reference
        && a.sfid == b.sfid
        && a.sid == b.sid
        && is_same_named_class(a.class_name, b.class_name)
        && is_same_error(a.errored, b.errored)
        && a.set_type == b.set_type
}

/// Returns whether two encodings ask for the same rates.
fn have_same_rates(a: &FlowFields, b: &FlowFields) -> bool
    ensures { IsTrue result ↔ HaveSameRates a.now b.now }
{
    a.traffic_priority == b.traffic_priority
        && a.max_sustained_rate == b.max_sustained_rate
        && a.max_burst == b.max_burst
        && a.min_reserved_rate == b.min_reserved_rate
        && a.scheduling_type == b.scheduling_type
        && a.request_policy == b.request_policy
}

/// Returns whether two encodings ask for the same intervals.
fn have_same_intervals(a: &FlowFields, b: &FlowFields) -> bool
    ensures { IsTrue result ↔ HaveSameIntervals a.now b.now }
{
    a.polling_interval == b.polling_interval
        && a.poll_jitter == b.poll_jitter
        && a.grant_size == b.grant_size
        && a.grant_interval == b.grant_interval
        && a.grant_jitter == b.grant_jitter
        && a.grants_per_interval == b.grants_per_interval
}

/// Returns whether two encodings are the same.
fn is_same_encoding(a: &FlowTlv, b: &FlowTlv) -> bool
    ensures { IsTrue result ↔ (a.now ≡ b.now) }
{
    let (a, b) = (a.get_fields(), b.get_fields());
    are_of_same_flow(&a, &b) && have_same_rates(&a, &b) && have_same_intervals(&a, &b)
}

/// Returns whether two classes are the same.
fn is_same_class(a: &Class, b: &Class) -> bool
    ensures { IsTrue result ↔ (a.now ≡ b.now) }
{
    is_same_class_name(a.name, b.name) && is_same_encoding(&a.encoding, &b.encoding)
}

/// Returns whether the classes are the same, in the same order.
fn are_same_classes(a: &[Class], b: &[Class]) -> bool
    ensures { IsTrue result ↔ (a.now ≡ b.now) }
{
    if a.len() != b.len() {
        return false;
    }
    for (place, class) in a.iter().enumerate() {
        if !is_same_class(class, &b[place]) {
            return false;
        }
    }
    true
}

/// Returns whether two plants' operators share the same.
pub fn are_same_consts(a: &Consts, b: &Consts) -> bool
    ensures { IsTrue result ↔ (a.now ≡ b.now) }
{
    let (a, b) = (a.get_fields(), b.get_fields());
    is_same_channel(a.channel, b.channel)
        && a.units == b.units
        && a.short_max == b.short_max
        && a.timers == b.timers
        && are_same_classes(a.classes.as_slice(), b.classes.as_slice())
}

/// Returns whether a class is one of a table's, unchanged.
fn has_class(classes: &[Class], class: &Class) -> bool
    ensures { IsTrue result ↔ Contains classes.now class.now }
{
    classes.iter().any(|other| is_same_class(other, class))
}

/// Returns whether each class of an old table is in the new one, unchanged.
fn has_classes(old: &[Class], new: &[Class]) -> bool
    ensures { IsTrue result ↔ All (λ class. Contains new.now class) old.now }
{
    for class in old {
        if !has_class(new, class) {
            return false;
        }
    }
    true
}

/// Returns whether two plants have the same channel, units, limit of short grants and timers.
fn have_same_channel(a: &ConstsFields, b: &ConstsFields) -> bool
    ensures { IsTrue result ↔ HaveSameChannel a.now b.now }
{
    is_same_channel(a.channel, b.channel)
        && a.units == b.units
        && a.short_max == b.short_max
        && a.timers == b.timers
}

/// Returns whether all but the classes is the same, and the new values have each class of the old ones, unchanged.
fn keeps_values(old: &ConstsFields, new: &ConstsFields) -> bool
    ensures { IsTrue result ↔ KeepsConsts old.now new.now }
{
    have_same_channel(new, old) && has_classes(old.classes.as_slice(), new.classes.as_slice())
}

/// Returns whether all but the classes is the same, and the new plant has each class of the old one, unchanged. It may have more.
pub fn keeps_consts(old: &Consts, new: &Consts) -> bool
    ensures { IsTrue result ↔ KeepsConsts old.now new.now }
{
    keeps_values(old.get_fields(), new.get_fields())
}

/// Returns whether two plants are the same.
pub fn is_same_plant(a: &Plant, b: &Plant) -> bool
    ensures { IsTrue result ↔ (a.now ≡ b.now) }
{
    are_same_consts(a.consts(), b.consts()) && are_same_rows(a.rows(), b.rows())
}
