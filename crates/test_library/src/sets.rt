//! What each kind of scheduling keeps: frames of 2,000 microseconds and minislots of 16 bytes.

ghost use Rattle.tlv24.specs.Range.{AreInRange};

use param_sets::{ParamFields, ParamSet, Refusal, Scheduling, Units, from_tlv};
use std::process::Abort;
use tlv24::{FlowFields, FlowTlv};

fn units() -> Units {
    Units::new(2_000, 16)
}

fn read(fields: FlowFields) -> Result<ParamSet, Refusal>
    requires { AreInRange fields }
{
    from_tlv(&FlowTlv::new(fields), &units())
}

/// Returns all that a set may keep, and some kind of scheduling.
fn all(scheduling_type: Option<u8>) -> FlowFields
    ensures { AreInRange result }
{
    FlowFields {
        traffic_priority: Some(7),
        max_sustained_rate: Some(8),
        max_burst: Some(9),
        min_reserved_rate: Some(10),
        scheduling_type,
        request_policy: Some(16),
        polling_interval: Some(17_000),
        poll_jitter: Some(18),
        grant_size: Some(19),
        grant_interval: Some(20_000),
        grant_jitter: Some(21),
        grants_per_interval: Some(22),
        ..FlowFields::NONE
    }
}

/// Returns what best effort keeps of it.
fn best_effort() -> ParamFields {
    ParamFields {
        scheduling: Scheduling::BestEffort,
        priority: 7,
        max_sustained_rate: 8,
        max_burst: 9,
        min_reserved_rate: 10,
        request_policy: 16,
        polling_interval: 0,
        poll_jitter: 0,
        grant_size: 0,
        grant_interval: 0,
        grant_jitter: 0,
        grants_per_interval: 0,
    }
}

/// Returns what polling keeps of it.
fn polled_fields(scheduling: Scheduling) -> ParamFields {
    ParamFields {
        scheduling,
        polling_interval: 17_000,
        poll_jitter: 18,
        ..best_effort()
    }
}

/// Returns what unsolicited grants keep of it.
fn granted_fields() -> ParamFields {
    ParamFields {
        scheduling: Scheduling::UnsolicitedGrant,
        min_reserved_rate: 0,
        grant_size: 19,
        grant_interval: 20_000,
        grant_jitter: 21,
        grants_per_interval: 22,
        ..best_effort()
    }
}

/// Returns whether a kind of scheduling keeps this of it.
fn keeps(number: Option<u8>, wanted: ParamFields) -> bool {
    match read(all(number)) {
        Ok(set) => set.get_fields() == wanted,
        Err(_) => false,
    }
}

/// Returns whether polling that says no interval has one of a second.
fn polls_each_second() -> bool {
    let slow = FlowFields {
        scheduling_type: Some(3),
        ..FlowFields::NONE
    };
    match read(slow) {
        Ok(set) => set.get_polling_interval() == 1_000_000,
        Err(_) => false,
    }
}

#[test]
fn what_each_kind_keeps(rt: HostRuntime) {
    assert!(rt; keeps(None, best_effort()));
    assert!(rt; keeps(Some(3), polled_fields(Scheduling::NonRealTimePolling)));
    assert!(rt; keeps(Some(4), polled_fields(Scheduling::RealTimePolling)));
    assert!(rt; keeps(Some(6), granted_fields()));
    assert!(rt; polls_each_second());
    assert!(rt; units().get_bytes_per_minislot() == 16);
}
