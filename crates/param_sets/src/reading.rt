//! From the encoding of a flow to its parameter set.

ghost use Rattle.std.specs.Prelude.{◌≡◌, ◌↔◌, ℕ, Ok, Err, None, IfOk};
ghost use Rattle.tlv24.specs.Subtype.{scheduling_type_subtype};
ghost use Rattle.dsx_messages.specs.declared.code.Code.TheVariants.{RejectRequiredParameterNotPresent, RejectInvalidForContext};
ghost use Rattle.param_sets.specs.Scheduling.{scheduling_of};
ghost use Rattle.param_sets.specs.Kept.{kept_of, missing_of};
ghost use Rattle.param_sets.specs.AsksFor.{AsksFor, IsLeastMissing};
ghost use Rattle.param_sets.specs.declared.param_set.ParamFields.{ParamFields};
ghost use Rattle.param_sets.specs.Reading.{invalid_of, parameter_set_of};

use crate::param_set::{ParamFields, ParamSet};
use crate::refusal::{Refusal, first_true};
use crate::scheduling::Scheduling;
use crate::units::Units;
use dsx_messages::Code;
use tlv24::{FlowFields, FlowTlv, subtype};

/// How often a flow is polled that is polled, but not in real time, and states no interval: microseconds.
const POLLED_EACH: u32 = 1_000_000;

/// Returns the parameter set that a flow encoding asks for.
///
/// Refused, in this order: with code 8 naming the least required subtype that is missing; with code
/// 23 naming 15 where the kind of scheduling is unknown (nothing is required of such a one); with
/// code 23 naming the first of 17, 19, 20 and 22 that is out of its range, of those that the kind
/// keeps.
pub fn from_tlv(flow: &FlowTlv, units: &Units) -> Result<ParamSet, Refusal>
    ensures exact { result ≡ parameter_set_of flow.now units.now }
    // What is returned is what the encoding asks for.
    ensures asked { IfOk result (AsksFor flow.now units.now) }
    ensures only { (set : ParamFields) → AsksFor flow.now units.now set → result ≡ Ok set }
    // This refusal comes exactly if the kind of scheduling is unknown.
    ensures unknown { (result ≡ Err (record { code = RejectInvalidForContext; subtype = scheduling_type_subtype }))
        ↔ (scheduling_of flow.now.scheduling_type ≡ None) }
    // This refusal comes exactly for the least required subtype that is missing.
    ensures missing { (subtype : ℕ)
        → (result ≡ Err (record { code = RejectRequiredParameterNotPresent; subtype = subtype }))
        ↔ IsLeastMissing flow.now subtype }
{
    let stated = flow.get_fields();
    match requested_fields(&stated, units) {
        Ok(fields) => Ok(ParamSet::new(fields)),
        Err(refusal) => Err(refusal),
    }
}

/// Returns the fields that an encoding asks for, or why they are refused.
fn requested_fields(stated: &FlowFields, units: &Units) -> Result<ParamFields, Refusal>
    ensures { result ≡ parameter_set_of stated.now units.now }
{
    let Some(scheduling) = Scheduling::from_stated_number(stated.scheduling_type) else {
        return Err(Refusal {
            code: Code::RejectInvalidForContext,
            subtype: subtype::SCHEDULING_TYPE,
        });
    };
    if let Some(subtype) = missing(scheduling, stated) {
        return Err(Refusal {
            code: Code::RejectRequiredParameterNotPresent,
            subtype,
        });
    }
    let fields = fields_for_kind(scheduling, stated);
    if let Some(subtype) = invalid(&fields, units) {
        return Err(Refusal {
            code: Code::RejectInvalidForContext,
            subtype,
        });
    }
    Ok(fields)
}

/// Returns the least subtype that the kind of scheduling requires and the encoding lacks.
fn missing(scheduling: Scheduling, stated: &FlowFields) -> Option<u8>
    ensures { result ≡ missing_of scheduling stated.now }
{
    match scheduling {
        Scheduling::BestEffort | Scheduling::NonRealTimePolling => None,
        Scheduling::RealTimePolling => first_true(&[(
            stated.polling_interval.is_none(),
            subtype::POLLING_INTERVAL,
        )]),
        Scheduling::UnsolicitedGrant => first_true(&[
            (stated.grant_size.is_none(), subtype::GRANT_SIZE),
            (stated.grant_interval.is_none(), subtype::GRANT_INTERVAL),
            (
                stated.grants_per_interval.is_none(),
                subtype::GRANTS_PER_INTERVAL,
            ),
        ]),
    }
}

/// Returns the fields of the encoding that the kind of scheduling keeps.
fn fields_for_kind(scheduling: Scheduling, stated: &FlowFields) -> ParamFields
    ensures { result ≡ kept_of scheduling stated.now }
{
    let common = ParamFields {
        scheduling,
        priority: stated.traffic_priority.unwrap_or(0),
        max_sustained_rate: stated.max_sustained_rate.unwrap_or(0),
        max_burst: stated.max_burst.unwrap_or(0),
        min_reserved_rate: 0,
        request_policy: stated.request_policy.unwrap_or(0),
        polling_interval: 0,
        poll_jitter: 0,
        grant_size: 0,
        grant_interval: 0,
        grant_jitter: 0,
        grants_per_interval: 0,
    };
    match scheduling {
        Scheduling::BestEffort => ParamFields {
            min_reserved_rate: stated.min_reserved_rate.unwrap_or(0),
            ..common
        },
        Scheduling::NonRealTimePolling => ParamFields {
            min_reserved_rate: stated.min_reserved_rate.unwrap_or(0),
            polling_interval: stated.polling_interval.unwrap_or(POLLED_EACH),
            poll_jitter: stated.poll_jitter.unwrap_or(0),
            ..common
        },
        Scheduling::RealTimePolling => ParamFields {
            min_reserved_rate: stated.min_reserved_rate.unwrap_or(0),
            polling_interval: stated.polling_interval.unwrap_or(0),
            poll_jitter: stated.poll_jitter.unwrap_or(0),
            ..common
        },
        Scheduling::UnsolicitedGrant => ParamFields {
            grant_size: stated.grant_size.unwrap_or(0),
            grant_interval: stated.grant_interval.unwrap_or(0),
            grant_jitter: stated.grant_jitter.unwrap_or(0),
            grants_per_interval: stated.grants_per_interval.unwrap_or(0),
            ..common
        },
    }
}

/// Returns the first subtype that is out of its range: an interval of no whole frame, a size of 0,
/// grants that are not 1 to 127.
fn invalid(fields: &ParamFields, units: &Units) -> Option<u8>
    ensures { result ≡ invalid_of fields.now units.now }
{
    match fields.scheduling {
        Scheduling::BestEffort => None,
        Scheduling::NonRealTimePolling | Scheduling::RealTimePolling => {
            first_true(&[(
                units.frames(fields.polling_interval) == 0,
                subtype::POLLING_INTERVAL,
            )])
        }
        Scheduling::UnsolicitedGrant => first_true(&[
            (fields.grant_size == 0, subtype::GRANT_SIZE),
            (
                units.frames(fields.grant_interval) == 0,
                subtype::GRANT_INTERVAL,
            ),
            (
                fields.grants_per_interval == 0 || fields.grants_per_interval > 127,
                subtype::GRANTS_PER_INTERVAL,
            ),
        ]),
    }
}
