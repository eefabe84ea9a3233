//! Parameter sets in a line.

ghost use Rattle.std.specs.Prelude.{◌≡◌, true};
ghost use Rattle.lists.specs.Results.{result_map, Gives};
ghost use Rattle.param_sets.specs.ParamSet.{IsParameterSet};
ghost use Rattle.snapshot_format.specs.Reading.{read_cause};
ghost use Rattle.snapshot_format.specs.Sets.{take_scheduling, take_params, has_no_polls, has_no_grants, has_grants, is_of_kind, is_parameter_set, checked_set, take_set, take_optional_set, with_admitted, with_active, sets_under, checked_sets, take_sets};

use crate::fault::{ReadFault, Wrong};
use crate::fields::{stop_at, take_byte, take_long, take_presence, take_short};
use param_sets::{ParamFields, ParamSet, Scheduling, Sets};

/// Returns a kind of scheduling by its number, and what is after it.
#[tactic(auto, unfolding(crate::specs::Sets::take_scheduling))]
fn take_scheduling(bytes: &[u8]) -> Result<(Scheduling, &[u8]), ReadFault>
    ensures { Gives read_cause (λ x. (x.0, x.1.now)) result (take_scheduling bytes.now) }
{
    let (number, rest) = take_byte(bytes, b',')?;
    match Scheduling::from_stated_number(Some(number)) {
        Some(scheduling) => Ok((scheduling, rest)),
        None => Err(stop_at(Wrong::Range, bytes)),
    }
}

/// Returns the twelve parameters of a set, and what is after them.
#[tactic(auto, unfolding(crate::specs::Sets::take_params))]
fn take_params(bytes: &[u8]) -> Result<(ParamFields, &[u8]), ReadFault>
    ensures { Gives read_cause (λ x. (x.0, x.1.now)) result (take_params bytes.now) }
{
    let (scheduling, rest) = take_scheduling(bytes)?;
    let (priority, rest) = take_byte(rest, b',')?;
    let (max_sustained_rate, rest) = take_long(rest, b',')?;
    let (max_burst, rest) = take_long(rest, b',')?;
    let (min_reserved_rate, rest) = take_long(rest, b',')?;
    let (request_policy, rest) = take_long(rest, b',')?;
    let (polling_interval, rest) = take_long(rest, b',')?;
    let (poll_jitter, rest) = take_long(rest, b',')?;
    let (grant_size, rest) = take_short(rest, b',')?;
    let (grant_interval, rest) = take_long(rest, b',')?;
    let (grant_jitter, rest) = take_long(rest, b',')?;
    let (grants_per_interval, rest) = take_byte(rest, b' ')?;
    let fields = ParamFields {
        scheduling,
        priority,
        max_sustained_rate,
        max_burst,
        min_reserved_rate,
        request_policy,
        polling_interval,
        poll_jitter,
        grant_size,
        grant_interval,
        grant_jitter,
        grants_per_interval,
    };
    Ok((fields, rest))
}

/// Returns whether a set states no polls.
fn has_no_polls(set: &ParamFields) -> bool
    ensures { result ≡ has_no_polls set.now }
{
    set.polling_interval == 0 && set.poll_jitter == 0
}

/// Returns whether a set states no unsolicited grants.
fn has_no_grants(set: &ParamFields) -> bool
    ensures { result ≡ has_no_grants set.now }
{
    set.grant_size == 0
        && set.grant_interval == 0
        && set.grant_jitter == 0
        && set.grants_per_interval == 0
}

/// Returns whether a set states 1 to 127 unsolicited grants of some size, and no reserved rate.
fn has_grants(set: &ParamFields) -> bool
    ensures { result ≡ has_grants set.now }
{
    set.min_reserved_rate == 0
        && set.grant_size >= 1
        && set.grants_per_interval >= 1
        && set.grants_per_interval <= 127
}

/// Returns whether what the kind of scheduling keeps is in range, and all else is 0.
fn is_of_kind(set: &ParamFields) -> bool
    ensures { result ≡ is_of_kind set.now.scheduling set.now }
{
    match set.scheduling {
        Scheduling::BestEffort => has_no_polls(set) && has_no_grants(set),
        Scheduling::NonRealTimePolling | Scheduling::RealTimePolling => has_no_grants(set),
        Scheduling::UnsolicitedGrant => has_no_polls(set) && has_grants(set),
    }
}

/// Returns whether these parameters are those of a set.
fn is_parameter_set(set: &ParamFields) -> bool
    ensures value { result ≡ is_parameter_set set.now }
    ensures valid { result ≡ true → IsParameterSet set.now }
{
    set.priority <= 7 && is_of_kind(set)
}

/// Returns the set of these parameters, if they are those of a set.
fn checked_set(fields: ParamFields) -> Result<ParamSet, Wrong>
    ensures { result_map (λ set. set) result ≡ checked_set fields }
{
    if is_parameter_set(&fields) {
        Ok(ParamSet::new(fields))
    } else {
        Err(Wrong::Parameters)
    }
}

/// Returns a parameter set, and what is after it.
#[tactic(auto, unfolding(crate::specs::Sets::take_set))]
fn take_set(bytes: &[u8]) -> Result<(ParamSet, &[u8]), ReadFault>
    ensures { Gives read_cause (λ x. (x.0, x.1.now)) result (take_set bytes.now) }
{
    let (fields, rest) = take_params(bytes)?;
    match checked_set(fields) {
        Ok(set) => Ok((set, rest)),
        Err(wrong) => Err(stop_at(wrong, bytes)),
    }
}

/// Returns a parameter set if there is one, and what is after it.
#[tactic(auto, unfolding(crate::specs::Sets::take_optional_set))]
fn take_optional_set(bytes: &[u8]) -> Result<(Option<ParamSet>, &[u8]), ReadFault>
    ensures { Gives read_cause (λ x. (x.0, x.1.now)) result (take_optional_set bytes.now) }
{
    let (is_there, rest) = take_presence(bytes, b' ')?;
    if !is_there {
        return Ok((None, rest));
    }
    match take_set(rest) {
        Ok((set, rest)) => Ok((Some(set), rest)),
        Err(fault) => Err(fault),
    }
}

/// Returns the sets of a flow that was provisioned with a set, or with none.
fn sets_under(provisioned: Option<ParamSet>) -> Sets
    ensures { result ≡ sets_under provisioned }
{
    match provisioned {
        Some(set) => Sets::provisioned(set),
        None => Sets::dynamic(),
    }
}

/// Returns these sets with a set admitted, if there is one.
fn with_admitted(sets: Sets, admitted: Option<ParamSet>) -> Result<Sets, Wrong>
    ensures { result_map (λ sets. sets) result ≡ with_admitted sets admitted }
{
    let Some(set) = admitted else {
        return Ok(sets);
    };
    match sets.admit(set) {
        Ok(sets) => Ok(sets),
        Err(_refusal) => Err(Wrong::NotWithin),
    }
}

/// Returns these sets with a set active, if there is one.
fn with_active(sets: Sets, active: Option<ParamSet>) -> Result<Sets, Wrong>
    ensures { result_map (λ sets. sets) result ≡ with_active sets active }
{
    let Some(set) = active else {
        return Ok(sets);
    };
    match sets.activate(set) {
        Ok(sets) => Ok(sets),
        Err(_refusal) => Err(Wrong::NotWithin),
    }
}

/// Returns the sets that admitting and activating these makes.
fn checked_sets(
    provisioned: Option<ParamSet>,
    admitted: Option<ParamSet>,
    active: Option<ParamSet>,
) -> Result<Sets, Wrong>
    ensures { result_map (λ sets. sets) result ≡ checked_sets provisioned admitted active }
{
    match with_admitted(sets_under(provisioned), admitted) {
        Ok(sets) => with_active(sets, active),
        Err(wrong) => Err(wrong),
    }
}

/// Returns the three sets of a flow, and what is after them.
#[tactic(auto, unfolding(crate::specs::Sets::take_sets))]
pub(crate) fn take_sets(bytes: &[u8]) -> Result<(Sets, &[u8]), ReadFault>
    ensures { Gives read_cause (λ x. (x.0, x.1.now)) result (take_sets bytes.now) }
{
    let (provisioned, rest) = match take_optional_set(bytes) {
        Ok(taken) => taken,
        Err(fault) => return Err(fault),
    };
    let (admitted, rest) = match take_optional_set(rest) {
        Ok(taken) => taken,
        Err(fault) => return Err(fault),
    };
    let (active, rest) = match take_optional_set(rest) {
        Ok(taken) => taken,
        Err(fault) => return Err(fault),
    };
    match checked_sets(provisioned, admitted, active) {
        Ok(sets) => Ok((sets, rest)),
        Err(wrong) => Err(stop_at(wrong, bytes)),
    }
}
