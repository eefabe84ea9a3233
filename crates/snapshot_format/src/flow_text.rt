//! The text of flows.

ghost use Rattle.std.specs.Prelude.{◌≡◌, ◌++◌, OnOk};
ghost use Rattle.std.specs.List.{flat_map};
ghost use Rattle.std.specs.String.{string_bytes};
ghost use Rattle.snapshot_format.specs.Text.{params_text, optional_set_text, sets_text, sid_text, flag_text, pending_record, flow_text};

use crate::saved::SavedFlow;
use flow_table::{Flow, Pending};
use hex::encode_upper;
use param_sets::{ParamSet, Sets};
use std::alloc::{AllocError, Global};

/// Adds the twelve parameters of a set.
#[tactic(auto, unfolding(crate::specs::Text::params_text))]
fn put_params(text: &mut String, set: &ParamSet) -> Result<(), AllocError>
    ensures { OnOk result (string_bytes text.new ≡ string_bytes text.old ++ params_text set.now) }
{
    let set = set.get_fields();
    let kind = set.scheduling.number();
    let (priority, rate, burst) = (set.priority, set.max_sustained_rate, set.max_burst);
    let (reserved, policy) = (set.min_reserved_rate, set.request_policy);
    let (polls, poll_jitter) = (set.polling_interval, set.poll_jitter);
    let (size, interval, jitter) = (set.grant_size, set.grant_interval, set.grant_jitter);
    let grants = set.grants_per_interval;
    write!(text, "{kind},{priority},{rate},{burst},")?;
    write!(text, "{reserved},{policy},{polls},{poll_jitter},")?;
    write!(text, "{size},{interval},{jitter},{grants} ")
}

/// Adds a set if there is one, else a dash.
#[tactic(auto, unfolding(crate::specs::Text::optional_set_text))]
fn put_optional_set(text: &mut String, set: Option<ParamSet>) -> Result<(), AllocError>
    ensures { OnOk result (string_bytes text.new ≡ string_bytes text.old ++ optional_set_text set) }
{
    match set {
        None => text.push_str("- "),
        Some(set) => {
            text.push_str("=")?;
            put_params(text, &set)
        }
    }
}

/// Adds the provisioned, the admitted and the active set.
#[tactic(auto, unfolding(crate::specs::Text::sets_text))]
fn put_sets(text: &mut String, sets: &Sets) -> Result<(), AllocError>
    ensures { OnOk result (string_bytes text.new ≡ string_bytes text.old ++ sets_text sets.now) }
{
    put_optional_set(text, sets.get_provisioned())?;
    put_optional_set(text, sets.get_admitted())?;
    put_optional_set(text, sets.get_active())
}

/// Adds a SID if there is one, else a dash.
#[tactic(auto, unfolding(crate::specs::Text::sid_text))]
fn put_sid(text: &mut String, sid: Option<u16>) -> Result<(), AllocError>
    ensures { OnOk result (string_bytes text.new ≡ string_bytes text.old ++ sid_text sid) }
{
    match sid {
        None => text.push_str("- "),
        Some(sid) => write!(text, "={sid} "),
    }
}

/// Returns the mark that says whether the request gave the flow its SID.
fn flag_text(pending: &Pending) -> &'static str
    ensures { result.now ≡ flag_text pending.now.sid_is_new }
{
    if pending.sid_is_new { "1 " } else { "0 " }
}

/// Adds what waits for an acknowledgement if something does, else a dash.
#[tactic(auto, unfolding(crate::specs::Text::pending_record))]
fn put_pending(text: &mut String, pending: &Option<Pending>) -> Result<(), AllocError>
    ensures { OnOk result (string_bytes text.new ≡ string_bytes text.old ++ pending_record pending.now) }
{
    match pending {
        None => text.push_str("- "),
        Some(pending) => {
            text.push_str("=")?;
            text.push_str(flag_text(pending))?;
            put_sets(text, &pending.sets)
        }
    }
}

/// Adds the line of a flow.
#[tactic(auto, unfolding(crate::specs::Text::flow_text))]
fn put_flow(alloc: Global, text: &mut String, saved: &SavedFlow) -> Result<(), AllocError>
    ensures { OnOk result (string_bytes text.new ≡ string_bytes text.old ++ flow_text saved.now) }
{
    let flow: &Flow = &saved.flow;
    let sfid = saved.sfid;
    let (start, backlog, since) = (flow.start, flow.backlog, flow.since);
    let address_field = encode_upper(alloc, flow.modem.0.as_slice())?;
    write!(text, "flow {sfid} {address_field} ")?;
    put_sid(text, flow.sid)?;
    put_sets(text, &flow.sets)?;
    put_pending(text, &flow.pending)?;
    write!(text, "{start} {backlog} {since}\n")
}

/// Adds the lines of flows, in order.
pub(crate) fn put_flows(
    alloc: Global,
    text: &mut String,
    flows: &[SavedFlow],
) -> Result<(), AllocError>
    ensures { OnOk result (string_bytes text.new ≡ string_bytes text.old ++ flat_map flow_text flows.now) }
{
    for flow in flows {
        put_flow(alloc, text, flow)?;
    }
    Ok(())
}
