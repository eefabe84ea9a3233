//! What a step output, in words.

use crate::comparison::{CheckComparison, committed_by};
use crate::seen::{About, StepReport};
use dsx_messages::{Code, Detail, FlowId, Kind, Modem, Reply, read_reply};
use flow_table::Flow;
use line_service::cause_name;
use operator_model::{Cause, Output};
use param_sets::{ParamSet, Units, need};
use plant::Op;
use plant_core::PlantCore;
use run_model::Out;
use slice_scheduler::{Elements, Iuc, Span};
use std::alloc::{AllocError, Global};

fn response_name(kind: Kind) -> &'static str {
    match kind {
        Kind::Dsa => "DSA-RSP",
        Kind::Dsc => "DSC-RSP",
        Kind::Dsd => "DSD-RSP",
    }
}

/// Returns a confirmation code in the standard's words (CM-SP-MULPIv3.1, Annex C, C.4).
fn code_name(code: Code) -> &'static str {
    match code {
        Code::Okay => "okay",
        Code::RejectOther => "reject-other",
        Code::RejectUnrecognizedSetting => "reject-unrecognized-configuration-setting",
        Code::RejectTemporary => "reject-temporary",
        Code::RejectPermanent => "reject-permanent",
        Code::RejectNotOwner => "reject-not-owner",
        Code::RejectFlowNotFound => "reject-service-flow-not-found",
        Code::RejectRequiredParameterNotPresent => "reject-required-parameter-not-present",
        Code::RejectUnknownTransaction => "reject-unknown-transaction-id",
        Code::RejectDuplicateReference => "reject-duplicate-reference-ID-or-index-in-message",
        Code::RejectMultipleUpstreamFlows => "reject-multiple-upstream-service-flows",
        Code::RejectInvalidForContext => "reject-parameter-invalid-for-context",
        Code::RejectAuthorizationFailure => "reject-authorization-failure",
    }
}

/// Appends what a reply says besides its code.
fn put_detail(text: &mut String, detail: Detail) -> Result<(), AllocError> {
    match detail {
        Detail::Nothing => Ok(()),
        Detail::Given {
            reference,
            sfid,
            sid,
        } => {
            if let Some(reference) = reference {
                write!(text, ", reference {reference}")?;
            }
            write!(text, ", SFID {sfid}")?;
            match sid {
                Some(sid) => write!(text, ", SID {sid}"),
                None => Ok(()),
            }
        }
        Detail::Errored { id, subtype } => {
            match id {
                Some(FlowId::Reference(reference)) => write!(text, ", reference {reference}")?,
                Some(FlowId::Sfid(sfid)) => write!(text, ", SFID {sfid}")?,
                None => {}
            }
            write!(text, ", parameter {subtype}")
        }
    }
}

/// Adds the sets of a flow, by the minislots that each needs of the budget.
fn put_listed(
    text: &mut String,
    units: Units,
    sets: &[(&str, Option<ParamSet>)],
) -> Result<(), AllocError> {
    let mut before = "";
    for (name, set) in sets {
        if let Some(set) = set {
            let minislots = need(set, &units).minislots;
            write!(text, "{before}{name} {minislots} minislots")?;
            before = ", ";
        }
    }
    if before.is_empty() {
        text.push_str("no set")?;
    }
    Ok(())
}

/// Appends the sets of a flow: those it has, and those that wait for an acknowledgement.
fn put_sets(text: &mut String, units: Units, sfid: u32, flow: &Flow) -> Result<(), AllocError> {
    write!(text, "SFID {sfid}: ")?;
    let has = flow.sets.get_fields();
    let sets = [
        ("provisioned", has.provisioned),
        ("admitted", has.admitted),
        ("active", has.active),
    ];
    put_listed(text, units, sets.as_slice())?;
    if let Some(pending) = flow.pending {
        let waits = pending.sets.get_fields();
        text.push_str("; waiting: ")?;
        let sets = [("admitted", waits.admitted), ("active", waits.active)];
        put_listed(text, units, sets.as_slice())?;
    }
    text.push_str("\n")
}

/// Appends a flow of an operator that was added or changed, and how much of the budget is held
/// then.
fn put_flow(
    alloc: Global,
    text: &mut String,
    core: &PlantCore,
    op: Op,
    sfid: u32,
) -> Result<(), AllocError> {
    let Some(machine) = core.live().machine(op) else {
        return Ok(());
    };
    let state = machine.state_view(alloc)?;
    let units = machine.consts().get_fields().units;
    if let Some((_sfid, flow)) = state.flows().iter().find(|entry| entry.0 == sfid) {
        put_sets(text, units, sfid, flow)?;
    }
    let budget = state.share().budget;
    let held = committed_by(units, state.flows()).minislots;
    write!(text, "the budget of {budget} minislots holds {held}\n")
}

/// Appends a reply that was read.
fn put_read(text: &mut String, modem: Modem, reply: &Reply) -> Result<(), AllocError> {
    let (name, tid) = (response_name(reply.get_kind()), reply.get_tid());
    let code = code_name(reply.get_code());
    write!(text, "{name} to {modem}, transaction {tid}: {code}")?;
    put_detail(text, reply.get_detail())?;
    text.push_str("\n")
}

fn put_reply(
    alloc: Global,
    text: &mut String,
    core: &PlantCore,
    op: Op,
    modem: Modem,
    bytes: &[u8],
) -> Result<(), AllocError> {
    let Some(reply) = read_reply(bytes) else {
        return write!(text, "a reply to {modem}\n");
    };
    put_read(text, modem, &reply)?;
    match reply.get_detail() {
        Detail::Given {
            reference: _,
            sfid,
            sid: _,
        } => put_flow(alloc, text, core, op, sfid),
        _ => Ok(()),
    }
}

/// Appends what a step is about that is not answered.
fn put_about(text: &mut String, about: About) -> Result<(), AllocError> {
    match about {
        About::Nothing => Ok(()),
        About::Transaction { tid } => write!(text, ", transaction {tid}"),
        About::Sid { sid, minislots } => write!(text, ", SID {sid} for {minislots} minislots"),
    }
}

fn put_silent(
    text: &mut String,
    modem: Option<Modem>,
    cause: Cause,
    about: About,
) -> Result<(), AllocError> {
    text.push_str("no answer")?;
    if let Some(modem) = modem {
        write!(text, " to {modem}")?;
    }
    let name = cause_name(cause);
    write!(text, ": {name}")?;
    put_about(text, about)?;
    text.push_str("\n")
}

/// Returns what a span is for.
fn use_name(iuc: Iuc) -> &'static str {
    match iuc {
        Iuc::Request => "request region",
        Iuc::Short => "short grant",
        Iuc::Long => "long grant",
    }
}

fn put_span(text: &mut String, span: Span) -> Result<(), AllocError> {
    let Span {
        sid,
        iuc,
        start,
        len,
    } = span;
    if sid == 0 {
        return write!(text, "idle: {len} minislots from {start}\n");
    }
    let name = use_name(iuc);
    write!(text, "SID {sid}: {name} of {len} minislots from {start}\n")
}

fn put_spans(text: &mut String, spans: &[Span]) -> Result<(), AllocError> {
    for span in spans {
        put_span(text, *span)?;
    }
    Ok(())
}

fn put_pending(text: &mut String, pending: &[u16]) -> Result<(), AllocError> {
    for sid in pending {
        write!(text, "SID {sid}: grant pending\n")?;
    }
    Ok(())
}

/// Appends a frame of an operator.
fn put_frame(
    text: &mut String,
    core: &PlantCore,
    op: Op,
    number: u32,
    elements: &Elements,
) -> Result<(), AllocError> {
    write!(text, "frame {number} of ")?;
    if let Some(row) = core.plant().rows().get(op) {
        let name = row.get_fields().name;
        write!(text, "{name}")?;
    }
    text.push_str("\n")?;
    put_spans(text, elements.get_spans())?;
    put_pending(text, elements.get_pending())
}

fn put_out(
    alloc: Global,
    text: &mut String,
    core: &PlantCore,
    about: About,
    out: &Out,
) -> Result<(), AllocError> {
    match out {
        Out::Of {
            op,
            output: Output::Reply { modem, bytes },
        } => put_reply(alloc, text, core, *op, *modem, bytes.as_slice()),
        Out::Of {
            op: _,
            output: Output::Silent { modem, cause },
        } => put_silent(text, *modem, *cause, about),
        Out::Of {
            op,
            output: Output::Frame { number, elements },
        } => put_frame(text, core, *op, *number, elements),
        Out::Map(made) => {
            let frame = made.frame;
            write!(text, "MAP of frame {frame} made\n")
        }
    }
}

/// Adds the budget that a check compared with what flows hold and need.
fn put_budget(
    text: &mut String,
    held: u64,
    limit: u16,
    needed: u64,
    from_frame: Option<u32>,
) -> Result<(), AllocError> {
    write!(text, "the budget of {limit} minislots")?;
    if let Some(frame) = from_frame {
        write!(text, " from frame {frame}")?;
    }
    write!(text, " holds {held}, this flow needs {needed}\n")
}

/// Adds the numbers that a check compared.
fn put_comparison(text: &mut String, comparison: CheckComparison) -> Result<(), AllocError> {
    match comparison {
        CheckComparison::Budget {
            held,
            limit,
            needed,
            from_frame,
        } => put_budget(text, held, limit, needed, from_frame),
        CheckComparison::Quota {
            held,
            limit,
            needed,
        } => {
            write!(
                text,
                "the quota of {limit} elements holds {held}, this flow needs {needed}\n"
            )
        }
        CheckComparison::Flows { held, limit } => write!(text, "{held} of {limit} flows stand\n"),
        CheckComparison::Transactions { held, limit } => {
            write!(text, "{held} of {limit} transactions are kept\n")
        }
    }
}

/// Returns the numbers of the check that decided a step, and what the step output, in words.
pub(crate) fn words_of(
    alloc: Global,
    core: &PlantCore,
    seen: &StepReport,
    outs: &[Out],
) -> Result<String, AllocError> {
    let mut text = String::new(alloc);
    if let Some(comparison) = seen.comparison {
        put_comparison(&mut text, comparison)?;
    }
    for out in outs {
        put_out(alloc, &mut text, core, seen.about, out)?;
    }
    Ok(text)
}
