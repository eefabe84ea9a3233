//! What the encodings of a request ask for: the checks that ask for no room.

ghost use Rattle.std.specs.Prelude.{◌≡◌, ◌≢◌, find, Some, None, Ok, Err, IfOk, MatchResult};
ghost use Rattle.std.specs.Option.{option_copied};
ghost use Rattle.std.specs.List.{list_all};
ghost use Rattle.dsx_messages.specs.declared.kind.Kind.TheVariants.{Dsc, Dsd};
ghost use Rattle.flow_table.specs.Table.{flow_at};
ghost use Rattle.operator_book.specs.Over.{asked_sets_over};
ghost use Rattle.operator_model.specs.Asked.{is_unclassed, id_number, is_same, first_of, first_encoding, free_flow, set_over_class, set_of, is_change, asked_by_type, asked_by_one, asked_in_order, asked_by_two, asked_sets, failing_active, nested_sets, addition_of, change_of};

use crate::refusal::{refusal, refusal_naming};
use dsx_messages::{Code, Kind, Reply};
use flow_table::{Flow, Flows};
use operator_model::{
    Addition, AskedSets, Change, Transaction, has_set_type, id_number, is_same, stand_together,
};
use param_sets::{ParamSet, Refusal, Sets, from_tlv, within};
use plant::Consts;
use tlv24::{FlowTlv, SetType, subtype};

/// Returns whether each encoding has the identifier of this one.
fn all_name(kind: Kind, first: &FlowTlv, others: &[FlowTlv]) -> bool
    ensures { result ≡ list_all (λ other. is_same (id_number kind first.now) (id_number kind other)) others.now }
{
    let number = id_number(kind, first);
    others
        .iter()
        .all(|other| is_same(number, id_number(kind, other)))
}

/// Returns the first of the encodings, where they are together.
#[inline(always)]
fn first_of(t: Transaction, encodings: &[FlowTlv]) -> Result<&FlowTlv, Reply>
    ensures { MatchResult result (λ first. first_of t encodings.now ≡ Ok first.now)
        (λ reply. first_of t encodings.now ≡ Err reply) }
{
    let Some((first, others)) = encodings.split_first() else {
        return Err(refusal(t.kind, t.tid, Code::RejectRequiredParameterNotPresent));
    };
    if !all_name(t.kind, first, others) {
        return Err(refusal(t.kind, t.tid, Code::RejectMultipleUpstreamFlows));
    }
    if !stand_together(encodings) {
        return Err(refusal(t.kind, t.tid, Code::RejectDuplicateReference));
    }
    Ok(first)
}

/// Returns whether an encoding names a class that the plant has not.
fn is_unclassed(consts: &Consts, flow: &FlowTlv) -> bool
    ensures { result ≡ is_unclassed consts.now.classes flow.now }
{
    match flow.get_class_name() {
        None => false,
        Some(name) => consts.class(&name).is_none(),
    }
}

/// Returns the first encoding that names a class that the plant has not.
fn first_unclassed<'a>(consts: &Consts, encodings: &'a [FlowTlv]) -> Option<&'a FlowTlv>
    ensures { option_copied result ≡ find (is_unclassed consts.now.classes) encodings.now }
{
    encodings.iter().find(|flow| is_unclassed(consts, flow))
}

/// Returns the first of the encodings, where they are together and none names a class that the
/// plant has not.
#[tactic(auto, unfolding(operator_model::specs::Asked::first_encoding))]
#[inline(always)]
fn first_encoding<'a>(
    t: Transaction,
    consts: &Consts,
    encodings: &'a [FlowTlv],
) -> Result<&'a FlowTlv, Reply>
    requires { t.kind ≢ Dsd }
    ensures { MatchResult result (λ first. first_encoding t consts.now.classes encodings.now ≡ Ok first.now)
        (λ reply. first_encoding t consts.now.classes encodings.now ≡ Err reply) }
{
    match first_unclassed(consts, encodings) {
        Some(flow) => Err(refusal_naming(t, Code::RejectPermanent, flow, subtype::CLASS_NAME)),
        None => first_of(t, encodings),
    }
}

/// Returns the flow of an SFID, where this modem may change or delete it now.
pub(crate) fn free_flow(t: Transaction, flow: Option<&Flow>) -> Result<&Flow, Reply>
    ensures { MatchResult result (λ free. free_flow t (option_copied flow.entry) ≡ Ok free.now)
        (λ reply. free_flow t (option_copied flow.entry) ≡ Err reply) }
{
    let Some(flow) = flow else {
        return Err(refusal(t.kind, t.tid, Code::RejectFlowNotFound));
    };
    if flow.modem != t.modem {
        return Err(refusal(t.kind, t.tid, Code::RejectNotOwner));
    }
    if flow.pending.is_some() {
        return Err(refusal(t.kind, t.tid, Code::RejectTemporary));
    }
    Ok(flow)
}

/// Returns the parameter set of what an encoding asks for.
#[tactic(auto, using(crate::proofs::Replies::set_is_refused))]
#[inline(always)]
fn set_from(
    t: Transaction,
    consts: &Consts,
    flow: &FlowTlv,
    asked: &FlowTlv,
) -> Result<ParamSet, Reply>
    requires { t.kind ≢ Dsd }
    ensures { result ≡ set_over_class t consts.now.units flow.now (Some asked.now) }
{
    match from_tlv(asked, &consts.get_fields().units) {
        Ok(set) => Ok(set),
        Err(refused) => Err(refusal_naming(t, refused.code, flow, refused.subtype)),
    }
}

/// Returns the parameter set of an encoding, over its class. One that names no class is not copied.
#[tactic(auto, unfolding(operator_model::specs::Asked::set_of))]
#[inline(always)]
fn set_of(t: Transaction, consts: &Consts, flow: &FlowTlv) -> Result<ParamSet, Reply>
    requires { t.kind ≢ Dsd }
    ensures { result ≡ set_of t consts.now flow.now }
{
    if flow.get_class_name().is_none() {
        return set_from(t, consts, flow, flow);
    }
    match consts.requested_encoding(flow) {
        Some(asked) => set_from(t, consts, flow, &asked),
        None => Err(refusal_naming(t, Code::RejectPermanent, flow, subtype::CLASS_NAME)),
    }
}

fn is_change(kind: Kind) -> bool
    ensures { result ≡ is_change kind }
{
    kind == Kind::Dsc
}

/// Returns the sets that one encoding of this set type asks for.
#[inline(always)]
fn asked_by_type(
    t: Transaction,
    consts: &Consts,
    flow: &FlowTlv,
    set_type: Option<SetType>,
) -> Result<AskedSets, Reply>
    requires { t.kind ≢ Dsd }
    ensures { result ≡ asked_by_type t consts.now flow.now set_type }
{
    match set_type {
        Some(SetType::Admitted) => {
            let set = set_of(t, consts, flow)?;
            Ok(AskedSets {
                admitted: Some(set),
                active: None,
            })
        }
        Some(SetType::AdmittedAndActive) => {
            let set = set_of(t, consts, flow)?;
            Ok(AskedSets {
                admitted: Some(set),
                active: Some(set),
            })
        }
        Some(SetType::Null) if is_change(t.kind) => Ok(AskedSets {
            admitted: None,
            active: None,
        }),
        _ => Err(refusal_naming(t, Code::RejectInvalidForContext, flow, subtype::SET_TYPE)),
    }
}

/// Returns the sets that one encoding asks for.
#[inline(always)]
fn asked_by_one(t: Transaction, consts: &Consts, flow: &FlowTlv) -> Result<AskedSets, Reply>
    requires { t.kind ≢ Dsd }
    ensures { result ≡ asked_by_one t consts.now flow.now flow.now.set_type }
{
    match flow.get_set_type() {
        None => Err(refusal_naming(
            t,
            Code::RejectRequiredParameterNotPresent,
            flow,
            subtype::SET_TYPE,
        )),
        Some(number) => asked_by_type(t, consts, flow, SetType::from_number(number)),
    }
}

/// Returns two sets, of which one is admitted and the other active.
fn asked_in_order(first: &FlowTlv, a: ParamSet, b: ParamSet) -> AskedSets
    ensures { result ≡ asked_in_order first.now a b }
{
    if has_set_type(SetType::Admitted, first) {
        AskedSets {
            admitted: Some(a),
            active: Some(b),
        }
    } else {
        AskedSets {
            admitted: Some(b),
            active: Some(a),
        }
    }
}

/// Returns the sets that two encodings ask for.
fn asked_by_two(
    t: Transaction,
    consts: &Consts,
    first: &FlowTlv,
    second: &FlowTlv,
) -> Result<AskedSets, Reply>
    requires { t.kind ≢ Dsd }
    ensures { result ≡ asked_by_two t consts.now first.now second.now }
{
    let a = set_of(t, consts, first)?;
    let b = set_of(t, consts, second)?;
    Ok(asked_in_order(first, a, b))
}

/// Returns the sets that the encodings of a request ask for.
#[tactic(auto, unfolding(operator_model::specs::Asked::asked_sets))]
#[inline(always)]
fn asked_sets(t: Transaction, consts: &Consts, encodings: &[FlowTlv]) -> Result<AskedSets, Reply>
    requires { t.kind ≢ Dsd }
    ensures { result ≡ asked_sets t consts.now encodings.now }
{
    match encodings {
        [flow] => asked_by_one(t, consts, flow),
        [first, second] => asked_by_two(t, consts, first, second),
        _ => Err(refusal(t.kind, t.tid, Code::RejectDuplicateReference)),
    }
}

/// Returns the first subtype in which the active set is not within the admitted one.
fn failing_active(asked: &AskedSets) -> Option<u8>
    ensures { result ≡ failing_active asked.now.active asked.now.admitted }
{
    let active = asked.active?;
    match asked.admitted {
        None => Some(subtype::SCHEDULING_TYPE),
        Some(admitted) => within(&active, &admitted).err(),
    }
}

/// Returns the flow's sets with those that are asked for.
#[tactic(auto, unfolding(operator_model::specs::Asked::nested_sets))]
#[inline(always)]
fn nested_sets(
    t: Transaction,
    first: &FlowTlv,
    sets: Sets,
    asked: &AskedSets,
) -> Result<Sets, Reply>
    requires { t.kind ≢ Dsd }
    ensures { result ≡ nested_sets t first.now sets.provisioned asked.now }
{
    if let Some(subtype) = failing_active(asked) {
        return Err(refusal_naming(t, Code::RejectInvalidForContext, first, subtype));
    }
    match with_asked(sets, asked) {
        Ok(sets) => Ok(sets),
        Err(refused) => Err(refusal_naming(
            t,
            Code::RejectAuthorizationFailure,
            first,
            refused.subtype,
        )),
    }
}

/// Returns these sets with those that are asked for.
#[inline(always)]
fn with_asked(sets: Sets, asked: &AskedSets) -> Result<Sets, Refusal>
    requires { failing_active asked.now.active asked.now.admitted ≡ None }
    ensures { result ≡ asked_sets_over sets asked.now }
{
    let Some(admitted) = asked.admitted else {
        return Ok(sets.clear());
    };
    let sets = sets.admit(admitted)?;
    match asked.active {
        None => Ok(sets),
        Some(active) => sets.activate(active),
    }
}

/// Returns what an addition asks for.
#[tactic(auto, unfolding(operator_model::specs::Asked::addition_of))]
#[inline(always)]
pub(crate) fn addition_of(
    consts: &Consts,
    t: Transaction,
    encodings: &[FlowTlv],
) -> Result<Addition, Reply>
    requires { t.kind ≢ Dsd }
    ensures { result ≡ addition_of consts.now t encodings.now }
{
    let first = first_encoding(t, consts, encodings)?;
    let Some(reference) = first.get_reference() else {
        return Err(refusal_naming(
            t,
            Code::RejectRequiredParameterNotPresent,
            first,
            subtype::REFERENCE,
        ));
    };
    let asked = asked_sets(t, consts, encodings)?;
    let sets = nested_sets(t, first, Sets::dynamic(), &asked)?;
    Ok(Addition { reference, sets })
}

/// Returns what a change asks for of the flow of its SFID.
#[tactic(auto, unfolding(operator_model::specs::Asked::change_of))]
pub(crate) fn change_of(
    consts: &Consts,
    flows: &Flows,
    t: Transaction,
    encodings: &[FlowTlv],
) -> Result<Change, Reply>
    requires { t.kind ≢ Dsd }
    ensures value { result ≡ change_of consts.now flows.now.flows t encodings.now }
    ensures there { IfOk result (λ change. flow_at change.sfid flows.now.flows ≡ Some change.flow) }
{
    let first = first_encoding(t, consts, encodings)?;
    let Some(sfid) = first.get_sfid() else {
        return Err(refusal_naming(
            t,
            Code::RejectRequiredParameterNotPresent,
            first,
            subtype::SFID,
        ));
    };
    let flow = *free_flow(t, flows.get(sfid))?;
    let asked = asked_sets(t, consts, encodings)?;
    let sets = nested_sets(t, first, flow.sets, &asked)?;
    Ok(Change { sfid, flow, sets })
}
