//! What a request is about, and what it asks for.

ghost use Rattle.std.specs.Prelude.{◌≡◌, ◌++◌, filter, map, Some, IfOk, OnOk};
ghost use Rattle.std.specs.List.{list_any};
ghost use Rattle.operator_model.specs.Asked.{is_same};
ghost use Rattle.trace_report.specs.table.Said.{said_by, set_asked};
ghost use Rattle.trace_report.specs.checks.Asking.{is_addition, is_deletion, names, subject_of, is_named_in, subjects_of, is_for, set_given, gives_for, encoding_sets};

use crate::checks::operator_snapshot::OperatorSnapshot;
use dsx_messages::{Kind, Request};
use flow_table::Flow;
use operator_model::{has_set_type, is_same};
use param_sets::{ParamSet, Refusal, from_tlv};
use plant::Consts;
use std::alloc::{AllocError, Global};
use tlv24::{FlowTlv, SetType};

/// What the set of an encoding is for (CM-SP-MULPIv3.1, Annex C, subtype 6).
#[derive(Clone, Copy, Debug, PartialEq, Eq)]
pub enum Use {
    Admit,
    Activate,
}

pub(crate) fn is_addition(kind: Kind) -> bool
    ensures { result ≡ is_addition kind }
{
    kind == Kind::Dsa
}

pub(crate) fn is_deletion(kind: Kind) -> bool
    ensures { result ≡ is_deletion kind }
{
    kind == Kind::Dsd
}

pub(crate) fn kind_of(request: &Request) -> Kind
    ensures { result ≡ (said_by request.now).kind }
{
    match request {
        Request::Dsa { tid: _, flows: _ } => Kind::Dsa,
        Request::Dsc { tid: _, flows: _ } => Kind::Dsc,
        Request::Dsd { tid: _, sfid: _ } => Kind::Dsd,
    }
}

/// Returns its encodings: a deletion has none.
pub(crate) fn encodings_of(request: &Request) -> &[FlowTlv]
    ensures { result.now ≡ (said_by request.now).encodings }
{
    match request {
        Request::Dsa { tid: _, flows } | Request::Dsc { tid: _, flows } => flows.as_slice(),
        Request::Dsd { tid: _, sfid: _ } => &[],
    }
}

fn has_sfid(sfid: u32, encoding: &FlowTlv) -> bool
    ensures { result ≡ is_same encoding.now.sfid (Some sfid) }
{
    is_same(encoding.get_sfid(), Some(sfid))
}

fn one_has_sfid(sfid: u32, encodings: &[FlowTlv]) -> bool
    ensures { result ≡ list_any (λ encoding. is_same encoding.sfid (Some sfid)) encodings.now }
{
    encodings.iter().any(|encoding| has_sfid(sfid, encoding))
}

/// Returns whether a request names this SFID.
fn names(request: &Request, sfid: u32) -> bool
    ensures { result
        ≡ names (said_by request.now).kind (said_by request.now).encodings (said_by request.now).sfid sfid }
{
    match request {
        Request::Dsa { tid: _, flows: _ } => false,
        Request::Dsc { tid: _, flows } => one_has_sfid(sfid, flows.as_slice()),
        Request::Dsd {
            tid: _,
            sfid: named,
        } => *named == sfid,
    }
}

/// Returns whether an encoding is for this use.
fn is_for(for_use: Use, encoding: &FlowTlv) -> bool
    ensures { result ≡ is_for for_use encoding.now }
{
    match for_use {
        Use::Admit => {
            has_set_type(SetType::Admitted, encoding)
                || has_set_type(SetType::AdmittedAndActive, encoding)
        }
        Use::Activate => {
            has_set_type(SetType::Active, encoding)
                || has_set_type(SetType::AdmittedAndActive, encoding)
        }
    }
}

/// Returns the parameter set of an encoding, over its class, or why it has none; none of both where
/// the plant has not the class.
pub(crate) fn set_asked(consts: &Consts, encoding: &FlowTlv) -> Option<Result<ParamSet, Refusal>>
    ensures { result ≡ set_asked consts.now encoding.now }
{
    let asked = consts.requested_encoding(encoding)?;
    Some(from_tlv(&asked, &consts.get_fields().units))
}

/// Returns the set of an encoding, where it has one.
fn set_given(consts: &Consts, encoding: &FlowTlv) -> Option<ParamSet>
    ensures { result ≡ set_given consts.now encoding.now }
{
    match set_asked(consts, encoding)? {
        Ok(set) => Some(set),
        Err(_) => None,
    }
}

/// Returns whether an encoding is for this use, and has a set.
fn gives_for(for_use: Use, consts: &Consts, encoding: &FlowTlv) -> bool
    ensures { result ≡ gives_for for_use consts.now encoding.now }
{
    is_for(for_use, encoding) && set_given(consts, encoding).is_some()
}

/// Adds the flows that a request names.
fn add_named(
    request: &Request,
    flows: &[(u32, Flow)],
    subjects: &mut Vec<Option<Flow>>,
) -> Result<(), AllocError>
    ensures { OnOk result (subjects.new.items
        ≡ subjects.old.items ++ map subject_of (filter (is_named_in (said_by request.now)) flows.now)) }
{
    for (sfid, flow) in flows {
        if names(request, *sfid) {
            subjects.push(Some(*flow))?;
        }
    }
    Ok(())
}

/// Adds the sets of the encodings that are for this use.
fn add_sets(
    for_use: Use,
    consts: &Consts,
    encodings: &[FlowTlv],
    sets: &mut Vec<Option<ParamSet>>,
) -> Result<(), AllocError>
    ensures { OnOk result (sets.new.items
        ≡ sets.old.items ++ map (set_given consts.now) (filter (gives_for for_use consts.now) encodings.now)) }
{
    for encoding in encodings {
        if gives_for(for_use, consts, encoding) {
            sets.push(set_given(consts, encoding))?;
        }
    }
    Ok(())
}

/// Returns whether an encoding is for this use.
fn one_is_for(for_use: Use, encodings: &[FlowTlv]) -> bool
    ensures { result ≡ list_any (is_for for_use) encodings.now }
{
    encodings.iter().any(|encoding| is_for(for_use, encoding))
}

impl OperatorSnapshot {
    /// Returns the flows that a request is about: none that is present, where it adds one.
    pub(crate) fn subjects(
        &self,
        alloc: Global,
        request: &Request,
    ) -> Result<Vec<Option<Flow>>, AllocError>
        ensures { IfOk result (λ subjects. subjects.items ≡ subjects_of self.now (said_by request.now)) }
    {
        let mut subjects = Vec::new(alloc);
        if is_addition(kind_of(request)) {
            subjects.push(None)?;
        }
        add_named(request, self.state.flows(), &mut subjects)?;
        Ok(subjects)
    }

    /// Returns the sets that a request asks to be put to this use: the null set where no encoding
    /// is for it.
    pub(crate) fn sets(
        &self,
        alloc: Global,
        for_use: Use,
        request: &Request,
    ) -> Result<Vec<Option<ParamSet>>, AllocError>
        ensures { IfOk result (λ sets. sets.items ≡ encoding_sets for_use self.now (said_by request.now)) }
    {
        let mut sets = Vec::new(alloc);
        let encodings = encodings_of(request);
        if !one_is_for(for_use, encodings) {
            sets.push(None)?;
        }
        add_sets(for_use, &self.consts, encodings, &mut sets)?;
        Ok(sets)
    }
}
