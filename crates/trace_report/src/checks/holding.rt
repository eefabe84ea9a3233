//! Each check of the table, as a test.

ghost use Rattle.std.specs.Prelude.{◌≡◌, ◌==◌, ◌≤◌, is_some};
ghost use Rattle.std.specs.List.{list_any};
ghost use Rattle.flow_table.specs.Table.{committed_minislots, committed_elements};
ghost use Rattle.operator_model.specs.Asked.{is_unclassed};
ghost use Rattle.trace_report.specs.table.Said.{said_by};
ghost use Rattle.trace_report.specs.table.Holding.{would_commit};
ghost use Rattle.trace_report.specs.checks.Deciding.{do_differ, is_alone, differs_from, has_no_identifier, is_taken, is_wrong_alone, gives_none, is_unknown, names_unknown, is_of_another, flow_waits, is_outside, is_outside_one, provisioned_of, one_exceeds, has_no_sid, is_over_budget, elements_over, minislots_over, does_hold};
ghost use Rattle.trace_report.specs.checks.OperatorSnapshot.{AreAsked};

use crate::checks::asking::{encodings_of, is_addition, is_deletion, kind_of, set_asked};
use crate::checks::operator_snapshot::OperatorSnapshot;
use crate::table::Check;
use dsx_messages::{Kind, Modem, Request};
use flow_table::Flow;
use operator_model::{has_set_type, id_number, is_same, stand_together};
use param_sets::{ParamSet, Units, need_if, within};
use plant::Consts;
use tlv24::{FlowTlv, SetType};

/// What a request is about and asks for.
#[derive(Drop)]
pub(crate) struct RequestedSets {
    pub subjects: Vec<Option<Flow>>,
    pub admitted: Vec<Option<ParamSet>>,
    pub active: Vec<Option<ParamSet>>,
}

fn differs_from(kind: Kind, a: &FlowTlv, b: &FlowTlv) -> bool
    ensures { result ≡ differs_from kind a.now b.now }
{
    !is_same(id_number(kind, a), id_number(kind, b))
}

fn is_alone(kind: Kind, encodings: &[FlowTlv], a: &FlowTlv) -> bool
    ensures { result ≡ is_alone kind encodings.now a.now }
{
    encodings.iter().any(|b| differs_from(kind, a, b))
}

/// Returns whether the identifiers of two encodings differ.
fn do_differ(kind: Kind, encodings: &[FlowTlv]) -> bool
    ensures { result ≡ do_differ kind encodings.now }
{
    encodings.iter().any(|a| is_alone(kind, encodings, a))
}

/// Returns whether one encoding alone may have its set type: the null set type in a change alone.
fn is_taken(kind: Kind, encoding: &FlowTlv) -> bool
    ensures { result ≡ is_taken kind encoding.now }
{
    match kind {
        Kind::Dsa | Kind::Dsd => {
            has_set_type(SetType::Admitted, encoding)
                || has_set_type(SetType::AdmittedAndActive, encoding)
        }
        Kind::Dsc => {
            has_set_type(SetType::Admitted, encoding)
                || has_set_type(SetType::AdmittedAndActive, encoding)
                || has_set_type(SetType::Null, encoding)
        }
    }
}

/// Returns whether there is one encoding, of a set type that it may not have.
fn is_wrong_alone(kind: Kind, encodings: &[FlowTlv]) -> bool
    ensures { result ≡ is_wrong_alone kind encodings.now }
{
    match encodings {
        [a] => !is_taken(kind, a),
        _ => false,
    }
}

/// Returns whether an encoding is to give a set, and has none.
fn gives_none(consts: &Consts, encoding: &FlowTlv) -> bool
    ensures { result ≡ gives_none consts.now encoding.now }
{
    if has_set_type(SetType::Null, encoding) {
        return false;
    }
    match set_asked(consts, encoding) {
        Some(Err(_)) => true,
        Some(Ok(_)) | None => false,
    }
}

fn is_used(used: &[u32], sfid: u32) -> bool
    ensures { result ≡ list_any (λ n. n == sfid) used.now }
{
    used.iter().any(|n| *n == sfid)
}

/// Returns whether this is an SFID that is not used.
fn is_unknown(used: &[u32], sfid: Option<u32>) -> bool
    ensures { result ≡ is_unknown used.now sfid }
{
    match sfid {
        None => false,
        Some(sfid) => !is_used(used, sfid),
    }
}

/// Returns whether an encoding names an SFID that is not used.
fn names_other(used: &[u32], encoding: &FlowTlv) -> bool
    ensures { result ≡ is_unknown used.now encoding.now.sfid }
{
    is_unknown(used, encoding.get_sfid())
}

fn one_names_other(used: &[u32], encodings: &[FlowTlv]) -> bool
    ensures { result ≡ list_any (λ encoding. is_unknown used.now encoding.sfid) encodings.now }
{
    encodings.iter().any(|encoding| names_other(used, encoding))
}

/// Returns whether a request names an SFID that is not used.
fn names_unknown(used: &[u32], request: &Request) -> bool
    ensures { result
        ≡ names_unknown used.now (said_by request.now).kind (said_by request.now).encodings (said_by request.now).sfid }
{
    match request {
        Request::Dsa { tid: _, flows: _ } => false,
        Request::Dsc { tid: _, flows } => one_names_other(used, flows.as_slice()),
        Request::Dsd { tid: _, sfid } => is_unknown(used, Some(*sfid)),
    }
}

fn is_of_another(modem: Modem, flow: &Option<Flow>) -> bool
    ensures { result ≡ is_of_another modem flow.now }
{
    match flow {
        None => false,
        Some(flow) => flow.modem != modem,
    }
}

fn flow_waits(flow: &Option<Flow>) -> bool
    ensures { result ≡ flow_waits flow.now }
{
    match flow {
        None => false,
        Some(flow) => flow.pending.is_some(),
    }
}

/// Returns whether one set is not within the other, where there are both.
fn is_outside(a: &Option<ParamSet>, b: &Option<ParamSet>) -> bool
    ensures { result ≡ is_outside a.now b.now }
{
    match (a, b) {
        (Some(a), Some(b)) => within(a, b).is_err(),
        _ => false,
    }
}

/// Returns whether a set is not within one of these.
fn is_outside_one(admitted: &[Option<ParamSet>], active: &Option<ParamSet>) -> bool
    ensures { result ≡ is_outside_one admitted.now active.now }
{
    admitted.iter().any(|set| is_outside(active, set))
}

fn provisioned_of(flow: &Option<Flow>) -> Option<ParamSet>
    ensures { result ≡ provisioned_of flow.now }
{
    match flow {
        None => None,
        Some(flow) => flow.sets.get_provisioned(),
    }
}

/// Returns whether one of these is not within the flow's provisioned set.
fn one_exceeds(admitted: &[Option<ParamSet>], flow: &Option<Flow>) -> bool
    ensures { result ≡ one_exceeds admitted.now flow.now }
{
    let provisioned = provisioned_of(flow);
    admitted.iter().any(|set| is_outside(set, &provisioned))
}

fn has_no_sid(flow: &Option<Flow>) -> bool
    ensures { result ≡ has_no_sid flow.now }
{
    match flow {
        None => true,
        Some(flow) => flow.sid.is_none(),
    }
}

/// Returns what flows have committed of elements.
fn elements_of(units: Units, flows: &[(u32, Flow)]) -> u64
    requires { committed_elements units flows.now ≤ 65535 }
    ensures value { result ≡ committed_elements units flows.now }
    ensures few { result ≤ 65535 }
{
    let mut total: u64 = 0;
    for (_sfid, flow) in flows {
        total += u64::from(flow.committed(units).elements);
    }
    total
}

/// Returns what flows have committed of minislots.
fn minislots_of(units: Units, flows: &[(u32, Flow)]) -> u64
    requires { committed_minislots units flows.now ≤ 65535 }
    ensures value { result ≡ committed_minislots units flows.now }
    ensures few { result ≤ 65535 }
{
    let mut total: u64 = 0;
    for (_sfid, flow) in flows {
        total += u64::from(flow.committed(units).minislots);
    }
    total
}

fn one_unclassed(consts: &Consts, encodings: &[FlowTlv]) -> bool
    ensures { result ≡ list_any (is_unclassed consts.now.classes) encodings.now }
{
    encodings
        .iter()
        .any(|encoding| consts.requested_encoding(encoding).is_none())
}

fn one_has_no_identifier(kind: Kind, encodings: &[FlowTlv]) -> bool
    ensures { result ≡ list_any (has_no_identifier kind) encodings.now }
{
    encodings
        .iter()
        .any(|encoding| id_number(kind, encoding).is_none())
}

fn one_gives_none(consts: &Consts, encodings: &[FlowTlv]) -> bool
    ensures { result ≡ list_any (gives_none consts.now) encodings.now }
{
    encodings
        .iter()
        .any(|encoding| gives_none(consts, encoding))
}

fn one_is_of_another(modem: Modem, subjects: &[Option<Flow>]) -> bool
    ensures { result ≡ list_any (is_of_another modem) subjects.now }
{
    subjects.iter().any(|flow| is_of_another(modem, flow))
}

fn one_waits(subjects: &[Option<Flow>]) -> bool
    ensures { result ≡ list_any flow_waits subjects.now }
{
    subjects.iter().any(|flow| flow_waits(flow))
}

/// Returns whether one of the active sets is not within one of the admitted ones.
fn one_is_outside(admitted: &[Option<ParamSet>], active: &[Option<ParamSet>]) -> bool
    ensures { result ≡ list_any (is_outside_one admitted.now) active.now }
{
    active.iter().any(|set| is_outside_one(admitted, set))
}

/// Returns whether one of the admitted sets is not within the provisioned set of one of the flows.
fn one_of_one_exceeds(admitted: &[Option<ParamSet>], subjects: &[Option<Flow>]) -> bool
    ensures { result ≡ list_any (one_exceeds admitted.now) subjects.now }
{
    subjects.iter().any(|flow| one_exceeds(admitted, flow))
}

fn one_has_no_sid(subjects: &[Option<Flow>]) -> bool
    ensures { result ≡ list_any has_no_sid subjects.now }
{
    subjects.iter().any(|flow| has_no_sid(flow))
}

fn one_is_a_set(sets: &[Option<ParamSet>]) -> bool
    ensures { result ≡ list_any is_some sets.now }
{
    sets.iter().any(|set| set.is_some())
}

impl OperatorSnapshot {
    /// Returns what all flows have committed of elements.
    fn committed_elements(&self) -> u64
        ensures value { result ≡ committed_elements self.now.consts.units self.now.state.flows }
        ensures few { result ≤ 65535 }
    {
        // For the proof: what the type of `self.row.get_fields().elements` keeps.
        let _quota = self.row.get_fields().elements;
        elements_of(self.consts.get_fields().units, self.state.flows())
    }

    /// Returns what all flows have committed of minislots.
    fn committed_minislots(&self) -> u64
        ensures value { result ≡ committed_minislots self.now.consts.units self.now.state.flows }
        ensures few { result ≤ 65535 }
    {
        // For the proof: what the type of `self.state.share().budget` keeps.
        let _budget = self.state.share().budget;
        minislots_of(self.consts.get_fields().units, self.state.flows())
    }

    /// Returns what all flows would have committed of elements, with this set waiting for the flow.
    fn elements_with(&self, flow: &Option<Flow>, set: &Option<ParamSet>) -> u64
        ensures { result ≡ would_commit (λ need. need.elements) self.now flow.now set.now }
    {
        let units = self.consts.get_fields().units;
        let needed = u64::from(need_if(units, *set).elements);
        let total = self.committed_elements();
        match flow {
            None => total + needed,
            Some(flow) => {
                let admitted = u64::from(need_if(units, flow.sets.get_admitted()).elements);
                total.saturating_sub(u64::from(flow.committed(units).elements))
                    + admitted.max(needed)
            }
        }
    }

    /// Returns what all flows would have committed of minislots, with this set waiting for the
    /// flow.
    fn minislots_with(&self, flow: &Option<Flow>, set: &Option<ParamSet>) -> u64
        ensures { result ≡ would_commit (λ need. need.minislots) self.now flow.now set.now }
    {
        let units = self.consts.get_fields().units;
        let needed = u64::from(need_if(units, *set).minislots);
        let total = self.committed_minislots();
        match flow {
            None => total + needed,
            Some(flow) => {
                let admitted = u64::from(need_if(units, flow.sets.get_admitted()).minislots);
                total.saturating_sub(u64::from(flow.committed(units).minislots))
                    + admitted.max(needed)
            }
        }
    }

    /// Returns whether so many minislots are more than the budget in force has, or than the one
    /// that waits for its frame.
    fn is_over_budget(&self, minislots: u64) -> bool
        ensures { result ≡ is_over_budget self.now minislots }
    {
        if u64::from(self.state.share().budget) < minislots {
            return true;
        }
        match self.state.next() {
            None => false,
            Some(next) => u64::from(next.share.budget) < minislots,
        }
    }

    fn elements_over(&self, sets: &[Option<ParamSet>], flow: &Option<Flow>) -> bool
        ensures { result ≡ elements_over self.now sets.now flow.now }
    {
        let quota = u64::from(self.row.get_fields().elements);
        sets.iter().any(|set| quota < self.elements_with(flow, set))
    }

    fn minislots_over(&self, sets: &[Option<ParamSet>], flow: &Option<Flow>) -> bool
        ensures { result ≡ minislots_over self.now sets.now flow.now }
    {
        sets.iter()
            .any(|set| self.is_over_budget(self.minislots_with(flow, set)))
    }

    /// Returns whether one of the sets would have more elements committed for one of the flows than
    /// the quota has.
    fn one_has_elements_over(&self, asked: &RequestedSets) -> bool
        ensures { result ≡ list_any (elements_over self.now asked.now.admitted.items) asked.now.subjects.items }
    {
        let admitted = asked.admitted.as_slice();
        let subjects = asked.subjects.as_slice();
        subjects
            .iter()
            .any(|flow| self.elements_over(admitted, flow))
    }

    /// Returns whether one of the sets would have more minislots committed for one of the flows
    /// than a budget has.
    fn one_has_minislots_over(&self, asked: &RequestedSets) -> bool
        ensures { result ≡ list_any (minislots_over self.now asked.now.admitted.items) asked.now.subjects.items }
    {
        let admitted = asked.admitted.as_slice();
        let subjects = asked.subjects.as_slice();
        subjects
            .iter()
            .any(|flow| self.minislots_over(admitted, flow))
    }

    /// Returns whether a check holds.
    pub(crate) fn holds(
        &self,
        check: Check,
        modem: Modem,
        request: &Request,
        asked: &RequestedSets,
    ) -> bool
        requires { AreAsked self.now (said_by request.now) asked.now.subjects.items asked.now.admitted.items asked.now.active.items }
        ensures { result ≡ does_hold check self.now modem (said_by request.now) }
    {
        let (kind, encodings) = (kind_of(request), encodings_of(request));
        let (subjects, admitted) = (asked.subjects.as_slice(), asked.admitted.as_slice());
        let row = self.row.get_fields();
        match check {
            Check::UnknownClass => one_unclassed(&self.consts, encodings),
            Check::NoEncoding => !is_deletion(kind) && encodings.is_empty(),
            Check::IdentifiersDiffer => do_differ(kind, encodings),
            Check::NotTogether => encodings.len() > 1 && !stand_together(encodings),
            Check::NoIdentifier => one_has_no_identifier(kind, encodings),
            Check::UnknownFlow => names_unknown(&self.sfids, request),
            Check::NotOwner => one_is_of_another(modem, subjects),
            Check::FlowWaits => one_waits(subjects),
            Check::WrongSetType => is_wrong_alone(kind, encodings),
            Check::NoParameterSet => one_gives_none(&self.consts, encodings),
            Check::ActiveNotWithin => one_is_outside(admitted, asked.active.as_slice()),
            Check::AdmittedNotWithin => one_of_one_exceeds(admitted, subjects),
            Check::FlowsFull => {
                is_addition(kind) && usize::from(row.flows) <= self.state.flows().len()
            }
            Check::NoSfidFree => is_addition(kind) && row.sfids.least_free(&self.sfids).is_none(),
            Check::NoSidFree => {
                row.sids.least_free(&self.sids).is_none()
                    && one_has_no_sid(subjects)
                    && one_is_a_set(admitted)
            }
            Check::ElementsOver => !is_deletion(kind) && self.one_has_elements_over(asked),
            Check::MinislotsOver => !is_deletion(kind) && self.one_has_minislots_over(asked),
            Check::Accepted => true,
        }
    }
}
