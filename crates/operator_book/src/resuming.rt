//! A machine that goes on from a state.

ghost use Rattle.std.specs.Prelude.{◌≡◌, ◌<◌, ◌≤◌, ◌+◌, ◌⊎◌, [], ◌∷◌, ◌++◌, All, None, Some, IfOk, IfErr, IfSome, OnOk, length};
ghost use Rattle.transactions.specs.Keeping.{OneEach, HasTicks, IsHeldUnsent};
ghost use Rattle.flow_table.specs.Table.{with_flow, HaveOwnSids};
ghost use Rattle.operator_model.specs.State.{operator};
ghost use Rattle.operator_model.specs.Sound.{KeepsItsKind, IsSound};
ghost use Rattle.operator_book.specs.declared.state_fault.StateFault.TheVariants.{NoMemory};
ghost use Rattle.operator_book.specs.Resuming.{sid_twice_fault, order_fault, sids_fault, all_put_back, HasTypedSets, IsTypedFlow, entry_fault, entries_fault, parts_fault, table_fault, state_fault};

use crate::flow_fault::{flows_fault, order_fault};
use crate::machine::MachineState;
use crate::response_fault::{entry_fault, pairs_fault, responses_fault};
use crate::share_fault::{committed_fault, counts_fault, messages_fault, next_fault, share_fault};
use crate::state_fault::StateFault;
use crate::state_view::StateView;
use flow_table::{Flow, Flows};
use operator_model::NextShare;
use param_sets::{ParamSet, Sets};
use plant::{Consts, OperatorRow};
use std::alloc::{AllocError, Global};
use std::collections::VecDeque;
use transactions::{Kept, KeptEntry};

/// Returns the fault of a SID that a flow has already.
fn sid_twice_fault(flows: &Flows, sfid: u32, sid: Option<u16>) -> Option<StateFault>
    ensures { result ≡ sid_twice_fault flows.now.flows sfid sid }
{
    match sid {
        None => None,
        Some(sid) => {
            if flows.with_sid(sid).is_some() {
                Some(StateFault::SidTwice { sfid, sid })
            } else {
                None
            }
        }
    }
}

/// Returns a copy of a flow in a box.
fn boxed(alloc: Global, flow: &Flow) -> Result<Box<Flow>, AllocError>
    ensures { IfOk result (λ boxed. boxed.value ≡ flow.now) }
{
    Ok(Box::new(alloc, *flow)?)
}

/// Puts a flow after others, where none of them has its SID.
#[tactic(auto, using(crate::proofs::Resumes::once_may_stand, crate::proofs::Room::longer))]
fn put_flow(alloc: Global, table: &mut Flows, sfid: u32, flow: &Flow) -> Result<(), StateFault>
    requires { length table.old.flows < table.old.capacity }
    ensures few { OnOk result (length table.new.flows ≤ length table.old.flows + 1) }
    ensures ok { OnOk result (table.new ≡ record table.old { flows = with_flow sfid flow.now table.old.flows }) }
    ensures once { OnOk result (sid_twice_fault table.old.flows sfid flow.now.sid ≡ None) }
    ensures fault { IfErr result (λ f. (f ≡ NoMemory) ⊎ (sid_twice_fault table.old.flows sfid flow.now.sid ≡ Some f)) }
{
    // For the proof: what always holds of `table`.
    table.always();
    if let Some(fault) = sid_twice_fault(table, sfid, flow.sid) {
        return Err(fault);
    }
    table.put_flow(sfid, boxed(alloc, flow)?)?;
    Ok(())
}

/// Puts flows one after the other, where each has a SID of its own.
fn put_flows(alloc: Global, table: &mut Flows, flows: &[(u32, Flow)]) -> Result<(), StateFault>
    requires none { table.old.flows ≡ [] }
    requires few { length flows.now ≤ table.old.capacity }
    ensures ok { OnOk result (table.new ≡ record table.old { flows = all_put_back [] flows.now }) }
    ensures once { OnOk result (sids_fault [] flows.now ≡ None) }
    ensures fault { IfErr result (λ f. (f ≡ NoMemory) ⊎ (sids_fault [] flows.now ≡ Some f)) }
{
    for (sfid, flow) in flows {
        put_flow(alloc, table, *sfid, flow)?;
    }
    Ok(())
}

/// States that a set keeps what its kind of scheduling keeps. Does nothing.
fn set_is_kept(set: Option<ParamSet>)
    ensures { IfSome set KeepsItsKind }
{
    if let Some(set) = set {
        let _fields = set.get_fields();
    }
}

/// States what the type of a flow's sets keeps. Does nothing.
fn sets_are_kept(sets: Sets)
    ensures { HasTypedSets sets }
{
    let fields = sets.get_fields();
    set_is_kept(fields.admitted);
    set_is_kept(fields.active);
}

/// States what the type of a flow keeps. Does nothing.
fn flow_is_typed(flow: &Flow)
    ensures { IsTypedFlow flow.now }
{
    sets_are_kept(flow.sets);
    if let Some(pending) = flow.pending {
        sets_are_kept(pending.sets);
    }
}

/// States what the types of the flows keep, for the proof that a state is sound.
fn flows_are_typed(flows: &[(u32, Flow)])
    ensures { All (λ entry. IsTypedFlow entry.1) flows.now }
{
    for entry in flows {
        flow_is_typed(&entry.1);
    }
}

/// Puts a response back after others, where the cache takes it.
#[tactic(auto, using(crate::proofs::Resumes::entry_is_free, crate::proofs::Resumes::entry_has_ticks, crate::proofs::Resumes::entry_is_unsent))]
fn put_response(alloc: Global, kept: &mut Kept, entry: &KeptEntry) -> Result<(), StateFault>
    requires { length kept.old.entries < kept.old.capacity }
    ensures ok { OnOk result (kept.new ≡ record kept.old { entries = kept.old.entries ++ entry.now ∷ [] }) }
    ensures taken { OnOk result (entry_fault kept.old.entries entry.now ≡ None) }
    ensures fault { IfErr result (λ f. (f ≡ NoMemory) ⊎ (entry_fault kept.old.entries entry.now ≡ Some f)) }
{
    if let Some(fault) = entry_fault(kept, entry) {
        return Err(fault);
    }
    let saved = entry.copy(alloc)?;
    kept.put_back(saved);
    Ok(())
}

/// Puts responses back one after the other, where the cache takes each.
fn put_responses(alloc: Global, kept: &mut Kept, entries: &[KeptEntry]) -> Result<(), StateFault>
    requires none { kept.old.entries ≡ [] }
    requires few { length entries.now ≤ kept.old.capacity }
    ensures ok { OnOk result (kept.new ≡ record kept.old { entries = entries.now }) }
    ensures taken { OnOk result (entries_fault [] entries.now ≡ None) }
    ensures fault { IfErr result (λ f. (f ≡ NoMemory) ⊎ (entries_fault [] entries.now ≡ Some f)) }
{
    for entry in entries {
        put_response(alloc, kept, entry)?;
    }
    Ok(())
}

/// Returns the fault of the parts of a state as they are: the counts, the order of the flows, each
/// flow, the modems of the messages, and the share.
fn parts_fault(consts: &Consts, row: &OperatorRow, state: &StateView) -> Option<StateFault>
    ensures { result ≡ parts_fault consts.now row.now state.now }
{
    if let Some(fault) = counts_fault(row, state) {
        return Some(fault);
    }
    if let Some(fault) = order_fault(state.flows()) {
        return Some(fault);
    }
    if let Some(fault) = flows_fault(row, state.frame, state.flows()) {
        return Some(fault);
    }
    if let Some(fault) = messages_fault(row, state.inbox()) {
        return Some(fault);
    }
    share_fault(consts, state.share)
}

/// Returns the fault of what is committed, of the share that waits, and of the responses next to
/// the flows that they wait for.
fn table_fault(
    consts: &Consts,
    row: &OperatorRow,
    state: &StateView,
    flows: &Flows,
) -> Option<StateFault>
    requires few { length state.now.flows ≤ 65535 }
    requires flows { flows.now.flows ≡ state.now.flows }
    requires units { flows.now.units ≡ consts.now.units }
    ensures { result ≡ table_fault consts.now row.now state.now }
{
    if let Some(fault) = committed_fault(consts, row, state, flows) {
        return Some(fault);
    }
    if let Some(fault) = next_fault(consts, state.frame, flows.committed_minislots(), state.next) {
        return Some(fault);
    }
    if let Some(fault) = responses_fault(row, flows, state.cached_responses()) {
        return Some(fault);
    }
    pairs_fault(state.cached_responses())
}

/// Returns the table of a state's flows, where each has a SID of its own.
#[tactic(auto, using(crate::proofs::Resumes::put_back_all))]
fn flows_back(
    alloc: Global,
    row: &OperatorRow,
    consts: &Consts,
    flows: &[(u32, Flow)],
) -> Result<Flows, StateFault>
    requires few { length flows.now ≤ row.now.flows }
    requires ordered { order_fault None flows.now ≡ None }
    ensures ok { IfOk result (λ table. table
        ≡ record { capacity = row.now.flows; units = consts.now.units; flows = flows.now }) }
    ensures once { OnOk result (sids_fault [] flows.now ≡ None) }
    ensures own { OnOk result (HaveOwnSids flows.now) }
    ensures fault { IfErr result (λ f. (f ≡ NoMemory) ⊎ (sids_fault [] flows.now ≡ Some f)) }
{
    let capacity = u32::from(row.get_fields().flows);
    let mut table = Flows::new(alloc, capacity, consts.get_fields().units)?;
    put_flows(alloc, &mut table, flows)?;
    // For the proof: what always holds of `table`.
    table.always();
    Ok(table)
}

/// Returns the cache of a state's responses, where the cache takes each.
fn responses_back(
    alloc: Global,
    row: &OperatorRow,
    consts: &Consts,
    entries: &[KeptEntry],
) -> Result<Kept, StateFault>
    requires few { length entries.now ≤ row.now.transactions }
    ensures ok { IfOk result (λ kept. kept
        ≡ record { capacity = row.now.transactions; waits = consts.now.timers; entries = entries.now }) }
    ensures taken { OnOk result (entries_fault [] entries.now ≡ None) }
    ensures fault { IfErr result (λ f. (f ≡ NoMemory) ⊎ (entries_fault [] entries.now ≡ Some f)) }
{
    let capacity = u32::from(row.get_fields().transactions);
    let mut kept = Kept::new(alloc, capacity, consts.get_fields().timers)?;
    put_responses(alloc, &mut kept, entries)?;
    Ok(kept)
}

/// States that the slice that waits has a minislot. Does nothing.
fn next_is_some(next: Option<NextShare>)
    ensures { IfSome next (λ next. 1 ≤ next.share.slice.length) }
{
    if let Some(next) = next {
        let _length = next.share.slice.get_length();
    }
}

/// States that a state of which no fault is found is sound under the row. Does nothing.
fn has_sound_state(consts: &Consts, row: &OperatorRow, state: &StateView)
    requires parts { parts_fault consts.now row.now state.now ≡ None }
    requires table { table_fault consts.now row.now state.now ≡ None }
    requires own { HaveOwnSids state.now.flows }
    ensures { IsSound (operator consts.now row.now state.now) }
{
    // For the proof: what the types of the flows and of the slices keep.
    flows_are_typed(state.flows());
    let _some = state.share.slice.get_length();
    next_is_some(state.next);
}

impl MachineState {
    /// Returns the machine of an operator that goes on from a state, where the state has no fault
    /// under the row.
    #[tactic(auto, using(crate::proofs::SoundState::few_flows_in, crate::proofs::SoundState::few_kept_in, crate::proofs::SoundState::ordered_in))]
    pub(crate) fn resume(
        alloc: Global,
        row: &OperatorRow,
        consts: &Consts,
        state: StateView,
    ) -> Result<MachineState, StateFault>
        ensures ok { IfOk result (λ machine. machine ≡ operator consts.now row.now state) }
        ensures sound { OnOk result (IsSound (operator consts.now row.now state)) }
        ensures fault { IfErr result (λ f. (f ≡ NoMemory) ⊎ (state_fault consts.now row.now state ≡ Some f)) }
    {
        // For the proof: what the type of `row.get_fields()` keeps.
        let _keys = row.get_fields();
        if let Some(fault) = parts_fault(consts, row, &state) {
            return Err(fault);
        }
        let flows = flows_back(alloc, row, consts, state.flows())?;
        if let Some(fault) = table_fault(consts, row, &state, &flows) {
            return Err(fault);
        }
        let kept = responses_back(alloc, row, consts, state.cached_responses())?;
        // For the proof: the state is sound.
        has_sound_state(consts, row, &state);
        let consts = consts.copy(alloc)?;
        let row = row.copy(alloc)?;
        let StateView {
            flows: _,
            kept: _,
            inbox,
            frame,
            share,
            next,
        } = state;
        Ok(MachineState {
            consts,
            row,
            flows,
            kept,
            inbox: VecDeque::from(inbox),
            frame,
            share,
            next,
        })
    }
}
