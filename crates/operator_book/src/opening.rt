//! A machine as it is opened.

ghost use Rattle.std.specs.Prelude.{◌≡◌, ◌<◌, ◌≤◌, ◌+◌, [], IfOk, IfSome, OnOk, length};
ghost use Rattle.admission.specs.Free.{IsLeastFree};
ghost use Rattle.flow_table.specs.Table.{sids_of};
ghost use Rattle.plant.specs.Row.{IsRowOf};
ghost use Rattle.operator_model.specs.State.{opened_flow, opened_state, opened_before};
ghost use Rattle.operator_book.specs.Opening.{sid_for, put_opened, put_provisions};

use crate::machine::MachineState;
use dsx_messages::Modem;
use flow_table::{Flow, Flows};
use operator_model::Share;
use param_sets::Sets;
use plant::{Consts, OperatorRow, Provision};
use std::alloc::{AllocError, Global};
use std::collections::VecDeque;
use transactions::Kept;

/// Returns the SID of a flow that is opened with these sets: the least free one where a set is
/// admitted.
fn sid_for(row: &OperatorRow, flows: &Flows, sets: Sets) -> Option<u16>
    ensures value { result ≡ sid_for row.now flows.now.flows sets }
    ensures free { IfSome result (IsLeastFree row.now.sids (sids_of flows.now.flows)) }
{
    if sets.get_admitted().is_none() {
        return None;
    }
    match flows.free_sid(&row.get_fields().sids) {
        None => None,
        Some(sid) => Some(sid as u16),
    }
}

/// Returns a provisioned flow as it is opened in this frame.
fn opened_flow(frame: u32, modem: Modem, sid: Option<u16>, sets: Sets) -> Flow
    ensures { result ≡ opened_flow frame (record { modem = modem; sid = sid; sets = sets }) }
{
    Flow {
        modem,
        sid,
        sets,
        pending: None,
        start: frame,
        backlog: 0,
        since: frame,
    }
}

/// Puts one flow more, opened with these sets in this frame, under the least free SFID. Puts none if
/// there are no sets or no SFID is free.
#[tactic(auto, using(crate::proofs::Room::longer))]
fn put_opened(
    alloc: Global,
    frame: u32,
    row: &OperatorRow,
    flows: &mut Flows,
    modem: Modem,
    sets: &Option<Sets>,
) -> Result<(), AllocError>
    requires { length flows.old.flows < flows.old.capacity }
    ensures few { OnOk result (length flows.new.flows ≤ length flows.old.flows + 1) }
    ensures ok { OnOk result (flows.new
        ≡ record flows.old { flows = put_opened frame row.now flows.old.flows modem sets.now }) }
{
    let Some(sets) = sets else {
        return Ok(());
    };
    let Some(sfid) = flows.free_sfid(&row.get_fields().sfids) else {
        return Ok(());
    };
    let sid = sid_for(row, flows, *sets);
    // For the proof: what always holds of `flows`.
    flows.always();
    let flow = opened_flow(frame, modem, sid, *sets);
    flows.put_flow(sfid, Box::new(alloc, flow)?)?;
    Ok(())
}

/// Puts the provisioned flows, opened in this frame, in the file's order.
#[tactic(auto, unfolding(crate::specs::Opening::put_provision))]
fn put_provisions(
    alloc: Global,
    frame: u32,
    consts: &Consts,
    row: &OperatorRow,
    flows: &mut Flows,
) -> Result<(), AllocError>
    requires none { flows.old.flows ≡ [] }
    requires fits { length row.now.provisions ≤ flows.old.capacity }
    ensures ok { OnOk result (flows.new
        ≡ record flows.old { flows = put_provisions frame consts.now row.now [] row.now.provisions }) }
{
    let mut before: Option<&Provision> = None;
    let mut sets: Option<Sets> = None;
    for provision in row.get_fields().provisions.as_slice() {
        sets = provision.sets_after(consts, before, sets);
        before = Some(provision);
        put_opened(alloc, frame, row, flows, provision.modem, &sets)?;
    }
    Ok(())
}

/// Returns the flows of an operator as it is opened in this frame: its provisioned ones.
fn flows_of(
    alloc: Global,
    row: &OperatorRow,
    consts: &Consts,
    frame: u32,
) -> Result<Flows, AllocError>
    requires { IsRowOf consts.now row.now }
    ensures { IfOk result (λ flows. flows ≡ record {
      capacity = row.now.flows;
      units = consts.now.units;
      flows = put_provisions frame consts.now row.now [] row.now.provisions;
    }) }
{
    let mut flows = Flows::new(
        alloc,
        u32::from(row.get_fields().flows),
        consts.get_fields().units,
    )?;
    put_provisions(alloc, frame, consts, row, &mut flows)?;
    Ok(flows)
}

impl MachineState {
    /// Returns the machine of an operator as it is opened: its provisioned flows, and nothing else.
    pub(crate) fn open(
        alloc: Global,
        row: &OperatorRow,
        consts: &Consts,
    ) -> Result<MachineState, AllocError>
        requires { IsRowOf consts.now row.now }
        ensures { IfOk result (λ machine. machine
            ≡ record { consts = consts.now; row = row.now; state = opened_state consts.now row.now }) }
    {
        let frame = consts.get_fields().channel.first_frame;
        MachineState::open_before(alloc, row, consts, frame)
    }

    /// Returns the machine of an operator as it is opened before this frame: its provisioned flows,
    /// and nothing else.
    #[tactic(auto, using(crate::proofs::Opens::provisions_open))]
    pub(crate) fn open_before(
        alloc: Global,
        row: &OperatorRow,
        consts: &Consts,
        frame: u32,
    ) -> Result<MachineState, AllocError>
        requires { IsRowOf consts.now row.now }
        ensures { IfOk result (λ machine. machine
            ≡ record { consts = consts.now; row = row.now; state = opened_before frame consts.now row.now }) }
    {
        let keys = row.get_fields();
        let shared = consts.get_fields();
        let flows = flows_of(alloc, row, consts, frame)?;
        let kept = Kept::new(alloc, u32::from(keys.transactions), shared.timers)?;
        Ok(MachineState {
            consts: consts.copy(alloc)?,
            row: row.copy(alloc)?,
            flows,
            kept,
            inbox: VecDeque::new(alloc),
            frame,
            share: Share {
                slice: keys.slice,
                budget: keys.budget,
            },
            next: None,
        })
    }
}
