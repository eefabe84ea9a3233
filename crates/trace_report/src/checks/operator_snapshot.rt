//! An operator as it exists.

ghost use Rattle.std.specs.Prelude.{◌≡◌, IfOk};
ghost use Rattle.flow_table.specs.Table.{sfids_of, sids_of};
ghost use Rattle.operator_model.specs.State.{operator};
ghost use Rattle.operator_model.specs.Sound.{IsSound};

use flow_table::Flow;
use operator_book::{Machine, StateView};
use plant::{Consts, OperatorRow};
use std::alloc::{AllocError, Global};
use std::marker::Model;

/// A copy of an operator: what all operators share, its row, and the state of its machine. Contracts see the operator.
pub struct OperatorSnapshot {
    pub(crate) consts: Consts,
    pub(crate) row: OperatorRow,
    pub(crate) state: StateView,
    pub(crate) sfids: Vec<u32>,
    pub(crate) sids: Vec<u32>,
}

impl Drop for OperatorSnapshot {
    fn drop(self) {
        let OperatorSnapshot {
            consts: _,
            row: _,
            state: _,
            sfids: _,
            sids: _,
        } = self;
    }
}

impl Model for OperatorSnapshot {
    ghost use Rattle.operator_model.specs.State.{Operator, operator};
    ghost use Rattle.trace_report.specs.checks.OperatorSnapshot.{IsStanding};

    ghost Value = { Operator };

    ghost view = { λ s. operator s.consts s.row s.state };

    ghost invariant = { λ s. IsStanding (operator s.consts s.row s.state) s.sfids.items s.sids.items };
}

/// Returns the SFIDs that are used.
fn sfids_in(alloc: Global, flows: &[(u32, Flow)]) -> Result<Vec<u32>, AllocError>
    ensures { IfOk result (λ sfids. sfids.items ≡ sfids_of flows.now) }
{
    let mut sfids = Vec::with_capacity(alloc, flows.len())?;
    for (sfid, _flow) in flows {
        sfids.push(*sfid)?;
    }
    Ok(sfids)
}

/// Returns the SIDs that are used.
fn sids_in(alloc: Global, flows: &[(u32, Flow)]) -> Result<Vec<u32>, AllocError>
    ensures { IfOk result (λ sids. sids.items ≡ sids_of flows.now) }
{
    let mut sids = Vec::with_capacity(alloc, flows.len())?;
    for (_sfid, flow) in flows {
        if let Some(sid) = flow.sid {
            sids.push(u32::from(sid))?;
        }
    }
    Ok(sids)
}

/// The identifiers that flows use.
#[derive(Drop)]
struct UsedIds {
    sfids: Vec<u32>,
    sids: Vec<u32>,
}

/// Returns the identifiers that are used.
fn used_in(alloc: Global, flows: &[(u32, Flow)]) -> Result<UsedIds, AllocError>
    ensures sfids { IfOk result (λ used. used.sfids.items ≡ sfids_of flows.now) }
    ensures sids { IfOk result (λ used. used.sids.items ≡ sids_of flows.now) }
{
    let sfids = sfids_in(alloc, flows)?;
    let sids = sids_in(alloc, flows)?;
    Ok(UsedIds { sfids, sids })
}

/// Returns a snapshot of an operator of these parts. What all operators share and the row are copied.
fn snapshot_of(
    alloc: Global,
    consts: &Consts,
    row: &OperatorRow,
    state: StateView,
) -> Result<OperatorSnapshot, AllocError>
    requires { IsSound (operator consts.now row.now state) }
    ensures { IfOk result (λ operator_snapshot. operator_snapshot ≡ operator consts.now row.now state) }
{
    let consts = consts.copy(alloc)?;
    let row = row.copy(alloc)?;
    let used = used_in(alloc, state.flows())?;
    Ok(OperatorSnapshot {
        consts,
        row,
        state,
        sfids: used.sfids,
        sids: used.sids,
    })
}

impl OperatorSnapshot {
    /// Returns the operator of a machine, as it exists.
    pub fn of_machine(alloc: Global, machine: &Machine) -> Result<OperatorSnapshot, AllocError>
        ensures { IfOk result (λ operator_snapshot. operator_snapshot ≡ machine.now.sound) }
    {
        // For the proof: what always holds of `machine`.
        machine.always();
        let state = machine.state_view(alloc)?;
        snapshot_of(alloc, machine.consts(), machine.row(), state)
    }

    /// Returns what all operators share.
    pub fn consts(&self) -> &Consts
        ensures { result.now ≡ self.now.consts }
    {
        &self.consts
    }

    /// Returns the row of the operator.
    pub fn row(&self) -> &OperatorRow
        ensures { result.now ≡ self.now.row }
    {
        &self.row
    }

    /// Returns the state of its machine.
    pub fn state(&self) -> &StateView
        ensures { result.now ≡ self.now.state }
    {
        &self.state
    }

    /// States that the state is one that a machine can have.
    pub fn always_sound(&self)
        ensures { IsSound self.now }
    {
        // For the proof: what the type keeps, which is known where a field is read.
        let _ = &self.state;
    }
}
