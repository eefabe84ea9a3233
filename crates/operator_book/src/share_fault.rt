//! Which fault of the counts, the messages and the shares keeps a machine from going on.

ghost use Rattle.std.specs.Prelude.{◌≡◌, ◌≤◌, length};
ghost use Rattle.flow_table.specs.Table.{committed_minislots, committed_elements};
ghost use Rattle.operator_book.specs.Resuming.{first_fault_in, modem_fault, share_fault, next_fault, counts_fault, committed_fault};

use crate::flow_fault::modem_fault;
use crate::state_fault::StateFault;
use crate::state_view::StateView;
use flow_table::{Flow, Flows};
use operator_model::{Arrival, NextShare, Share};
use param_sets::Units;
use plant::{Consts, OperatorRow};

/// Returns the fault of a share that is not one of a frame.
pub(crate) fn share_fault(consts: &Consts, share: Share) -> Option<StateFault>
    ensures { result ≡ share_fault consts.now share }
{
    let channel = consts.get_fields().channel;
    let start = share.slice.get_start();
    let length = share.slice.get_length();
    if start < channel.head || channel.frame_minislots < start + length {
        return Some(StateFault::NoSuchSlice { start, length });
    }
    if length < share.budget {
        return Some(StateFault::BudgetOverSlice {
            budget: share.budget,
        });
    }
    None
}

/// Returns the fault of the share that waits, where so many minislots are committed.
pub(crate) fn next_fault(
    consts: &Consts,
    frame: u32,
    minislots: u64,
    next: Option<NextShare>,
) -> Option<StateFault>
    ensures { result ≡ next_fault consts.now frame minislots next }
{
    let next = next?;
    if let Some(fault) = share_fault(consts, next.share) {
        return Some(fault);
    }
    if next.from <= frame {
        return Some(StateFault::NextNotLater { from: next.from });
    }
    if u64::from(next.share.budget) < minislots {
        return Some(StateFault::OverNextBudget { minislots });
    }
    None
}

/// Returns the fault of counts that the row does not allow.
pub(crate) fn counts_fault(row: &OperatorRow, state: &StateView) -> Option<StateFault>
    ensures { result ≡ counts_fault row.now state.now }
{
    let keys = row.get_fields();
    let flows = state.flows.len();
    if usize::from(keys.flows) < flows {
        return Some(StateFault::TooManyFlows { flows });
    }
    let responses = state.kept.len();
    if usize::from(keys.transactions) < responses {
        return Some(StateFault::TooManyResponses { responses });
    }
    let messages = state.inbox.len();
    if usize::from(keys.inbox) < messages {
        return Some(StateFault::TooManyMessages { messages });
    }
    None
}

/// Returns the first fault of the messages: of a modem that the row does not list.
pub(crate) fn messages_fault(row: &OperatorRow, inbox: &[Arrival]) -> Option<StateFault>
    ensures { result ≡ first_fault_in (λ arrival. modem_fault row.now arrival.modem) inbox.now }
{
    for arrival in inbox {
        if let Some(fault) = modem_fault(row, arrival.modem) {
            return Some(fault);
        }
    }
    None
}

/// Returns how many elements the flows have committed.
pub(crate) fn elements_of(units: Units, flows: &[(u32, Flow)]) -> u64
    requires { length flows.now ≤ 65535 }
    ensures { result ≡ committed_elements units flows.now }
{
    let mut elements: u64 = 0;
    for entry in flows {
        elements += u64::from(entry.1.committed(units).elements);
    }
    elements
}

/// Returns the fault of what is committed.
pub(crate) fn committed_fault(
    consts: &Consts,
    row: &OperatorRow,
    state: &StateView,
    flows: &Flows,
) -> Option<StateFault>
    requires few { length state.now.flows ≤ 65535 }
    requires flows { flows.now.flows ≡ state.now.flows }
    requires units { flows.now.units ≡ consts.now.units }
    ensures { result ≡ committed_fault consts.now row.now state.now }
{
    let elements = elements_of(consts.get_fields().units, state.flows.as_slice());
    if u64::from(row.get_fields().elements) < elements {
        return Some(StateFault::OverElements { elements });
    }
    let minislots = flows.committed_minislots();
    if u64::from(state.share.budget) < minislots {
        return Some(StateFault::OverCommitted { minislots });
    }
    None
}
