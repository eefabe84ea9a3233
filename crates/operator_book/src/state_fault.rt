//! Why a machine cannot go on from a state.

ghost use Rattle.std.specs.Prelude.{◌≡◌};
ghost use Rattle.operator_book.specs.declared.state_fault.StateFault.TheVariants as state_faults;

use dsx_messages::Modem;
use std::alloc::AllocError;

/// Why a machine cannot go on from a state under a row. The faults are tried in the order in which `state_fault` names them, and
/// each names the number that disagrees.
#[derive(Clone, Copy, Debug, PartialEq, Eq)]
pub enum StateFault {
    /// There are more flows than the row allows.
    TooManyFlows { flows: usize },
    /// There are more cached responses than the row allows.
    TooManyResponses { responses: usize },
    /// There are more messages in the inbox than the row allows.
    TooManyMessages { messages: usize },
    /// The SFID is not greater than that of the flow before it.
    FlowOrder { sfid: u32 },
    /// A flow, a cached response or a message is of a modem that the row does not list.
    ModemInUse { modem: Modem },
    /// The SFID is not one of the row's.
    SfidOutOfRange { sfid: u32 },
    /// The SID of this flow is not one of the row's.
    SidOutOfRange { sfid: u32, sid: u16 },
    /// The flow has no SID for a set that is admitted, or that waits to be.
    NoSid { sfid: u32 },
    /// The flow has a backlog, and does not request grants.
    StrayBacklog { sfid: u32 },
    /// The flow's intervals or its backlog count from a frame that is to come.
    LaterFlow { sfid: u32 },
    /// The sets that wait are provisioned otherwise than the flow.
    OtherProvisioned { sfid: u32 },
    /// The flow's SID is to be new, and a set is admitted already.
    SidNotNew { sfid: u32 },
    /// The SID of this flow is also that of a flow before it.
    SidTwice { sfid: u32, sid: u16 },
    /// The flows have committed more elements than the row's quota.
    OverElements { elements: u64 },
    /// The flows have committed more minislots than the budget in force.
    OverCommitted { minislots: u64 },
    /// A slice begins within the head, or ends after the frame.
    NoSuchSlice { start: u16, length: u16 },
    /// A budget is greater than its slice.
    BudgetOverSlice { budget: u16 },
    /// The frame from which a share waits is not to come.
    NextNotLater { from: u32 },
    /// The flows have committed more minislots than the budget that waits.
    OverNextBudget { minislots: u64 },
    /// A response waits for an acknowledgement, and this flow does not.
    NotAwaited { sfid: u32 },
    /// Two responses wait for an acknowledgement that concerns this flow.
    AwaitedTwice { sfid: u32 },
    /// There are two responses of this modem and transaction ID.
    ResponseTwice { modem: Modem, tid: u16 },
    /// The time of a response has ended, or it is held with a retransmission left.
    ResponseTimer { modem: Modem, tid: u16 },
    /// Memory ran out before any effect.
    NoMemory,
}

impl From<AllocError> for StateFault {
    ghost from_gives = { λ _ fault. fault ≡ state_faults.NoMemory };

    fn from(_error: AllocError) -> StateFault {
        StateFault::NoMemory
    }
}
