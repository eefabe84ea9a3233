//! What an action outputs.

ghost use Rattle.std.specs.Prelude.{◌≡◌, IfOk};

use dsx_messages::Modem;
use lists::Listed;
use slice_scheduler::Elements;
use std::alloc::{AllocError, Global};
use tlv24::Bytes;

/// Why a message or a request gets no reply.
#[derive(Clone, Copy, Debug, PartialEq, Eq)]
pub enum Cause {
    /// The inbox was full: what was received is dropped.
    InboxFull,
    /// The inbox was empty.
    Idle,
    /// A message of no byte.
    Empty,
    /// A message of a type that is not handled.
    NotOurs,
    /// A message that ends within its fixed part.
    Short,
    /// A request under a transaction ID that another kind of request has in use.
    TidInUse,
    /// An acknowledgement for which nothing waits.
    UnknownAck,
    /// A request for minislots of a SID that no flow of the modem has.
    NoSuchSid,
    /// A request for minislots of a flow that may not ask: none of its sets is active, or its grants are unsolicited.
    NotRequesting,
}

/// What an action of the machine outputs.
#[derive(Debug, Drop)]
pub enum Output {
    /// A reply to this modem.
    Reply { modem: Modem, bytes: Bytes },
    /// No answer, for this cause; only `Idle` has no modem.
    Silent { modem: Option<Modem>, cause: Cause },
    /// The operator's part of the MAP of a frame.
    Frame { number: u32, elements: Elements },
}

impl Output {
    /// Returns an equal value with memory of its own.
    pub fn copy(&self, alloc: Global) -> Result<Output, AllocError>
        ensures { IfOk result (λ output. output ≡ self.now) }
    {
        match self {
            Output::Reply { modem, bytes } => Ok(Output::Reply {
                modem: *modem,
                bytes: bytes.copy(alloc)?,
            }),
            Output::Silent { modem, cause } => Ok(Output::Silent {
                modem: *modem,
                cause: *cause,
            }),
            Output::Frame { number, elements } => Ok(Output::Frame {
                number: *number,
                elements: elements.copy(alloc)?,
            }),
        }
    }
}

/// The outputs of one action in order.
pub type Outputs = Listed<Output>;
