//! What is wrong with a message.

ghost use Rattle.std.specs.Prelude.{◌≡◌};
ghost use Rattle.dsx_messages.specs.declared.fault.MessageFault.TheVariants.{NoMemory};

use crate::kind::Kind;
use crate::reply::FlowId;
use std::alloc::{AllocError, AllocFailed};
use tlv24::TlvFault;

/// The first fault of a message: of its type, its fixed part, the cut of its TLVs, a type that is left out, a flow encoding.
#[derive(Clone, Copy, Debug, PartialEq, Eq)]
pub enum MessageFault {
    /// There is no byte.
    Empty,
    /// Its type is none of 15, 17, 18, 20 and 21.
    NotOurs {
        mtype: u8,
    },
    /// It ends within its fixed part.
    Short,
    /// Its TLVs are cut, or one of its flow encodings is invalid: `id` is the identifier of that
    /// encoding, where it was before the fault.
    Tlv {
        tid: u16,
        kind: Kind,
        id: Option<FlowId>,
        fault: TlvFault,
    },
    /// It has a TLV of a type that this product leaves out: classifiers (22, 23), a downstream flow (25) or payload header
    /// suppression (26).
    LeftOut {
        tid: u16,
        kind: Kind,
        found: u8,
    },
    /// Memory ran out before any effect.
    NoMemory,
}

impl From<AllocError> for MessageFault {
    ghost from_gives = { λ _ fault. fault ≡ NoMemory };

    fn from(_error: AllocError) -> MessageFault {
        MessageFault::NoMemory
    }
}

impl<T: Drop> From<AllocFailed<T>> for MessageFault {
    ghost from_gives = { λ _ fault. fault ≡ NoMemory };

    fn from(_error: AllocFailed<T>) -> MessageFault {
        MessageFault::NoMemory
    }
}
