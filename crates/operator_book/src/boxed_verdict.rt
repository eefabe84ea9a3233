//! A verdict on a request, as a plan holds it.

ghost use Rattle.std.specs.Prelude.{◌≡◌};
ghost use Rattle.operator_model.specs.Handle.{reply_of, sfid_of, does_wait};
ghost use Rattle.operator_book.specs.Held.{verdict_of};

use dsx_messages::Reply;
use flow_table::Flow;

/// A verdict on a request. Its flow is boxed, as the table of flows keeps it: a flow is large, and
/// is not moved again.
#[derive(Drop)]
pub(crate) enum BoxedVerdict {
    /// The request is refused.
    Refused {
        reply: Reply,
    },
    /// This flow is put under this SFID.
    Put {
        sfid: u32,
        flow: Box<Flow>,
        reply: Reply,
    },
    /// The flow of this SFID is removed.
    Deleted {
        sfid: u32,
        reply: Reply,
    },
}

impl BoxedVerdict {
    /// Returns the reply that this verdict sends to the modem.
    pub(crate) fn reply(&self) -> &Reply
        ensures { result.now ≡ reply_of (verdict_of self.now) }
    {
        match self {
            BoxedVerdict::Refused { reply }
            | BoxedVerdict::Put {
                sfid: _,
                flow: _,
                reply,
            }
            | BoxedVerdict::Deleted { sfid: _, reply } => reply,
        }
    }

    /// Returns the SFID that is cached with its reply: 0 if no flow belongs to it.
    pub(crate) fn sfid(&self) -> u32
        ensures { result ≡ sfid_of (verdict_of self.now) }
    {
        match self {
            BoxedVerdict::Refused { reply: _ } => 0,
            BoxedVerdict::Put {
                sfid,
                flow: _,
                reply: _,
            }
            | BoxedVerdict::Deleted { sfid, reply: _ } => *sfid,
        }
    }

    /// Returns whether its reply waits for an acknowledgement: a flow was added or changed.
    pub(crate) fn does_wait(&self) -> bool
        ensures { result ≡ does_wait (verdict_of self.now) }
    {
        match self {
            BoxedVerdict::Put {
                sfid: _,
                flow: _,
                reply: _,
            } => true,
            BoxedVerdict::Refused { reply: _ } | BoxedVerdict::Deleted { sfid: _, reply: _ } =>
                false,
        }
    }
}
