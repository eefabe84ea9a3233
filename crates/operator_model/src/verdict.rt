//! What becomes of a request.

use dsx_messages::{Kind, Modem, Reply};
use flow_table::Flow;
use param_sets::{ParamSet, Sets};

/// Whose request it is, of which kind, and under which transaction ID.
#[derive(Clone, Copy, Debug, PartialEq, Eq)]
pub struct Transaction {
    pub modem: Modem,
    pub kind: Kind,
    pub tid: u16,
}

/// The sets that the encodings of a request ask for: None is the null set.
#[derive(Clone, Copy, Debug, PartialEq, Eq)]
pub struct AskedSets {
    /// For what resources are to be committed.
    pub admitted: Option<ParamSet>,
    /// By what the flow is to be served.
    pub active: Option<ParamSet>,
}

/// A flow that is asked for, before there is room for it.
#[derive(Clone, Copy, Debug)]
pub struct Addition {
    /// The reference that its modem gives it.
    pub reference: u16,
    /// Its sets, once it is acknowledged.
    pub sets: Sets,
}

/// A change that is asked for, before there is room for it.
#[derive(Clone, Copy, Debug)]
pub struct Change {
    /// The SFID of the flow.
    pub sfid: u32,
    /// The flow as it is.
    pub flow: Flow,
    /// Its sets, once the change is acknowledged.
    pub sets: Sets,
}

/// What becomes of a request that the table of checks has judged. Its reply is kept.
#[derive(Clone, Copy, Debug)]
pub enum Verdict {
    /// It is refused with this reply.
    Refused { reply: Reply },
    /// The flow is put under the SFID, a new one or one that is changed, and waits for the reply's acknowledgement.
    Put { sfid: u32, flow: Flow, reply: Reply },
    /// The flow goes.
    Deleted { sfid: u32, reply: Reply },
}
