//! What a flow is granted of a frame for its backlog.

/// What a flow is granted of a frame for its backlog.
#[derive(Clone, Copy, Debug, PartialEq, Eq)]
pub(crate) struct Award {
    /// The flow.
    pub sfid: u32,
    /// Its SID.
    pub sid: u16,
    /// Its rank by the operator's policy: the greater goes first.
    pub rank: u8,
    /// The minislots that it asked for.
    pub backlog: u16,
    /// The minislots that it is granted.
    pub grant: u16,
}
