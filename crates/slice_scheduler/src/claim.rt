//! What a flow claims of a frame for its backlog.

/// How many ranks there are: 0 to 63.
pub(crate) const RANKS: usize = 64;

/// What a flow claims of a frame for its backlog.
#[derive(Clone, Copy, Debug, PartialEq, Eq)]
pub(crate) struct Claim {
    /// The flow.
    pub sfid: u32,
    /// Its SID.
    pub sid: u16,
    /// Its rank by the operator's policy: the greater goes first.
    pub rank: u8,
    /// The minislots of its backlog that its reserved rate covers.
    pub base: u16,
    /// The minislots of its backlog beyond these.
    pub left: u16,
}
