//! Grants that have no place in the frame yet.

use crate::span::Iuc;

/// A grant of `len` minislots whose start is not settled.
#[derive(Clone, Copy, Debug, PartialEq, Eq)]
pub(crate) struct Piece {
    /// To whom.
    pub sid: u16,
    /// For what use.
    pub iuc: Iuc,
    /// How many minislots.
    pub len: u16,
}
