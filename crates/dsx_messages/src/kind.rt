//! Kinds of transactions.

/// What a transaction does with service flows.
#[derive(Clone, Copy, Debug, PartialEq, Eq)]
pub enum Kind {
    /// Dynamic Service Addition.
    Dsa,
    /// Dynamic Service Change.
    Dsc,
    /// Dynamic Service Deletion.
    Dsd,
}
