//! What a snapshot holds.

use flow_table::Flow;
use lists::Listed;
use operator_model::{Arrival, NextShare, Share};
use plant::OperatorName;
use tlv24::Bytes;
use transactions::KeptEntry;

/// A service flow under its identifier.
#[derive(Clone, Copy, Debug, PartialEq, Eq)]
pub struct SavedFlow {
    /// The service flow identifier.
    pub sfid: u32,
    pub flow: Flow,
}

/// The state of one operator's machine, under the operator's name.
#[derive(Debug, Drop)]
pub struct SavedOperator {
    pub name: OperatorName,
    /// The slice and the budget in force.
    pub share: Share,
    /// Those that wait for their frame.
    pub next: Option<NextShare>,
    /// The flows, ascending by their identifiers.
    pub flows: Listed<SavedFlow>,
    /// The cached responses, in the order in which their transactions began.
    pub kept: Listed<KeptEntry>,
    /// What was received and not handled, in order.
    pub inbox: Listed<Arrival>,
}

/// The states of all operators of a plant before one frame, and the text of the plant file.
#[derive(Debug, Drop)]
pub struct Snapshot {
    /// The text of the plant file, as it was read.
    pub plant: Bytes,
    /// The number of the next frame of every operator.
    pub frame: u32,
    pub operators: Listed<SavedOperator>,
}
