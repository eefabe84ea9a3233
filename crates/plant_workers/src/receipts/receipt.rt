//! What a caller was reported of an action that it had done.

use lists::Listed;
use operator_model::{Action, Outputs};

/// What a caller was reported of an action that it had done: its place in the history, the action,
/// and what it output. A receipt says nothing by itself: it is settled with the book.
#[derive(Debug, Drop)]
pub struct Receipt {
    /// The place in the history, from 0.
    pub index: usize,
    pub action: Action,
    pub outputs: Outputs,
}

/// The receipts of one caller, in the order in which it got them.
pub type Receipts = Listed<Receipt>;

/// The receipts of an operator's callers, caller by caller.
pub type Callers = Listed<Receipts>;
