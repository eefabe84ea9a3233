//! A receipt, as a run on threads keeps it.

ghost use Rattle.plant_workers.specs.receipts.Callers.{IsFor};

use crate::receipts::{Caller, Receipt};
use plant::Op;

/// Keeps a receipt with its operator and its caller. The type keeps that its action is one that the caller does.
#[derive(Debug, Drop)]
pub struct Told {
    pub op: Op,
    pub caller: Caller,
    pub receipt: Receipt,
    ghost by_caller: { IsFor caller receipt },
}
