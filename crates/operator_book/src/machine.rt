//! The machine of a book: what it holds.

use flow_table::Flows;
use operator_model::{Arrival, NextShare, Share};
use plant::{Consts, OperatorRow};
use std::collections::VecDeque;
use std::marker::Model;
use transactions::Kept;

/// The machine of an operator. Contracts see what all operators share, its row, and its state.
#[derive(Drop)]
pub(crate) struct MachineState {
    pub(crate) consts: Consts,
    pub(crate) row: OperatorRow,
    pub(crate) flows: Flows,
    pub(crate) kept: Kept,
    pub(crate) inbox: VecDeque<Arrival>,
    pub(crate) frame: u32,
    pub(crate) share: Share,
    pub(crate) next: Option<NextShare>,
}

impl Model for MachineState {
    ghost use Rattle.operator_model.specs.State.{Operator};
    ghost use Rattle.operator_book.specs.Held.{IsMachine};

    ghost Value = { Operator };

    ghost view = { λ m. record {
      consts = m.consts;
      row = m.row;
      state = record { flows = m.flows.flows; kept = m.kept.entries; inbox = m.inbox.items; frame = m.frame; share = m.share; next = m.next };
    } };

    ghost invariant = { λ m. IsMachine m.consts m.row m.flows m.kept };
}
