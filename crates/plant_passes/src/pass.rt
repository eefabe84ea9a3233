//! A cell, and the right to act on its book.

ghost use Rattle.std.specs.Prelude.{◌≡◌, ◌<◌, false, Some, None, length, option_map};
ghost use Rattle.operator_book.specs.ViewOf.{policy_of};

use crate::steps::CellRule;
use crate::turns::{CellSeat, Slot};
use crate::view::{CellKey, Knowledge};
use atomic_table::Table;
use grant_policy::Ranking;
use plant::Modems;
use std::alloc::Global;

/// A book that threads share, each with a pass of its own. What contracts say of it they say of `cell_of`.
#[derive(Drop)]
pub struct PassedCell {
    pub(crate) table: Table<Slot, Knowledge<Ranking>, CellKey<Ranking>, CellRule, Global>,
    pub(crate) passes: usize,
    pub(crate) modems: Modems,
    ghost two: { table.shared.table_id.words ≡ 2 },
    ghost one: { table.shared.table_id.slots ≡ 1 },
    ghost passes_are: { table.shared.key.passes ≡ passes },
    ghost some: { 0 < passes },
    ghost modems_are: { table.shared.key.book.value.kept.book.row.modems ≡ modems },
}

/// The right to act on a cell's book, of one holder at a time. What contracts say of it they say of `pass_of`.
#[derive(Drop)]
pub struct Pass {
    pub(crate) seat: CellSeat,
    ghost ticket: { seat.me.0.ticket ≡ None },
    ghost holds_book: { seat.me.0.holds_book ≡ false },
    ghost hand_is: { length seat.me.1 ≡ 0 },
    ghost number_is: { 0 < seat.me.0.number },
    ghost passes: { seat.me.0.passes ≡ 1 },
    ghost follows: { option_map policy_of seat.me.0.ranking ≡ Some seat.me.0.origin.row.policy },
}
