//! Judging new slices for all operators.

ghost use Rattle.std.specs.Prelude.{◌≡◌, length, map};
ghost use Rattle.operator_model.specs.Machine.{unfit_from};
ghost use Rattle.operator_model.specs.Replay.{operator_of_book};
ghost use Rattle.plant_core.specs.live.Reslicing.{is_unfit, least_unfit, row_fault, reslice_fault};
ghost use Rattle.plant_workers.specs.cell_state.HeldView.{cell_book};

use crate::cell_state::held::Held;
use operator_model::{SliceRow, Unfit};
use plant::Op;
use plant_core::{ResliceFault, Unfits, first_fault, is_same};

impl Held {
    /// Returns whether the book refuses a row from a frame on with this fault. Takes no memory.
    fn refuses(&self, from: u32, row: SliceRow, unfit: Unfit) -> bool
        ensures { result ≡ is_unfit unfit (unfit_from (operator_of_book (cell_book self.now)) from row) }
    {
        match self.book.offer(from, row) {
            Ok(()) => false,
            Err(found) => is_same(unfit, found),
        }
    }
}

/// Returns the least operator whose book refuses its row with this fault.
fn least_unfit(helds: &[Held], from: u32, rows: &[SliceRow], unfit: Unfit) -> Option<Op>
    requires { length rows.now ≡ length helds.now }
    ensures { result ≡ least_unfit unfit from 0 (map cell_book helds.now) rows.now }
{
    for (op, row) in rows.iter().enumerate() {
        if helds[op].refuses(from, *row, unfit) {
            return Some(op);
        }
    }
    None
}

/// Returns the first fault of new slices, where there is one row for each operator.
fn row_fault(helds: &[Held], from: u32, rows: &[SliceRow]) -> Option<ResliceFault>
    requires { length rows.now ≡ length helds.now }
    ensures { result ≡ row_fault from (map cell_book helds.now) rows.now }
{
    let least = Unfits {
        not_past: least_unfit(helds, from, rows, Unfit::NotPast),
        unfinished: least_unfit(helds, from, rows, Unfit::Unfinished),
        off_frame: least_unfit(helds, from, rows, Unfit::OffFrame),
        budget_over_slice: least_unfit(helds, from, rows, Unfit::BudgetOverSlice),
        over_budget: least_unfit(helds, from, rows, Unfit::OverBudget),
    };
    first_fault(least, rows)
}

/// Returns the first fault of new slices from a frame on: there has to be one row for each
/// operator.
fn counted_fault(helds: &[Held], from: u32, rows: &[SliceRow]) -> Option<ResliceFault>
    ensures { result ≡ reslice_fault from (map cell_book helds.now) rows.now }
{
    if rows.len() != helds.len() {
        return Some(ResliceFault::Count);
    }
    row_fault(helds, from, rows)
}

/// Returns the first fault of new slices from a frame on, if they have one: fault by fault over all
/// operators, and of one fault the least operator or pair. Takes no memory.
pub(crate) fn reslice_fault(helds: &Vec<Held>, from: u32, rows: &[SliceRow]) -> Option<ResliceFault>
    ensures { result ≡ reslice_fault from (map cell_book helds.now.items) rows.now }
{
    counted_fault(helds.as_slice(), from, rows)
}
