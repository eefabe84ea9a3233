//! Giving new slices to all operators.

ghost use Rattle.std.specs.Prelude.{◌≡◌, ◌<◌, ◌≤◌, ◌^◌, All, None, length, map, option_map, vec_len, vec_capacity, IfOk, OnOk, OnErr};
ghost use Rattle.operator_model.specs.declared.action.Action.TheVariants as actions;
ghost use Rattle.operator_model.specs.Machine.{unfit_from};
ghost use Rattle.operator_model.specs.Replay.{operator_of_book, book_after_action};
ghost use Rattle.run_model.specs.Steps.{NoneRefuses};
ghost use Rattle.plant_core.specs.declared.live.core_fault.CoreFault.TheVariants as core_faults;
ghost use Rattle.plant_core.specs.live.Faults.{IsReported};
ghost use Rattle.plant_core.specs.live.Giving.{HaveTaken};
ghost use Rattle.plant_core.specs.live.Reslicing.{reslice_fault};
ghost use Rattle.plant_workers.specs.cell_state.HeldView.{cell_book, waiting_of, history_room};
ghost use Rattle.plant_workers.specs.cell_state.Receiving.{IsReceiptOf, AreOwnersReceipts};

use crate::cell_state::held::Held;
use crate::cell_state::judging::reslice_fault;
use crate::cell_state::told::Told;
use crate::receipts::{Caller, Receipt};
use operator_model::{Action, Outputs, SliceRow};
use plant_core::CoreFault;
use std::alloc::{AllocError, Global};

impl Held {
    /// Makes room for one more entry in the history.
    fn make_room(&mut self) -> Result<(), AllocError>
        requires within { self.old.collected ≤ length (cell_book self.old).history }
        ensures room { OnOk result (0 < history_room self.new) }
        ensures book { cell_book self.new ≡ cell_book self.old }
        ensures waiting { waiting_of self.new ≡ waiting_of self.old }
    {
        self.book.make_room()
    }

    /// Takes a row from a later frame on, and returns the owner's receipt. Takes no memory.
    fn reslice(&mut self, alloc: Global, from: u32, row: SliceRow) -> Receipt
        requires within { self.old.collected ≤ length (cell_book self.old).history }
        requires fit { unfit_from (operator_of_book (cell_book self.old)) from row ≡ None }
        requires room { 0 < history_room self.old }
        ensures receipt { IsReceiptOf (cell_book self.old) (actions.Reslice from row) result }
        ensures book { cell_book self.new ≡ book_after_action (cell_book self.old) (actions.Reslice from row) }
        ensures waiting { waiting_of self.new ≡ waiting_of self.old }
    {
        let index = self.count();
        self.book.reslice(from, row);
        Receipt {
            index,
            action: Action::Reslice { from, row },
            outputs: Outputs::new(alloc),
        }
    }
}

/// Makes room for one more entry in each history.
fn make_room(helds: &mut Vec<Held>) -> Result<(), AllocError>
    requires { vec_len helds.old < 2 ^ 64 }
    ensures room { OnOk result (All (λ held. 0 < history_room held) helds.new.items) }
    ensures books { map cell_book helds.new.items ≡ map cell_book helds.old.items }
    ensures waiting { map waiting_of helds.new.items ≡ map waiting_of helds.old.items }
{
    for op in 0..helds.len() {
        helds[op].make_room()?;
    }
    Ok(())
}

/// Gives each operator its row, and adds the owner's receipts. Takes no memory.
fn give(alloc: Global, helds: &mut Vec<Held>, told: &mut Vec<Told>, from: u32, rows: &[SliceRow])
    requires one_each { length rows.now ≡ vec_len helds.old }
    requires fit { NoneRefuses from (map cell_book helds.old.items) rows.now }
    requires room { All (λ held. 0 < history_room held) helds.old.items }
    requires empty { vec_len told.old ≡ 0 }
    requires capacity { length rows.now ≤ vec_capacity told.old }
    ensures books { HaveTaken from rows.now (map cell_book helds.old.items) (map cell_book helds.new.items) }
    ensures waiting { map waiting_of helds.new.items ≡ map waiting_of helds.old.items }
    ensures receipts { AreOwnersReceipts from rows.now (map cell_book helds.old.items) told.new.items }
{
    for (op, row) in rows.iter().enumerate() {
        let receipt = helds[op].reslice(alloc, from, *row);
        told.push_reserved(Told {
            op,
            caller: Caller::Owner,
            receipt,
        });
    }
}

/// Gives each operator its row, which is fit. All memory is taken first.
fn give_all(
    alloc: Global,
    helds: &mut Vec<Held>,
    from: u32,
    rows: &[SliceRow],
) -> Result<Vec<Told>, AllocError>
    requires few { vec_len helds.old < 2 ^ 64 }
    requires fit { reslice_fault from (map cell_book helds.old.items) rows.now ≡ None }
    ensures books { OnOk result (HaveTaken from rows.now (map cell_book helds.old.items) (map cell_book helds.new.items)) }
    ensures waiting { map waiting_of helds.new.items ≡ map waiting_of helds.old.items }
    ensures receipts { IfOk result (λ told. AreOwnersReceipts from rows.now (map cell_book helds.old.items) told.items) }
    ensures same { OnErr result (map cell_book helds.new.items ≡ map cell_book helds.old.items) }
{
    let mut told = Vec::with_capacity(alloc, rows.len())?;
    make_room(helds)?;
    give(alloc, helds, &mut told, from, rows);
    Ok(told)
}

/// Gives each operator its row from a later frame on, and returns the owner's receipts, operator by operator. On an error
/// no book has changed.
pub fn reslice(
    alloc: Global,
    helds: &mut Vec<Held>,
    from: u32,
    rows: &[SliceRow],
) -> Result<Vec<Told>, CoreFault>
    requires { vec_len helds.old < 2 ^ 64 }
    // Each book has taken its row.
    ensures books { OnOk result (HaveTaken from rows.now (map cell_book helds.old.items) (map cell_book helds.new.items)) }
    ensures waiting { map waiting_of helds.new.items ≡ map waiting_of helds.old.items }
    // Each receipt is of the slice change of that operator's book.
    ensures receipts { IfOk result (λ told. AreOwnersReceipts from rows.now (map cell_book helds.old.items) told.items) }
    ensures same { OnErr result (map cell_book helds.new.items ≡ map cell_book helds.old.items) }
    // The core's first fault.
    ensures fault { IsReported result
        (option_map (λ fault. core_faults.Reslice fault) (reslice_fault from (map cell_book helds.old.items) rows.now)) }
{
    if let Some(fault) = reslice_fault(helds, from, rows) {
        return Err(CoreFault::Reslice(fault));
    }
    match give_all(alloc, helds, from, rows) {
        Ok(told) => Ok(told),
        Err(_) => Err(CoreFault::NoMemory),
    }
}
