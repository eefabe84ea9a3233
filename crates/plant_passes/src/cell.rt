//! The calls of a cell.

ghost use Rattle.std.specs.Prelude.{◌≡◌, ◌≢◌, ◌↔◌, ◌<◌, ◌≤◌, true, Some, None, Err, All, map};
ghost use Rattle.std.specs.Prelude.{vec_len, IfOk, OnErr, IfErr, OnOk, IsOk, IfSome, IsNone};
ghost use Rattle.dsx_messages.specs.declared.modem.Modem.{Modem};
ghost use Rattle.operator_model.specs.declared.action.Action.TheVariants as actions;
ghost use Rattle.operator_model.specs.Machine.{stranger_of};
ghost use Rattle.operator_book.specs.ViewOf.{view_of};
ghost use Rattle.operator_book.specs.declared.book.BookFault.TheVariants as faults;
ghost use Rattle.plant_workers.specs.declared.cell_state.cell_fault.CellFault.TheVariants as refusals;
ghost use Rattle.plant_passes.specs.Runs.{origin_of};
ghost use Rattle.plant_passes.specs.Histories.{mark_entries};
ghost use Rattle.plant_passes.specs.Passes.{IsOfCell, state_seen, first_passes, ActsInTurn, LooksOn};
ghost use Rattle.plant_passes.specs.Passes.{RefusesBeforeTurn, RefusesTurn, RefusesArrival, HasMet, IsLongest};
ghost use Rattle.plant_passes.specs.ViewOf.{cell_of, pass_of};

use crate::dealing::{deal_out, gather, room_for, table_round};
use crate::pass::{Pass, PassedCell};
use crate::steps::{CopyStep, JoinStep, LookStep};
use crate::turns;
use crate::view::BookParts;
use dsx_messages::Modem;
use operator_book::{Action, Book, BookFault, Heard};
use plant::is_listed;
use plant_workers::{CellFault, Receipt};
use std::alloc::{AllocError, Global};
use std::sync::Wait;

impl PassedCell {
    /// Returns a cell round a book, and its passes, which have seen the book's history.
    pub fn open(
        alloc: Global,
        book: Book,
        passes: usize,
    ) -> Result<(PassedCell, Vec<Pass>), AllocError>
        requires { (0 < passes) × (passes ≤ 64) }
        // The cell has so many passes, and is of the book.
        ensures cell { IfOk result (λ r. ((cell_of r.0).passes ≡ passes)
            × ((cell_of r.0).origin ≡ origin_of (view_of book))) }
        ensures of { IfOk result (λ r. All (λ p. IsOfCell (cell_of r.0) (pass_of p)) r.1.items) }
        // The passes have seen the book's history, and made nothing.
        ensures passes { IfOk result (λ r. map pass_of r.1.items
            ≡ first_passes (cell_of r.0).cell (cell_of r.0).origin (mark_entries 0 (view_of book).history) passes) }
    {
        let room = room_for(alloc, &book, passes)?;
        let (table, giver) = table_round(alloc, book, room.slots, passes)?;
        let given = deal_out(&table.shared, giver, room.given, passes);
        let cell = PassedCell {
            table,
            passes,
            modems: room.modems,
        };
        Ok((cell, given))
    }

    /// Returns a copy of an action, if the cell is found open. Draws no ticket, so that running out of memory here leaves the
    /// cell open.
    fn copy_if_open(
        &self,
        alloc: Global,
        pass: &mut Pass,
        action: &Action,
    ) -> Result<Action, CellFault>
        requires of { IsOfCell (cell_of self.now) (pass_of pass.old) }
        ensures of { IsOfCell (cell_of self.now) (pass_of pass.new) }
        ensures looks { LooksOn (pass_of pass.old) (pass_of pass.new) }
        ensures ended_cell { (pass_of pass.new).ended_cell ≡ (pass_of pass.old).ended_cell }
        ensures copy { IfOk result (λ told. told ≡ action.now) }
        // If memory ran out before the turn, the cell stays open.
        ensures err { IfErr result (RefusesBeforeTurn (pass_of pass.new)) }
        ensures mine { (stranger : Modem) → result ≢ Err (refusals.Book (faults.NotMine stranger)) }
        ensures not_spent { result ≢ Err (refusals.Book faults.FramesSpent) }
        ensures shut { (pass_of pass.old).closed ≡ true → result ≡ Err refusals.Closed }
    {
        if turns::is_closed(&self.table.shared, &mut pass.seat) {
            return Err(CellFault::Closed);
        }
        match action.copy(alloc) {
            Ok(told) => Ok(told),
            Err(_) => Err(CellFault::Book(BookFault::NoMemory)),
        }
    }

    /// Puts what was received of a modem at the end of the inbox, in the pass's turn. Running out
    /// of memory before the turn leaves the cell open.
    pub fn arrive<R: Wait>(
        &self,
        rt: &R,
        alloc: Global,
        pass: &mut Pass,
        modem: Modem,
        heard: Heard,
    ) -> Result<Receipt, CellFault>
        requires of { IsOfCell (cell_of self.now) (pass_of pass.old) }
        ensures of { IsOfCell (cell_of self.now) (pass_of pass.new) }
        // There is a history that begins with all that the pass had seen, is a run of the operator's own machine, and
        // ends with this action and the receipt's outputs, at the receipt's index.
        ensures ok { IfOk result (λ r. ActsInTurn (pass_of pass.old) (actions.Arrive modem heard) r (pass_of pass.new)) }
        // What the refusal leaves. Out of memory closes the cell by its own turn, or leaves it open. No clause excludes
        // that `Closed` comes in place of another refusal: tests do.
        ensures err { IfErr result (λ fault. RefusesArrival (pass_of pass.old) fault (pass_of pass.new)) }

        // A stranger is refused first, and before a turn is drawn; whoever knows the cell closed is then reported so.
        ensures not_mine { (stranger : Modem) → (result ≡ Err (refusals.Book (faults.NotMine stranger)))
            ↔ (stranger_of (cell_of self.now).origin.row (actions.Arrive modem heard) ≡ Some stranger) }
        ensures not_spent { result ≢ Err (refusals.Book faults.FramesSpent) }
        // A pass that knows the cell closed is refused so.
        ensures shut { (pass_of pass.old).closed ≡ true
            → stranger_of (cell_of self.now).origin.row (actions.Arrive modem heard) ≡ None
            → result ≡ Err refusals.Closed }
    {
        if !is_listed(modem, self.modems.as_slice()) {
            return Err(CellFault::Book(BookFault::NotMine { modem }));
        }
        let action = Action::Arrive { modem, heard };
        let told = match self.copy_if_open(alloc, pass, &action) {
            Ok(told) => told,
            Err(fault) => return Err(fault),
        };
        let (index, outputs) = turns::act(rt, alloc, &self.table.shared, &mut pass.seat, action)?;
        Ok(Receipt {
            index,
            action: told,
            outputs,
        })
    }

    /// Handles the first of the inbox, in the pass's turn.
    pub fn work<R: Wait>(
        &self,
        rt: &R,
        alloc: Global,
        pass: &mut Pass,
    ) -> Result<Receipt, CellFault>
        requires of { IsOfCell (cell_of self.now) (pass_of pass.old) }
        ensures of { IsOfCell (cell_of self.now) (pass_of pass.new) }
        ensures ok { IfOk result (λ r. ActsInTurn (pass_of pass.old) actions.Work r (pass_of pass.new)) }
        ensures err { IfErr result (λ fault. RefusesTurn (pass_of pass.old) fault (pass_of pass.new)) }
        ensures mine { (stranger : Modem) → result ≢ Err (refusals.Book (faults.NotMine stranger)) }
        ensures not_spent { result ≢ Err (refusals.Book faults.FramesSpent) }
        ensures closed { OnErr result ((pass_of pass.new).closed ≡ true) }
        ensures shut { (pass_of pass.old).closed ≡ true → result ≡ Err refusals.Closed }
    {
        let (index, outputs) = turns::act(
            rt,
            alloc,
            &self.table.shared,
            &mut pass.seat,
            Action::Work,
        )?;
        Ok(Receipt {
            index,
            action: Action::Work,
            outputs,
        })
    }

    /// Counts the timers on and gives out one frame, in the pass's turn. A slice change that waits
    /// takes force as in the book.
    pub fn tick<R: Wait>(
        &self,
        rt: &R,
        alloc: Global,
        pass: &mut Pass,
    ) -> Result<Receipt, CellFault>
        requires of { IsOfCell (cell_of self.now) (pass_of pass.old) }
        ensures of { IsOfCell (cell_of self.now) (pass_of pass.new) }
        ensures ok { IfOk result (λ r. ActsInTurn (pass_of pass.old) actions.Tick r (pass_of pass.new)) }
        ensures err { IfErr result (λ fault. RefusesTurn (pass_of pass.old) fault (pass_of pass.new)) }
        ensures mine { (stranger : Modem) → result ≢ Err (refusals.Book (faults.NotMine stranger)) }
        ensures memory { result ≡ Err (refusals.Book faults.NoMemory)
            → (state_seen (pass_of pass.new)).frame ≢ 4294967295 }
        ensures closed { OnErr result ((pass_of pass.new).closed ≡ true) }
        ensures shut { (pass_of pass.old).closed ≡ true → result ≡ Err refusals.Closed }
    {
        let (index, outputs) = turns::act(
            rt,
            alloc,
            &self.table.shared,
            &mut pass.seat,
            Action::Tick,
        )?;
        Ok(Receipt {
            index,
            action: Action::Tick,
            outputs,
        })
    }

    /// Shows a pass what another has seen. Takes no memory, so it is never refused.
    pub fn meet(&self, told: &mut Pass, teller: &mut Pass) -> Result<(), AllocError>
        requires told { IsOfCell (cell_of self.now) (pass_of told.old) }
        requires teller { IsOfCell (cell_of self.now) (pass_of teller.old) }
        ensures of { IsOfCell (cell_of self.now) (pass_of told.new) × IsOfCell (cell_of self.now) (pass_of teller.new) }
        // The pass has seen all that the other has.
        ensures told { OnOk result (HasMet (pass_of told.old) (pass_of teller.old) (pass_of told.new)) }
        ensures teller { pass_of teller.new ≡ pass_of teller.old }
        ensures never_refused { IsOk result }
    {
        let shared = &self.table.shared;
        let copy = shared.split_seat::<CopyStep>(&mut teller.seat);
        shared.join_seat::<JoinStep>(&mut told.seat, copy);
        shared.load::<LookStep>(&mut told.seat, 0);
        Ok(())
    }

    /// Returns the book, where every pass of the cell is handed back. Takes no memory.
    pub fn close(self, mut passes: Vec<Pass>) -> Option<Book>
        requires of { All (λ p. IsOfCell (cell_of self) (pass_of p)) passes.items }
        // The longest history that a pass has seen, which begins with what each has seen.
        ensures some { IfSome result (λ book. (origin_of (view_of book) ≡ (cell_of self).origin)
            × IsLongest (map pass_of passes.items) (view_of book).history) }
        // None exactly if a pass is missing.
        ensures none { IsNone result ↔ (vec_len passes < (cell_of self).passes) }
    {
        let PassedCell {
            table,
            passes: all,
            modems: _,
        } = self;
        if passes.len() < all {
            return None;
        }
        let Some(first) = passes.pop() else {
            unreachable!()
        };
        let collector = gather(&table.shared, first, passes);
        let mut closed = table.close_with(collector);
        let parts = closed.take(0);
        closed.free();
        let Some(parts) = parts else { unreachable!() };
        let BookParts { kept, ranking } = parts;
        Some(Book::of_parts(kept, ranking))
    }
}
