//! A turn at the book: a ticket is drawn, one waits for it, acts, and ends the turn.

ghost use Rattle.std.specs.Prelude.{◌≡◌, ◌≢◌, ◌↔◌, ◌<◌, true, false, [], ◌∷◌, ◌++◌};
ghost use Rattle.std.specs.Prelude.{Some, None, MatchBool, IfOk, IfErr, OnErr, Err};
ghost use Rattle.operator_model.specs.Machine.{is_spent};
ghost use Rattle.operator_model.specs.declared.action.Unfit.{Unfit};
ghost use Rattle.dsx_messages.specs.declared.modem.Modem.{Modem};
ghost use Rattle.operator_book.specs.ViewOf.{policy_of};
ghost use Rattle.operator_book.specs.declared.book.BookFault.TheVariants as faults;
ghost use Rattle.plant_workers.specs.declared.cell_state.cell_fault.CellFault.TheVariants as refusals;
ghost use Rattle.plant_passes.specs.Runs.{state_after};
ghost use Rattle.plant_passes.specs.Histories.{entries, history_entry};
ghost use Rattle.plant_passes.specs.Steps.{with_ticket, SeesHistory, HasBookInHand};
ghost use Rattle.plant_passes.specs.Passes.{pass_view, state_seen, ActsInTurn, LooksOn, RefusesTurn};
ghost use Rattle.plant_passes.specs.Turns.{IsIdle, IsSameSeat, IsCellAction, WaitsForTurn};
ghost use Rattle.plant_passes.specs.Turns.{IsInTurn, HasFoundClosed, HasBookWith, FollowsPolicy};

use crate::steps::{AdvanceStep, CellRule, CloseStep, DrawStep, LookStep};
use crate::view::{BookParts, CellKey, Knowledge};
use atomic_table::{Seat, Shared};
use grant_policy::Ranking;
use operator_book::{Action, Book, BookFault, Output, Outputs};
use plant_workers::CellFault;
use std::alloc::Global;
use std::sync::Wait;
use std::thread;

pub(crate) type Slot = Option<BookParts<Ranking>>;

pub(crate) type CellTable = Shared<Slot, Knowledge<Ranking>, CellKey<Ranking>, CellRule>;

pub(crate) type CellSeat = Seat<Slot, Knowledge<Ranking>>;

/// Draws a ticket for the seat.
fn draw<R: Wait>(rt: &R, table: &CellTable, seat: &mut CellSeat) -> u64
    requires own { (seat.old.table_id ≡ table.now.table_id) × (table.now.table_id.words ≡ 2) }
    requires idle { (seat.old.me.0.ticket ≡ None) × (seat.old.me.0.holds_book ≡ false) × (0 < seat.old.me.0.number)
        × (0 < seat.old.me.0.passes) }
    ensures same { IsSameSeat seat.old seat.new }
    ensures ticket { seat.new.me ≡ (with_ticket seat.old.me.0 result, seat.old.me.1) }
    ensures below { result < u64.MAX }
{
    for _ in rt.forever() {
        let next = table.peek(1);
        if next < u64::MAX - 1 {
            let found = table.compare_exchange::<DrawStep>(seat, 1, next, next + 1);
            if found == next {
                return next;
            }
        }
    }
    unreachable!()
}

/// Waits until it is the ticket's turn or the cell is closed, and returns whether it is the turn.
fn wait_turn<R: Wait>(rt: &R, table: &CellTable, seat: &mut CellSeat, ticket: u64) -> bool
    requires own { (seat.old.table_id ≡ table.now.table_id) × (table.now.table_id.words ≡ 2)
        × (table.now.table_id.slots ≡ 1) }
    requires waits { WaitsForTurn ticket seat.old.me }
    ensures same { IsSameSeat seat.old seat.new }
    ensures looks { SeesHistory seat.old.me.0 seat.new.me.0 }
    ensures shut { seat.old.me.0.closed ≡ true → result ≡ false }
    ensures turn { MatchBool result (IsInTurn ticket seat.new.me) (HasFoundClosed seat.new.me) }
{
    for _ in rt.forever() {
        let now = table.load::<LookStep>(seat, 0);
        if now == u64::MAX {
            return false;
        }
        if now == ticket {
            return true;
        }
        thread::yield_now();
    }
    unreachable!()
}

/// Looks at the history so far, and returns whether the cell is closed.
pub(crate) fn is_closed(table: &CellTable, seat: &mut CellSeat) -> bool
    requires own { (seat.old.table_id ≡ table.now.table_id) × (table.now.table_id.words ≡ 2)
        × (table.now.table_id.slots ≡ 1) }
    requires idle { IsIdle seat.old.me }
    requires follows { FollowsPolicy policy_of seat.old.me.0 }
    ensures same { IsSameSeat seat.old seat.new }
    ensures idle { IsIdle seat.new.me }
    ensures follows { FollowsPolicy policy_of seat.new.me.0 }
    ensures looks { LooksOn (pass_view seat.old) (pass_view seat.new) }
    ensures ended_cell { seat.new.me.0.ended_cell ≡ seat.old.me.0.ended_cell }
    ensures shut { seat.old.me.0.closed ≡ true → result ≡ true }
    ensures closed { seat.new.me.0.closed ≡ result }
{
    table.load::<LookStep>(seat, 0) == u64::MAX
}

/// Puts the book back into the hand of the seat whose turn it is.
fn put_back(table: &CellTable, seat: &mut CellSeat, parts: BookParts<Ranking>)
    requires own { seat.old.table_id ≡ table.now.table_id }
    requires hand { seat.old.me.1 ≡ (0, None) ∷ [] }
    ensures same { IsSameSeat seat.old seat.new }
    ensures hand { seat.new.me ≡ (seat.old.me.0, (0, Some parts) ∷ []) }
{
    drop(table.exchange(seat, 0, Some(parts)));
}

/// Does an action on the book that is in hand.
fn act_in_turn(
    alloc: Global,
    table: &CellTable,
    seat: &mut CellSeat,
    action: Action,
) -> Result<Vec<Output>, BookFault>
    requires own { seat.old.table_id ≡ table.now.table_id }
    requires book { HasBookInHand seat.old.me [] }
    requires follows { FollowsPolicy policy_of seat.old.me.0 }
    requires action { IsCellAction seat.old.me.0.origin action }
    ensures same { IsSameSeat seat.old seat.new }
    ensures knowledge { seat.new.me.0 ≡ seat.old.me.0 }
    ensures ok { IfOk result (λ outputs.
        HasBookWith (entries seat.old.me.0.seen ++ history_entry action outputs.items ∷ []) seat.new.me) }
    ensures err { OnErr result (HasBookWith (entries seat.old.me.0.seen) seat.new.me) }
    ensures mine { (modem : Modem) → result ≢ Err (faults.NotMine modem) }
    ensures fits { (why : Unfit) → result ≢ Err (faults.Unfit why) }
    ensures spent { (result ≡ Err faults.FramesSpent)
        ↔ (is_spent (state_after seat.old.me.0.origin (entries seat.old.me.0.seen)) action ≡ true) }
{
    let Some(parts) = table.exchange(seat, 0, None) else {
        unreachable!()
    };
    let BookParts { kept, ranking } = parts;
    let mut book = Book::of_parts(kept, ranking);
    let acted = book.act(alloc, action);
    // For the proof: the state that is put back is the replay of its history.
    book.always_replayed();
    let (kept, ranking) = book.into_parts();
    put_back(table, seat, BookParts { kept, ranking });
    acted
}

/// Does an action in the pass's turn, and returns the place of its entry and what it output.
pub(crate) fn act<R: Wait>(
    rt: &R,
    alloc: Global,
    table: &CellTable,
    seat: &mut CellSeat,
    action: Action,
) -> Result<(usize, Outputs), CellFault>
    requires own { (seat.old.table_id ≡ table.now.table_id) × (table.now.table_id.words ≡ 2)
        × (table.now.table_id.slots ≡ 1) }
    requires idle { IsIdle seat.old.me }
    requires follows { FollowsPolicy policy_of seat.old.me.0 }
    requires action { IsCellAction seat.old.me.0.origin action }
    ensures same { IsSameSeat seat.old seat.new }
    ensures idle { IsIdle seat.new.me }
    ensures follows { FollowsPolicy policy_of seat.new.me.0 }
    ensures ok { IfOk result (λ r. ActsInTurn (pass_view seat.old) action
        (record { index = r.0; action = action; outputs = r.1 }) (pass_view seat.new)) }
    ensures err { IfErr result (λ fault. RefusesTurn (pass_view seat.old) fault (pass_view seat.new)) }
    ensures shut { seat.old.me.0.closed ≡ true → result ≡ Err refusals.Closed }
    ensures mine { (modem : Modem) → result ≢ Err (refusals.Book (faults.NotMine modem)) }
    ensures spent { result ≡ Err (refusals.Book faults.FramesSpent)
        → is_spent (state_seen (pass_view seat.new)) action ≡ true }
    ensures memory { result ≡ Err (refusals.Book faults.NoMemory)
        → is_spent (state_seen (pass_view seat.new)) action ≡ false }
{
    let ticket = draw(rt, table, seat);
    if !wait_turn(rt, table, seat, ticket) {
        return Err(CellFault::Closed);
    }
    match act_in_turn(alloc, table, seat, action) {
        Ok(outputs) => {
            table.store::<AdvanceStep>(seat, 0, ticket + 1);
            Ok((ticket as usize, Outputs::from_vec(outputs)))
        }
        Err(fault) => {
            table.store::<CloseStep>(seat, 0, u64::MAX);
            Err(CellFault::Book(fault))
        }
    }
}
