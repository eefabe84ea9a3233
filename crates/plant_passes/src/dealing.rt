//! The passes of a cell: its first seat gives them, and at the end they are joined.

ghost use Rattle.std.specs.Prelude.{◌≡◌, ◌<◌, ◌≤◌, true, [], ◌∷◌, ◌++◌, All, IfOk, map, vec_capacity};
ghost use Rattle.operator_book.specs.ViewOf.{policy_of};
ghost use Rattle.plant_passes.specs.Seats.{opener};
ghost use Rattle.plant_passes.specs.Passes.{pass_view, first_passes};
ghost use Rattle.plant_passes.specs.Turns.{FollowsPolicy, Gathers};

use crate::pass::Pass;
use crate::steps::{CellRule, GiveStep, JoinStep};
use crate::turns::{CellSeat, CellTable, Slot};
use crate::view::{BookParts, CellKey, Knowledge};
use atomic_table::Table;
use grant_policy::Ranking;
use operator_book::Book;
use plant::Modems;
use std::alloc::{AllocError, Global};
use std::snapshot::Snapshot;

/// Room that is taken before a cell is made, and the modems of its book.
#[derive(Drop)]
pub(crate) struct Room {
    /// Room for the passes.
    pub given: Vec<Pass>,
    /// Room for the slot with the book.
    pub slots: Vec<Slot>,
    /// The modems of the book's row.
    pub modems: Modems,
}

/// Takes room for so many passes of a cell round a book.
pub(crate) fn room_for(alloc: Global, book: &Book, passes: usize) -> Result<Room, AllocError>
    ensures given { IfOk result (λ room. (room.given.items ≡ []) × (passes ≤ vec_capacity room.given)) }
    ensures slots { IfOk result (λ room. (room.slots.items ≡ []) × (1 ≤ vec_capacity room.slots)) }
    ensures modems { IfOk result (λ room. room.modems ≡ book.now.kept.book.row.modems) }
{
    Ok(Room {
        given: Vec::with_capacity(alloc, passes)?,
        slots: Vec::with_capacity(alloc, 1)?,
        modems: book.row().get_fields().modems.copy(alloc)?,
    })
}

/// Makes the table of a cell with the book in its slot, and its first seat.
pub(crate) fn table_round(
    alloc: Global,
    book: Book,
    mut slots: Vec<Slot>,
    passes: usize,
) -> Result<
    (
        Table<Slot, Knowledge<Ranking>, CellKey<Ranking>, CellRule, Global>,
        CellSeat,
    ),
    AllocError,
>
    requires slots { (slots.items ≡ []) × (1 ≤ vec_capacity slots) }
    requires some { 0 < passes }
    ensures sizes { IfOk result (λ r. (r.0.shared.table_id.words ≡ 2) × (r.0.shared.table_id.slots ≡ 1)) }
    ensures key { IfOk result (λ r. (r.0.shared.key.book.value.kept ≡ book.kept)
        × (r.0.shared.key.passes ≡ passes)) }
    ensures own { IfOk result (λ r. r.1.table_id ≡ r.0.shared.table_id) }
    ensures first { IfOk result (λ r. r.1.me.0
        ≡ opener (record { kept = book.kept; ranking = book.ranking }) passes) }
    ensures follows { IfOk result (λ r. FollowsPolicy policy_of r.1.me.0) }
{
    // For the proof: the state is the replay of the history.
    book.always_replayed();
    let start = book.history().len() as u64;
    let (kept, ranking) = book.into_parts();
    let parts = BookParts { kept, ranking };
    let key = CellKey {
        book: Snapshot::of(&parts),
        passes,
    };
    slots.push_reserved(Some(parts));
    match Table::new(alloc, &[start, start], slots, &key) {
        Ok(made) => Ok(made),
        Err(refused) => {
            drop(refused);
            Err(AllocError)
        }
    }
}

/// Gives passes until none is left, and returns them.
pub(crate) fn deal_out(
    table: &CellTable,
    mut giver: CellSeat,
    mut given: Vec<Pass>,
    passes: usize,
) -> Vec<Pass>
    requires own { (giver.table_id ≡ table.now.table_id) × (table.now.table_id.words ≡ 2) }
    requires giver { (giver.me.0.opens ≡ true) × (giver.me.0.passes ≡ passes) × FollowsPolicy policy_of giver.me.0 }
    requires room { (given.items ≡ []) × (passes ≤ vec_capacity given) }
    ensures { map (λ p. pass_view p.seat) result.items
        ≡ first_passes table.now.table_id giver.me.0.origin giver.me.0.seen passes }
{
    let mut left = passes;
    while left > 0 {
        let seat = table.split_seat::<GiveStep>(&mut giver);
        given.push_reserved(Pass { seat });
        left -= 1;
    }
    given
}

/// Joins each of the passes to the first, and returns its seat.
pub(crate) fn gather(table: &CellTable, first: Pass, mut rest: Vec<Pass>) -> CellSeat
    requires table { table.now.table_id.words ≡ 2 }
    requires own { (first.seat.table_id ≡ table.now.table_id)
        × All (λ p. p.seat.table_id ≡ table.now.table_id) rest.items }
    ensures own { result.table_id ≡ table.now.table_id }
    ensures gathers { Gathers (map (λ p. pass_view p.seat) (rest.items ++ first ∷ [])) result.me.0 }
    ensures follows { FollowsPolicy policy_of result.me.0 }
{
    let Pass {
        seat: mut collector,
    } = first;
    while let Some(pass) = rest.pop() {
        let Pass { seat } = pass;
        table.join_seat::<JoinStep>(&mut collector, seat);
    }
    collector
}
