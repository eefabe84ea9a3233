//! Cells of one operator, and what their calls answer.

ghost use Rattle.std.specs.Prelude.{◌<◌, ◌≤◌, All, IfSome, vec_len};
ghost use Rattle.plant_passes.specs.Passes.{IsOfCell};
ghost use Rattle.plant_passes.specs.ViewOf.{cell_of, pass_of};

use dsx_messages::Modem;
use grant_policy::Ranking;
use hex::decode;
use operator_book::{Book, Heard};
use plant::Plant;
use plant_passes::{Pass, PassedCell};
use slice_table::read_plant;
use std::alloc::Global;
use test_plants::{OPERATOR_A, SHARED};
use tlv24::Bytes;

/// The first frame of most plants.
pub(crate) const FIRST: &str = "first_frame = 0";

/// The last frame number.
pub(crate) const LAST: &str = "first_frame = 4294967295";

/// The operator's first modem.
pub(crate) const MODEM: Modem = Modem([2, 0, 0, 0, 0, 1]);

/// A modem of another operator.
pub(crate) const STRANGER: Modem = Modem([2, 0, 0, 0, 0, 3]);

/// A message that adds a flow.
pub(crate) const ADDITION: &str = "0F0001180A010200010601060F0102";

/// Its reply, where it is the first flow.
pub(crate) const REPLY: &str = "10000100180E0102000102040000010103020101";

/// The ranking of operator A. A function that hands out a ranking is not proved, so each test makes its own.
macro_rules! strict {
    ($alloc:expr) => {
        grant_policy::Ranking::new(
            grant_policy::Policy::Strict,
            Box::new($alloc, |input: grant_policy::RankInput| -> u8 {
                grant_policy::rank_by(grant_policy::Policy::Strict, &input)
            })?,
        )
    };
}

pub(crate) use strict;

/// Returns the plant of operator A alone, from this frame on.
fn plant_from(alloc: Global, first_frame: &str) -> Option<Plant> {
    let text = format!(in alloc; "{SHARED}{first_frame}\n{OPERATOR_A}").ok()?;
    read_plant(alloc, text.as_str()).ok()
}

/// Returns the book of operator A, from this frame on.
pub(crate) fn book_from(alloc: Global, first_frame: &str, ranking: Ranking) -> Option<Book> {
    let plant = plant_from(alloc, first_frame)?;
    let row = plant.rows().get(0)?;
    Book::open(alloc, row, plant.consts(), ranking).ok()
}

/// Returns the book of operator A.
pub(crate) fn book(alloc: Global, ranking: Ranking) -> Option<Book> {
    book_from(alloc, FIRST, ranking)
}

/// Returns the message that adds a flow.
pub(crate) fn addition(alloc: Global) -> Option<Heard> {
    let bytes = decode(alloc, ADDITION).ok()?;
    Some(Heard::Message(Bytes::from_slice(alloc, bytes.as_slice()).ok()?))
}

/// Returns a cell round a book, with so many passes.
pub(crate) fn open_cell(alloc: Global, book: Book, passes: usize) -> Option<(PassedCell, Vec<Pass>)>
    requires { (0 < passes) × (passes ≤ 64) }
    ensures { IfSome result (λ r. All (λ p. IsOfCell (cell_of r.0) (pass_of p)) r.1.items) }
{
    let Ok((cell, passes)) = PassedCell::open(alloc, book, passes) else {
        return None;
    };
    Some((cell, passes))
}

/// Returns the last of some passes.
pub(crate) fn next_of(cell: &PassedCell, passes: &mut Vec<Pass>) -> Option<Pass>
    requires { All (λ p. IsOfCell (cell_of cell.now) (pass_of p)) passes.old.items }
    ensures one { IfSome result (λ p. IsOfCell (cell_of cell.now) (pass_of p)) }
    ensures others { All (λ p. IsOfCell (cell_of cell.now) (pass_of p)) passes.new.items }
    ensures fewer { IfSome result (λ p. vec_len passes.new < vec_len passes.old) }
{
    passes.pop()
}
