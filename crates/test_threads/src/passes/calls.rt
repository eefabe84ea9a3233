//! Calls of a cell by one thread, with values that others worked out.

ghost use Rattle.std.specs.Prelude.{IfSome};
ghost use Rattle.plant_passes.specs.Passes.{IsOfCell};
ghost use Rattle.plant_passes.specs.ViewOf.{cell_of, pass_of};

use crate::passes::cells::{
    FIRST, LAST, MODEM, REPLY, STRANGER, addition, book_from, next_of, open_cell, strict,
};
use hex::encode_upper;
use operator_book::{Book, BookFault, Heard, Output};
use plant_passes::{CellFault, Pass, PassedCell, Receipt};
use std::alloc::Global;
use std::process::Abort;
use std::sync::Wait;
use std::test::Fail;

/// Returns a cell with two passes.
fn with_two(alloc: Global, book: Book) -> Option<(PassedCell, Pass, Pass)>
    ensures { IfSome result (λ r. IsOfCell (cell_of r.0) (pass_of r.1) × IsOfCell (cell_of r.0) (pass_of r.2)) }
{
    let (cell, mut passes) = open_cell(alloc, book, 2)?;
    let one = next_of(&cell, &mut passes)?;
    let two = next_of(&cell, &mut passes)?;
    Some((cell, one, two))
}

/// Returns the place of an action that was done.
fn place(answer: Result<Receipt, CellFault>) -> Option<usize> {
    Some(answer.ok()?.index)
}

/// Returns whether an arrival of a modem that is not of the row is refused.
fn refuses_stranger<R: Wait>(rt: &R, alloc: Global, cell: &PassedCell, pass: &mut Pass) -> bool
    requires { IsOfCell (cell_of cell.now) (pass_of pass.old) }
    ensures { IsOfCell (cell_of cell.now) (pass_of pass.new) }
{
    let heard = Heard::Request {
        sid: 257,
        minislots: 1,
    };
    let answer = cell.arrive(rt, alloc, pass, STRANGER, heard);
    answer.err() == Some(CellFault::Book(BookFault::NotMine { modem: STRANGER }))
}

/// Returns where an addition of the row's first modem is reported to be, which outputs nothing.
fn arrives<R: Wait>(rt: &R, alloc: Global, cell: &PassedCell, pass: &mut Pass) -> Option<usize>
    requires { IsOfCell (cell_of cell.now) (pass_of pass.old) }
    ensures { IsOfCell (cell_of cell.now) (pass_of pass.new) }
{
    let heard = addition(alloc)?;
    let receipt = cell.arrive(rt, alloc, pass, MODEM, heard).ok()?;
    if receipt.outputs.as_slice().is_empty() {
        Some(receipt.index)
    } else {
        None
    }
}

/// Returns whether the outputs are one reply of these digits.
fn is_reply(alloc: Global, outputs: &[Output], digits: &str) -> Option<bool> {
    let [Output::Reply { modem: _, bytes }] = outputs else {
        return Some(false);
    };
    Some(encode_upper(alloc, bytes.as_slice()).ok()?.as_str() == digits)
}

/// Returns whether the first of the inbox is answered at once.
fn replies<R: Wait>(rt: &R, alloc: Global, cell: &PassedCell, pass: &mut Pass) -> Option<bool>
    requires { IsOfCell (cell_of cell.now) (pass_of pass.old) }
    ensures { IsOfCell (cell_of cell.now) (pass_of pass.new) }
{
    let receipt = cell.work(rt, alloc, pass).ok()?;
    Some(receipt.index == 1 && is_reply(alloc, receipt.outputs.as_slice(), REPLY)?)
}

/// A reply is reported at once. A cell that is always closed is seen here, since no clause can
/// refuse it.
#[test]
fn passed_cell_always_closed(rt: HostRuntime) -> Result<(), Fail> {
    let alloc = rt.alloc();
    let book = book_from(alloc, FIRST, strict!(alloc)).ok_or("no book")?;
    let (cell, mut pass, _) = with_two(alloc, book).ok_or("no cell")?;
    assert!(rt; refuses_stranger(&rt, alloc, &cell, &mut pass));
    assert_eq!(rt; arrives(&rt, alloc, &cell, &mut pass), Some(0));
    assert_eq!(rt; replies(&rt, alloc, &cell, &mut pass), Some(true));
    Ok(())
}

/// Returns the faults of a tick with one pass and then of a call with another.
fn refuses<R: Wait>(
    rt: &R,
    alloc: Global,
    cell: &PassedCell,
    one: &mut Pass,
    two: &mut Pass,
) -> (Option<CellFault>, Option<CellFault>)
    requires { IsOfCell (cell_of cell.now) (pass_of one.old) × IsOfCell (cell_of cell.now) (pass_of two.old) }
{
    let ticked = cell.tick(rt, alloc, one).err();
    (ticked, cell.work(rt, alloc, two).err())
}

#[test]
fn a_refused_turn_closes_the_cell(rt: HostRuntime) -> Result<(), Fail> {
    let alloc = rt.alloc();
    let book = book_from(alloc, LAST, strict!(alloc)).ok_or("no book")?;
    let (cell, mut one, mut two) = with_two(alloc, book).ok_or("no cell")?;
    let (ticked, worked) = refuses(&rt, alloc, &cell, &mut one, &mut two);
    assert_eq!(rt; ticked, Some(CellFault::Book(BookFault::FramesSpent)));
    assert_eq!(rt; worked, Some(CellFault::Closed));
    Ok(())
}

/// Returns the places of two entries of one pass, and then of an entry of another that was reported
/// of them.
fn meets<R: Wait>(
    rt: &R,
    alloc: Global,
    cell: &PassedCell,
    teller: &mut Pass,
    told: &mut Pass,
) -> Option<(usize, usize, usize)>
    requires { IsOfCell (cell_of cell.now) (pass_of teller.old) × IsOfCell (cell_of cell.now) (pass_of told.old) }
{
    let first = place(cell.work(rt, alloc, teller))?;
    let second = place(cell.tick(rt, alloc, teller))?;
    cell.meet(told, teller).ok()?;
    Some((first, second, place(cell.tick(rt, alloc, told))?))
}

#[test]
fn a_pass_is_told_what_another_saw(rt: HostRuntime) -> Result<(), Fail> {
    let alloc = rt.alloc();
    let book = book_from(alloc, FIRST, strict!(alloc)).ok_or("no book")?;
    let (cell, mut teller, mut told) = with_two(alloc, book).ok_or("no cell")?;
    assert_eq!(rt;
        meets(&rt, alloc, &cell, &mut teller, &mut told),
        Some((0, 1, 2))
    );
    Ok(())
}
