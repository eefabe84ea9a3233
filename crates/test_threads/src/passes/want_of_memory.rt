//! Calls of a cell where one request for memory is refused: the refused call answers out of memory
//! by its name, and made once more it answers what it answers otherwise, or that the cell is closed
//! where the request was made inside the turn. Out of memory elsewhere ends a test early. Without a
//! refusal the tests show that the calls answer at all.

ghost use Rattle.std.specs.Prelude.{◌<◌, ◌≤◌, All, IfSome};
ghost use Rattle.plant_passes.specs.Passes.{IsOfCell};
ghost use Rattle.plant_passes.specs.ViewOf.{cell_of, pass_of};

use crate::passes::cells::{MODEM, book, next_of, open_cell, strict};
use operator_book::{Book, BookFault, Heard};
use plant_passes::{CellFault, Pass, PassedCell, Receipt};
use std::alloc::{AllocError, Global};
use std::sync::Wait;
use std::test::Fail;

/// Returns a cell with so many passes; where memory is refused, round the other book.
fn opened_again(
    alloc: Global,
    first: Book,
    spare: Book,
    passes: usize,
) -> Option<(PassedCell, Vec<Pass>)>
    requires { (0 < passes) × (passes ≤ 64) }
    ensures { IfSome result (λ r. All (λ p. IsOfCell (cell_of r.0) (pass_of p)) r.1.items) }
{
    match open_cell(alloc, first, passes) {
        Some(made) => Some(made),
        None => open_cell(alloc, spare, passes),
    }
}

/// Arrives with a message of the operator's first modem.
fn arrive<R: Wait>(
    rt: &R,
    alloc: Global,
    cell: &PassedCell,
    pass: &mut Pass,
) -> Result<Receipt, CellFault>
    requires { IsOfCell (cell_of cell.now) (pass_of pass.old) }
    ensures { IsOfCell (cell_of cell.now) (pass_of pass.new) }
{
    let heard = Heard::Request {
        sid: 257,
        minislots: 1,
    };
    cell.arrive(rt, alloc, pass, MODEM, heard)
}

/// Returns whether a receipt is reported at this place: nothing where it is reported at another.
fn stands(receipt: &Receipt, place: usize) -> Option<bool> {
    if receipt.index == place {
        Some(true)
    } else {
        None
    }
}

/// Returns whether an arrival that is made again is at this place, or the cell is closed; nothing
/// where it is answered otherwise.
fn arrives_second<R: Wait>(
    rt: &R,
    alloc: Global,
    cell: &PassedCell,
    pass: &mut Pass,
    place: usize,
) -> Option<bool>
    requires { IsOfCell (cell_of cell.now) (pass_of pass.old) }
    ensures { IsOfCell (cell_of cell.now) (pass_of pass.new) }
{
    match arrive(rt, alloc, cell, pass) {
        Ok(receipt) => stands(&receipt, place),
        Err(CellFault::Closed) => Some(false),
        Err(_) => None,
    }
}

/// Returns the same of an arrival that is made again only where memory is refused.
fn arrives_again<R: Wait>(
    rt: &R,
    alloc: Global,
    cell: &PassedCell,
    pass: &mut Pass,
    place: usize,
) -> Option<bool>
    requires { IsOfCell (cell_of cell.now) (pass_of pass.old) }
    ensures { IsOfCell (cell_of cell.now) (pass_of pass.new) }
{
    match arrive(rt, alloc, cell, pass) {
        Err(CellFault::Book(BookFault::NoMemory)) => arrives_second(rt, alloc, cell, pass, place),
        Err(_) => None,
        Ok(receipt) => stands(&receipt, place),
    }
}

/// Returns whether two arrivals succeed, with passes that meet between them.
fn meets_between<R: Wait>(rt: &R, alloc: Global, cell: &PassedCell, mut passes: Vec<Pass>) -> bool
    requires { All (λ p. IsOfCell (cell_of cell.now) (pass_of p)) passes.items }
{
    let Some(mut one) = next_of(cell, &mut passes) else {
        return false;
    };
    let Some(mut other) = next_of(cell, &mut passes) else {
        return false;
    };
    match arrives_again(rt, alloc, cell, &mut one, 0) {
        Some(true) => {
            let met = cell.meet(&mut other, &mut one).is_ok();
            met && arrives_again(rt, alloc, cell, &mut other, 1).is_some()
        }
        Some(false) => true,
        None => false,
    }
}

/// Returns whether the calls of a cell answer what they do with memory, each made again where it is
/// refused.
fn calls_again<R: Wait>(rt: &R, alloc: Global, first: Book, spare: Book) -> bool {
    match opened_again(alloc, first, spare, 2) {
        Some((cell, passes)) => meets_between(rt, alloc, &cell, passes),
        None => false,
    }
}

#[test]
fn open_arrive_and_meet(rt: HostRuntime) -> Result<(), Fail> {
    let alloc = rt.alloc();
    let first = book(alloc, strict!(alloc)).ok_or("no book")?;
    let spare = book(alloc, strict!(alloc)).ok_or("no book")?;
    assert!(rt; calls_again(&rt, alloc, first, spare));
    Ok(())
}

/// Returns `false` where the cell is closed; nothing where it is not.
fn has_closed<R: Wait>(rt: &R, alloc: Global, cell: &PassedCell, pass: &mut Pass) -> Option<bool>
    requires { IsOfCell (cell_of cell.now) (pass_of pass.old) }
    ensures { IsOfCell (cell_of cell.now) (pass_of pass.new) }
{
    match cell.work(rt, alloc, pass) {
        Err(CellFault::Closed) => Some(false),
        _ => None,
    }
}

/// Returns whether work is the first entry, or memory is refused and the cell then closed; nothing
/// where it is answered otherwise.
fn works_or_closes<R: Wait>(
    rt: &R,
    alloc: Global,
    cell: &PassedCell,
    pass: &mut Pass,
) -> Option<bool>
    requires { IsOfCell (cell_of cell.now) (pass_of pass.old) }
    ensures { IsOfCell (cell_of cell.now) (pass_of pass.new) }
{
    match cell.work(rt, alloc, pass) {
        Err(CellFault::Book(BookFault::NoMemory)) => has_closed(rt, alloc, cell, pass),
        Err(_) => None,
        Ok(receipt) => stands(&receipt, 0),
    }
}

/// Returns the same of a tick, which is the second entry.
fn ticks_or_closes<R: Wait>(
    rt: &R,
    alloc: Global,
    cell: &PassedCell,
    pass: &mut Pass,
) -> Option<bool>
    requires { IsOfCell (cell_of cell.now) (pass_of pass.old) }
    ensures { IsOfCell (cell_of cell.now) (pass_of pass.new) }
{
    match cell.tick(rt, alloc, pass) {
        Err(CellFault::Book(BookFault::NoMemory)) => has_closed(rt, alloc, cell, pass),
        Err(_) => None,
        Ok(receipt) => stands(&receipt, 1),
    }
}

/// Returns how many of two calls are done, up to the one that memory is refused; nothing where one is
/// answered otherwise.
fn calls_done<R: Wait>(rt: &R, alloc: Global, cell: &PassedCell, pass: &mut Pass) -> Option<usize>
    requires { IsOfCell (cell_of cell.now) (pass_of pass.old) }
    ensures { IsOfCell (cell_of cell.now) (pass_of pass.new) }
{
    if !works_or_closes(rt, alloc, cell, pass)? {
        return Some(0);
    }
    if ticks_or_closes(rt, alloc, cell, pass)? {
        Some(2)
    } else {
        Some(1)
    }
}

/// Returns how many entries the book of a cell has that its one pass closes.
fn entries(alloc: Global, cell: PassedCell, pass: Pass) -> Result<Option<usize>, AllocError>
    requires { IsOfCell (cell_of cell) (pass_of pass) }
{
    let passes = Vec::from_array(alloc, [pass])?;
    match cell.close(passes) {
        Some(book) => Ok(Some(book.history().len())),
        None => Ok(None),
    }
}

/// Returns whether the book has an entry of each call that is done, and of no other.
fn keeps_entries<R: Wait>(
    rt: &R,
    alloc: Global,
    cell: PassedCell,
    mut passes: Vec<Pass>,
) -> Result<bool, AllocError>
    requires { All (λ p. IsOfCell (cell_of cell) (pass_of p)) passes.items }
{
    let Some(mut pass) = next_of(&cell, &mut passes) else {
        return Ok(false);
    };
    let done = calls_done(rt, alloc, &cell, &mut pass);
    Ok(done.is_some() && entries(alloc, cell, pass)? == done)
}

/// Returns the same of a cell round one of two books.
fn cell_keeps_entries<R: Wait>(
    rt: &R,
    alloc: Global,
    first: Book,
    spare: Book,
) -> Result<bool, AllocError> {
    match opened_again(alloc, first, spare, 1) {
        Some((cell, passes)) => keeps_entries(rt, alloc, cell, passes),
        None => Ok(false),
    }
}

#[test]
fn work_and_tick(rt: HostRuntime) -> Result<(), Fail> {
    let alloc = rt.alloc();
    let first = book(alloc, strict!(alloc)).ok_or("no book")?;
    let spare = book(alloc, strict!(alloc)).ok_or("no book")?;
    assert!(rt; cell_keeps_entries(&rt, alloc, first, spare)?);
    Ok(())
}
