//! What a run results in, once its last thread has ended.

ghost use Rattle.std.specs.Prelude.{◌≡◌, All, map, IfOk, IfErr};
ghost use Rattle.operator_book.specs.ViewOf.{view_of};
ghost use Rattle.plant_workers.specs.audit.Outcome.{AreTicked, IsOutcome};
ghost use Rattle.plant_workers.specs.receipts.Callers.{AreByCallers};
ghost use Rattle.plant_workers.specs.Faulting.{IsRunFault};

use crate::audit::{Assembly, compare};
use crate::receipt_lists::callers_of;
use crate::receipts::{Callers, RunFault, Settled, settle};
use crate::run_state::RunState;
use map_assembly::MapBytes;
use operator_book::Book;
use plant::Plant;
use run_model::Step;
use std::alloc::{AllocError, Global};

/// Returns equal MAPs with memory of their own.
fn copies_of(alloc: Global, maps: &[MapBytes]) -> Result<Vec<MapBytes>, AllocError>
    ensures { IfOk result (λ copies. copies.items ≡ maps.now) }
{
    let mut copies = Vec::with_capacity(alloc, maps.len())?;
    for made in maps {
        copies.push(MapBytes {
            frame: made.frame,
            bytes: made.bytes.copy(alloc)?,
        })?;
    }
    Ok(copies)
}

/// Settles what was done, and compares it with the steps.
fn settle_all(
    alloc: Global,
    plant: &Plant,
    books: Vec<Book>,
    callers: Vec<Callers>,
    assembly: Assembly,
    steps: &[Step],
) -> Result<Settled, RunFault>
    requires by_callers { All AreByCallers callers.items }
    requires ticked { AreTicked plant.now steps.now }
    ensures ok { IfOk result (λ s.
        IsOutcome plant.now steps.now (map view_of s.books.items) s.receipts.items s.maps.items) }
    ensures err { IfErr result (IsRunFault plant.now steps.now) }
{
    if books.len() != plant.rows().len() || callers.len() != books.len() {
        return Err(RunFault::NoMemory);
    }
    let maps = copies_of(alloc, assembly.maps())?;
    let settled = settle(alloc, books, callers, maps)?;
    compare(plant, settled, assembly, steps)
}

/// Returns what the run results in.
pub(crate) fn finish(
    alloc: Global,
    plant: &Plant,
    run_state: RunState,
    steps: &[Step],
) -> Result<Settled, RunFault>
    requires ticked { AreTicked plant.now steps.now }
    ensures ok { IfOk result (λ s.
        IsOutcome plant.now steps.now (map view_of s.books.items) s.receipts.items s.maps.items) }
    ensures err { IfErr result (IsRunFault plant.now steps.now) }
{
    let RunState {
        cells,
        assembly,
        lists,
    } = run_state;
    let books = cells.into_books(alloc)?;
    let callers = callers_of(alloc, lists)?;
    settle_all(alloc, plant, books, callers, assembly, steps)
}
