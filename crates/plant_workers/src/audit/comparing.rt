//! The comparison of what a plant's threads have done with the steps of their run.

ghost use Rattle.std.specs.Prelude.{◌≡◌, ◌↔◌, length, map, vec_len, MatchOption, ℕ, All, Err, IfOk, OnOk, IfErr};
ghost use Rattle.operator_book.specs.ViewOf.{view_of};
ghost use Rattle.plant_workers.specs.receipts.Callers.{AreByCallers};
ghost use Rattle.plant_workers.specs.audit.Straying.{AreOwnRuns, ArePut, IsStrayHistory, IsMapStray, IsFound};
ghost use Rattle.plant_workers.specs.audit.Outcome.{AreMerged, AreTicked, IsOutcome};

use crate::audit::advancing::first_stray;
use crate::audit::assembly::Assembly;
use crate::audit::putting::first_put_stray;
use crate::receipts::{RunFault, Settled};
use operator_book::Book;
use plant::{Plant, is_same_plant};
use run_model::Step;

/// Returns the first frame of which the assembly strays. Takes no memory.
fn first_map_stray(
    plant: &Plant,
    books: &[Book],
    assembly: &Assembly,
    steps: &[Step],
) -> Option<u32>
    requires one_each { length books.now ≡ length plant.now.rows }
    requires own { AreOwnRuns plant.now steps.now (map view_of books.now) }
    ensures { MatchOption result
        ((assembly.now.plant ≡ plant.now) × ArePut steps.now (map view_of books.now) assembly.now.placings)
        (IsMapStray plant.now steps.now (map view_of books.now) assembly.now) }
{
    if !is_same_plant(assembly.plant(), plant) {
        return Some(plant.consts().get_fields().channel.first_frame);
    }
    // For the proof: the MAPs are what the placings make of the plant.
    assembly.always();
    first_put_stray(books, assembly.placings(), steps)
}

/// Returns the first fault of what was done. Takes no memory.
pub(crate) fn first_fault(
    plant: &Plant,
    books: &[Book],
    assembly: &Assembly,
    steps: &[Step],
) -> Result<(), RunFault>
    requires { length books.now ≡ length plant.now.rows }
    ensures ok { OnOk result (AreOwnRuns plant.now steps.now (map view_of books.now) × (assembly.now.plant ≡ plant.now)
        × ArePut steps.now (map view_of books.now) assembly.now.placings) }
    ensures err { IfErr result (IsFound plant.now steps.now (map view_of books.now) assembly.now) }
{
    if let Some((op, index)) = first_stray(plant, books, steps) {
        return Err(RunFault::Strayed { op, index });
    }
    match first_map_stray(plant, books, assembly, steps) {
        Some(frame) => Err(RunFault::MapStrayed { frame }),
        None => Ok(()),
    }
}

/// Returns whether what was done is what the steps make of the plant: each operator's history has
/// just its own steps as actions, and what was put in the assembly are just the frames that the
/// Collects of the steps take. The MAPs are then those of a run of these steps, with none assembled
/// again; they are in the answer in place of the settled ones.
///
/// Faults, in this order: `Strayed` for the least operator whose history strays, at its first place
/// that does; `MapStrayed` for the first frame of which a part was not put as it was due. Takes no
/// memory.
pub fn compare(
    plant: &Plant,
    settled: Settled,
    assembly: Assembly,
    steps: &[Step],
) -> Result<Settled, RunFault>
    requires one_each { vec_len settled.books ≡ length plant.now.rows }
    requires callers_each { vec_len settled.books ≡ vec_len settled.receipts }
    requires merged { AreMerged (map view_of settled.books.items) settled.receipts.items }
    requires by_callers { All AreByCallers settled.receipts.items }
    requires ticked { AreTicked plant.now steps.now }
    // Each history has exactly its own steps as actions, merged of the receipts of its four callers. The outputs and
    // MAPs are those of a run of these steps, so `non_interference` applies.
    ensures ok { IfOk result (λ s.
        IsOutcome plant.now steps.now (map view_of s.books.items) s.receipts.items s.maps.items) }
    ensures books { IfOk result (λ s. s.books ≡ settled.books) }
    ensures receipts { IfOk result (λ s. s.receipts ≡ settled.receipts) }
    ensures maps { IfOk result (λ s. s.maps.items ≡ assembly.maps) }
    // What was put is what the steps collect, operator by operator.
    ensures put { OnOk result ((assembly.plant ≡ plant.now)
        × ArePut steps.now (map view_of settled.books.items) assembly.placings) }
    // Otherwise exactly the first fault.
    ensures err { IfErr result (IsFound plant.now steps.now (map view_of settled.books.items) assembly) }

    // What is found decides what is reported: where a history strays, it is reported; else where the assembly does.
    ensures strayed { (op index : ℕ) → (result ≡ Err (RunFault.Strayed op index))
        ↔ IsStrayHistory plant.now steps.now (map view_of settled.books.items) op index }
    ensures map_strayed { (frame : ℕ) → (result ≡ Err (RunFault.MapStrayed frame))
        ↔ IsFound plant.now steps.now (map view_of settled.books.items) assembly (RunFault.MapStrayed frame) }
{
    let books = settled.books.as_slice();
    if let Err(fault) = first_fault(plant, books, &assembly, steps) {
        return Err(fault);
    }
    // For the proof: the MAPs are what the placings make of the plant.
    assembly.always();
    let Settled {
        books,
        receipts,
        maps: _,
    } = settled;
    let maps = assembly.into_maps();
    Ok(Settled {
        books,
        receipts,
        maps,
    })
}
