//! Reading of a plant file.

ghost use Rattle.std.specs.Prelude.{◌≡◌, ◌≤◌, length, IfOk, Some, Ok};
ghost use Rattle.toml.specs.Data.{Members};
ghost use Rattle.toml.specs.Parse.{parse_document};
ghost use Rattle.toml.specs.View.{table_view};
ghost use Rattle.plant.specs.declared.plant.PlantFields.{PlantFields};
ghost use Rattle.plant.specs.Plant.{IsPlant};
ghost use Rattle.slice_table.specs.Says.{SaysPlant};
ghost use Rattle.plant.specs.Roster.{Finds};
ghost use Rattle.lists.specs.Results.{Gives};
ghost use Rattle.slice_table.specs.Tree.{plant_cause};
ghost use Rattle.slice_table.specs.Checks.{late_fault, rows_fault, unless};
ghost use Rattle.slice_table.specs.ReadPlant.{plant_of, text_plant};

use crate::checks::{budget_fault, elements_fault, meeting_fault};
use crate::fits::provisioned_fault;
use crate::plant_fault::PlantFault;
use crate::read_consts::consts_of;
use crate::read_rows::rows_of;
use crate::roster::places_of;
use dsx_messages::Modem;
use indexmap::IndexMap;
use plant::{Consts, OperatorRow, Plant, PlantFields, Rows};
use std::alloc::Global;
use toml::Table;

/// Returns the first of faults 8 to 10.
#[tactic(auto, unfolding(crate::specs::Checks::late_fault))]
fn late_fault(consts: &Consts, rows: &[OperatorRow]) -> Option<PlantFault>
    requires { length rows.now ≤ 32 }
    ensures { result ≡ late_fault consts.now rows.now }
{
    if let Some(fault) = elements_fault(rows) {
        return Some(fault);
    }
    if let Some(fault) = budget_fault(rows) {
        return Some(fault);
    }
    provisioned_fault(consts, rows)
}

/// Returns each operator's modems by their addresses, where none of faults 4 to 10 is there.
#[tactic(auto, unfolding(crate::specs::Checks::rows_fault))]
fn checked_roster(
    alloc: Global,
    consts: &Consts,
    rows: &[OperatorRow],
) -> Result<IndexMap<Modem, usize>, PlantFault>
    requires { length rows.now ≤ 32 }
    ensures fault { Gives plant_cause (λ _. tt {0}) result (unless (rows_fault consts.now rows.now) (tt {0})) }
    ensures found { IfOk result (Finds rows.now) }
{
    if let Some(fault) = meeting_fault(rows) {
        return Err(fault);
    }
    let places = places_of(alloc, rows)?;
    match late_fault(consts, rows) {
        Some(fault) => Err(fault),
        None => Ok(places),
    }
}

/// Returns the plant of a document.
#[tactic(auto, unfolding(crate::specs::ReadPlant::plant_of))]
fn plant_of(alloc: Global, document: &Table) -> Result<Plant, PlantFault>
    ensures { Gives plant_cause (λ plant. plant) result (plant_of (table_view document.now)) }
{
    let consts = consts_of(alloc, document)?;
    let rows = rows_of(alloc, &consts, document)?;
    let places = checked_roster(alloc, &consts, rows.as_slice())?;
    let rows = Rows::from_vec(rows);
    Ok(Plant::new(PlantFields { consts, rows }, places))
}

/// Returns the plant of a text.
fn plant_of_text(alloc: Global, text: &str) -> Result<Plant, PlantFault>
    ensures { Gives plant_cause (λ plant. plant) result (text_plant (parse_document text.now)) }
{
    match toml::table_from_str(alloc, text) {
        Ok(document) => plant_of(alloc, &document),
        Err(error) if error.is_memory() => Err(PlantFault::NoMemory),
        Err(_) => Err(PlantFault::NotToml),
    }
}

/// Returns the plant that a text says, or the first fault of it.
///
/// The text is TOML: a table `plant`, an array of tables `class` that may be absent, and an array
/// of tables `operator`. A text that is not TOML is the first fault; then the keys are judged in
/// their order, those of `plant` first, then each class, then each operator with its flows; what is
/// asked of all keys together comes last, in the order of `PlantFault`, each of the least pair or
/// the first operator. `NoMemory` comes only where memory was refused, and says nothing of the
/// text.
pub fn read_plant(alloc: Global, text: &str) -> Result<Plant, PlantFault>
    // What is read is a plant that the text says.
    ensures found { IfOk result (λ plant. (document : Members) × (parse_document text.now ≡ Some document)
        × SaysPlant document plant) }
    // A plant that the text says is read, unless memory runs out.
    ensures only { (document : Members) (plant : PlantFields) → parse_document text.now ≡ Some document
        → SaysPlant document plant → Gives plant_cause (λ p. p) result (Ok plant) }
    // Otherwise the first fault of the text, in the stated order.
    ensures exact { Gives plant_cause (λ plant. plant) result (text_plant (parse_document text.now)) }
    // What is read is a valid plant.
    ensures valid { IfOk result IsPlant }
{
    plant_of_text(alloc, text)
}
