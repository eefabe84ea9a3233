//! Which operator lists a modem.

ghost use Rattle.std.specs.Prelude.{◌≡◌, List, IfOk, OnOk};
ghost use Rattle.dsx_messages.specs.declared.modem.Modem.{Modem};
ghost use Rattle.plant.specs.Plant.{all_modems};
ghost use Rattle.plant.specs.Roster.{Finds, Lists, Adds, place_of, holder};
ghost use Rattle.lists.specs.Results.{Gives};
ghost use Rattle.slice_table.specs.Tree.{plant_cause};
ghost use Rattle.slice_table.specs.Checks.{first_again, modem_twice_fault, twice_fault, unless};

use crate::plant_fault::PlantFault;
use dsx_messages::Modem;
use indexmap::IndexMap;
use plant::OperatorRow;
use std::alloc::Global;

/// Adds the modems of the operator at this place; the first that is there already is the fault.
fn add_modems(
    places: &mut IndexMap<Modem, usize>,
    modems: &[Modem],
    place: usize,
) -> Result<(), PlantFault>
    ensures fault { (before : List Modem) → Lists places.old before
        → Gives plant_cause (λ x. x) result (unless (modem_twice_fault (first_again before modems.now)) (tt {0})) }
    ensures added { OnOk result (Adds places.old place modems.now places.new) }
{
    for modem in modems {
        if places.get(modem).is_some() {
            return Err(PlantFault::ModemTwice { modem: *modem });
        }
        places.insert(*modem, place)?;
    }
    Ok(())
}

/// Returns each operator's modems, by their addresses.
#[tactic(auto, unfolding(crate::specs::Checks::twice_fault))]
pub(crate) fn places_of(
    alloc: Global,
    rows: &[OperatorRow],
) -> Result<IndexMap<Modem, usize>, PlantFault>
    ensures fault { Gives plant_cause (λ _. tt {0}) result (unless (twice_fault rows.now) (tt {0})) }
    ensures found { IfOk result (Finds rows.now) }
{
    let mut places = IndexMap::new(alloc);
    for (place, row) in rows.iter().enumerate() {
        add_modems(&mut places, row.get_fields().modems.as_slice(), place)?;
    }
    Ok(places)
}
