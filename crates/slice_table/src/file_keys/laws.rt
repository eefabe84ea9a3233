//! The order of the keys against the reading.

ghost use Rattle.std.specs.Prelude.{◌≡◌, ◌⊎◌, ◌↔◌, List, Ok, Err};
ghost use Rattle.toml.specs.Data.{Members};
ghost use Rattle.plant.specs.declared.consts.ConstsFields.{ConstsFields};
ghost use Rattle.plant.specs.declared.operator_row.RowFields.{RowFields};
ghost use Rattle.plant.specs.declared.plant.PlantFields.{PlantFields};
ghost use Rattle.slice_table.specs.declared.plant_fault.PlantFault.{PlantFault};
ghost use Rattle.slice_table.specs.ReadPlant.{plant_of};
ghost use Rattle.slice_table.specs.Says.{SaysConsts, SaysRows};
ghost use Rattle.slice_table.specs.file_keys.Faults.{IsOfTheFirstKey, IsOfAllKeys, HasNoFault};

/// States that a document is refused for a fault exactly where it is that of the first key that is
/// invalid, or where no key is and it is the first fault of all of them together.
pub fn fault_is_of_the_first_key()
    // The fault of a key is `Missing` if it is not there, and `BadValue` if its value is not permitted.
    ensures { (document : Members) (fault : PlantFault) → (plant_of document ≡ Err fault)
        ↔ (IsOfTheFirstKey document fault ⊎ IsOfAllKeys document fault) }
{}

/// States that of a plant that is read no key is invalid.
pub fn read_keys_are_right()
    ensures { (document : Members) (plant : PlantFields) → plant_of document ≡ Ok plant → HasNoFault document }
{}

/// States that where no key is invalid, the document says what all operators share, and each
/// operator.
pub fn right_keys_are_read()
    ensures { (document : Members) → HasNoFault document
        ↔ ((consts : ConstsFields) × (rows : List RowFields) × SaysConsts document consts × SaysRows consts document rows) }
{}
