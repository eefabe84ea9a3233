//! Laws of plants: whose modem a modem is.

ghost use Rattle.std.specs.Prelude.{◌≡◌, ◌↔◌, ℕ, IsTrue, List, Some, slice_get};
ghost use Rattle.dsx_messages.specs.declared.modem.Modem.{Modem};
ghost use Rattle.plant.specs.declared.operator_row.RowFields.{RowFields};
ghost use Rattle.plant.specs.declared.plant.PlantFields.{PlantFields};
ghost use Rattle.plant.specs.Row.{is_listed};
ghost use Rattle.plant.specs.Plant.{IsPlant};
ghost use Rattle.plant.specs.Roster.{holder, ListsFirst};

/// States that the holder of a modem is the first operator that lists it.
pub fn holder_is_first()
    ensures { (rows : List RowFields) (modem : Modem) (operator : ℕ) → (holder rows modem ≡ Some operator)
        ↔ ListsFirst rows modem operator }
{}

/// States that at most one operator of a valid plant lists a modem.
pub fn one_operator_lists()
    ensures { (plant : PlantFields) (modem : Modem) (i j : ℕ) (a b : RowFields) → IsPlant plant
        → slice_get plant.rows i ≡ Some a → slice_get plant.rows j ≡ Some b → IsTrue (is_listed modem a.modems)
        → IsTrue (is_listed modem b.modems) → i ≡ j }
{}
