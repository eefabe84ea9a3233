//! Laws of plant files: what a whole file says, and which of several faults is named.

ghost use Rattle.std.specs.Prelude.{◌≡◌, ◌↔◌, ℕ, Bool, List, [], Some, Ok};
ghost use Rattle.toml.specs.Data.{Members};
ghost use Rattle.dsx_messages.specs.declared.modem.Modem.{Modem};
ghost use Rattle.slice_table.specs.declared.checks.Apart.{Apart};
ghost use Rattle.plant.specs.declared.consts.ConstsFields.{ConstsFields};
ghost use Rattle.plant.specs.declared.operator_row.RowFields.{RowFields};
ghost use Rattle.plant.specs.declared.plant.PlantFields.{PlantFields};
ghost use Rattle.slice_table.specs.ReadConsts.{consts_of};
ghost use Rattle.slice_table.specs.ReadPlant.{plant_of};
ghost use Rattle.slice_table.specs.Checks.{meets, first_meeting, first_named, first_again};
ghost use Rattle.slice_table.specs.Says.{SaysConsts, SaysPlant};
ghost use Rattle.slice_table.specs.First.{IsLeastPair, IsFirstWhere, StandsAgain};

/// States that what all operators share is read exactly where the table `plant` and the array
/// `class` say it.
pub fn consts_are_said()
    ensures { (document : Members) (consts : ConstsFields) → (consts_of document ≡ Ok consts)
        ↔ SaysConsts document consts }
{}

/// States that a plant is read exactly where the keys of the document say it and it is valid.
pub fn plant_is_said()
    ensures { (document : Members) (plant : PlantFields) → (plant_of document ≡ Ok plant) ↔ SaysPlant document plant }
{}

/// States that of the operators that have something in common, the least pair is named.
pub fn least_pair_is_named()
    ensures { (apart : Apart) (rows : List RowFields) (a b : List ℕ) → first_meeting apart rows ≡ Some (a, b)
        → (p : RowFields) × (q : RowFields) × IsLeastPair (meets apart) rows p q × (p.name ≡ a) × (q.name ≡ b) }
{}

/// States that of the operators of which something holds, the first is named.
pub fn first_is_named()
    ensures { (test : RowFields → Bool) (rows : List RowFields) (name : List ℕ) → first_named test rows ≡ Some name
        → (row : RowFields) × IsFirstWhere test rows row × (row.name ≡ name) }
{}

/// States that the address that is found twice is the first that was before.
pub fn first_again_is_named()
    ensures { (modems : List Modem) (modem : Modem) → (first_again [] modems ≡ Some modem) ↔ StandsAgain modems modem }
{}
