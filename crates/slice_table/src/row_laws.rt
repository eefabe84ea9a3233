//! Laws of plant files: what the table of an operator says.

ghost use Rattle.std.specs.Prelude.{◌≡◌, ◌↔◌, ℕ, List, Ok};
ghost use Rattle.toml.specs.Data.{Data, Members};
ghost use Rattle.dsx_messages.specs.declared.modem.Modem.{Modem};
ghost use Rattle.plant.specs.declared.consts.ConstsFields.{ConstsFields};
ghost use Rattle.plant.specs.declared.operator_row.RowFields.{RowFields};
ghost use Rattle.plant.specs.declared.provision.Provision.{Provision};
ghost use Rattle.slice_table.specs.declared.plant_key.Field.TheVariants.{Flow};
ghost use Rattle.slice_table.specs.declared.plant_key.Key.{Key};
ghost use Rattle.slice_table.specs.declared.plant_key.Place.{Place};
ghost use Rattle.slice_table.specs.Tree.{at_field, modem_of};
ghost use Rattle.slice_table.specs.ReadRows.{modems_at, row_read, rows_of, name_at, provisions_if};
ghost use Rattle.slice_table.specs.Says.{SaysModems, SaysRow, SaysRows, SaysName, IsAddress, SaysProvisions};

/// States that a name is read exactly where it is under its key and no operator before has it.
pub fn name_is_said()
    ensures { (before : List RowFields) (place : Place) (ms : Members) (name : List ℕ)
        → (name_at before place ms ≡ Ok name) ↔ SaysName before ms name }
{}

/// States that an address is read exactly where its twelve digits are written.
pub fn address_is_said()
    ensures { (key : Key) (d : Data) (modem : Modem) → (modem_of key d ≡ Ok modem) ↔ IsAddress d modem }
{}

/// States that modems are read exactly where their addresses are under their key, 1 to 1,024 of
/// them.
pub fn modems_are_said()
    ensures { (place : Place) (ms : Members) (modems : List Modem) → (modems_at place ms ≡ Ok modems)
        ↔ SaysModems ms modems }
{}

/// States that provisioned flows are read exactly where the array `flow` says them in turn, or
/// where there is none.
pub fn provisions_are_said()
    ensures { (consts : ConstsFields) (operator : ℕ) (modems : List Modem) (ms : Members)
        (provisions : List Provision) → (provisions_if consts operator modems (at_field Flow ms) ≡ Ok provisions)
        ↔ SaysProvisions consts modems ms provisions }
{}

/// States that an operator is read, after others, exactly where a table says each of its keys.
pub fn row_is_said()
    ensures { (consts : ConstsFields) (before : List RowFields) (d : Data) (row : RowFields)
        → (row_read consts before d ≡ Ok row) ↔ SaysRow consts before d row }
{}

/// States that all operators are read exactly where the array `operator` says them in turn.
pub fn rows_are_said()
    ensures { (consts : ConstsFields) (document : Members) (rows : List RowFields)
        → (rows_of consts document ≡ Ok rows) ↔ SaysRows consts document rows }
{}
