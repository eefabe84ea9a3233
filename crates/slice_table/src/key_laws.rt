//! Laws of plant files: what a key of a table says.

ghost use Rattle.std.specs.Prelude.{◌≡◌, ◌↔◌, ℕ, Ok};
ghost use Rattle.toml.specs.Data.{Members};
ghost use Rattle.admission.specs.Free.{Numbers};
ghost use Rattle.grant_policy.specs.declared.policy.Policy.{Policy};
ghost use Rattle.slice_scheduler.specs.Minislots.{Minislots};
ghost use Rattle.plant.specs.declared.consts.ConstsFields.{ConstsFields};
ghost use Rattle.slice_table.specs.declared.plant_key.Field.{Field};
ghost use Rattle.slice_table.specs.declared.plant_key.Place.{Place};
ghost use Rattle.slice_table.specs.Tree.{number_at, number_of_key};
ghost use Rattle.slice_table.specs.ReadRows.{slice_at, range_at, policy_at};
ghost use Rattle.slice_table.specs.Says.{SaysNumber, SaysNumberIn, SaysSlice, SaysRange, SaysPolicy};

/// States that a number is read exactly where it is under its key, in its range.
pub fn number_is_said()
    ensures { (place : Place) (field : Field) (low high : ℕ) (ms : Members) (n : ℕ)
        → (number_at place field low high ms ≡ Ok n) ↔ SaysNumber ms field low high n }
{}

/// States that the default is read exactly where the key is not there, and else the number of its
/// range that is there.
pub fn default_is_said()
    ensures { (place : Place) (field : Field) (ms : Members) (n : ℕ)
        → (number_of_key place field ms ≡ Ok n) ↔ SaysNumberIn ms field n }
{}

/// States that a slice is read exactly where it is under its key, after the head and within the
/// frame.
pub fn slice_is_said()
    ensures { (consts : ConstsFields) (place : Place) (ms : Members) (slice : Minislots)
        → (slice_at consts place ms ≡ Ok slice) ↔ SaysSlice consts ms slice }
{}

/// States that a range is read exactly where it is under its key, within the key's range, in order.
pub fn range_is_said()
    ensures { (place : Place) (field : Field) (ms : Members) (range : Numbers)
        → (range_at place field ms ≡ Ok range) ↔ SaysRange ms field range }
{}

/// States that a policy is read exactly where its name is under its key, with its step where it has
/// one.
pub fn policy_is_said()
    ensures { (place : Place) (ms : Members) (policy : Policy) → (policy_at place ms ≡ Ok policy)
        ↔ SaysPolicy ms policy }
{}
