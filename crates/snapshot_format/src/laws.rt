//! Laws of snapshots.

ghost use Rattle.std.specs.Prelude.{◌≡◌, ℕ, List, Ok};
ghost use Rattle.operator_model.specs.State.{OperatorState};
ghost use Rattle.snapshot_format.specs.declared.saved.Snapshot.{Snapshot};
ghost use Rattle.snapshot_format.specs.Text.{text_of_snapshot};
ghost use Rattle.snapshot_format.specs.Snapshot.{snapshot_of};
ghost use Rattle.snapshot_format.specs.Saved.{IsSnapshot};
ghost use Rattle.snapshot_format.specs.Kept.{IsKeptSnapshot};
ghost use Rattle.snapshot_format.specs.States.{state_of, saved_state};

/// States that the text of a snapshot says that snapshot, if its values fit the types of a machine
/// and keep what these keep.
pub fn snapshot_is_read_back()
    ensures { (saved : Snapshot) → IsSnapshot saved → snapshot_of (text_of_snapshot saved) ≡ Ok saved }
{}

/// States that whatever text is read, the states keep what the types of a machine keep: sets within
/// one another, slices within a frame, and identifiers of their own.
pub fn read_states_are_kept()
    ensures { (text : List ℕ) (saved : Snapshot) → snapshot_of text ≡ Ok saved → IsKeptSnapshot saved }
{}

/// States that a snapshot holds the whole state of a machine: what is saved of a state is that
/// state again.
pub fn whole_state_is_saved()
    ensures { (name : List ℕ) (state : OperatorState) → state_of state.frame (saved_state name state) ≡ state }
{}
