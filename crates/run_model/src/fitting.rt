//! Laws of what the assembly takes: each frame that waits, and new slices that the books take.

ghost use Rattle.std.specs.Prelude.{◌≡◌, ℕ, List, ◌∷◌, map, length, slice_get, Some, None};
ghost use Rattle.plant.specs.declared.plant.PlantFields.{PlantFields};
ghost use Rattle.plant.specs.Plant.{IsPlant};
ghost use Rattle.slice_scheduler.specs.declared.elements.ElementsFields.{ElementsFields};
ghost use Rattle.operator_model.specs.declared.action.SliceRow.{SliceRow};
ghost use Rattle.map_assembly.specs.Gathering.{put_fault, IsGathering, MayReslice};
ghost use Rattle.run_model.specs.declared.step.Step.{Step};
ghost use Rattle.run_model.specs.declared.step.Out.{Out};
ghost use Rattle.run_model.specs.OwnSteps.{slice_of};
ghost use Rattle.run_model.specs.Starts.{Start, IsStart};
ghost use Rattle.run_model.specs.IsStateAfter.{CoreView, IsStateAfter, IsStateAfterFrom};
ghost use Rattle.run_model.specs.Steps.{HaveSlicesApart, NoneRefuses};

/// States that the assembly refuses no frame that waits: whatever steps were done, the oldest one
/// of an operator has the number that comes next of it, the slice of its frame, the operator's own
/// SIDs, and no more elements than its quota and one.
pub fn waiting_frames_fit()
    ensures { (plant : PlantFields) (steps : List Step) (outs : List Out) (core : CoreView) (i frame : ℕ)
        (part : ElementsFields) (waiting : List (ℕ × ElementsFields)) → IsPlant plant → IsStateAfter plant steps outs core
        → IsGathering core.gathering
        → slice_get core.queues i ≡ Some ((frame, part) ∷ waiting) → put_fault core.gathering i frame part ≡ None }
{}

/// States the same of a run that starts anywhere, where the operators start in states that are sound
/// under their rows.
pub fn waiting_frames_fit_from()
    ensures { (plant : PlantFields) (start : Start) (steps : List Step) (outs : List Out) (core : CoreView) (i frame : ℕ)
        (part : ElementsFields) (waiting : List (ℕ × ElementsFields)) → IsStart plant start
        → IsStateAfterFrom plant start steps outs core → IsGathering core.gathering
        → slice_get core.queues i ≡ Some ((frame, part) ∷ waiting) → put_fault core.gathering i frame part ≡ None }
{}

/// States that slices of which no two overlap and that each operator's book takes are taken by the
/// assembly too.
pub fn slices_that_books_take_fit()
    ensures { (plant : PlantFields) (steps : List Step) (outs : List Out) (core : CoreView) (from : ℕ)
        (rows : List SliceRow) → IsPlant plant → IsStateAfter plant steps outs core → IsGathering core.gathering
        → length rows ≡ length core.books → HaveSlicesApart rows → NoneRefuses from core.books rows
        → MayReslice core.gathering from (map slice_of rows) }
{}
