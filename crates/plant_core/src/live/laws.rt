//! Laws of a live core's runs.

ghost use Rattle.std.specs.Prelude.{[], ◌∷◌, ◌++◌, List};
ghost use Rattle.plant.specs.declared.plant.PlantFields.{PlantFields};
ghost use Rattle.plant.specs.Plant.{IsPlant};
ghost use Rattle.run_model.specs.declared.step.Step.{Step};
ghost use Rattle.run_model.specs.declared.step.Out.{Out};
ghost use Rattle.run_model.specs.Starts.{Start, IsStart};
ghost use Rattle.run_model.specs.Ordered.{OrderedFrom};
ghost use Rattle.run_model.specs.IsStateAfter.{CoreView};
ghost use Rattle.run_model.specs.IsTraceOf.{IsTraceFrom};
ghost use Rattle.run_model.specs.Opened.{gathering_from, started_core};
ghost use Rattle.map_assembly.specs.Gathering.{IsGathering};
ghost use Rattle.run_model.specs.Steps.{Steps};
ghost use Rattle.plant_core.specs.live.Performing.{Performs};
ghost use Rattle.plant_core.specs.live.Resting.{RestingIsAtRest, BooksStandNow};
ghost use Rattle.plant_core.specs.live.Changed.{ResumedIsChanged};
ghost use Rattle.plant_core.specs.live.After.{IsAfterFrom, TwoLiveCores, TwoResumedCores};

/// States that a step leaves a live core as it is after that step more.
pub fn step_goes_on()
    ensures { (plant : PlantFields) (start : Start) (before : List Step) (told : List Out) (step : Step)
        (old new : CoreView) (now : List Out) → IsPlant plant → Performs (Steps step) old new now
        → IsAfterFrom plant start before told old → IsAfterFrom plant start (before ++ step ∷ []) (told ++ now) new }
{}

/// States that what a live core has output is shown and in order: to each operator its own machine
/// run alone, and the MAPs of these machines' frames.
#[tactic(auto, using(crate::proofs::LiveLemmas::LawLemmas::live_shown, crate::proofs::LiveLemmas::LawLemmas::live_ordered))]
pub fn live_run_is_shown()
    ensures shown { (plant : PlantFields) (start : Start) (steps : List Step) (outs : List Out) (live : CoreView)
        → IsAfterFrom plant start steps outs live → IsTraceFrom plant start steps outs }
    ensures ordered { (plant : PlantFields) (start : Start) (steps : List Step) (outs : List Out) (live : CoreView)
        → IsAfterFrom plant start steps outs live → OrderedFrom plant start steps outs }
{}

/// States non-interference at a live core and any run: where they agree on an operator's
/// provisioning and own steps, the operator notices the same.
pub fn two_live_cores()
    ensures { TwoLiveCores }
{}

/// States the same of a core that was resumed, where the operator started in one state too.
pub fn two_resumed_cores()
    ensures { TwoResumedCores }
{}

/// States that a core in which each operator is as it starts, and nothing is gathered, is what no step leads to from there.
pub fn started_core_is_after()
    ensures { (plant : PlantFields) (start : Start) → IsPlant plant → IsStart plant start
        → IsGathering (gathering_from plant start) → IsAfterFrom plant start [] [] (started_core plant start) }
{}

/// States that of a core that rests before a frame each operator is at that frame, and all its frames were collected.
pub fn resting_core_is_at_rest()
    ensures { RestingIsAtRest }
{}

/// States that what a live core holds of an operator is the state of its own machine run alone.
pub fn books_stand_now()
    ensures { BooksStandNow }
{}

/// States that a core at rest whose operators are resumed under another plant, each by its name, is changed to that plant.
pub fn resumed_is_changed()
    ensures { ResumedIsChanged }
{}
