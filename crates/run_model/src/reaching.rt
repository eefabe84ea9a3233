//! Laws of what is reached: a core that is opened, stepped and run is as its steps and outputs say.

ghost use Rattle.std.specs.Prelude.{List, [], ◌∷◌, ◌++◌};
ghost use Rattle.plant.specs.declared.plant.PlantFields.{PlantFields};
ghost use Rattle.plant.specs.Plant.{IsPlant};
ghost use Rattle.map_assembly.specs.Gathering.{IsGathering};
ghost use Rattle.run_model.specs.declared.step.Step.{Step};
ghost use Rattle.run_model.specs.declared.step.Out.{Out};
ghost use Rattle.run_model.specs.Starts.{Start, StandAtOneFrame};
ghost use Rattle.run_model.specs.IsStateAfter.{CoreView, IsStateAfter, IsStateAfterFrom};
ghost use Rattle.run_model.specs.Opened.{opened_core, started_core};
ghost use Rattle.run_model.specs.Run.{IsRun};
ghost use Rattle.run_model.specs.Steps.{Steps};

/// States that a core is opened as it is after no step.
pub fn opened_is_reached()
    ensures { (plant : PlantFields) → IsPlant plant → IsStateAfter plant [] [] (opened_core plant) }
{}

/// States that a step leaves the core as it is after that step more: to each operator its own
/// machine run alone, the MAPs of these machines' frames, and all outputs in order. What the
/// assembly always keeps of what it gathered is asked for, as it is what its type keeps.
pub fn step_is_reached()
    ensures { (plant : PlantFields) (before : List Step) (outs : List Out) (step : Step) (old new : CoreView)
        (now : List Out) → IsPlant plant → IsStateAfter plant before outs old → IsGathering old.gathering
        → Steps step old new now
        → IsStateAfter plant (before ++ step ∷ []) (outs ++ now) new }
{}

/// States that a core whose operators start in given states is as it is after no step from there.
pub fn start_is_reached()
    ensures { (plant : PlantFields) (start : Start) → IsPlant plant → StandAtOneFrame plant start
        → IsStateAfterFrom plant start [] [] (started_core plant start) }
{}

/// States that a step leaves a core as it is after that step more, wherever its operators started.
pub fn step_is_reached_from()
    ensures { (plant : PlantFields) (start : Start) (before : List Step) (outs : List Out) (step : Step)
        (old new : CoreView) (now : List Out) → IsPlant plant → IsStateAfterFrom plant start before outs old
        → IsGathering old.gathering → Steps step old new now
        → IsStateAfterFrom plant start (before ++ step ∷ []) (outs ++ now) new }
{}

/// States that whatever steps are done to an opened core, one after the other, the core is as it is
/// after them, and the run shows to each operator its own machine run alone.
pub fn run_is_reached()
    ensures { (plant : PlantFields) (steps : List Step) (outs : List Out) (core : CoreView) → IsPlant plant
        → IsRun steps (opened_core plant) core outs → IsStateAfter plant steps outs core }
{}
