//! Laws of assemblies.

ghost use Rattle.std.specs.Prelude.{List};
ghost use Rattle.plant.specs.declared.plant.PlantFields.{PlantFields};
ghost use Rattle.map_assembly.specs.declared.map_bytes.MapBytes.{MapBytes};
ghost use Rattle.map_assembly.specs.Gathering.{Gathering, gathering_of, IsGathering};
ghost use Rattle.run_model.specs.declared.step.Step.{Step};
ghost use Rattle.run_model.specs.IsTraceOf.{AreMaps};
ghost use Rattle.plant_workers.specs.declared.audit.placing.Placing.{Placing};
ghost use Rattle.plant_workers.specs.audit.Placings.{HaveMade};
ghost use Rattle.plant_workers.specs.audit.Due.{AreDue};

/// States that where each operator put, in order, just so many of the frames of its own machine run
/// alone as the steps collect of it, the MAPs that a plant's assembly gave are those of a run of
/// these steps, in whatever order the operators came.
pub fn placings_make_the_maps()
    ensures { (plant : PlantFields) (steps : List Step) (placings : List Placing) (maps : List MapBytes)
        (after : Gathering) → HaveMade (gathering_of plant) placings maps after → IsGathering after
        → AreDue plant steps placings → AreMaps plant steps maps }
{}
