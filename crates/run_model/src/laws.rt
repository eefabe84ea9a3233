//! Laws of runs.

ghost use Rattle.std.specs.Prelude.{List, Contains};
ghost use Rattle.plant.specs.declared.plant.PlantFields.{PlantFields};
ghost use Rattle.map_assembly.specs.declared.map_bytes.MapBytes.{MapBytes};
ghost use Rattle.map_assembly.specs.declared.view.MapView.{MapView};
ghost use Rattle.map_assembly.specs.Reading.{MapReads};
ghost use Rattle.run_model.specs.declared.step.Step.{Step};
ghost use Rattle.run_model.specs.declared.step.Out.{Out};
ghost use Rattle.run_model.specs.OwnSteps.{maps_in};
ghost use Rattle.run_model.specs.IsTraceOf.{IsTraceOf};
ghost use Rattle.run_model.specs.SharedOut.{IsSharedOut};
ghost use Rattle.run_model.specs.NonInterference.{NonInterference, NonInterferenceFrom};
ghost use Rattle.run_model.specs.Periods.{ChangesAreNotNoticed};
ghost use Rattle.run_model.specs.Changing.{ServiceGoesThrough};
ghost use Rattle.run_model.specs.TwoCores.{TwoCores, AnswerAlike};

/// States non-interference: of any two runs of plants that agree on an operator's provisioning and on its own steps, the
/// operator's outputs and its parts of the MAPs are equal.
pub fn non_interference()
    ensures { NonInterference }
{}

/// States the same of runs that start anywhere, where the operator starts in one state too.
pub fn non_interference_from()
    ensures { NonInterferenceFrom }
{}

/// States non-interference over changes of plant: an operator that keeps its row, starts in one state and has the same own
/// steps notices the same, however often and whenever the plant is changed for others.
pub fn changes_are_not_noticed()
    ensures { ChangesAreNotNoticed }
{}

/// States that an operator that keeps what it is provisioned with through changes of plant has periods as
/// `changes_are_not_noticed` asks.
pub fn kept_rows_go_through()
    ensures { ServiceGoesThrough }
{}

/// States non-interference at cores: of two cores, each after its steps, which agree on an
/// operator's provisioning and own steps, the operator's answers and its parts of the MAPs are
/// equal, and are those of its own machine run alone.
pub fn two_cores()
    ensures { TwoCores }
{}

/// States that two operators whose books agree answer an action alike, whatever else is in their
/// cores.
pub fn equal_books_answer_alike()
    ensures { AnswerAlike }
{}

/// States that whatever the bytes of a MAP of a run say, each minislot of the frame is in exactly
/// one span, and each operator's part is the frame of that number of its own machine run alone.
pub fn maps_are_shared_out()
    ensures { (plant : PlantFields) (steps : List Step) (outs : List Out) (made : MapBytes) (view : MapView)
        → IsTraceOf plant steps outs → Contains (maps_in outs) made → MapReads made.bytes view
        → IsSharedOut plant steps made view }
{}
