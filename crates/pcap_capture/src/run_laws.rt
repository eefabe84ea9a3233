//! Laws of the captures of runs.

ghost use Rattle.std.specs.Prelude.{◌≡◌, ℕ, List, [], ◌∷◌, ◌++◌};
ghost use Rattle.std.specs.List.{flat_map};
ghost use Rattle.plant.specs.declared.plant.PlantFields.{PlantFields};
ghost use Rattle.run_model.specs.declared.step.Step.{Step};
ghost use Rattle.run_model.specs.declared.step.Out.{Out};
ghost use Rattle.run_model.specs.Ordered.{target, IsTold, Ordered};
ghost use Rattle.run_model.specs.IsTraceOf.{IsTraceOf};
ghost use Rattle.pcap_capture.specs.File.{file_header, file_of};
ghost use Rattle.pcap_capture.specs.Times.{counted_from};
ghost use Rattle.pcap_capture.specs.Capture.{CaptureView, opened_capture, with_packets, sent_in, told_in, CapturesRun, IsCaptureOf, HoldsRun};

/// States that a capture without a packet is that of no step.
pub fn opened_is_of_run()
    ensures { (plant : PlantFields) → CapturesRun plant [] [] (opened_capture plant.consts) }
{}

/// States that a capture stays that of the run when the packets of one step more and then of its own outputs are added.
pub fn step_is_captured()
    ensures { (plant : PlantFields) (steps : List Step) (outs : List Out) (step : Step) (now : List Out)
        (old mid new : CaptureView) → CapturesRun plant steps outs old → IsTold plant steps step (target plant step) now
        → mid ≡ with_packets old (sent_in step) → new ≡ with_packets mid (flat_map told_in now)
        → CapturesRun plant (steps ++ step ∷ []) (outs ++ now) new }
{}

/// States that the outputs by which a run grows with one step more are that step's own, as `step_is_captured` asks.
pub fn last_outputs_are_own()
    ensures { (plant : PlantFields) (steps : List Step) (outs : List Out) (step : Step) (now : List Out)
        → IsTraceOf plant steps outs → Ordered plant steps outs → Ordered plant (steps ++ step ∷ []) (outs ++ now)
        → IsTold plant steps step (target plant step) now }
{}

/// States that a run has exactly one capture: there is a file (`exists`), and there are no two (`unique`).
pub fn run_has_one_capture()
    ensures exists { (plant : PlantFields) (steps : List Step) (outs : List Out) → Ordered plant steps outs
        → (bytes : List ℕ) × IsCaptureOf plant steps outs bytes }
    ensures unique { (plant : PlantFields) (steps : List Step) (outs : List Out) (one other : List ℕ)
        → IsTraceOf plant steps outs → IsCaptureOf plant steps outs one → IsCaptureOf plant steps outs other → one ≡ other }
{}

/// States that the file of a run has the modems' messages of its steps, and the replies and MAPs of its outputs, in order.
pub fn capture_holds_run()
    ensures { (plant : PlantFields) (steps : List Step) (outs : List Out) (bytes : List ℕ)
        → IsCaptureOf plant steps outs bytes → HoldsRun plant.consts steps outs bytes }
{}

/// States that the times in the file of a run that is `IsTraceOf` are counted by MAPs. A packet after so many MAPs has the time of
/// the frame that is so many after the first one.
pub fn times_are_counted()
    // A packet has the time of the frame that is as many after the first as there were MAPs before it.
    ensures { (plant : PlantFields) (steps : List Step) (outs : List Out) (captured : CaptureView)
        → IsTraceOf plant steps outs → CapturesRun plant steps outs captured
        → file_of captured.clock captured.packets
        ≡ file_header ++ counted_from plant.consts.units.frame_us plant.consts.channel.first_frame 0 captured.packets }
{}
