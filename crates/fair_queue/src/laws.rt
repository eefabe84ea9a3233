//! Laws of runs of an operator's queue, and of all queues.

ghost use Rattle.fair_queue.specs.Laws.{PlacesAreOwn, LinesAreKept, RunsAgree, LimitHolds, LinesAreNumbered, QueuesRunAlone, TurnsAreTaken};

/// States that what is chosen of an operator's lines, and where among the owner's lines, is a beginning of the placement of all that its
/// queue has received, whatever other queues receive and whenever the choices are made.
#[tactic(auto, using(crate::proofs::RunLemmas::places_are_own))]
pub fn places_are_own()
    ensures { PlacesAreOwn }
{}

/// States that each line that came is chosen once or waits, in order and unchanged.
#[tactic(auto, using(crate::proofs::RunLemmas::lines_are_kept))]
pub fn lines_are_kept()
    ensures { LinesAreKept }
{}

/// States that two runs in which the same came and as much was chosen have chosen the same, at the same places.
#[tactic(auto, using(crate::proofs::RunLemmas::runs_agree))]
pub fn runs_agree()
    ensures { RunsAgree }
{}

/// States that at most as many lines of an operator as its limit says are chosen between two ticks.
#[tactic(auto, using(crate::proofs::CountLemmas::limit_holds))]
pub fn limit_holds()
    ensures { LimitHolds }
{}

/// States that a queue counts its lines as they are chosen, so that the n-th has the number n.
#[tactic(auto, using(crate::proofs::CountLemmas::lines_are_numbered))]
pub fn lines_are_numbered()
    ensures { LinesAreNumbered }
{}

/// States that among the queues of several operators the queue of one runs on its own lines and the owner's alone, so that the laws above
/// hold of it whatever others send.
#[tactic(auto, using(crate::proofs::TurnLemmas::queues_run_alone))]
pub fn queues_run_alone()
    ensures { QueuesRunAlone }
{}

/// States that as long as a line of an operator may be chosen and none of it is, at most one line of each other operator is chosen and
/// none of the owner's.
#[tactic(auto, using(crate::proofs::TurnLemmas::turns_are_taken))]
pub fn turns_are_taken()
    ensures { TurnsAreTaken }
{}
