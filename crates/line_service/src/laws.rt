//! A law of services.

ghost use Rattle.line_service.specs.Service.{ServiceIsShown};

/// States that what a service has output is shown and in order: to each operator its own machine
/// run alone, and the MAPs of these machines' frames, whatever lines of others were invalid. With
/// `two_live_cores` an operator notices the same next to any other run.
#[tactic(auto, using(crate::proofs::ServiceLemmas::service_shown))]
pub fn service_is_shown()
    ensures { ServiceIsShown }
{}
