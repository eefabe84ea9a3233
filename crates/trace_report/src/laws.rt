//! A law of traces.

ghost use Rattle.trace_report.specs.Reading.{TraceIsRead};

/// States that the lines of a trace that begin as that of a check are just those of its decisions, in order.
#[tactic(auto, using(crate::proofs::ReadLemmas::trace_read))]
pub fn check_lines_are_decisions()
    ensures { TraceIsRead }
{}
