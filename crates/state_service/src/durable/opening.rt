//! A service that goes on from a saved state.

ghost use Rattle.std.specs.Prelude.{◌≡◌, ◌≤◌, ◌+◌, length, Err, OnOk};
ghost use Rattle.state_service.specs.declared.durable.fault.LineFailure.TheVariants as failures;
ghost use Rattle.plant.specs.declared.plant.PlantFields.{PlantFields};
ghost use Rattle.plant_core.specs.live.After.{IsReachableFromStart};
ghost use Rattle.plant_core.specs.live.LiveView.{live_view};
ghost use Rattle.snapshot_format.specs.declared.saved.Snapshot.{Snapshot};
ghost use Rattle.snapshot_format.specs.States.{states_of};
ghost use Rattle.plant_restart.specs.Restarted.{IsRestarted};
ghost use Rattle.line_journal.specs.Found.{texts};
ghost use Rattle.line_journal.specs.Journal.{JournalContent};
ghost use Rattle.state_service.specs.durable.Durable.{SaysState, LeadsTo};

use crate::durable::doing::do_lines;
use crate::durable::fault::LineFailure;
use plant_core::LiveCore;
use std::alloc::Global;
use tlv24::Bytes;

/// Holds a service whose lines are kept in a journal.
#[derive(Drop)]
pub struct DurableState {
    pub core: LiveCore,
    /// The text of the plant file.
    pub file: Bytes,
    /// How many lines are done.
    pub count: u64,
}

/// Does the lines since a saved state again, with a core that was restored from it, and writes nothing. A line for which memory runs out
/// ends it.
#[tactic(auto, using(crate::proofs::DurableLemmas::LeadLemmas::restarted_reached))]
pub fn redo_lines(
    alloc: Global,
    service: &mut DurableState,
    lines: &[Vec<u8>],
) -> Result<(), LineFailure>
    // The core is that of a restart from a saved state.
    requires restarted { (plant : PlantFields) × (saved : Snapshot) × IsRestarted plant saved.frame (states_of saved) (live_view service.old.core) }
    ensures reached { OnOk result (IsReachableFromStart (live_view service.new.core)) }
    // What the journal stands for leads to the core.
    ensures leads { OnOk result ((content : JournalContent) (plant : PlantFields) (saved : Snapshot)
        → SaysState content.snapshot service.old.count plant saved → content.lines ≡ texts lines.now
        → IsRestarted plant saved.frame (states_of saved) (live_view service.old.core)
        → LeadsTo content plant (live_view service.new.core) service.new.count) }
    ensures count { OnOk result (service.new.count ≡ service.old.count + length lines.now) }
    // Too many lines are reported only from 2^64 - 1 on.
    ensures many { result ≡ Err failures.TooManyLines → 18446744073709551615 ≤ service.old.count + length lines.now }
    ensures same { service.new.file ≡ service.old.file }
{
    let mut text = Vec::new(alloc);
    do_lines(
        alloc,
        &mut service.core,
        &mut service.count,
        lines,
        &mut text,
    )?;
    Ok(())
}
