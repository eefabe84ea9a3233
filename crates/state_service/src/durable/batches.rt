//! Lines that are put in the journal before they are answered.

ghost use Rattle.std.specs.Prelude.{◌≡◌, ◌<◌, ◌≤◌, ◌+◌, length, Err, IfOk, OnOk};
ghost use Rattle.plant.specs.declared.plant.PlantFields.{PlantFields};
ghost use Rattle.plant_core.specs.live.After.{BehindEachRun, IsReachableFromStart};
ghost use Rattle.plant_core.specs.live.LiveView.{live_view};
ghost use Rattle.line_journal.specs.Device.{LeavesOnly};
ghost use Rattle.line_journal.specs.Found.{texts};
ghost use Rattle.line_journal.specs.Journal.{journal_content, with_lines, IsJournalSettled, IsBeforeOrAfter};
ghost use Rattle.state_service.specs.declared.durable.fault.DurableFault.TheVariants as faults;
ghost use Rattle.state_service.specs.durable.Durable.{AreLinesDone, IsLeading};

use crate::durable::doing::do_lines;
use crate::durable::fault::{DurableFault, JournalStateFault};
use crate::durable::opening::DurableState;
use line_journal::{Batch, Device, Journal};
use std::alloc::Global;

/// Returns a batch of lines.
fn batch_of(alloc: Global, lines: &[Vec<u8>]) -> Result<Batch, JournalStateFault>
    ensures { IfOk result (λ batch. batch ≡ texts lines.now) }
{
    let mut batch = Batch::new(alloc);
    for line in lines {
        batch.push(alloc, line)?;
    }
    Ok(batch)
}

/// Puts lines in the journal, does them, and returns the text of their answers. At `Ok` they are on the disk, and the journal leads to the
/// core. At `Err` no answer is given: end, and open the state again. The journal then has all of the lines or none.
///
/// If memory runs out for a line, that is an `Err` too, since a journal that has the line would not lead to a core that has not done it.
pub fn do_batch<D: Device>(
    alloc: Global,
    journal: &mut Journal<D>,
    service: &mut DurableState,
    lines: &[Vec<u8>],
) -> Result<Vec<u8>, DurableFault>
    requires settled { IsJournalSettled D.seen D.may_leave journal.old.device journal.old.gate }
    requires reached { IsReachableFromStart (live_view service.old.core) }

    // The lines are on the disk.
    ensures acknowledged { OnOk result (IsJournalSettled D.seen D.may_leave journal.new.device journal.new.gate
        × (journal_content (D.seen journal.new.device) ≡ with_lines (texts lines.now) (journal_content (D.seen journal.old.device)))) }
    // After whatever run led to the core, they are done, and the text is exactly that of their answers, by number.
    ensures done { IfOk result (λ text. BehindEachRun (live_view service.old.core) (λ plant start before shown. AreLinesDone plant start before shown
        (service.old.count + 1) (texts lines.now) (live_view service.new.core) text.items)) }
    ensures reached { OnOk result (IsReachableFromStart (live_view service.new.core)) }
    ensures count { OnOk result (service.new.count ≡ service.old.count + length lines.now) }
    ensures same_file { service.new.file ≡ service.old.file }
    // The journal still leads to the core.
    ensures leads { OnOk result ((plant : PlantFields)
        → IsLeading (journal_content (D.seen journal.old.device)) plant (live_view service.old.core) service.old.count
        → IsLeading (journal_content (D.seen journal.new.device)) plant (live_view service.new.core) service.new.count) }

    // A crash at any moment of the call leaves the lines from before it, with all the new ones or with none.
    ensures any_moment { LeavesOnly D.moment D.left_since journal.old.device journal.new.device
        (IsBeforeOrAfter (journal_content (D.seen journal.old.device)) (with_lines (texts lines.now) (journal_content (D.seen journal.old.device)))) }

    // `Disk` comes only if the disk has failed.
    ensures disk { result ≡ Err faults.Disk → D.faults journal.old.device < D.faults journal.new.device }
    ensures no_journal { result ≡ Err faults.NoJournal → ⊥ }
    ensures counted { D.faults journal.old.device ≤ D.faults journal.new.device }
{
    let batch = batch_of(alloc, lines)?;
    journal.append(alloc, &batch)?;
    let mut text = Vec::new(alloc);
    do_lines(
        alloc,
        &mut service.core,
        &mut service.count,
        lines,
        &mut text,
    )?;
    Ok(text)
}
