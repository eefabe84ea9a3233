//! Lines that are put in the journal and answered, and commands among them.

ghost use Rattle.std.specs.Prelude.{◌≡◌, ◌≤◌, ◌+◌, true, ℕ, List, Option, length, IfOk, IfErr, OnOk};
ghost use Rattle.std.specs.Io.KnownBytes.{Appends};
ghost use Rattle.plant_core.specs.live.After.{IsReachableFromStart};
ghost use Rattle.plant_core.specs.live.LiveView.{live_view};
ghost use Rattle.run_model.specs.IsStateAfter.{CoreView};
ghost use Rattle.line_service.specs.Bytes.{WhereKnown};
ghost use Rattle.line_journal.specs.Device.{LeavesOnly};
ghost use Rattle.line_journal.specs.Found.{texts};
ghost use Rattle.line_journal.specs.Journal.{journal_content, with_lines, IsJournalSettled, IsBeforeOrAfter};
ghost use Rattle.state_service.specs.declared.reading.BatchEnd.TheVariants.{Command};
ghost use Rattle.state_service.specs.Commands.{is_command};
ghost use Rattle.state_service.specs.Serving.{AreDoneNext, IsAtLine, LeadsHere};
ghost use Rattle.state_service.specs.Periods.{IsInPeriod, SaysAtEndIfAny, LeadsUnlessDue};
ghost use Rattle.state_service.specs.Crashes.{ServiceOrigin, IsJournalOf, IsJournalInPeriod, IsLeftFrom};
ghost use Rattle.state_service.specs.Faults.{IsServingFault};

use crate::durable::{DurableState, LineFailure, do_batch};
use crate::fault::StateServiceFault;
use crate::performing::{CommandOutcome, CommandRefusal, command_outcome};
use crate::period_end::PeriodEnd;
use crate::resumed::RefusalNotes;
use line_journal::{Device, Journal};
use plant_core::LiveCore;
use std::alloc::Global;
use std::io::Write;

/// Puts lines in the journal, does them, and then writes their answers.
pub(crate) fn answer_lines<D: Device, W: Write>(
    alloc: Global,
    journal: &mut Journal<D>,
    service: &mut DurableState,
    lines: &[Vec<u8>],
    writer: &mut W,
) -> Result<(), StateServiceFault>
    requires settled { IsJournalSettled D.seen D.may_leave journal.old.device journal.old.gate }
    requires reached { IsReachableFromStart (live_view service.old.core) }
    ensures settled { OnOk result (IsJournalSettled D.seen D.may_leave journal.new.device journal.new.gate) }
    ensures reached { OnOk result (IsReachableFromStart (live_view service.new.core)) }
    ensures count { OnOk result (service.new.count ≡ service.old.count + length (texts lines.now)) }
    ensures same_file { service.new.file ≡ service.old.file }
    ensures leads { OnOk result (LeadsHere (journal_content (D.seen journal.old.device)) (live_view service.old.core) service.old.count
        → LeadsHere (journal_content (D.seen journal.new.device)) (live_view service.new.core) service.new.count) }
    ensures answered { OnOk result ((text : List ℕ) × AreDoneNext (live_view service.old.core) service.old.count (texts lines.now)
        (live_view service.new.core) text × Appends (W.contents writer.old) (W.contents writer.new) text) }
    ensures added { OnOk result (journal_content (D.seen journal.new.device) ≡ with_lines (texts lines.now) (journal_content (D.seen journal.old.device))) }
    ensures any_moment { LeavesOnly D.moment D.left_since journal.old.device journal.new.device
        (IsBeforeOrAfter (journal_content (D.seen journal.old.device)) (with_lines (texts lines.now) (journal_content (D.seen journal.old.device)))) }
    ensures fault { IfErr result (IsServingFault (D.faults journal.old.device) (D.faults journal.new.device)) }
    ensures counted { D.faults journal.old.device ≤ D.faults journal.new.device }
{
    let text = do_batch(alloc, journal, service, lines)?;
    writer.write_all(text.as_slice())?;
    writer.flush()?;
    Ok(())
}

/// Notes why the command with this line number is refused, unless it requests a snapshot.
fn note_refusal<N: RefusalNotes>(
    alloc: Global,
    core: &LiveCore,
    number: u64,
    refusal: &CommandRefusal,
    notes: &mut N,
) {
    match refusal {
        CommandRefusal::NoSnapshot => {}
        CommandRefusal::NoNumber { why } => notes.note_frame_refused(
            alloc,
            number,
            core.plant(),
            why,
        ),
    }
}

/// Returns the number of the line after so many.
fn number_after(count: u64) -> Result<u64, LineFailure>
    ensures { IfOk result (λ number. number ≡ count + 1) }
{
    match count.checked_add(1) {
        Some(number) => Ok(number),
        None => Err(LineFailure::TooManyLines),
    }
}

/// Answers a command that is refused, as a line of a script. Otherwise the period ends, with the state that is to be saved before the
/// command is answered. The command is counted in both cases.
pub(crate) fn serve_command<D: Device, W: Write, N: RefusalNotes>(
    alloc: Global,
    journal: &mut Journal<D>,
    service: &mut DurableState,
    line: Vec<u8>,
    writer: &mut W,
    notes: &mut N,
) -> Result<Option<PeriodEnd>, StateServiceFault>
    requires settled { IsJournalSettled D.seen D.may_leave journal.old.device journal.old.gate }
    requires reached { IsReachableFromStart (live_view service.old.core) }
    requires command { is_command line.items ≡ true }
    ensures settled { OnOk result (IsJournalSettled D.seen D.may_leave journal.new.device journal.new.gate) }
    ensures reached { OnOk result (IsReachableFromStart (live_view service.new.core)) }
    ensures count { OnOk result (service.new.count ≡ service.old.count + 1) }
    ensures same_file { service.new.file ≡ service.old.file }
    ensures leads { IfOk result (λ end. LeadsHere (journal_content (D.seen journal.old.device)) (live_view service.old.core) service.old.count
        → LeadsUnlessDue end (journal_content (D.seen journal.new.device)) (live_view service.new.core) service.new.count) }
    ensures says { IfOk result (SaysAtEndIfAny service.new.count) }
    ensures on { IfOk result (λ end. (file : List ℕ) (first : CoreView) (count : ℕ) (known rest written : Option (List ℕ)) (part : List ℕ)
        → service.old.file ≡ file → WhereKnown known rest (λ input left. IsAtLine line.items file first count input left part
        (live_view service.old.core) service.old.count written (W.contents writer.old))
        → WhereKnown known rest (λ input left. IsInPeriod end file first count input left part
        (live_view service.new.core) service.new.count written (W.contents writer.new))) }
    ensures holds { IfOk result (λ end. (origin : ServiceOrigin) (rest : Option (List ℕ)) (part : List ℕ)
        → IsJournalOf origin (Command line) (journal_content (D.seen journal.old.device)) rest part
        → IsJournalInPeriod end origin (journal_content (D.seen journal.new.device)) rest part) }
    ensures any_moment { (origin : ServiceOrigin) (rest : Option (List ℕ)) (part : List ℕ)
        → IsJournalOf origin (Command line) (journal_content (D.seen journal.old.device)) rest part
        → LeavesOnly D.moment D.left_since journal.old.device journal.new.device (λ c. IsLeftFrom origin (journal_content c)) }
    ensures fault { IfErr result (IsServingFault (D.faults journal.old.device) (D.faults journal.new.device)) }
    ensures counted { D.faults journal.old.device ≤ D.faults journal.new.device }
{
    let number = number_after(service.count)?;
    let refusal = match command_outcome(alloc, service, number, line.as_slice())? {
        CommandOutcome::Due { due } => {
            service.count = number;
            return Ok(Some(PeriodEnd::Due { due }));
        }
        CommandOutcome::Refused { refusal } => refusal,
    };
    let lines = vec![in alloc; line]?;
    note_refusal(alloc, &service.core, number, &refusal, notes);
    answer_lines(alloc, journal, service, lines.as_slice(), writer)?;
    Ok(None)
}
