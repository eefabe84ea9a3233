//! Lines that are done up to a moment when the state is saved.

ghost use Rattle.std.specs.Prelude.{◌≡◌, ◌≤◌, ℕ, List, Option, IfOk, IfErr, OnOk};
ghost use Rattle.plant_core.specs.live.After.{IsReachableFromStart};
ghost use Rattle.plant_core.specs.live.LiveView.{live_view};
ghost use Rattle.run_model.specs.IsStateAfter.{CoreView};
ghost use Rattle.line_service.specs.Bytes.{WhereKnown};
ghost use Rattle.line_journal.specs.Device.{LeavesOnly};
ghost use Rattle.line_journal.specs.Journal.{JournalContent, journal_content, IsJournalSettled};
ghost use Rattle.state_service.specs.declared.reading.BatchEnd.TheVariants.{Open};
ghost use Rattle.state_service.specs.Taking.{HasCommand};
ghost use Rattle.state_service.specs.Serving.{IsServing, LeadsHere};
ghost use Rattle.state_service.specs.Periods.{IsAfterLines, IsInPeriod, IsAfterPeriod, IsKeptOf, SaysAtEndIfAny, SaysAtEnd, LeadsUnlessDue, LeadsAtEnd};
ghost use Rattle.state_service.specs.Crashes.{ServiceOrigin, IsJournalOf, IsJournalInPeriod, IsLeftFrom};
ghost use Rattle.state_service.specs.Faults.{IsServingFault};

use crate::answering::{answer_lines, serve_command};
use crate::durable::{DurableState, JournalStateFault, KeptState, state_to_keep};
use crate::fault::StateServiceFault;
use crate::period_end::{DueState, PeriodEnd};
use crate::reading::{BatchEnd, LineBatch, read_batch};
use crate::resumed::RefusalNotes;
use line_journal::{Device, Journal};
use std::alloc::Global;
use std::io;
use std::io::{BufRead, Write};

/// Reads a batch of lines, and answers them once they are in the journal.
fn serve_batch<D: Device, B: BufRead, W: Write>(
    alloc: Global,
    journal: &mut Journal<D>,
    service: &mut DurableState,
    part: &mut Vec<u8>,
    reader: &mut B,
    writer: &mut W,
) -> Result<BatchEnd, StateServiceFault>
    requires settled { IsJournalSettled D.seen D.may_leave journal.old.device journal.old.gate }
    requires reached { IsReachableFromStart (live_view service.old.core) }
    ensures settled { OnOk result (IsJournalSettled D.seen D.may_leave journal.new.device journal.new.gate) }
    ensures reached { OnOk result (IsReachableFromStart (live_view service.new.core)) }
    ensures count { OnOk result (service.old.count ≤ service.new.count) }
    ensures same_file { service.new.file ≡ service.old.file }
    ensures leads { OnOk result (LeadsHere (journal_content (D.seen journal.old.device)) (live_view service.old.core) service.old.count
        → LeadsHere (journal_content (D.seen journal.new.device)) (live_view service.new.core) service.new.count) }
    ensures on { IfOk result (λ end. (file : List ℕ) (first : CoreView) (count : ℕ) (known written : Option (List ℕ))
        → WhereKnown known (B.remaining reader.old) (λ input rest. IsServing file first count input rest part.old.items
        (live_view service.old.core) service.old.count written (W.contents writer.old))
        → WhereKnown known (B.remaining reader.new) (λ input rest. IsAfterLines end file first count input rest part.new.items
        (live_view service.new.core) service.new.count written (W.contents writer.new))) }
    ensures command { IfOk result HasCommand }
    ensures holds { IfOk result (λ end. (origin : ServiceOrigin)
        → IsJournalOf origin Open (journal_content (D.seen journal.old.device)) (B.remaining reader.old) part.old.items
        → IsJournalOf origin end (journal_content (D.seen journal.new.device)) (B.remaining reader.new) part.new.items) }
    ensures any_moment { (origin : ServiceOrigin)
        → IsJournalOf origin Open (journal_content (D.seen journal.old.device)) (B.remaining reader.old) part.old.items
        → LeavesOnly D.moment D.left_since journal.old.device journal.new.device (λ c. IsLeftFrom origin (journal_content c)) }
    ensures fault { IfErr result (IsServingFault (D.faults journal.old.device) (D.faults journal.new.device)) }
    ensures counted { D.faults journal.old.device ≤ D.faults journal.new.device }
{
    let LineBatch { lines, end } = read_batch(alloc, reader, part)?;
    if lines.is_empty() {
        return Ok(end);
    }
    answer_lines(alloc, journal, service, lines.as_slice(), writer)?;
    Ok(end)
}

/// Returns the state that is to be saved, if the core rests and there is memory for it.
fn state_if_resting(
    alloc: Global,
    service: &DurableState,
) -> Result<Option<KeptState>, StateServiceFault>
    ensures kept { IfOk result (IsKeptOf (live_view service.now.core) service.now.file service.now.count) }
    ensures fault { IfErr result (IsServingFault 0 0) }
{
    match state_to_keep(alloc, service) {
        Ok(kept) => Ok(Some(kept)),
        Err(JournalStateFault::Unfinished { .. } | JournalStateFault::NoMemory) => Ok(None),
        Err(fault) => Err(StateServiceFault::from(fault)),
    }
}

/// Reads a batch of lines, and answers them and the command after them, if there is one. Returns how the period ends, if it does.
fn serve_lines<D: Device, B: BufRead, W: Write, N: RefusalNotes>(
    alloc: Global,
    journal: &mut Journal<D>,
    service: &mut DurableState,
    part: &mut Vec<u8>,
    reader: &mut B,
    writer: &mut W,
    notes: &mut N,
) -> Result<Option<PeriodEnd>, StateServiceFault>
    requires settled { IsJournalSettled D.seen D.may_leave journal.old.device journal.old.gate }
    requires reached { IsReachableFromStart (live_view service.old.core) }
    ensures settled { OnOk result (IsJournalSettled D.seen D.may_leave journal.new.device journal.new.gate) }
    ensures reached { OnOk result (IsReachableFromStart (live_view service.new.core)) }
    ensures count { OnOk result (service.old.count ≤ service.new.count) }
    ensures same_file { service.new.file ≡ service.old.file }
    ensures leads { IfOk result (λ end. LeadsHere (journal_content (D.seen journal.old.device)) (live_view service.old.core) service.old.count
        → LeadsUnlessDue end (journal_content (D.seen journal.new.device)) (live_view service.new.core) service.new.count) }
    ensures on { IfOk result (λ end. (file : List ℕ) (first : CoreView) (count : ℕ) (known written : Option (List ℕ))
        → service.old.file ≡ file → WhereKnown known (B.remaining reader.old) (λ input rest. IsServing file first count input rest part.old.items
        (live_view service.old.core) service.old.count written (W.contents writer.old))
        → WhereKnown known (B.remaining reader.new) (λ input rest. IsInPeriod end file first count input rest part.new.items
        (live_view service.new.core) service.new.count written (W.contents writer.new))) }
    ensures says { IfOk result (SaysAtEndIfAny service.new.count) }
    ensures holds { IfOk result (λ end. (origin : ServiceOrigin)
        → IsJournalOf origin Open (journal_content (D.seen journal.old.device)) (B.remaining reader.old) part.old.items
        → IsJournalInPeriod end origin (journal_content (D.seen journal.new.device)) (B.remaining reader.new) part.new.items) }
    ensures any_moment { (origin : ServiceOrigin)
        → IsJournalOf origin Open (journal_content (D.seen journal.old.device)) (B.remaining reader.old) part.old.items
        → LeavesOnly D.moment D.left_since journal.old.device journal.new.device (λ c. IsLeftFrom origin (journal_content c)) }
    ensures fault { IfErr result (IsServingFault (D.faults journal.old.device) (D.faults journal.new.device)) }
    ensures counted { D.faults journal.old.device ≤ D.faults journal.new.device }
{
    match serve_batch(alloc, journal, service, part, reader, writer)? {
        BatchEnd::Open => Ok(None),
        BatchEnd::Command { line } => serve_command(alloc, journal, service, line, writer, notes),
        BatchEnd::Ended => Ok(Some(PeriodEnd::Ended)),
    }
}

/// Returns the end of a period at which the state is saved for no command, if the core rests and there is memory for it.
fn end_if_resting(
    alloc: Global,
    service: &DurableState,
) -> Result<Option<PeriodEnd>, StateServiceFault>
    ensures leads { IfOk result (λ end. (content : Option JournalContent) → LeadsHere content (live_view service.now.core) service.now.count
        → LeadsUnlessDue end content (live_view service.now.core) service.now.count) }
    ensures on { IfOk result (λ end. (file : List ℕ) (first : CoreView) (count : ℕ) (known rest written now : Option (List ℕ)) (part : List ℕ)
        → service.now.file ≡ file → WhereKnown known rest (λ input left. IsServing file first count input left part
        (live_view service.now.core) service.now.count written now)
        → WhereKnown known rest (λ input left. IsInPeriod end file first count input left part
        (live_view service.now.core) service.now.count written now)) }
    ensures says { IfOk result (SaysAtEndIfAny service.now.count) }
    ensures fault { IfErr result (IsServingFault 0 0) }
{
    let Some(kept) = state_if_resting(alloc, service)? else {
        return Ok(None);
    };
    Ok(Some(PeriodEnd::Due {
        due: DueState {
            kept,
            answer: Vec::new(alloc),
        },
    }))
}

/// Reads lines and answers them, up to the end of the input or until the state is to be saved: for a command, or after so many lines as
/// soon as the core rests.
pub(crate) fn serve_period<D: Device, B: BufRead, W: Write, N: RefusalNotes>(
    alloc: Global,
    journal: &mut Journal<D>,
    service: &mut DurableState,
    part: &mut Vec<u8>,
    period: u64,
    reader: &mut B,
    writer: &mut W,
    notes: &mut N,
) -> Result<PeriodEnd, StateServiceFault>
    requires settled { IsJournalSettled D.seen D.may_leave journal.old.device journal.old.gate }
    requires reached { IsReachableFromStart (live_view service.old.core) }
    ensures settled { OnOk result (IsJournalSettled D.seen D.may_leave journal.new.device journal.new.gate) }
    ensures reached { OnOk result (IsReachableFromStart (live_view service.new.core)) }
    ensures count { OnOk result (service.old.count ≤ service.new.count) }
    ensures same_file { service.new.file ≡ service.old.file }
    ensures leads { IfOk result (λ end. LeadsHere (journal_content (D.seen journal.old.device)) (live_view service.old.core) service.old.count
        → LeadsAtEnd end (journal_content (D.seen journal.new.device)) (live_view service.new.core) service.new.count) }
    ensures on { IfOk result (λ end. (file : List ℕ) (first : CoreView) (count : ℕ) (known written : Option (List ℕ))
        → service.old.file ≡ file → WhereKnown known (B.remaining reader.old) (λ input rest. IsServing file first count input rest part.old.items
        (live_view service.old.core) service.old.count written (W.contents writer.old))
        → WhereKnown known (B.remaining reader.new) (λ input rest. IsAfterPeriod end file first count input rest part.new.items
        (live_view service.new.core) service.new.count written (W.contents writer.new))) }
    ensures says { IfOk result (SaysAtEnd service.new.count) }
    ensures left { OnOk result ((origin : ServiceOrigin)
        → IsJournalOf origin Open (journal_content (D.seen journal.old.device)) (B.remaining reader.old) part.old.items
        → IsLeftFrom origin (journal_content (D.seen journal.new.device))) }
    ensures any_moment { (origin : ServiceOrigin)
        → IsJournalOf origin Open (journal_content (D.seen journal.old.device)) (B.remaining reader.old) part.old.items
        → LeavesOnly D.moment D.left_since journal.old.device journal.new.device (λ c. IsLeftFrom origin (journal_content c)) }
    ensures fault { IfErr result (IsServingFault (D.faults journal.old.device) (D.faults journal.new.device)) }
    ensures counted { D.faults journal.old.device ≤ D.faults journal.new.device }
{
    let saved_at = service.count;
    for _ in 0..u64::MAX {
        if let Some(end) = serve_lines(alloc, journal, service, part, reader, writer, notes)? {
            return Ok(end);
        }
        if service.count.saturating_sub(saved_at) < period {
            continue;
        }
        if let Some(end) = end_if_resting(alloc, service)? {
            return Ok(end);
        }
    }
    Err(StateServiceFault::from(io::Error::from(io::ErrorKind::Other)))
}
