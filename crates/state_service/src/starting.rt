//! A service that starts from a restored core.

ghost use Rattle.std.specs.Prelude.{◌≡◌, ◌≢◌, ◌≤◌, ◌+◌, [], Ok, ℕ, List, Option, length, IfOk, IfErr, OnOk};
ghost use Rattle.toml.specs.Parse.{parse_document};
ghost use Rattle.slice_table.specs.ReadPlant.{text_plant};
ghost use Rattle.plant_core.specs.live.After.{IsReachableFromStart};
ghost use Rattle.plant_core.specs.live.LiveView.{live_view};
ghost use Rattle.line_service.specs.Bytes.{WhereKnown};
ghost use Rattle.line_journal.specs.Device.{LeavesOnly};
ghost use Rattle.line_journal.specs.Found.{texts};
ghost use Rattle.line_journal.specs.Journal.{JournalContent, journal_content, IsJournalSettled};
ghost use Rattle.state_service.specs.Beginning.{IsServiceSoFar, IsRestoredFrom, IsSavedWith, IsLeftUnder};
ghost use Rattle.state_service.specs.Faults.{IsFaultOfChange, IsStartFault};
ghost use Rattle.state_service.specs.Periods.{SaysAtEnd, LeadsAtEnd};
ghost use Rattle.state_service.specs.Serving.{LeadsHere, HasNoFewer};

use crate::durable::{DurableState, redo_lines, state_to_keep};
use crate::fault::StateServiceFault;
use crate::greeting::{resting_frame, write_greeting};
use crate::period_end::{DueState, PeriodEnd};
use crate::periods::serve_period;
use crate::resumed::RefusalNotes;
use line_journal::{Device, Journal};
use plant::Plant;
use plant_restart::{change, refused_states};
use std::alloc::Global;
use std::io::{BufRead, Write};
use tlv24::Bytes;

/// Holds a plant file, and its plant.
#[derive(Drop)]
pub(crate) struct GivenPlant {
    pub(crate) file: Vec<u8>,
    pub(crate) plant: Plant,
}

/// Holds a service that has started, and how its first lines ended.
#[derive(Drop)]
pub(crate) struct StartedService {
    pub(crate) service: DurableState,
    pub(crate) end: PeriodEnd,
}

/// Changes the plant of a service to that of a plant file. Its state is then to be saved, before the first line.
fn change_service<W: Write>(
    alloc: Global,
    service: DurableState,
    given: GivenPlant,
    writer: &mut W,
) -> Result<StartedService, StateServiceFault>
    requires reached { IsReachableFromStart (live_view service.core) }
    requires given { text_plant (parse_document given.file.items) ≡ Ok given.plant }
    requires other { given.file.items ≢ service.file }
    ensures reached { IfOk result (λ started. IsReachableFromStart (live_view started.service.core)) }
    ensures count { IfOk result (λ started. started.service.count ≡ service.count) }
    ensures same_file { IfOk result (λ started. started.service.file ≡ given.file.items) }
    ensures says { IfOk result (λ started. SaysAtEnd started.service.count started.end) }
    ensures leads { IfOk result (λ started. (content : Option JournalContent)
        → LeadsAtEnd started.end content (live_view started.service.core) started.service.count) }
    ensures on { IfOk result (λ started. (found : Option JournalContent) (input : List ℕ) → LeadsHere found (live_view service.core) service.count
        → IsSavedWith found service.file → IsServiceSoFar found given.file.items started.end found input input []
        (live_view started.service.core) started.service.count (W.contents writer.old) (W.contents writer.new)) }
    ensures fault { IfErr result (IsFaultOfChange (live_view service.core) given.plant) }
{
    let refused = refused_states(alloc, &service.core, &given.plant)?;
    let GivenPlant { file, plant } = given;
    let core = match change(alloc, &service.core, plant) {
        Ok(core) => core,
        Err(why) => return Err(StateServiceFault::NotChanged { why, refused }),
    };
    let changed = DurableState {
        core,
        file: Bytes::from_vec(file),
        count: service.count,
    };
    let due = DueState {
        kept: state_to_keep(alloc, &changed)?,
        answer: Vec::new(alloc),
    };
    write_greeting(writer, changed.count, resting_frame(&changed.core))?;
    Ok(StartedService {
        service: changed,
        end: PeriodEnd::Due { due },
    })
}

/// Does the lines of a journal again with a restored core, writes where the service goes on, and serves the first lines of the input. If
/// the plant file is not the one that was saved, the plant is changed to it instead, before any line.
pub(crate) fn start_service<D: Device, B: BufRead, W: Write, N: RefusalNotes>(
    alloc: Global,
    journal: &mut Journal<D>,
    mut service: DurableState,
    lines: &[Vec<u8>],
    given: GivenPlant,
    part: &mut Vec<u8>,
    period: u64,
    reader: &mut B,
    writer: &mut W,
    notes: &mut N,
) -> Result<StartedService, StateServiceFault>
    requires settled { IsJournalSettled D.seen D.may_leave journal.old.device journal.old.gate }
    requires restored { IsRestoredFrom (journal_content (D.seen journal.old.device)) service.file service.count (texts lines.now)
        (live_view service.core) }
    requires given { text_plant (parse_document given.file.items) ≡ Ok given.plant }
    requires part { part.old.items ≡ [] }
    ensures settled { OnOk result (IsJournalSettled D.seen D.may_leave journal.new.device journal.new.gate) }
    ensures reached { IfOk result (λ started. IsReachableFromStart (live_view started.service.core)) }
    ensures count { IfOk result (λ started. service.count + length lines.now ≤ started.service.count) }
    ensures same_file { IfOk result (λ started. started.service.file ≡ given.file.items) }
    ensures says { IfOk result (λ started. SaysAtEnd started.service.count started.end) }
    ensures leads { IfOk result (λ started. LeadsAtEnd started.end (journal_content (D.seen journal.new.device))
        (live_view started.service.core) started.service.count) }
    ensures on { IfOk result (λ started. WhereKnown (B.remaining reader.old) (B.remaining reader.new) (λ input rest. IsServiceSoFar
        (journal_content (D.seen journal.old.device)) given.file.items started.end (journal_content (D.seen journal.new.device)) input rest
        part.new.items (live_view started.service.core) started.service.count (W.contents writer.old) (W.contents writer.new))) }
    ensures no_fewer { OnOk result (HasNoFewer (service.count + length lines.now) (journal_content (D.seen journal.new.device))) }
    ensures any_moment { LeavesOnly D.moment D.left_since journal.old.device journal.new.device
        (λ c. IsLeftUnder (journal_content (D.seen journal.old.device)) given.file.items (B.remaining reader.old) (journal_content c)) }
    ensures fault { IfErr result (IsStartFault (journal_content (D.seen journal.old.device)) given.file.items (D.faults journal.old.device)
        (D.faults journal.new.device)) }
    ensures counted { D.faults journal.old.device ≤ D.faults journal.new.device }
{
    redo_lines(alloc, &mut service, lines)?;
    if service.file.as_slice() != given.file.as_slice() {
        return change_service(alloc, service, given, writer);
    }
    write_greeting(writer, service.count, resting_frame(&service.core))?;
    let end = serve_period(
        alloc,
        journal,
        &mut service,
        part,
        period,
        reader,
        writer,
        notes,
    )?;
    Ok(StartedService { service, end })
}
