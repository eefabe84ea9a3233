//! A service that begins anew from its saved state now and then.

ghost use Rattle.std.specs.Prelude.{◌≡◌, ◌≤◌, [], Ok, ℕ, List, Option, IfOk, IfErr, OnOk, IfSome};
ghost use Rattle.toml.specs.Parse.{parse_document};
ghost use Rattle.slice_table.specs.ReadPlant.{text_plant};
ghost use Rattle.line_journal.specs.Device.{LeavesOnly};
ghost use Rattle.line_journal.specs.Found.{texts};
ghost use Rattle.line_journal.specs.Journal.{JournalContent, journal_content, IsJournalSettled};
ghost use Rattle.state_service.specs.durable.Durable.{StandsForState};
ghost use Rattle.state_service.specs.declared.period_end.PeriodEnd.TheVariants.{Due};
ghost use Rattle.state_service.specs.Beginning.{IsServedUpTo, IsServiceOn, IsLeftUnder};
ghost use Rattle.state_service.specs.Faults.{IsServingFault, IsStartFault};
ghost use Rattle.state_service.specs.Periods.{SaysDue};

use crate::durable::{DurableState, KeptState, SavedState, StartState, put_snapshot};
use crate::fault::StateServiceFault;
use crate::period_end::{DueState, PeriodEnd};
use crate::periods::serve_period;
use crate::resumed::RefusalNotes;
use crate::starting::{GivenPlant, StartedService, start_service};
use line_journal::{Device, Journal};
use plant_restart::restore;
use std::alloc::Global;
use std::io;
use std::io::{BufRead, Write};
use tlv24::Bytes;

/// Holds how a period ended, with the plant file and the number of lines that are done then.
#[derive(Drop)]
struct ServedPeriod {
    file: Bytes,
    count: u64,
    end: PeriodEnd,
}

/// Puts a state that is due in the place of the lines since the last one, writes the answer that waits for it, and serves lines with a
/// core in that state until another one is due.
fn serve_kept<D: Device, B: BufRead, W: Write, N: RefusalNotes>(
    alloc: Global,
    journal: &mut Journal<D>,
    due: DueState,
    file: Bytes,
    count: u64,
    part: &mut Vec<u8>,
    period: u64,
    reader: &mut B,
    writer: &mut W,
    notes: &mut N,
) -> Result<ServedPeriod, StateServiceFault>
    requires settled { IsJournalSettled D.seen D.may_leave journal.old.device journal.old.gate }
    requires says { SaysDue count due }
    ensures settled { OnOk result (IsJournalSettled D.seen D.may_leave journal.new.device journal.new.gate) }
    ensures on { IfOk result (λ served. (found : Option JournalContent) (given : List ℕ) (known written : Option (List ℕ))
        → IsServedUpTo found (journal_content (D.seen journal.old.device)) given file count (Due due) part.old.items
        known (B.remaining reader.old) written (W.contents writer.old)
        → IsServedUpTo found (journal_content (D.seen journal.new.device)) given served.file served.count served.end part.new.items
        known (B.remaining reader.new) written (W.contents writer.new)) }
    ensures any_moment { (found : Option JournalContent) (given : List ℕ) (known written : Option (List ℕ))
        → IsServedUpTo found (journal_content (D.seen journal.old.device)) given file count (Due due) part.old.items
        known (B.remaining reader.old) written (W.contents writer.old)
        → LeavesOnly D.moment D.left_since journal.old.device journal.new.device (λ c. IsLeftUnder found given known (journal_content c)) }
    ensures fault { IfErr result (IsServingFault (D.faults journal.old.device) (D.faults journal.new.device)) }
    ensures counted { D.faults journal.old.device ≤ D.faults journal.new.device }
{
    let DueState { kept, answer } = due;
    let KeptState { start, snapshot } = kept;
    let StartState {
        count: _,
        plant,
        saved,
    } = start;
    let core = match restore(alloc, plant, &saved) {
        Ok(core) => core,
        Err(why) => return Err(StateServiceFault::NotRestored { why }),
    };
    let mut service = DurableState { core, file, count };
    put_snapshot(alloc, journal, &service, &snapshot)?;
    writer.write_all(answer.as_slice())?;
    writer.flush()?;
    let end = serve_period(
        alloc,
        journal,
        &mut service,
        part,
        period,
        reader,
        writer,
        notes,
    )?;
    Ok(ServedPeriod {
        file: service.file,
        count: service.count,
        end,
    })
}

/// Restores the state of a journal, does its lines again, and serves the first lines of the input under the plant file, until a state is
/// due.
fn serve_first<D: Device, B: BufRead, W: Write, N: RefusalNotes>(
    alloc: Global,
    journal: &mut Journal<D>,
    state: SavedState,
    given: GivenPlant,
    part: &mut Vec<u8>,
    period: u64,
    reader: &mut B,
    writer: &mut W,
    notes: &mut N,
) -> Result<ServedPeriod, StateServiceFault>
    requires found { StandsForState (journal_content (D.seen journal.old.device)) state.start.count state.start.plant state.start.saved
        (texts state.lines.items) }
    requires settled { IsJournalSettled D.seen D.may_leave journal.old.device state.gate }
    requires given { text_plant (parse_document given.file.items) ≡ Ok given.plant }
    requires part { part.old.items ≡ [] }
    ensures settled { OnOk result (IsJournalSettled D.seen D.may_leave journal.new.device journal.new.gate) }
    ensures on { IfOk result (λ served. IsServedUpTo (journal_content (D.seen journal.old.device)) (journal_content (D.seen journal.new.device))
        given.file.items served.file served.count served.end part.new.items
        (B.remaining reader.old) (B.remaining reader.new) (W.contents writer.old) (W.contents writer.new)) }
    ensures any_moment { LeavesOnly D.moment D.left_since journal.old.device journal.new.device
        (λ c. IsLeftUnder (journal_content (D.seen journal.old.device)) given.file.items (B.remaining reader.old) (journal_content c)) }
    ensures fault { IfErr result (IsStartFault (journal_content (D.seen journal.old.device)) given.file.items (D.faults journal.old.device)
        (D.faults journal.new.device)) }
    ensures counted { D.faults journal.old.device ≤ D.faults journal.new.device }
{
    let SavedState { start, lines, gate } = state;
    journal.gate = gate;
    let StartState {
        count,
        plant,
        saved,
    } = start;
    let core = match restore(alloc, plant, &saved) {
        Ok(core) => core,
        Err(why) => return Err(StateServiceFault::NotRestored { why }),
    };
    let restored = DurableState {
        core,
        file: saved.plant,
        count,
    };
    let StartedService { service, end } = start_service(
        alloc,
        journal,
        restored,
        lines.as_slice(),
        given,
        part,
        period,
        reader,
        writer,
        notes,
    )?;
    Ok(ServedPeriod {
        file: service.file,
        count: service.count,
        end,
    })
}

/// Serves the lines of an input from the state of a journal, under a plant file. A state that is due takes the place of the lines since the
/// last one.
pub(crate) fn serve_restored<D: Device, B: BufRead, W: Write, N: RefusalNotes>(
    alloc: Global,
    journal: &mut Journal<D>,
    state: SavedState,
    given: GivenPlant,
    period: u64,
    reader: &mut B,
    writer: &mut W,
    notes: &mut N,
) -> Result<(), StateServiceFault>
    requires found { StandsForState (journal_content (D.seen journal.old.device)) state.start.count state.start.plant state.start.saved
        (texts state.lines.items) }
    requires settled { IsJournalSettled D.seen D.may_leave journal.old.device state.gate }
    requires given { text_plant (parse_document given.file.items) ≡ Ok given.plant }
    ensures served { OnOk result (IfSome (B.remaining reader.old) (λ input. IsServiceOn (journal_content (D.seen journal.old.device))
        given.file.items input (journal_content (D.seen journal.new.device)) (W.contents writer.old) (W.contents writer.new))) }
    ensures settled { OnOk result (IsJournalSettled D.seen D.may_leave journal.new.device journal.new.gate) }
    ensures any_moment { LeavesOnly D.moment D.left_since journal.old.device journal.new.device
        (λ c. IsLeftUnder (journal_content (D.seen journal.old.device)) given.file.items (B.remaining reader.old) (journal_content c)) }
    ensures fault { IfErr result (IsStartFault (journal_content (D.seen journal.old.device)) given.file.items (D.faults journal.old.device)
        (D.faults journal.new.device)) }
    ensures counted { D.faults journal.old.device ≤ D.faults journal.new.device }
{
    let mut part = Vec::new(alloc);
    let mut served = serve_first(
        alloc, journal, state, given, &mut part, period, reader, writer, notes,
    )?;
    for _ in 0..u64::MAX {
        let ServedPeriod { file, count, end } = served;
        let due = match end {
            PeriodEnd::Ended => return Ok(()),
            PeriodEnd::Due { due } => due,
        };
        served = serve_kept(
            alloc, journal, due, file, count, &mut part, period, reader, writer, notes,
        )?;
    }
    Err(StateServiceFault::from(io::Error::from(io::ErrorKind::Other)))
}
