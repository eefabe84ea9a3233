//! Changing the plant in service to that of a plant file.

ghost use Rattle.std.specs.Prelude.{◌≡◌, ℕ, List, Option, IfOk, IfErr, OnOk};
ghost use Rattle.std.specs.Io.KnownBytes.{Appends};
ghost use Rattle.plant_core.specs.live.After.{IsReachableFromStart};
ghost use Rattle.plant_core.specs.live.LiveView.{live_view};
ghost use Rattle.line_service.specs.Bytes.{WhereKnown};
ghost use Rattle.line_service.specs.Lines.{lines_left};
ghost use Rattle.plant.specs.declared.plant.PlantFields.{PlantFields};
ghost use Rattle.run_model.specs.IsStateAfter.{CoreView};
ghost use Rattle.plant_restart.specs.Changing.{IsChangeOf, IsChangeFault};
ghost use Rattle.state_service.specs.resumed.Items.{InService, change_text};
ghost use Rattle.state_service.specs.resumed.NewPlants.{IsChangeRefusal, refusal_outcome, refusal_text};
ghost use Rattle.state_service.specs.resumed.Served.{AreServedSoFar, AwaitsPlant};

use crate::resumed::new_plant::WaitingLine;
use crate::resumed::new_plant_fault::NewPlantFault;
use crate::resumed::notes::RefusalNotes;
use crate::resumed::service::ServiceState;
use line_service::{LineOutcome, write_end};
use plant_core::{LiveCore, RestFault};
use plant_restart::{ChangeFault, RestartFault};
use std::alloc::Global;
use std::io;
use std::io::Write;
use tlv24::Bytes;

/// Returns how the line `P` ends if the plant is not changed.
fn refusal_outcome(fault: &NewPlantFault) -> LineOutcome
    ensures { result ≡ refusal_outcome fault.now }
{
    match fault {
        NewPlantFault::NoMemory => LineOutcome::NoMemory,
        _ => LineOutcome::AtFault,
    }
}

/// Notes why the plant is not changed, and writes `fault: line n` or `fault: memory`.
pub(crate) fn answer_refusal<W: Write, N: RefusalNotes>(
    alloc: Global,
    core: &LiveCore,
    number: u64,
    file: &[u8],
    fault: &NewPlantFault,
    writer: &mut W,
    notes: &mut N,
) -> io::Result<()>
    ensures { OnOk result (Appends (W.contents writer.old) (W.contents writer.new) (refusal_text number fault.now)) }
{
    notes.note_refused(alloc, core, number, file, fault);
    write_end(writer, number, refusal_outcome(fault))?;
    writer.flush()
}

/// Returns the reason for which the plant is not changed.
#[tactic(auto, using(crate::proofs::ResumedLemmas::RefusalLemmas::not_changed, crate::proofs::ResumedLemmas::RefusalLemmas::out_of_memory))]
fn refusal_of(why: ChangeFault) -> NewPlantFault
    // `change` runs out of memory only if the core rests and the constants are kept.
    ensures { (live : CoreView) (plant : PlantFields) → IsChangeFault live plant why → IsChangeRefusal live plant result }
{
    match why {
        ChangeFault::Restart {
            why: RestartFault::NoMemory,
        } => NewPlantFault::NoMemory,
        _ => NewPlantFault::NotChanged { why },
    }
}

/// Writes `P frame N`, N being the frame before which a core rests.
fn write_change<W: Write>(frame: Result<u32, RestFault>, writer: &mut W) -> io::Result<()>
    ensures { OnOk result (IfOk frame (λ number. Appends (W.contents writer.old) (W.contents writer.new) (change_text number))) }
{
    if let Ok(number) = frame {
        write!(writer, "P frame {number}\n")?;
    }
    writer.flush()
}

/// Answers the line `P` of this number, whose plant file has this text. If the plant was changed, the new core takes the place of
/// the old one, the text is that of the plant file in force, and `P frame N` is written. Otherwise all stays as it is, and the
/// fault is written.
pub(crate) fn answer_change<W: Write, N: RefusalNotes>(
    alloc: Global,
    service: &mut ServiceState,
    waiting: WaitingLine,
    changed: Result<LiveCore, ChangeFault>,
    writer: &mut W,
    notes: &mut N,
) -> io::Result<()>
    requires reached { IsReachableFromStart (live_view service.old.core) }
    requires core { IfOk changed (λ core. IsReachableFromStart (live_view core)) }
    ensures reached { OnOk result (IsReachableFromStart (live_view service.new.core)) }
    ensures on { OnOk result ((first : InService) (known read written : Option (List ℕ)) (plant : PlantFields)
        → IfOk changed (λ core. IsChangeOf (live_view service.old.core) plant (live_view core))
        → IfErr changed (IsChangeFault (live_view service.old.core) plant)
        → WhereKnown known read (λ input rest. AwaitsPlant first input rest service.old.after waiting.number service.old.number
        (live_view service.old.core) service.old.file waiting.text.items plant written (W.contents writer.old))
        → WhereKnown known read (λ input rest. AreServedSoFar first input (lines_left service.new.after rest) service.new.number
        (live_view service.new.core) service.new.file written (W.contents writer.new))) }
{
    match changed {
        Ok(core) => {
            // The plant is changed, so the old core rests.
            write_change(service.core.resting_frame(), writer)?;
            service.core = core;
            service.file = Bytes::from_vec(waiting.text);
            Ok(())
        }
        Err(why) => answer_refusal(
            alloc,
            &service.core,
            waiting.number,
            waiting.text.as_slice(),
            &refusal_of(why),
            writer,
            notes,
        ),
    }
}
