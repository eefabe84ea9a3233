//! A script's run on a plant's core, reported in words.

ghost use Rattle.std.specs.Prelude.{◌≡◌, [], map, IfOk};
ghost use Rattle.std.specs.Io.KnownBytes.{Appends};
ghost use Rattle.run_model.specs.IsStateAfter.{IsStateAfter};
ghost use Rattle.plant_core.specs.CoreView.{core_view};
ghost use Rattle.plant_script.specs.Traced.{EndsTraced};
ghost use Rattle.plant_script.specs.Statuses.{status_code};
ghost use Rattle.plant_script.specs.Task.{RunsTo, IsWritten};
ghost use Rattle.command_line.specs.declared.asked.RunReport.TheVariants.{Trace};

use crate::ending::{Ending, put_away, write_end, write_fault};
use crate::input::AnswerFault;
use crate::running::core_of;
use crate::status::Status;
use grant_policy::Ranking;
use line_service::LineStep;
use plant::Plant;
use plant_core::PlantCore;
use std::alloc::Global;
use std::io;
use std::io::Write;
use trace_report::write_trace;

/// Does the steps of lines on a core as it is opened, and writes of each what decided it and what
/// came of it, and the last line. Returns the status.
fn write_traced<W: Write>(
    alloc: Global,
    core: &mut PlantCore,
    script: &[u8],
    lines: Vec<LineStep>,
    writer: &mut W,
) -> io::Result<Status>
    requires opened { IsStateAfter (core_view core.old).plant [] [] (core_view core.old) }
    ensures { IfOk result (λ status. EndsTraced (core_view core.old).plant script.now lines.items (status_code status)
        (λ text. Appends (W.contents writer.old) (W.contents writer.new) text)) }
{
    let end = write_trace(alloc, core, script, lines, writer)?;
    let status = write_end(writer, end)?;
    writer.flush()?;
    Ok(status)
}

/// Runs a script, and writes the lines of the script and what decided its steps as they are done.
/// Every book keeps its history. The rankings are in the plant's order of operators. Returns the
/// exit status.
pub fn write_traced_run<W: Write>(
    alloc: Global,
    plant: Plant,
    lines: Vec<LineStep>,
    script: &[u8],
    rankings: Vec<Ranking>,
    ending: Ending,
    writer: &mut W,
) -> io::Result<Status>
    requires { map (λ ranking. ranking.policy) rankings.items ≡ map (λ row. row.policy) plant.rows }
    ensures { IfOk result (λ status. IsWritten (RunsTo plant Trace script.now lines.items) (status_code status)
        (λ text. Appends (W.contents writer.old) (W.contents writer.new) text)) }
{
    let Ok(mut core) = core_of(alloc, plant, rankings) else {
        return write_fault(writer, AnswerFault::Memory);
    };
    let status = write_traced(alloc, &mut core, script, lines, writer)?;
    put_away(core, ending);
    Ok(status)
}
