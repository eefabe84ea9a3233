//! Serving a plant as long as there are lines.

ghost use Rattle.std.specs.Prelude.{◌≡◌, Err, OnOk, IfSome};
ghost use Rattle.json_service.specs.declared.serving.ServiceFault.TheVariants as faults;
ghost use Rattle.json_service.specs.Served.{IsServedFromOpening};

use line_service::{LineBuffer, StepNotes, open_core, serve};
use plant::Plant;
use std::alloc::Global;
use std::io::{BufRead, Write};

/// Why a service ended before its input did.
#[derive(Clone, Copy, Debug, PartialEq, Eq)]
pub enum ServiceFault {
    /// Memory ran out before the first line.
    Memory,
    /// A read or a write failed.
    Io,
}

/// Serves a plant as it is opened: reads lines of a script for as long as there are any, and answers each before it reads the next,
/// as `serve` of `line_service` does with such notes.
pub fn serve_opened<R: BufRead, W: Write, N: StepNotes<W>>(
    alloc: Global,
    plant: Plant,
    reader: &mut R,
    notes: &N,
    writer: &mut W,
) -> Result<(), ServiceFault>
    // Each line has the answer that it has under `serve` of `line_service`, whatever the notes are.
    ensures served { OnOk result (IfSome (R.remaining reader.old) (λ input. IsServedFromOpening plant input (W.contents writer.old)
        (W.contents writer.new))) }

    // Memory is reported before the first line alone: nothing is read or written then.
    ensures memory { result ≡ Err faults.Memory → (reader.new ≡ reader.old) × (writer.new ≡ writer.old) }
{
    let Ok(held) = LineBuffer::new(alloc) else {
        return Err(ServiceFault::Memory);
    };
    let Ok(mut core) = open_core(alloc, plant) else {
        return Err(ServiceFault::Memory);
    };
    match serve(alloc, &mut core, held, reader, notes, writer) {
        Ok(()) => Ok(()),
        Err(_error) => Err(ServiceFault::Io),
    }
}
