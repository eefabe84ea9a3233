//! The command `serve`: a plant that is kept running, and answers each line of a script as it comes.

ghost use Rattle.std.specs.Prelude.{IfOk};
ghost use Rattle.std.specs.Io.KnownBytes.{Appends};
ghost use Rattle.plant_script.specs.Serving.{IsFrontOf, EndsService};
ghost use Rattle.plant_script.specs.Reaching.{EndsOrder};
ghost use Rattle.command_line.specs.Order as orders;
ghost use Rattle.plant_script.specs.Statuses.{status_code};

use crate::answer::Answer;
use crate::check::answer_to_fault;
use crate::ending::{write_answer, write_fault};
use crate::input::AnswerFault;
use crate::status::Status;
use line_service::{LineBuffer, NoNotes, open_core, read_plant_text, serve};
use plant::Plant;
use slice_table::{PlantFault, read_plant};
use std::alloc::Global;
use std::io;
use std::io::{BufRead, Write};

/// A plant that is to be served.
#[derive(Drop)]
pub struct Service {
    pub plant: Plant,
}

/// What a plant file results in.
#[derive(Drop)]
pub enum Front {
    /// Its plant is to be served.
    Plant(Service),
    /// It is invalid: what is answered.
    Answer(Answer),
}

/// Returns the plant of a plant file; `AnswerFault::Io` where it is not UTF-8, of which it is noted how
/// many bytes are.
fn front_of(alloc: Global, text: &[u8], valid: &mut Option<usize>) -> Result<Front, AnswerFault>
    ensures { IfOk result (λ front. IsFrontOf text.now front) }
{
    let text = match str::from_utf8(text) {
        Ok(text) => text,
        Err(error) => {
            *valid = Some(error.valid_up_to());
            return Err(AnswerFault::Io);
        }
    };
    match read_plant(alloc, text) {
        Ok(plant) => Ok(Front::Plant(Service { plant })),
        Err(PlantFault::NoMemory) => Err(AnswerFault::Memory),
        Err(fault) => {
            let answer = answer_to_fault(alloc, fault)?;
            Ok(Front::Answer(answer))
        }
    }
}

/// Returns whether a read failed: the plant file is not too long, and memory did not run out.
fn is_failed_read(error: &io::Error) -> bool {
    match error.kind() {
        io::ErrorKind::FileTooLarge | io::ErrorKind::OutOfMemory => false,
        _ => true,
    }
}

/// Returns why there is no answer where a plant file could not be read.
fn answer_fault_of(error: &io::Error) -> AnswerFault {
    if error.kind() == io::ErrorKind::OutOfMemory {
        AnswerFault::Memory
    } else {
        AnswerFault::Io
    }
}

/// Serves a plant as it is opened, each operator by the policy of its row, up to the end of the
/// input. Returns the exit status, or that a read or a write failed.
fn serve_plant<R: BufRead, W: Write>(
    alloc: Global,
    service: Service,
    reader: &mut R,
    writer: &mut W,
) -> io::Result<Status>
    ensures { IfOk result (λ status. EndsService service.plant (R.remaining reader.old) (status_code status)
        (λ text. Appends (W.contents writer.old) (W.contents writer.new) text)) }
{
    let Service { plant } = service;
    let Ok(held) = LineBuffer::new(alloc) else {
        return write_fault(writer, AnswerFault::Memory);
    };
    let Ok(mut core) = open_core(alloc, plant) else {
        return write_fault(writer, AnswerFault::Memory);
    };
    serve(alloc, &mut core, held, reader, &NoNotes, writer)?;
    Ok(Status::Success)
}

/// Reads a plant file up to the line of three dashes, and serves its plant. The file is noted, or
/// why it could not be read. Returns the exit status.
pub(crate) fn serve_words<R: BufRead, W: Write>(
    alloc: Global,
    reader: &mut R,
    writer: &mut W,
    file: &mut Option<Vec<u8>>,
    failed: &mut bool,
    valid: &mut Option<usize>,
) -> io::Result<Status>
    ensures { IfOk result (λ status. EndsOrder orders.serve (R.remaining reader.old) failed.new
        (status_code status) (λ text. Appends (W.contents writer.old) (W.contents writer.new) text)) }
{
    let text = match read_plant_text(alloc, reader) {
        Ok(text) => text,
        Err(error) => {
            *failed = is_failed_read(&error);
            return write_fault(writer, answer_fault_of(&error));
        }
    };
    let front = front_of(alloc, text.as_slice(), valid);
    *file = Some(text);
    match front {
        Ok(Front::Plant(service)) => serve_plant(alloc, service, reader, writer),
        Ok(Front::Answer(answer)) => write_answer(writer, answer.status, answer.text.as_slice()),
        Err(fault) => write_fault(writer, fault),
    }
}
