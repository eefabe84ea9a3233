//! A service that goes on from item to item.

ghost use Rattle.std.specs.Prelude.{◌≡◌, ◌+◌, IfOk};
ghost use Rattle.line_service.specs.declared.line_break.LineBreak.TheVariants.{Another};
ghost use Rattle.state_service.specs.resumed.PlantFiles.{IsNumberAfter};

use line_service::{LineBreak, LineBuffer, next_number};
use plant_core::LiveCore;
use std::io;
use tlv24::Bytes;

/// A service that goes on from item to item.
#[derive(Drop)]
pub(crate) struct ServiceState {
    pub(crate) core: LiveCore,
    /// The text of the plant file in force.
    pub(crate) file: Bytes,
    /// The line that is being read.
    pub(crate) held: LineBuffer,
    /// The number of the next line, if there is one.
    pub(crate) number: u64,
    /// What is after the lines that are read.
    pub(crate) after: LineBreak,
}

impl ServiceState {
    /// Returns a service before its first line.
    pub(crate) fn new(core: LiveCore, file: Bytes, held: LineBuffer) -> ServiceState
        ensures core { result.core ≡ core }
        ensures file { result.file ≡ file }
        ensures number { result.number ≡ 1 }
        ensures after { result.after ≡ Another }
    {
        ServiceState {
            core,
            file,
            held,
            number: 1,
            after: LineBreak::Another,
        }
    }
}

/// Returns the number of the line after the one of this number, if there is one.
pub(crate) fn number_after(after: LineBreak, number: u64) -> io::Result<u64>
    ensures { IfOk result (IsNumberAfter after (number + 1)) }
{
    match after {
        LineBreak::Another => next_number(number),
        LineBreak::End => Ok(number),
    }
}
