//! Reading a plant file among the lines.

ghost use Rattle.std.specs.Prelude.{◌≡◌, ◌∷◌, ◌+◌, [], List, ℕ, IfOk, IfErr};
ghost use Rattle.line_service.specs.Bytes.{WhereKnown};
ghost use Rattle.line_service.specs.Lines.{lines_left};
ghost use Rattle.line_service.specs.SoFar.{IsHeld};
ghost use Rattle.line_service.specs.script.Lines.{lines_of};
ghost use Rattle.state_service.specs.resumed.NewPlants.{IsNewFileFault};
ghost use Rattle.state_service.specs.resumed.PlantFiles.{most_kept, break_after, IsKeptUpTo, IsReadingFile, ReadsFileOn, IsFileRead, IsFileKept, IsFileOf, IsWhole, file_text};

use crate::resumed::holding::is_held;
use crate::resumed::kept_text::{Keeping, KeptText};
use crate::resumed::new_plant_fault::NewPlantFault;
use line_service::{LineBreak, LineBuffer, next_byte, next_number};
use plant::Plant;
use slice_table::{PlantFault, read_plant};
use std::alloc::Global;
use std::io;
use std::io::Read;

/// What a byte of a plant file is.
#[derive(Clone, Copy, Debug, PartialEq, Eq)]
pub(crate) enum FileByte {
    /// Another byte follows.
    Within,
    /// It ends the line of three dashes.
    Last,
}

/// How the reading of a plant file ended.
#[derive(Clone, Copy, Debug, PartialEq, Eq)]
pub(crate) enum PlantFileEnd {
    /// By the line of three dashes.
    Ended { after: LineBreak },
    /// By the end of the input, before such a line.
    NotEnded,
}

/// Returns what is after a plant file.
pub(crate) fn break_after(end: PlantFileEnd) -> LineBreak
    ensures { result ≡ break_after end }
{
    match end {
        PlantFileEnd::Ended { after } => after,
        PlantFileEnd::NotEnded => LineBreak::End,
    }
}

/// Takes another byte of a plant file. Returns whether it ends the file.
fn take_byte(
    held: &mut LineBuffer,
    text: &mut KeptText,
    number: &mut u64,
    byte: u8,
) -> io::Result<FileByte>
    ensures { IfOk result (λ taken. (first : ℕ) (input rest : List ℕ)
        → IsReadingFile input (byte ∷ rest) first number.old held.old.bytes.items held.old.is_long text.old.keeping text.old.bytes.items
        → ReadsFileOn taken input rest first number.new held.new.bytes.items held.new.is_long text.new.keeping text.new.bytes.items) }
{
    if byte != b'\n' {
        held.push(byte)?;
        text.push(byte);
        return Ok(FileByte::Within);
    }
    *number = next_number(*number)?;
    if is_held(held, b"---") {
        text.remove_dashes();
        return Ok(FileByte::Last);
    }
    held.clear();
    text.push(b'\n');
    Ok(FileByte::Within)
}

/// Returns how a plant file ends at the end of the input, after this part of its last line.
fn end_of_input(held: &LineBuffer, text: &mut KeptText) -> PlantFileEnd
    ensures { (first number : ℕ) (input : List ℕ)
        → IsReadingFile input [] first number held.now.bytes.items held.now.is_long text.old.keeping text.old.bytes.items
        → IsFileRead (lines_of input) [] first number text.new.keeping text.new.bytes.items result }
{
    if is_held(held, b"---") {
        text.remove_dashes();
        return PlantFileEnd::Ended {
            after: LineBreak::End,
        };
    }
    PlantFileEnd::NotEnded
}

/// Reads a plant file up to the line of three dashes, and that line too, or up to the end of the input. Counts the lines. A text
/// that is too long is read to its end too, and so is one for which memory runs out.
fn read_lines<R: Read>(
    reader: &mut R,
    held: &mut LineBuffer,
    text: &mut KeptText,
    number: &mut u64,
) -> io::Result<PlantFileEnd>
    requires held { IsHeld held.old.bytes.items held.old.is_long [] }
    requires text { IsKeptUpTo most_kept text.old.keeping text.old.bytes.items [] }
    ensures { IfOk result (λ end. WhereKnown (R.remaining reader.old) (R.remaining reader.new) (λ input rest.
        IsFileRead (lines_of input) rest number.old number.new text.new.keeping text.new.bytes.items end)) }
{
    for _ in 0..u64::MAX {
        match next_byte(reader)? {
            None => return Ok(end_of_input(held, text)),
            Some(byte) => match take_byte(held, text, number, byte)? {
                FileByte::Within => {}
                FileByte::Last => {
                    return Ok(PlantFileEnd::Ended {
                        after: LineBreak::Another,
                    });
                }
            },
        }
    }
    Err(io::Error::from(io::ErrorKind::Other))
}

/// Reads the plant file after the line `P` of this number, if a line follows.
pub(crate) fn read_plant_file<R: Read>(
    after: LineBreak,
    reader: &mut R,
    held: &mut LineBuffer,
    text: &mut KeptText,
    number: &mut u64,
) -> io::Result<PlantFileEnd>
    requires { IsKeptUpTo most_kept text.old.keeping text.old.bytes.items [] }
    ensures { IfOk result (λ end. WhereKnown (R.remaining reader.old) (R.remaining reader.new) (λ input rest.
        IsFileRead (lines_left after input) rest (number.old + 1) number.new text.new.keeping text.new.bytes.items end)) }
{
    match after {
        LineBreak::End => Ok(PlantFileEnd::NotEnded),
        LineBreak::Another => {
            *number = next_number(*number)?;
            held.clear();
            read_lines(reader, held, text, number)
        }
    }
}

/// Parses the text of a plant file that is ended and whole.
#[tactic(auto, using(crate::proofs::ResumedLemmas::BeginLemmas::no_text, crate::proofs::ResumedLemmas::PlantFileLemmas::valid_file, crate::proofs::ResumedLemmas::PlantFileLemmas::invalid_file))]
fn plant_of_text(alloc: Global, text: &[u8]) -> Result<Plant, NewPlantFault>
    ensures ok { IfOk result (λ plant. (lines : List (List ℕ)) → IsWhole lines → text.now ≡ file_text lines → IsFileOf lines plant) }
    ensures fault { IfErr result (λ fault. (lines : List (List ℕ)) → IsWhole lines → text.now ≡ file_text lines → IsNewFileFault lines fault) }
{
    let text = match str::from_utf8(text) {
        Ok(text) => text,
        Err(_error) => return Err(NewPlantFault::NotText),
    };
    match read_plant(alloc, text) {
        Ok(plant) => Ok(plant),
        Err(PlantFault::NoMemory) => Err(NewPlantFault::NoMemory),
        Err(fault) => Err(NewPlantFault::InvalidPlant { fault }),
    }
}

/// Returns the plant of a plant file that was read, or why there is none.
pub(crate) fn plant_of_file(
    alloc: Global,
    text: &KeptText,
    end: PlantFileEnd,
) -> Result<Plant, NewPlantFault>
    ensures ok { IfOk result (λ plant. (lines : List (List ℕ)) → IsFileKept lines text.now.keeping text.now.bytes.items end
        → IsFileOf lines plant × (text.now.bytes.items ≡ file_text lines)) }
    ensures fault { IfErr result (λ fault. (lines : List (List ℕ)) → IsFileKept lines text.now.keeping text.now.bytes.items end
        → IsNewFileFault lines fault) }
{
    match (end, text.keeping) {
        (PlantFileEnd::NotEnded, _) => Err(NewPlantFault::NotEnded),
        (PlantFileEnd::Ended { after: _ }, Keeping::TooLong) => Err(NewPlantFault::TooLong),
        (PlantFileEnd::Ended { after: _ }, Keeping::NoMemory) => Err(NewPlantFault::NoMemory),
        (PlantFileEnd::Ended { after: _ }, Keeping::Whole) => {
            plant_of_text(alloc, text.bytes.as_slice())
        }
    }
}
