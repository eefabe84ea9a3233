//! Reading a plant's text, up to the line of three dashes.

ghost use Rattle.std.specs.Prelude.{◌≡◌, ◌↔◌, ◌≤◌, ◌++◌, ◌∷◌, [], List, ℕ, Some, IfOk, OnOk, IsOk, IfSome, length};
ghost use Rattle.line_service.specs.script.Input.{plant_text, script_text};
ghost use Rattle.line_service.specs.Front.{IsReadSoFar, IsFrontText, ReadsOn};

use crate::bytes::next_byte;
use std::alloc::{AllocError, Global};
use std::io;
use std::io::Read;

/// The most bytes of a plant's text.
const MOST_BYTES: usize = 1_048_576;

/// The bytes of the line after it, with its end.
const BAR_BYTES: usize = 4;

/// Appends a line that has ended to the text, and begins the next one.
fn end_line(text: &mut Vec<u8>, line: &mut Vec<u8>) -> Result<(), AllocError>
    ensures text { OnOk result (text.new.items ≡ text.old.items ++ (line.old.items ++ 10 ∷ [])) }
    ensures line { OnOk result (line.new.items ≡ []) }
{
    line.push(b'\n')?;
    text.extend_from_slice(line.as_slice())?;
    line.clear();
    Ok(())
}

/// Takes a byte more of a plant file, and answers whether it ends the line of three dashes.
fn take_byte(text: &mut Vec<u8>, line: &mut Vec<u8>, byte: u8) -> Result<bool, AllocError>
    ensures { IfOk result (λ is_bar. (input rest : List ℕ)
        → IsReadSoFar input (byte ∷ rest) text.old.items line.old.items
        → ReadsOn is_bar input rest text.new.items line.new.items) }
{
    if byte != b'\n' {
        line.push(byte)?;
        return Ok(false);
    }
    if line.as_slice() == b"---".as_slice() {
        return Ok(true);
    }
    end_line(text, line)?;
    Ok(false)
}

/// Returns the whole text where the input has ended after a line.
fn with_last_line(mut text: Vec<u8>, line: &[u8]) -> Result<Vec<u8>, AllocError>
    ensures { IfOk result (λ whole. (input : List ℕ) → IsReadSoFar input [] text.items line.now → IsFrontText whole.items input []) }
{
    if line != b"---".as_slice() {
        text.extend_from_slice(line)?;
    }
    Ok(text)
}

/// Fails where a text has more than so many bytes.
fn judge_length(text: &[u8], most: usize) -> io::Result<()>
    ensures { IsOk result ↔ (length text.now ≤ most) }
{
    if text.len() > most {
        return Err(io::Error::from(io::ErrorKind::FileTooLarge));
    }
    Ok(())
}

/// Reads a text, up to the first line of three dashes and that line too, and returns what is before it. The reader is left after
/// that line. Where there is no such line, the text is all that the reader has. An error is one of the reader's, out of memory, or
/// a text of more than `most` bytes.
pub fn read_to_bar<R: Read>(alloc: Global, reader: &mut R, most: usize) -> io::Result<Vec<u8>>
    ensures text { IfOk result (λ text. IfSome (R.remaining reader.old) (λ input. text.items ≡ plant_text input)) }
    ensures script { OnOk result (IfSome (R.remaining reader.old) (λ input. R.remaining reader.new ≡ Some (script_text input))) }
    // No clause says that a text of at most so many bytes is not refused.
    ensures limit { IfOk result (λ text. length text.items ≤ most) }
{
    let mut text = Vec::new(alloc);
    let mut line = Vec::new(alloc);
    for _ in 0..most.saturating_add(BAR_BYTES) {
        match next_byte(reader)? {
            None => {
                let whole = with_last_line(text, line.as_slice())?;
                judge_length(whole.as_slice(), most)?;
                return Ok(whole);
            }
            Some(byte) => {
                if take_byte(&mut text, &mut line, byte)? {
                    judge_length(text.as_slice(), most)?;
                    return Ok(text);
                }
            }
        }
    }
    Err(io::Error::from(io::ErrorKind::FileTooLarge))
}

/// Reads a plant's text, up to the first line of three dashes and that line too, and returns what
/// is before it. The reader is left where the script begins. Where there is no such line, all is
/// the plant's text. An error is one of the reader's, out of memory, or a text of more than
/// 1,048,576 bytes.
pub fn read_plant_text<R: Read>(alloc: Global, reader: &mut R) -> io::Result<Vec<u8>>
    ensures text { IfOk result (λ text. IfSome (R.remaining reader.old) (λ input. text.items ≡ plant_text input)) }
    ensures script { OnOk result (IfSome (R.remaining reader.old) (λ input. R.remaining reader.new ≡ Some (script_text input))) }
    ensures limit { IfOk result (λ text. length text.items ≤ 1048576) }
{
    read_to_bar(alloc, reader, MOST_BYTES)
}
