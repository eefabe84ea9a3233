//! Lines of an input, read in batches.

ghost use Rattle.std.specs.Prelude.{◌≡◌, ◌≢◌, ◌≤◌, ◌++◌, ◌∷◌, drop, length, [], List, ℕ, Option, IfOk, OnOk};
ghost use Rattle.line_service.specs.Bytes.{WhereKnown};
ghost use Rattle.line_journal.specs.Found.{texts};
ghost use Rattle.state_service.specs.Commands.{AreNoCommands};
ghost use Rattle.state_service.specs.Taking.{AreTaken, AreTakenSoFar, IsAfterBatch, HasCommand, line_if_any, IsCommandIfAny};

use crate::commands::is_command;
use std::alloc::{AllocError, Global};
use std::io;
use std::io::BufRead;
use std::mem::replace;

/// The most bytes of a line that are kept: one more than a line may have, so that a line that is too long stays too long.
const MOST_KEPT: usize = 4097;

/// What follows a batch of lines.
#[derive(Drop)]
pub(crate) enum BatchEnd {
    /// More bytes may follow.
    Open,
    /// This line is a command. More bytes may follow it.
    Command { line: Vec<u8> },
    /// The input has ended.
    Ended,
}

/// Holds lines that were read, none of which is a command, and what follows them.
#[derive(Drop)]
pub(crate) struct LineBatch {
    pub(crate) lines: Vec<Vec<u8>>,
    pub(crate) end: BatchEnd,
}

/// Holds how many bytes were taken: all, or those up to the end of a command.
#[derive(Drop)]
struct TakenBytes {
    count: usize,
    command: Option<Vec<u8>>,
}

/// Adds a byte to the line that is being read, unless enough of it is kept.
fn add_byte(part: &mut Vec<u8>, byte: u8) -> Result<(), AllocError>
    requires { byte ≢ 10 }
    ensures { OnOk result ((input rest : List ℕ) (taken : List (List ℕ)) → AreTaken input (byte ∷ rest) taken part.old.items
        → AreTaken input rest taken part.new.items) }
{
    if part.len() < MOST_KEPT {
        part.push(byte)?;
    }
    Ok(())
}

/// Takes another byte of an input: it ends the line that is being read, or is added to it. Returns the line that it ends if that is a
/// command.
fn take_byte(
    alloc: Global,
    lines: &mut Vec<Vec<u8>>,
    part: &mut Vec<u8>,
    byte: u8,
) -> Result<Option<Vec<u8>>, AllocError>
    ensures taken { IfOk result (λ command. (input rest : List ℕ) (before : List (List ℕ))
        → AreTaken input (byte ∷ rest) (before ++ texts lines.old.items) part.old.items
        → AreTaken input rest (before ++ (texts lines.new.items ++ line_if_any command)) part.new.items) }
    ensures plain { OnOk result (AreNoCommands (texts lines.old.items) → AreNoCommands (texts lines.new.items)) }
    ensures command { IfOk result IsCommandIfAny }
{
    if byte != b'\n' {
        add_byte(part, byte)?;
        return Ok(None);
    }
    let line = replace(part, Vec::new(alloc));
    if is_command(line.as_slice()) {
        return Ok(Some(line));
    }
    lines.push(line)?;
    Ok(None)
}

/// Takes bytes of an input, up to the end of the first command.
fn take_bytes(
    alloc: Global,
    lines: &mut Vec<Vec<u8>>,
    part: &mut Vec<u8>,
    bytes: &[u8],
) -> Result<TakenBytes, AllocError>
    ensures count { IfOk result (λ taken. taken.count ≤ length bytes.now) }
    ensures taken { IfOk result (λ taken. (input rest : List ℕ) (before : List (List ℕ))
        → AreTaken input (bytes.now ++ rest) (before ++ texts lines.old.items) part.old.items
        → AreTaken input (drop taken.count bytes.now ++ rest) (before ++ (texts lines.new.items ++ line_if_any taken.command)) part.new.items) }
    ensures plain { OnOk result (AreNoCommands (texts lines.old.items) → AreNoCommands (texts lines.new.items)) }
    ensures command { IfOk result (λ taken. IsCommandIfAny taken.command) }
{
    for (place, byte) in bytes.iter().enumerate() {
        match take_byte(alloc, lines, part, *byte)? {
            None => {}
            Some(line) => {
                return Ok(TakenBytes {
                    count: place + 1,
                    command: Some(line),
                });
            }
        }
    }
    Ok(TakenBytes {
        count: bytes.len(),
        command: None,
    })
}

/// Takes the end of an input. What follows its last line feed is a line, unless that is nothing.
fn take_end(alloc: Global, part: &mut Vec<u8>) -> Result<LineBatch, AllocError>
    ensures taken { IfOk result (λ batch. (input : List ℕ) (before : List (List ℕ)) → AreTakenSoFar input [] before part.old.items
        → IsAfterBatch batch.end input [] (before ++ texts batch.lines.items) part.new.items) }
    ensures plain { IfOk result (λ batch. AreNoCommands (texts batch.lines.items)) }
    ensures command { IfOk result (λ batch. HasCommand batch.end) }
{
    let mut lines = Vec::new(alloc);
    if part.is_empty() {
        return Ok(LineBatch {
            lines,
            end: BatchEnd::Ended,
        });
    }
    let line = replace(part, Vec::new(alloc));
    if is_command(line.as_slice()) {
        return Ok(LineBatch {
            lines,
            end: BatchEnd::Command { line },
        });
    }
    lines.push(line)?;
    Ok(LineBatch {
        lines,
        end: BatchEnd::Ended,
    })
}

/// Returns what follows a batch of lines, in the input.
fn end_after(command: Option<Vec<u8>>) -> BatchEnd
    ensures taken { (input rest : List ℕ) (before lines : List (List ℕ)) (part : List ℕ)
        → AreTaken input rest (before ++ (lines ++ line_if_any command)) part → IsAfterBatch result input rest (before ++ lines) part }
    ensures command { IsCommandIfAny command → HasCommand result }
{
    match command {
        Some(line) => BatchEnd::Command { line },
        None => BatchEnd::Open,
    }
}

/// Reads once, and returns the lines that have ended then, up to the first command. What follows the command is left in the reader.
/// `part` is what was read of the line that has not ended. At the end of the input, what is left of it is a line too.
pub(crate) fn read_batch<B: BufRead>(
    alloc: Global,
    reader: &mut B,
    part: &mut Vec<u8>,
) -> io::Result<LineBatch>
    ensures taken { IfOk result (λ batch. (known : Option (List ℕ)) (before : List (List ℕ))
        → WhereKnown known (B.remaining reader.old) (λ input rest. AreTakenSoFar input rest before part.old.items)
        → WhereKnown known (B.remaining reader.new) (λ input rest. IsAfterBatch batch.end input rest (before ++ texts batch.lines.items) part.new.items)) }
    ensures plain { IfOk result (λ batch. AreNoCommands (texts batch.lines.items)) }
    ensures command { IfOk result (λ batch. HasCommand batch.end) }
{
    let bytes = reader.fill_buf()?;
    if bytes.is_empty() {
        return Ok(take_end(alloc, part)?);
    }
    let mut lines = Vec::new(alloc);
    let taken = take_bytes(alloc, &mut lines, part, bytes)?;
    reader.consume(taken.count);
    Ok(LineBatch {
        lines,
        end: end_after(taken.command),
    })
}
