//! Snapshots, written and read.

ghost use Rattle.std.specs.Prelude.{◌≡◌, ◌≤◌, [], length, IfOk, OnOk};
ghost use Rattle.std.specs.Io.KnownBytes.{Appends};
ghost use Rattle.std.specs.String.{string_bytes};
ghost use Rattle.snapshot_format.specs.declared.saved.Snapshot.{Snapshot};
ghost use Rattle.lists.specs.Results.{Gives};
ghost use Rattle.snapshot_format.specs.Reading.{read_cause};
ghost use Rattle.snapshot_format.specs.Saved.{IsSnapshot};
ghost use Rattle.snapshot_format.specs.Kept.{IsKeptSnapshot};
ghost use Rattle.snapshot_format.specs.Text.{body_text, closing_line, text_of_snapshot};
ghost use Rattle.snapshot_format.specs.Snapshot.{take_version, plant_lines, take_plant, take_frame, take_body, take_end, checked_end, saved_of, line_number, snapshot_of, snapshot_cause};

use crate::checksum::{adler_32, line_count};
use crate::fault::{ReadFault, SnapshotFault, Wrong};
use crate::fields::{stop_at, take_literal, take_long, take_short};
use crate::operator_records::take_operators;
use crate::operator_text::put_operators;
use crate::saved::Snapshot;
use std::alloc::{AllocError, Global};
use std::io;
use std::io::Write;
use tlv24::Bytes;

/// The first characters of a snapshot: the name of the format, and its version.
const VERSION: &[u8; 20] = b"melfjits-snapshot 1 ";

/// Returns all lines of a snapshot but the last.
#[tactic(auto, unfolding(crate::specs::Text::opening_text, crate::specs::Text::body_text))]
fn body_text(alloc: Global, saved: &Snapshot) -> Result<Vec<u8>, AllocError>
    ensures { IfOk result (λ text. text.items ≡ body_text saved.now) }
{
    let length = saved.plant.len();
    let head = format!(in alloc; "melfjits-snapshot 1 {length}\n")?;
    let frame = saved.frame;
    let count = saved.operators.len();
    let mut records = format!(in alloc; "---\nframe {frame} {count}\n")?;
    put_operators(alloc, &mut records, saved.operators.as_slice())?;
    let mut text = Vec::new(alloc);
    text.extend_from_slice(head.as_bytes())?;
    text.extend_from_slice(saved.plant.as_slice())?;
    text.extend_from_slice(records.as_bytes())?;
    Ok(text)
}

/// Returns the last line of a snapshot, of which these are the other lines.
#[tactic(auto, unfolding(crate::specs::Text::closing_line))]
fn closing_line(alloc: Global, body: &[u8]) -> Result<String, AllocError>
    ensures { IfOk result (λ text. string_bytes text ≡ closing_line body.now) }
{
    let lines = line_count(body);
    let sum = adler_32(body);
    format!(in alloc; "end {lines} {sum}\n")
}

/// Returns the text of a snapshot.
fn text_of_snapshot(alloc: Global, saved: &Snapshot) -> Result<Vec<u8>, AllocError>
    ensures { IfOk result (λ text. text.items ≡ text_of_snapshot saved.now) }
{
    let mut text = body_text(alloc, saved)?;
    let end = closing_line(alloc, &text)?;
    text.extend_from_slice(end.as_bytes())?;
    Ok(text)
}

/// Writes a snapshot as text, in one write after its whole text is in memory.
pub fn write_snapshot<W: Write>(alloc: Global, writer: &mut W, saved: &Snapshot) -> io::Result<()>
    // The text of the snapshot is appended and nothing else, unless the writer fails or memory runs out.
    ensures { OnOk result (Appends (W.contents writer.old) (W.contents writer.new) (text_of_snapshot saved.now)) }
{
    let text = text_of_snapshot(alloc, saved)?;
    writer.write_all(text.as_slice())
}

/// Returns the length of the plant file that a snapshot of this version states, and what is after
/// the first line.
#[tactic(auto, unfolding(crate::specs::Snapshot::take_version))]
fn take_version(text: &[u8]) -> Result<(u32, &[u8]), ReadFault>
    ensures { Gives read_cause (λ x. (x.0, x.1.now)) result (take_version text.now) }
{
    match text.strip_prefix(VERSION) {
        Some(rest) => take_long(rest, b'\n'),
        None => Err(stop_at(Wrong::Version, text)),
    }
}

/// Returns the text of the plant file, and what is after it.
fn plant_lines(count: u32, bytes: &[u8]) -> Result<(&[u8], &[u8]), ReadFault>
    ensures { Gives read_cause (λ x. (x.0.now, x.1.now)) result (plant_lines count bytes.now) }
{
    if bytes.len() < count as usize {
        return Err(stop_at(Wrong::Cut, bytes));
    }
    Ok(bytes.split_at(count as usize))
}

/// Returns the text of the plant file, and what is after the line of dashes.
#[tactic(auto, unfolding(crate::specs::Snapshot::take_plant))]
fn take_plant(text: &[u8]) -> Result<(&[u8], &[u8]), ReadFault>
    ensures { Gives read_cause (λ x. (x.0.now, x.1.now)) result (take_plant text.now) }
{
    let (count, rest) = take_version(text)?;
    let (plant, rest) = plant_lines(count, rest)?;
    let rest = take_literal(rest, b"---\n")?;
    Ok((plant, rest))
}

/// Returns the number of the frame and of the operators, and what is after that line.
#[tactic(auto, unfolding(crate::specs::Snapshot::take_frame))]
fn take_frame(bytes: &[u8]) -> Result<((u32, u16), &[u8]), ReadFault>
    ensures { Gives read_cause (λ x. (x.0, x.1.now)) result (take_frame bytes.now) }
{
    let rest = take_literal(bytes, b"frame ")?;
    let (frame, rest) = take_long(rest, b' ')?;
    let (count, rest) = take_short(rest, b'\n')?;
    Ok(((frame, count), rest))
}

/// Returns what all lines but the last say, and the last line.
#[tactic(auto, unfolding(crate::specs::Snapshot::take_body))]
fn take_body(alloc: Global, text: &[u8]) -> Result<(Snapshot, &[u8]), ReadFault>
    ensures { Gives read_cause (λ x. (x.0, x.1.now)) result (take_body text.now) }
{
    let (plant, rest) = take_plant(text)?;
    let ((frame, count), rest) = take_frame(rest)?;
    let (operators, rest) = take_operators(alloc, count, rest)?;
    let plant = Bytes::from_slice(alloc, plant)?;
    let saved = Snapshot {
        plant,
        frame,
        operators,
    };
    Ok((saved, rest))
}

/// Returns the number of lines and the checksum that the last line states, and what is after it.
#[tactic(auto, unfolding(crate::specs::Snapshot::take_end))]
fn take_end(bytes: &[u8]) -> Result<((u32, u32), &[u8]), ReadFault>
    ensures { Gives read_cause (λ x. (x.0, x.1.now)) result (take_end bytes.now) }
{
    let rest = take_literal(bytes, b"end ")?;
    let (lines, rest) = take_long(rest, b' ')?;
    let (sum, rest) = take_long(rest, b'\n')?;
    Ok(((lines, sum), rest))
}

/// Checks the last line against the others, and that nothing is after it.
#[tactic(auto, unfolding(crate::specs::Snapshot::checked_end))]
fn checked_end(body: &[u8], bytes: &[u8]) -> Result<(), ReadFault>
    ensures { Gives read_cause (λ _. []) result (checked_end body.now bytes.now) }
{
    let ((lines, sum), rest) = take_end(bytes)?;
    if lines as usize != line_count(body) {
        return Err(stop_at(Wrong::LineCount, bytes));
    }
    if sum != adler_32(body) {
        return Err(stop_at(Wrong::Checksum, bytes));
    }
    if !rest.is_empty() {
        return Err(stop_at(Wrong::Surplus, rest));
    }
    Ok(())
}

/// Returns the snapshot that a text says, or where reading stops.
fn saved_of(alloc: Global, text: &[u8]) -> Result<Snapshot, ReadFault>
    ensures { Gives read_cause (λ saved. saved) result (saved_of text.now) }
{
    let (saved, rest) = take_body(alloc, text)?;
    checked_end(&text[..text.len().saturating_sub(rest.len())], rest)?;
    Ok(saved)
}

/// Returns the number of the line in which so many bytes are left.
fn line_number(text: &[u8], left: usize) -> u64
    ensures { result ≡ line_number text.now left }
{
    1 + line_count(&text[..text.len().saturating_sub(left)]) as u64
}

/// Returns the snapshot that a text says, or its first invalid line with the line's number.
fn snapshot_of(alloc: Global, text: &[u8]) -> Result<Snapshot, SnapshotFault>
    ensures { Gives snapshot_cause (λ saved. saved) result (snapshot_of text.now) }
{
    match saved_of(alloc, text) {
        Ok(saved) => Ok(saved),
        Err(ReadFault::NoMemory) => Err(SnapshotFault::NoMemory),
        Err(ReadFault::Stopped(stop)) => Err(SnapshotFault::Line {
            number: line_number(text, stop.left),
            wrong: stop.wrong,
        }),
    }
}

/// Returns the snapshot that a text says, or the first of its lines that is invalid. The text of
/// the plant file is not looked at.
pub fn read_snapshot(alloc: Global, text: &[u8]) -> Result<Snapshot, SnapshotFault>
    // What the text says, or its first invalid line with the reason. Memory is the fault only if an allocation fails.
    ensures exact { Gives snapshot_cause (λ saved. saved) result (snapshot_of text.now) }
    // The text of a snapshot is read as it, if its values fit their types and keep what these keep.
    ensures read_back { (saved : Snapshot) → IsSnapshot saved → text.now ≡ text_of_snapshot saved → Gives snapshot_cause (λ saved. saved) result (Ok saved) }
    // This is of any text. No clause says that the states are sound under the plant file: `restore` checks that.
    ensures kept { IfOk result (λ saved. IsKeptSnapshot saved) }
{
    snapshot_of(alloc, text)
}
