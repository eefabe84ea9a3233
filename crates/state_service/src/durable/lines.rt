//! The lines of a state and their text.

ghost use Rattle.std.specs.Prelude.{◌≡◌, ◌∷◌, map, IfOk};
ghost use Rattle.line_journal.specs.Found.{texts};
ghost use Rattle.state_service.specs.durable.Durable.{count_line, joined_text};

use crate::durable::fault::JournalStateFault;
use line_journal::SnapshotLines;
use memchr::memchr;
use std::alloc::{AllocError, Global};

/// Returns the line that says how many lines were done before.
fn count_line(alloc: Global, count: u64) -> Result<Vec<u8>, AllocError>
    ensures { IfOk result (λ line. line.items ≡ count_line count) }
{
    Ok(format!(in alloc; "line {count}")?.into_bytes())
}

/// Returns the number that such a line says.
pub(crate) fn count_of_line(alloc: Global, line: &[u8]) -> Result<u64, JournalStateFault>
    ensures { IfOk result (λ count. line.now ≡ count_line count) }
{
    let Some(digits) = line.strip_prefix(b"line ") else {
        return Err(JournalStateFault::InvalidCount);
    };
    let Ok(text) = str::from_utf8(digits) else {
        return Err(JournalStateFault::InvalidCount);
    };
    let Ok(count) = text.parse::<u64>() else {
        return Err(JournalStateFault::InvalidCount);
    };
    // A number has one spelling.
    if count_line(alloc, count)?.as_slice() != line {
        return Err(JournalStateFault::InvalidCount);
    }
    Ok(count)
}

/// Returns the text of lines, each with its line feed.
pub(crate) fn join_lines(alloc: Global, lines: &[Vec<u8>]) -> Result<Vec<u8>, AllocError>
    ensures { IfOk result (λ text. text.items ≡ joined_text (texts lines.now)) }
{
    let mut text = Vec::new(alloc);
    for line in lines {
        text.extend_from_slice(line)?;
        text.push(b'\n')?;
    }
    Ok(text)
}

/// Splits a text at its line feeds. What is after the last one is a line too, unless it is empty.
pub(crate) fn split_lines(alloc: Global, text: &[u8]) -> Result<Vec<Vec<u8>>, AllocError> {
    let mut lines = Vec::new(alloc);
    let mut rest = text;
    while let Some(place) = memchr(b'\n', rest) {
        let (line, after) = rest.split_at(place);
        lines.push(line.to_vec(alloc)?)?;
        let (_line_feed, after) = after.split_at(1);
        rest = after;
    }
    if !rest.is_empty() {
        lines.push(rest.to_vec(alloc)?)?;
    }
    Ok(lines)
}

/// Returns the lines of a journal's snapshot: the number of lines that were done before, and these.
pub(crate) fn snapshot_lines(
    alloc: Global,
    count: u64,
    lines: &[Vec<u8>],
) -> Result<SnapshotLines, JournalStateFault>
    ensures { IfOk result (λ snapshot. snapshot ≡ count_line count ∷ texts lines.now) }
{
    let mut snapshot = SnapshotLines::new(alloc);
    snapshot.push(alloc, count_line(alloc, count)?.as_slice())?;
    for line in lines {
        snapshot.push(alloc, line)?;
    }
    Ok(snapshot)
}
