//! A file that a crash may have left is read, and its end is repaired.
ghost use Rattle.std.specs.Prelude.{◌≡◌, ◌≢◌, ◌+◌, ◌<◌, ◌≤◌, List, ℕ, [], ◌∷◌, ◌++◌, length, drop, IfOk, OnOk, IfSome, IfNone, IsErrOf};
ghost use Rattle.line_journal.specs.Device.{Only, LeavesOnly};
ghost use Rattle.line_journal.specs.Lines.{IsLine, marked_lines, records};
ghost use Rattle.line_journal.specs.Journal.{journal_content, snapshot_lines, IsJournalSettled};
ghost use Rattle.line_journal.specs.Found.{texts, found_of};

use crate::marks::{CLOSED, OPEN, SNAPSHOT};
use crate::{Device, DeviceError};
use memchr::memchr;
use std::alloc::{AllocError, Global};

/// Holds the snapshot of a file, the lines since, and where its gate is.
#[derive(Drop)]
pub struct Recovered {
    pub snapshot: Vec<Vec<u8>>,
    pub lines: Vec<Vec<u8>>,
    pub gate: usize,
}

/// Holds lines, and the number of bytes that they take in the file.
#[derive(Drop)]
struct MarkedLines {
    lines: Vec<Vec<u8>>,
    size: usize,
}

/// Splits a text at its first line feed, if it has one.
#[tactic(auto, using(crate::proofs::FirstLine::whole_line, crate::proofs::FirstLine::line_before))]
fn split_line(text: &[u8]) -> Option<(&[u8], &[u8])>
    ensures split { IfSome result (λ found. text.now ≡ found.0.now ++ 10 ∷ found.1.now) }
    ensures line { IfSome result (λ found. IsLine found.0.now) }
    ensures none { IfNone result (IsLine text.now) }
{
    match memchr(b'\n', text) {
        Some(place) => {
            let (line, rest) = text.split_at(place);
            let (_line_feed, rest) = rest.split_at(1);
            Some((line, rest))
        }
        None => None,
    }
}

/// Splits a text after its first line, if that is whole and has the mark.
fn first_line(mark: u8, text: &[u8]) -> Option<(&[u8], &[u8])>
    requires { mark ≢ 10 }
    ensures line { IfSome result (λ found. marked_lines mark text.now ≡ found.0.now ∷ marked_lines mark found.1.now) }
    ensures size { IfSome result (λ found. length text.now ≡ length found.0.now + length found.1.now + 2) }
    ensures none { IfNone result (marked_lines mark text.now ≡ []) }
{
    let [first, after @ ..] = text else {
        return None;
    };
    if *first != mark {
        return None;
    }
    split_line(after)
}

/// Reads the lines at the front that have the mark.
fn read_lines(alloc: Global, mark: u8, text: &[u8]) -> Result<MarkedLines, AllocError>
    requires { mark ≢ 10 }
    ensures lines { IfOk result (λ found. texts found.lines.items ≡ marked_lines mark text.now) }
    ensures size { IfOk result (λ found. found.size ≡ length (records mark (marked_lines mark text.now))) }
    ensures inside { IfOk result (λ found. found.size ≤ length text.now) }
{
    let mut lines = Vec::new(alloc);
    let mut rest = text;
    while let Some((line, after)) = first_line(mark, rest) {
        lines.push(line.to_vec(alloc)?)?;
        rest = after;
    }
    let size = text.len() - rest.len();
    Ok(MarkedLines { lines, size })
}

/// Reads the snapshot of a file and the lines since, if it has a snapshot.
fn read_file(alloc: Global, file: &[u8]) -> Result<Option<Recovered>, AllocError>
    ensures found { IfOk result (λ found. found_of found ≡ journal_content file.now) }
    ensures gate { IfOk result (λ found. IfSome found (λ f. f.gate
        ≡ length (snapshot_lines (texts f.snapshot.items) ++ records 43 (texts f.lines.items)))) }
    ensures inside { IfOk result (λ found. IfSome found (λ f. f.gate ≤ length file.now)) }
{
    let snapshot = read_lines(alloc, SNAPSHOT, file)?;
    let [b'\n', behind @ ..] = &file[snapshot.size..] else {
        return Ok(None);
    };
    let lines = read_lines(alloc, OPEN, behind)?;
    Ok(Some(Recovered {
        snapshot: snapshot.lines,
        lines: lines.lines,
        gate: snapshot.size + 1 + lines.size,
    }))
}

/// Reads a file that a crash may have left, and repairs its end. It may crash too. It returns `None`, and changes nothing,
/// where the file has no snapshot and so is not a journal.
pub fn recover<D: Device>(alloc: Global, device: &mut D) -> Result<Option<Recovered>, DeviceError>
    // After a restart, what is read is what is on the disk.
    requires { Only (D.seen device.old) (D.may_leave device.old) }

    // Exactly the snapshot and the lines that the file has.
    ensures found { IfOk result (λ found. found_of found ≡ journal_content (D.seen device.old)) }
    ensures same { OnOk result (journal_content (D.seen device.new) ≡ journal_content (D.seen device.old)) }
    // The file is at rest again.
    ensures settled { IfOk result (λ found. IfSome found (λ f. IsJournalSettled D.seen D.may_leave device.new f.gate)) }
    // A file without a snapshot is left as it is.
    ensures none { IfOk result (λ found. IfNone found (D.seen device.new ≡ D.seen device.old)) }

    // A crash at any moment leaves the same snapshot and the same lines.
    ensures any_moment { LeavesOnly D.moment D.left_since device.old device.new
        (λ c. journal_content c ≡ journal_content (D.seen device.old)) }

    // `Failed` comes only if the disk has failed.
    ensures failed { IsErrOf result DeviceError.Failed → D.faults device.old < D.faults device.new }
    ensures full { IsErrOf result DeviceError.Full → ⊥ }
    ensures counted { D.faults device.old ≤ D.faults device.new }
{
    let file = device.read(alloc)?;
    let Some(found) = read_file(alloc, &file)? else {
        return Ok(None);
    };
    device.truncate(found.gate)?;
    // The cut has to be on the disk first: behind a gate that is torn open, what was there would count.
    device.sync()?;
    device.write_at(found.gate, &[CLOSED])?;
    device.sync()?;
    Ok(Some(found))
}
