//! A journal on a file in memory: what is read after a crash, and what a file has.

use line_journal::{Batch, Journal, LineError, Memory, SnapshotLines, begin, recover};
use std::alloc::Global;
use std::test::Fail;

/// A batch is torn after the closed gate: its first line has no mark yet.
const TORN: &[u8] = b"=frame 7\n\n+line 1\n-line 2\n+li";

/// Recovers a journal whose file has these bytes, and returns how many lines were found, and whether the file has the expected bytes
/// then.
fn recovered(alloc: Global, bytes: &[u8], left: &[u8]) -> Result<(Option<usize>, bool), Fail> {
    let mut file = Memory::new(alloc, bytes.to_vec(alloc)?);
    let found = recover(alloc, &mut file)?;
    let lines = found.map(|found| found.lines.len());
    Ok((lines, file.bytes() == left))
}

#[test]
fn a_torn_batch_is_dropped(rt: HostRuntime) -> Result<(), Fail> {
    let found = recovered(rt.alloc(), TORN, b"=frame 7\n\n+line 1\n-")?;
    assert!(rt; found == (Some(1), true));
    Ok(())
}

#[test]
fn another_file_is_left_alone(rt: HostRuntime) -> Result<(), Fail> {
    let found = recovered(rt.alloc(), b"+line 1\n", b"+line 1\n")?;
    assert!(rt; found == (None, true));
    Ok(())
}

/// Returns a batch of two lines, of which the second one is empty, after a third one was refused.
fn batch_of_two(alloc: Global) -> Result<Batch, Fail> {
    let mut batch = Batch::new(alloc);
    batch.push(alloc, b"line 1")?;
    batch.push(alloc, b"")?;
    match batch.push(alloc, b"a\nb") {
        Err(LineError::LineFeed) => Ok(batch),
        _ => Err(Fail::from("a line with a line feed was taken")),
    }
}

#[test]
fn lines_follow_a_snapshot(rt: HostRuntime) -> Result<(), Fail> {
    let alloc = rt.alloc();
    let mut device = Memory::new(alloc, Vec::new(alloc));
    let mut snapshot = SnapshotLines::new(alloc);
    snapshot.push(alloc, b"frame 7")?;
    let gate = begin(alloc, &mut device, &snapshot)?;
    let mut journal = Journal { device, gate };
    journal.append(alloc, &batch_of_two(alloc)?)?;
    assert!(rt; journal.device.bytes() == b"=frame 7\n\n+line 1\n+\n-".as_slice());
    snapshot.push(alloc, b"again")?;
    journal.replace_snapshot(alloc, &snapshot)?;
    assert!(rt; journal.device.bytes() == b"=frame 7\n=again\n\n-".as_slice());
    Ok(())
}
