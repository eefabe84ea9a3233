//! The file of a journal in a folder of the system.

use journal_file::{JournalFile, JournalOpenFault};
use line_journal::{Batch, Device, Journal, SnapshotLines, begin, recover};
use std::fs;
use std::test::Fail;

/// Returns an empty folder of this name.
fn make_folder(rt: &HostRuntime, name: &str) -> Result<(), Fail> {
    let _ = fs::remove_dir_all(rt, name);
    fs::create_dir(rt, name)?;
    Ok(())
}

/// Begins a journal, and adds a batch of two lines.
fn write_lines(rt: &HostRuntime, name: &str) -> Result<(), Fail> {
    let alloc = rt.alloc();
    let mut device = JournalFile::open(rt, name)?;
    let mut snapshot = SnapshotLines::new(alloc);
    snapshot.push(alloc, b"frame 7")?;
    let gate = begin(alloc, &mut device, &snapshot)?;
    let mut journal = Journal { device, gate };
    let mut batch = Batch::new(alloc);
    batch.push(alloc, b"line 1")?;
    batch.push(alloc, b"line 2")?;
    journal.append(alloc, &batch)?;
    Ok(())
}

#[test]
fn lines_are_there_after_a_restart(rt: HostRuntime) -> Result<(), Fail> {
    let alloc = rt.alloc();
    make_folder(&rt, "journal_file_restart")?;
    write_lines(&rt, "journal_file_restart")?;
    let mut device = JournalFile::open(&rt, "journal_file_restart")?;
    let found = recover(alloc, &mut device)?;
    assert_eq!(rt;
        found.map(|found| (found.snapshot.len(), found.lines.len())),
        Some((1, 2))
    );
    fs::remove_dir_all(&rt, "journal_file_restart")?;
    Ok(())
}

#[test]
fn one_process_has_the_file(rt: HostRuntime) -> Result<(), Fail> {
    make_folder(&rt, "journal_file_lock")?;
    let first = JournalFile::open(&rt, "journal_file_lock")?;
    assert!(rt;
        matches!(
            JournalFile::open(&rt, "journal_file_lock"),
            Err(JournalOpenFault::InUse)
        )
    );
    drop(first);
    assert!(rt; JournalFile::open(&rt, "journal_file_lock").is_ok());
    assert!(rt;
        matches!(
            JournalFile::open(&rt, "journal_file_lock/none"),
            Err(JournalOpenFault::NotAFolder)
        )
    );
    fs::remove_dir_all(&rt, "journal_file_lock")?;
    Ok(())
}

#[test]
fn a_torn_end_is_repaired(rt: HostRuntime) -> Result<(), Fail> {
    let alloc = rt.alloc();
    make_folder(&rt, "journal_file_torn")?;
    fs::write(
        &rt,
        "journal_file_torn/journal",
        b"=frame 7\n\n+line 1\n-line 2\n+li".as_slice(),
    )?;
    let mut device = JournalFile::open(&rt, "journal_file_torn")?;
    assert_eq!(rt;
        recover(alloc, &mut device)?.map(|found| found.lines.len()),
        Some(1)
    );
    assert_eq!(rt;
        device.read(alloc)?.as_slice(),
        b"=frame 7\n\n+line 1\n-".as_slice()
    );
    assert_eq!(rt;
        fs::read(&rt, "journal_file_torn/journal")?.as_slice(),
        b"=frame 7\n\n+line 1\n-".as_slice()
    );
    fs::remove_dir_all(&rt, "journal_file_torn")?;
    Ok(())
}

#[test]
fn a_replacement_keeps_the_name(rt: HostRuntime) -> Result<(), Fail> {
    make_folder(&rt, "journal_file_replace")?;
    let mut device = JournalFile::open(&rt, "journal_file_replace")?;
    device.replace(b"old text")?;
    device.replace(b"new")?;
    device.write_at(1, b"o")?;
    device.write_at(3, b"!")?;
    device.sync()?;
    assert_eq!(rt;
        fs::read(&rt, "journal_file_replace/journal")?.as_slice(),
        b"now!".as_slice()
    );
    assert!(rt; !fs::exists(&rt, "journal_file_replace/journal.new")?);
    fs::remove_dir_all(&rt, "journal_file_replace")?;
    Ok(())
}
