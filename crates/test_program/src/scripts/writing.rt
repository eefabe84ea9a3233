//! The program where a write fails: each write in turn, for each word; and a flush.

use crate::scripts::streams::{Narrow, Unflushed};
use crate::scripts::wanted::{ADDITION, CAPTURE, CASES, REPLY, script_input};
use hex::decode;
use plant_script::run_program;
use std::alloc::Global;
use std::process::Abort;
use std::sync::Wait;
use std::test::Fail;
use std::thread::Threads;

/// Returns the status that words get of the script with a writer, and what the writer holds.
fn run_into_writer<R: Threads + Wait + Sync>(
    rt: &R,
    alloc: Global,
    words: &[&str],
    mut writer: Narrow,
) -> Result<(u8, Vec<u8>), Fail> {
    let input = script_input(alloc)?;
    let mut reader = input.as_bytes();
    let status = run_program(rt, alloc, words, &mut reader, &mut writer);
    Ok((status, writer.held))
}

/// Asserts what words get where a write of a byte fails: what was written before exists, and the
/// line of a failed write after it.
fn check_write(
    rt: &(impl Abort + Threads + Wait + Sync),
    alloc: Global,
    case: (&[&str], u8, &str),
    fails_at: usize,
) -> Result<(), Fail> {
    let (words, status, text) = case;
    let writer = Narrow::failing_once(alloc, 1, fails_at);
    let (told, held) = run_into_writer(rt, alloc, words, writer)?;
    if fails_at >= text.len() {
        assert_eq!(rt;
            (told, held.as_slice()),
            (status, text.as_bytes()),
            "write {fails_at}"
        );
        return Ok(());
    }
    let start = text.get(..fails_at).ok_or("no text")?;
    let wanted = format!(in alloc; "{start}fault: io\n")?;
    assert_eq!(rt;
        (told, held.as_slice()),
        (6, wanted.as_bytes()),
        "write {fails_at}"
    );
    Ok(())
}

#[test]
fn each_write_that_fails_is_an_io_fault(rt: HostRuntime) -> Result<(), Fail> {
    for case in CASES {
        for fails_at in 0..case.2.len().saturating_add(2) {
            check_write(&rt, rt.alloc(), case, fails_at)?;
        }
    }
    Ok(())
}

/// A capture whose writer fails is not whole, and the line of a failed write is after what was
/// written.
#[test]
fn each_write_of_a_capture_that_fails_is_an_io_fault(rt: HostRuntime) -> Result<(), Fail> {
    let alloc = rt.alloc();
    let file = decode(alloc, CAPTURE).ok().ok_or("no digits")?;
    for fails_at in 0..file.len() / 3 + 2 {
        let writer = Narrow::failing_once(alloc, 3, fails_at);
        let (told, held) = run_into_writer(&rt, alloc, &["capture"], writer)?;
        let before = fails_at.saturating_mul(3);
        let mut wanted = Vec::from_slice(alloc, &file.as_slice()[..before.min(file.len())])?;
        let status = if before < file.len() { 6 } else { 0 };
        if status == 6 {
            wanted.extend_from_slice(b"fault: io\n")?;
        }
        assert_eq!(rt;
            (told, held.as_slice()),
            (status, wanted.as_slice()),
            "write {fails_at}"
        );
    }
    Ok(())
}

/// A writer that takes no byte fails, and nothing can be reported.
#[test]
fn a_writer_that_takes_nothing_is_an_io_fault(rt: HostRuntime) -> Result<(), Fail> {
    for (words, _status, _text) in CASES {
        let writer = Narrow::failing_once(rt.alloc(), 0, usize::MAX);
        let (told, held) = run_into_writer(&rt, rt.alloc(), words, writer)?;
        assert_eq!(&rt; told, 6);
        assert!(&rt; held.is_empty());
    }
    Ok(())
}

/// A writer that fails from one write on: nothing more is reported.
#[test]
fn a_write_that_fails_is_an_io_fault(rt: HostRuntime) -> Result<(), Fail> {
    for fails_at in 0..=41 {
        let mut reader = ADDITION.as_bytes();
        let mut writer = Narrow::failing_from(rt.alloc(), 1, fails_at);
        let status = run_program(&rt, rt.alloc(), &["one"], &mut reader, &mut writer);
        let wanted = if fails_at < 41 { 6 } else { 0 };
        assert_eq!(rt; status, wanted, "at {fails_at}");
        assert_eq!(rt; writer.held.len(), fails_at, "at {fails_at}");
    }
    Ok(())
}

#[test]
fn a_flush_that_fails_is_an_io_fault_that_is_told_if_it_can_be(
    rt: HostRuntime,
) -> Result<(), Fail> {
    let mut reader = ADDITION.as_bytes();
    let held = Vec::new(rt.alloc());
    let mut writer = Unflushed { held };
    let status = run_program(&rt, rt.alloc(), &["one"], &mut reader, &mut writer);
    assert_eq!(rt; status, 6);
    let wanted = format!(in rt.alloc(); "{REPLY}fault: io\n")?;
    assert_eq!(rt; writer.held.as_slice(), wanted.as_bytes());
    Ok(())
}
