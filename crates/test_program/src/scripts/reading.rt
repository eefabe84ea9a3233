//! The program where a read fails: each read in turn, for each word. And what is read at all.

use crate::scripts::streams::{Dripping, Endless};
use crate::scripts::wanted::{ADDITION, CASES, REPLY, script_input};
use plant_script::run_program;
use std::alloc::Global;
use std::io;
use std::io::BufReader;
use std::process::Abort;
use std::sync::Wait;
use std::test::Fail;
use std::thread::Threads;

/// Asserts what words get where a read fails: the status and the text, and that this read is the
/// last one. The read after the last byte reports the end, and no read comes after it.
fn check_read(
    rt: &(impl Abort + Threads + Wait + Sync),
    alloc: Global,
    input: &str,
    case: (&[&str], u8, &str),
    kind: io::ErrorKind,
    fails_at: usize,
) -> Result<(), Fail> {
    let (words, status, text) = case;
    let dripping = Dripping {
        bytes: input.as_bytes(),
        reads: 0,
        fails_at,
        kind,
    };
    let mut reader = BufReader::new(alloc, dripping)?;
    let mut written = Vec::new(alloc);
    let told = run_program(rt, alloc, words, &mut reader, &mut written);
    let (status, text) = if fails_at <= input.len() {
        (6, "fault: io\n")
    } else {
        (status, text)
    };
    assert_eq!(rt; told, status, "read {fails_at} of {text}");
    assert_eq!(rt; written.as_slice(), text.as_bytes(), "read {fails_at}");
    let reads = fails_at.min(input.len()).saturating_add(1);
    assert_eq!(rt; reader.get_ref().reads, reads, "read {fails_at} of {text}");
    Ok(())
}

#[test]
fn each_read_that_fails_is_an_io_fault(rt: HostRuntime) -> Result<(), Fail> {
    let input = script_input(rt.alloc())?;
    for case in CASES {
        for fails_at in 0..input.len().saturating_add(2) {
            let kind = io::ErrorKind::Other;
            check_read(&rt, rt.alloc(), input.as_str(), case, kind, fails_at)?;
        }
    }
    Ok(())
}

/// An interrupted read is not tried again either.
#[test]
fn a_read_that_fails_is_an_io_fault(rt: HostRuntime) -> Result<(), Fail> {
    // The input has 31 bytes, so its end is told by the 32nd read.
    for fails_at in 0..=32 {
        let kind = io::ErrorKind::Interrupted;
        let case = (["one"].as_slice(), 0, REPLY);
        check_read(&rt, rt.alloc(), ADDITION, case, kind, fails_at)?;
    }
    Ok(())
}

#[test]
fn nothing_is_read_for_words_that_are_no_order(rt: HostRuntime) -> Result<(), Fail> {
    for word in ["two", "--help"] {
        let mut reader = BufReader::new(rt.alloc(), Endless { reads: 0 })?;
        let mut text = Vec::new(rt.alloc());
        let _status = run_program(&rt, rt.alloc(), &[word], &mut reader, &mut text);
        assert_eq!(rt; reader.get_ref().reads, 0, "at {word}");
    }
    Ok(())
}

#[test]
fn an_input_that_is_too_long_is_an_io_fault(rt: HostRuntime) -> Result<(), Fail> {
    let mut reader = BufReader::new(rt.alloc(), Endless { reads: 0 })?;
    let mut text = Vec::new(rt.alloc());
    let status = run_program(&rt, rt.alloc(), &["one"], &mut reader, &mut text);
    assert_eq!(rt; status, 6);
    assert_eq!(rt; text.as_slice(), b"fault: io\n".as_slice());
    assert_eq!(rt; reader.get_ref().reads, 1_048_577);
    Ok(())
}
