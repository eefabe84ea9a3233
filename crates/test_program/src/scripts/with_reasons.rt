//! The program with a writer for its reasons, and with readers and writers that fail.

use plant_script::{Ending, run_program_with_reasons};
use std::alloc::Global;
use std::io;
use std::io::{BufReader, Read, Write};
use std::sync::Wait;
use std::test::Fail;
use std::thread::Threads;
use test_plants::PLANT;

/// A reader that fails at each read.
#[derive(Drop)]
struct Broken;

impl Read for Broken {
    fn read(&mut self, _buf: &mut [u8]) -> io::Result<usize> {
        Err(io::Error::from(io::ErrorKind::Other))
    }
}

/// A writer that takes nothing and fails.
#[derive(Drop)]
struct Closed;

impl Write for Closed {
    fn write(&mut self, _buf: &[u8]) -> io::Result<usize> {
        Err(io::Error::from(io::ErrorKind::Other))
    }

    fn flush(&mut self) -> io::Result<()> {
        Err(io::Error::from(io::ErrorKind::Other))
    }
}

/// Returns the status that an input gets under `run`, with a writer for its reasons, and the
/// answer.
fn run_with_reasons<R: Threads + Wait + Sync, E: Write>(
    rt: &R,
    alloc: Global,
    input: &str,
    reasons: &mut E,
) -> (u8, Vec<u8>) {
    let mut answer = Vec::new(alloc);
    let mut reader = input.as_bytes();
    let status = run_program_with_reasons(
        rt,
        alloc,
        &["run"],
        &mut reader,
        &mut answer,
        reasons,
        Ending::GoesOn,
    );
    (status, answer)
}

#[test]
fn an_answer_and_its_reason(rt: HostRuntime) -> Result<(), Fail> {
    let alloc = rt.alloc();
    let input = format!(in alloc; "{PLANT}---\nM 020000000001 -\nZ 0 8/32/32 40/32/32\n")?;
    let wanted = b"S 020000000001 Empty\nfault: line 2\n".as_slice();
    let mut reasons = Vec::new(alloc);
    let (status, answer) = run_with_reasons(&rt, alloc, input.as_str(), &mut reasons);
    assert_eq!(rt; (status, answer.as_slice()), (4, wanted));
    let reason =
        "line 37 (script line 2), \"Z 0 8/32/32 40/32/32\": operator A is at frame 0: new slices must start at a later frame, not at 0\n";
    assert_eq!(rt; reasons.as_slice(), reason.as_bytes());
    // With reasons that are lost the others stay.
    let (status, answer) = run_with_reasons(&rt, alloc, input.as_str(), &mut Closed);
    assert_eq!(rt; (status, answer.as_slice()), (4, wanted));
    Ok(())
}

#[test]
fn reads_and_writes_that_fail(rt: HostRuntime) -> Result<(), Fail> {
    let alloc = rt.alloc();
    let (mut answer, mut reasons) = (Vec::new(alloc), Vec::new(alloc));
    let mut broken = BufReader::new(alloc, Broken)?;
    let status = run_program_with_reasons(
        &rt,
        alloc,
        &["run"],
        &mut broken,
        &mut answer,
        &mut reasons,
        Ending::GoesOn,
    );
    assert_eq!(rt; status, 6);
    assert_eq!(rt; answer.as_slice(), b"fault: io\n".as_slice());
    assert_eq!(rt;
        reasons.as_slice(),
        b"reading standard input failed\n".as_slice()
    );
    for words in [["one"].as_slice(), ["walk"].as_slice()] {
        let mut reasons = Vec::new(alloc);
        let mut reader = b"-\n".as_slice();
        let status = run_program_with_reasons(
            &rt,
            alloc,
            words,
            &mut reader,
            &mut Closed,
            &mut reasons,
            Ending::GoesOn,
        );
        assert_eq!(rt; status, 6);
        let wanted = b"writing to standard output failed: the output is incomplete\n".as_slice();
        assert_eq!(rt; reasons.as_slice(), wanted);
    }
    Ok(())
}
