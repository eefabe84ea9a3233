//! Each line's answer is flushed before the next line is read.

use line_service::{LineBuffer, NoNotes, serve};
use plant_core::LiveCore;
use slice_table::read_plant;
use std::alloc::Global;
use std::cell::Cell;
use std::io;
use std::io::{BufReader, Read, Write};
use std::test::Fail;
use test_plants::PLANT;

/// Gives a byte at a time, and fails at the first byte of a line where something is held back.
#[derive(Drop)]
struct Waiting<'a> {
    bytes: &'a [u8],
    is_begun: bool,
    held_back: &'a Cell<usize>,
}

impl Read for Waiting<'_> {
    fn read(&mut self, buf: &mut [u8]) -> io::Result<usize> {
        if !self.is_begun && self.held_back.get() > 0 {
            return Err(io::Error::from(io::ErrorKind::Other));
        }
        match (self.bytes, buf) {
            ([first, rest @ ..], [place, ..]) => {
                *place = *first;
                self.is_begun = *first != b'\n';
                self.bytes = rest;
                Ok(1)
            }
            _ => Ok(0),
        }
    }
}

/// Takes all bytes, and counts those that are not flushed.
#[derive(Drop)]
struct Buffered<'a> {
    taken: Vec<u8>,
    held_back: &'a Cell<usize>,
}

impl Write for Buffered<'_> {
    fn write(&mut self, buf: &[u8]) -> io::Result<usize> {
        self.taken.extend_from_slice(buf)?;
        let held = self.held_back.get().saturating_add(buf.len());
        self.held_back.set(held);
        Ok(buf.len())
    }

    fn flush(&mut self) -> io::Result<()> {
        self.held_back.set(0);
        Ok(())
    }
}

/// Returns what a plant in service writes to a script's lines, where it never reads on with something held back.
#[tactic(auto, using(line_service::proofs::StepLemmas::opened_reachable))]
fn serve_script(alloc: Global, script: &[u8]) -> Result<Vec<u8>, Fail> {
    let plant = read_plant(alloc, PLANT).ok().ok_or("no plant")?;
    let mut core = match LiveCore::open(alloc, plant) {
        Ok(core) => core,
        Err(_) => return Err(Fail::new("not opened")),
    };
    let held = LineBuffer::new(alloc)?;
    let held_back = Cell::new(0);
    let waiting = Waiting {
        bytes: script,
        is_begun: false,
        held_back: &held_back,
    };
    let mut reader = BufReader::new(alloc, waiting)?;
    let mut writer = Buffered {
        taken: Vec::new(alloc),
        held_back: &held_back,
    };
    match serve(alloc, &mut core, held, &mut reader, &NoNotes, &mut writer) {
        Ok(()) => Ok(writer.taken),
        Err(_) => Err(Fail::new("read on with something held back")),
    }
}

/// The answers to a tick of A, to a line of no shape, to a tick of B, which makes the MAP, and to another line of no shape, which no line
/// feed ends.
const TICKED: &[u8] = b"F A 0 0/6/8/32
fault: line 2
F B 0 0/6/40/32
MAP 0 01010400000000000000000000000000FFFC400000018008000180280001C048
fault: line 4
";

/// Checks that lines, error lines and the answer to the last line, which no line feed ends, are
/// flushed.
#[test]
fn answers_are_flushed(rt: HostRuntime) -> Result<(), Fail> {
    let alloc = rt.alloc();
    let faults = serve_script(alloc, b"X\n\nT Nobody\n")?;
    assert_eq!(rt;
        faults.as_slice(),
        b"fault: line 1\nfault: line 3\n".as_slice()
    );
    let ticked = serve_script(alloc, b"T A\nX\nT B\nX")?;
    assert_eq!(rt; ticked.as_slice(), TICKED);
    Ok(())
}
