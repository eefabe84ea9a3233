//! Services that go on from a journal.

use line_journal::{Journal, Memory};
use plant::Plant;
use plant_core::LiveCore;
use plant_restart::{ChangeFault, RestartFault};
use state_service::{
    DurableFault, NewFrameFault, NewPlantFault, RefusalNotes, StateServiceFault, serve_state,
};
use std::alloc::{AllocError, Global};
use std::test::Fail;
use test_plants::{PLANT, replace_first};

/// A request for a flow.
const REQUEST: &str = "M 020000000001 0F0001180A010200010601060F0102\n";

/// The response to it, also where a modem repeats it.
const RESPONSE: &str = "R 020000000001 10000100180E0102000102040000010103020101\n";

/// A service of the request.
#[derive(Clone, Copy)]
struct ServiceCase<'a> {
    plant: &'a str,
    /// After how many lines the state is saved.
    period: u64,
    /// The first line of the output.
    greeting: &'a str,
}

/// Holds the number of the last line `N` that was refused.
#[derive(Drop)]
struct NotedNumber {
    line: u64,
}

impl RefusalNotes for NotedNumber {
    fn note_refused(
        &mut self,
        _alloc: Global,
        _core: &LiveCore,
        _number: u64,
        _file: &[u8],
        _why: &NewPlantFault,
    ) {}

    fn note_frame_refused(
        &mut self,
        _alloc: Global,
        number: u64,
        _plant: &Plant,
        _why: &NewFrameFault,
    ) {
        self.line = number;
    }
}

/// Returns the text of an input.
fn input_of(alloc: Global, plant: &str, lines: &str) -> Result<String, AllocError> {
    format!(in alloc; "{plant}---\n{lines}")
}

/// Serves an input from a file with these bytes. Returns the bytes of the file after it, and what is written.
fn serve_bytes(
    alloc: Global,
    bytes: &[u8],
    period: u64,
    input: &str,
) -> Result<(Vec<u8>, Vec<u8>), StateServiceFault> {
    serve_noted(alloc, bytes, period, input, &mut NotedNumber { line: 0 })
}

/// Does the same, and notes the last line `N` that is refused.
fn serve_noted(
    alloc: Global,
    bytes: &[u8],
    period: u64,
    input: &str,
    noted: &mut NotedNumber,
) -> Result<(Vec<u8>, Vec<u8>), StateServiceFault> {
    let mut journal = Journal {
        device: Memory::new(alloc, bytes.to_vec(alloc)?),
        gate: 0,
    };
    let mut reader = input.as_bytes();
    let mut output = Vec::new(alloc);
    serve_state(alloc, &mut journal, period, &mut reader, &mut output, noted)?;
    Ok((journal.device.bytes().to_vec(alloc)?, output))
}

#[test]
fn a_service_goes_on_in_the_next_process(rt: HostRuntime) -> Result<(), Fail> {
    let alloc = rt.alloc();
    let changed = replace_first(alloc, PLANT, "flows = 4", "flows = 3")?;
    let cases = [
        ServiceCase {
            plant: PLANT,
            period: 100,
            greeting: "S line 1 frame 0\n",
        },
        // The transaction is known, so the same response is sent again. The state is saved then.
        ServiceCase {
            plant: PLANT,
            period: 1,
            greeting: "S line 2 frame 0\n",
        },
        ServiceCase {
            plant: changed.as_str(),
            period: 100,
            greeting: "S line 3 frame 0\n",
        },
        ServiceCase {
            plant: changed.as_str(),
            period: 100,
            greeting: "S line 4 frame 0\n",
        },
    ];
    let mut bytes = Vec::new(alloc);
    for case in &cases {
        let input = input_of(alloc, case.plant, REQUEST)?;
        let (left, output) = serve_bytes(alloc, bytes.as_slice(), case.period, input.as_str())?;
        bytes = left;
        let greeting = case.greeting;
        let expected = format!(in alloc; "{greeting}{RESPONSE}")?;
        assert!(rt; output.as_slice() == expected.as_bytes(), "{expected}");
    }
    Ok(())
}

#[test]
fn a_frame_number_is_given_or_noted(rt: HostRuntime) -> Result<(), Fail> {
    let alloc = rt.alloc();
    let mut noted = NotedNumber { line: 0 };
    // 72 minislots are 8 times 9, so numbers that fit are 2^29 apart.
    let input = input_of(alloc, PLANT, "X\nN 5\nN 536870912\nX\n")?;
    let (bytes, output) = serve_noted(alloc, b"", 100, input.as_str(), &mut noted)?;
    assert!(rt;
        output.as_slice()
            == b"S line 1 frame 0\nfault: line 1\nfault: line 2\nN frame 536870912\nfault: line 4\n".as_slice()
    );
    assert!(rt; noted.line == 2);
    let input = input_of(alloc, PLANT, "")?;
    let (_bytes, output) = serve_bytes(alloc, bytes.as_slice(), 100, input.as_str())?;
    assert!(rt; output.as_slice() == b"S line 5 frame 536870912\n".as_slice());
    Ok(())
}

#[test]
fn a_refused_start_leaves_the_journal(rt: HostRuntime) -> Result<(), Fail> {
    let alloc = rt.alloc();
    let input = input_of(alloc, PLANT, REQUEST)?;
    let (bytes, _output) = serve_bytes(alloc, b"", 1, input.as_str())?;
    // A plant without the modem of the flow.
    let removed = replace_first(alloc, PLANT, "\"020000000001\", ", "")?;
    let input = input_of(alloc, removed.as_str(), "")?;
    assert!(rt;
        matches!(
            serve_bytes(alloc, bytes.as_slice(), 1, input.as_str()),
            Err(StateServiceFault::NotChanged {
                why: ChangeFault::Restart {
                    why: RestartFault::State { op: 0, why: _ }
                },
                refused: _
            })
        )
    );
    let input = input_of(alloc, PLANT, "X")?;
    let (_bytes, output) = serve_bytes(alloc, bytes.as_slice(), 1, input.as_str())?;
    assert!(rt; output.as_slice() == b"S line 2 frame 0\nfault: line 2\n".as_slice());
    assert!(rt;
        matches!(
            serve_bytes(alloc, b"text\n", 1, input.as_str()),
            Err(StateServiceFault::Journal {
                fault: DurableFault::NoJournal
            })
        )
    );
    Ok(())
}
