//! Reasons of the library that no case of `tests/` has: of statuses, and of an invalid plant that
//! is said to be well.

use command_line::{BatchWord, RunReport, Word};
use diagnostics::{Trouble, reason_of, reason_of_trouble};
use std::test::Fail;
use test_plants::{PLANT, replace_first};

/// A key of a flow in an inline table. The flow's encoding states no set type, so no program answers it with status 0.
#[test]
fn a_key_of_a_flow_that_nothing_reads(rt: HostRuntime) -> Result<(), Fail> {
    let alloc = rt.alloc();
    let policy = "policy = \"strict\"\n";
    let flow =
        "policy = \"strict\"\nflow = [{ modem = \"020000000001\", encoding = \"\", colour = 1 }]\n";
    let plant = replace_first(alloc, PLANT, policy, flow)?;
    let input = format!(in alloc; "{plant}---\nT\n")?;
    let reason = reason_of(
        alloc,
        Word::Batch(BatchWord::Run(RunReport::Outputs)),
        input.as_str(),
        0,
    )?;
    let wanted = "warning: line 21: unknown key operator[0].flow[0].colour\n";
    assert_eq!(rt; reason.as_str(), wanted);
    Ok(())
}

#[test]
fn causes_of_memory_input_and_stray_steps(rt: HostRuntime) -> Result<(), Fail> {
    for (trouble, wanted) in [
        (
            Trouble::Memory,
            "out of memory: the run needs more memory than this process may use\n",
        ),
        (Trouble::Read, "reading standard input failed\n"),
        (
            Trouble::TooLong,
            "the input is too long: at most 1048576 bytes are read\n",
        ),
        (
            Trouble::NoText { valid: 0 },
            "the input is not UTF-8: byte 1 is invalid\n",
        ),
        (
            Trouble::Write,
            "writing to standard output failed: the output is incomplete\n",
        ),
        (
            Trouble::Strayed,
            "the threads did not follow the script: use run, which needs no threads\n",
        ),
    ] {
        let reason = reason_of_trouble(rt.alloc(), trouble)?;
        assert_eq!(rt; reason.as_str(), wanted);
    }
    Ok(())
}
