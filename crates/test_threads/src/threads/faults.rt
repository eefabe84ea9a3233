//! The texts of faults.

use crate::threads::opening::modem;
use plant_core::{CoreFault, ResliceFault};
use plant_workers::RunFault;
use std::alloc::{AllocError, Global};
use std::process::Abort;

/// Returns whether this is the text of a fault.
fn says(alloc: Global, fault: RunFault, wanted: &str) -> Result<bool, AllocError> {
    let text = format!(in alloc; "{fault}")?;
    Ok(text.as_str() == wanted)
}

#[test]
fn faults_are_sentences(rt: HostRuntime) -> Result<(), AllocError> {
    let stranger = RunFault::Core(CoreFault::UnknownModem { modem: modem(3) });
    let wanted = "a step was refused: no operator has the modem 020000000003";
    assert!(rt; says(rt.alloc(), stranger, wanted)?);
    let meeting = RunFault::ResliceRefused {
        at: 4,
        fault: ResliceFault::SlicesMeet { a: 0, b: 1 },
    };
    let wanted = "step 4 was refused: the new slices of operators 0 and 1 meet";
    assert!(rt; says(rt.alloc(), meeting, wanted)?);
    Ok(())
}
