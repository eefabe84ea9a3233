//! Cores that go on from a snapshot, or under another plant.

use crate::fixtures::{ADDITION, MODEM_OF_A, REPLY};
use crate::step_calls::{StepCall, step_of};
use operator_book::{Output, StateFault};
use plant::{Op, OperatorName};
use plant_core::{LiveCore, RestFault, ResumeFault};
use plant_restart::{ChangeFault, RestartFault, RestoreFault, SaveFault, change, restore, save};
use run_model::Out;
use slice_table::read_plant;
use snapshot_format::{Snapshot, read_snapshot, write_snapshot};
use std::alloc::{AllocError, Global};
use std::process::Abort;
use std::test::Fail;
use test_plants::{ALONE, PLANT, replace_first};
use tlv24::Bytes;

/// What a step of a core outputs.
#[derive(Clone, Copy, Debug, PartialEq, Eq)]
enum StepOutput {
    Nothing,
    Reply(&'static [u8]),
    /// The operator's frame of this number.
    Frame(Op, u32),
    Map(u32),
}

/// Returns whether an output is the expected one.
fn is_wanted(out: &Out, wanted: StepOutput) -> bool {
    match (out, wanted) {
        (
            Out::Of {
                op: _,
                output: Output::Reply { modem: _, bytes },
            },
            StepOutput::Reply(reply),
        ) => bytes.as_slice() == reply,
        (
            Out::Of {
                op,
                output: Output::Frame {
                    number,
                    elements: _,
                },
            },
            StepOutput::Frame(of, frame),
        ) => *op == of && *number == frame,
        (Out::Map(made), StepOutput::Map(frame)) => made.frame == frame,
        _ => false,
    }
}

/// Returns whether the outputs are the expected one alone, or none where none is expected.
fn are_wanted(outs: &[Out], wanted: StepOutput) -> bool {
    match outs {
        [] => wanted == StepOutput::Nothing,
        [out] => is_wanted(out, wanted),
        _ => false,
    }
}

/// A step, and the output that is expected.
type CoreStep = (StepCall, StepOutput);

/// Returns whether a core does steps as expected, one after the other.
fn does_all(alloc: Global, core: &mut LiveCore, rows: &[CoreStep]) -> Result<bool, AllocError> {
    for (call, wanted) in rows {
        let step = step_of(alloc, *call)?;
        match core.step(alloc, step) {
            Ok(outs) => {
                if !are_wanted(outs.as_slice(), *wanted) {
                    return Ok(false);
                }
            }
            Err(_) => return Ok(false),
        }
    }
    Ok(true)
}

/// Opens the core of a plant of operators A and B.
fn open(alloc: Global) -> Result<LiveCore, Fail> {
    let plant = read_plant(alloc, PLANT)?;
    Ok(LiveCore::open(alloc, plant)?)
}

/// Saves a core, and reads the snapshot back from its text.
fn save_as_text(alloc: Global, core: &LiveCore) -> Result<Snapshot, Fail> {
    let saved = save(alloc, core, Bytes::from_slice(alloc, PLANT.as_bytes())?)?;
    let mut text = Vec::new(alloc);
    write_snapshot(alloc, &mut text, &saved)?;
    Ok(read_snapshot(alloc, text.as_slice())?)
}

/// Restores a core of the plant with this text.
fn restore_plant(
    alloc: Global,
    text: &str,
    saved: &Snapshot,
) -> Result<Result<LiveCore, RestoreFault>, Fail> {
    let plant = read_plant(alloc, text)?;
    Ok(restore(alloc, plant, saved))
}

/// Changes the plant of a core to the one with this text.
fn change_plant(
    alloc: Global,
    text: &str,
    core: &LiveCore,
) -> Result<Result<LiveCore, ChangeFault>, Fail> {
    let plant = read_plant(alloc, text)?;
    Ok(change(alloc, core, plant))
}

/// A second addition, and the reply to it: SFID and SID 257 are those of the flow of the first.
const SECOND: &[u8] = &[15, 0, 2, 24, 10, 1, 2, 0, 1, 6, 1, 6, 15, 1, 2];

const SECOND_REPLY: &[u8] = &[
    16, 0, 2, 0, 24, 14, 1, 2, 0, 1, 2, 4, 0, 0, 1, 2, 3, 2, 1, 2,
];

/// A flow of A is added, and the first frame has its MAP.
const BEFORE: &[CoreStep] = &[
    (StepCall::Arrive(MODEM_OF_A, ADDITION), StepOutput::Nothing),
    (StepCall::Work(0), StepOutput::Reply(REPLY)),
    (StepCall::Tick(0), StepOutput::Frame(0, 0)),
    (StepCall::Tick(1), StepOutput::Frame(1, 0)),
    (StepCall::Collect(0), StepOutput::Nothing),
    (StepCall::Collect(1), StepOutput::Map(0)),
];

/// The addition is repeated, and has its cached reply. A second flow has the next identifiers, and the next frame its MAP.
const AFTER: &[CoreStep] = &[
    (StepCall::Arrive(MODEM_OF_A, ADDITION), StepOutput::Nothing),
    (StepCall::Work(0), StepOutput::Reply(REPLY)),
    (StepCall::Arrive(MODEM_OF_A, SECOND), StepOutput::Nothing),
    (StepCall::Work(0), StepOutput::Reply(SECOND_REPLY)),
    (StepCall::Tick(0), StepOutput::Frame(0, 1)),
    (StepCall::Tick(1), StepOutput::Frame(1, 1)),
    (StepCall::Collect(0), StepOutput::Nothing),
    (StepCall::Collect(1), StepOutput::Map(1)),
];

/// Opens the core of operators A and B, in which a flow is added and the first frame has its MAP.
fn begun(alloc: Global) -> Result<LiveCore, Fail> {
    let mut core = open(alloc)?;
    if does_all(alloc, &mut core, BEFORE)? {
        Ok(core)
    } else {
        Err(Fail::from("a step of the core has another output"))
    }
}

/// Saves a core, and restores a core of the same plant from the text.
fn restored(alloc: Global, core: &LiveCore) -> Result<LiveCore, Fail> {
    let saved = save_as_text(alloc, core)?;
    Ok(restore_plant(alloc, PLANT, &saved)??)
}

/// Changes the plant of a core to the same plant.
fn changed(alloc: Global, core: &LiveCore) -> Result<LiveCore, Fail> {
    Ok(change_plant(alloc, PLANT, core)??)
}

#[test]
fn a_restored_core_goes_on_as_the_one_that_was_saved(rt: HostRuntime) -> Result<(), Fail> {
    let alloc = rt.alloc();
    let mut core = begun(alloc)?;
    let mut other = restored(alloc, &core)?;
    assert!(rt; does_all(alloc, &mut other, AFTER)?);
    other = changed(alloc, &core)?;
    assert!(rt; does_all(alloc, &mut other, AFTER)?);
    assert!(rt; does_all(alloc, &mut core, AFTER)?);
    Ok(())
}

/// Changes of the plant file with which a snapshot is not restored, and why.
const NOT_RESTORED: &[(&str, &str, RestartFault)] = &[
    (
        "sfids = [257, 512]",
        "sfids = [258, 512]",
        RestartFault::State {
            op: 0,
            why: StateFault::SfidOutOfRange { sfid: 257 },
        },
    ),
    (
        "ucd_count = 1",
        "ucd_count = 1\nfirst_frame = 2",
        RestartFault::Core {
            why: ResumeFault::BeforeFirstFrame,
        },
    ),
];

/// Restores a core of the plant with a change of the plant file.
fn restored_with(
    alloc: Global,
    saved: &Snapshot,
    change: (&str, &str),
) -> Result<Result<LiveCore, RestoreFault>, Fail> {
    let text = replace_first(alloc, PLANT, change.0, change.1)?;
    restore_plant(alloc, text.as_str(), saved)
}

/// Returns whether no core was restored, for this reason.
fn is_not_restored(restored: &Result<LiveCore, RestoreFault>, why: RestoreFault) -> bool {
    match restored {
        Ok(_core) => false,
        Err(fault) => *fault == why,
    }
}

#[test]
fn a_snapshot_that_does_not_fit_the_plant_is_refused(rt: HostRuntime) -> Result<(), Fail> {
    let alloc = rt.alloc();
    let core = begun(alloc)?;
    let saved = save_as_text(alloc, &core)?;
    for (old, new, why) in NOT_RESTORED {
        let why = RestoreFault::Restart { why: *why };
        let restored = restored_with(alloc, &saved, (old, new))?;
        assert!(rt; is_not_restored(&restored, why));
    }
    let name = OperatorName::new(b"B").ok_or("a name")?;
    let restored = restore_plant(alloc, ALONE, &saved)?;
    assert!(rt; is_not_restored(&restored, RestoreFault::UnknownOperator { name }));
    Ok(())
}

/// Changes of the plant file to which a core at rest is not changed, and why.
const NOT_CHANGED: &[(&str, &str, ChangeFault)] = &[
    (
        "ucd_count = 1",
        "ucd_count = 2",
        ChangeFault::ConstantsDiffer,
    ),
    (
        "sfids = [257, 512]",
        "sfids = [258, 512]",
        ChangeFault::Restart {
            why: RestartFault::State {
                op: 0,
                why: StateFault::SfidOutOfRange { sfid: 257 },
            },
        },
    ),
];

/// Changes the plant of a core to the one with a change of the plant file.
fn changed_with(
    alloc: Global,
    core: &LiveCore,
    change: (&str, &str),
) -> Result<Result<LiveCore, ChangeFault>, Fail> {
    let text = replace_first(alloc, PLANT, change.0, change.1)?;
    change_plant(alloc, text.as_str(), core)
}

/// Returns whether a core was not changed, for this reason.
fn is_not_changed(changed: &Result<LiveCore, ChangeFault>, why: ChangeFault) -> bool {
    match changed {
        Ok(_core) => false,
        Err(fault) => *fault == why,
    }
}

#[test]
fn a_core_is_not_changed_to_a_plant_that_does_not_fit(rt: HostRuntime) -> Result<(), Fail> {
    let alloc = rt.alloc();
    let core = begun(alloc)?;
    for (old, new, why) in NOT_CHANGED {
        let changed = changed_with(alloc, &core, (old, new))?;
        assert!(rt; is_not_changed(&changed, *why));
    }
    Ok(())
}

/// Returns whether a core is not saved, for this reason.
fn is_not_saved(alloc: Global, core: &LiveCore, why: SaveFault) -> Result<bool, Fail> {
    let text = Bytes::from_slice(alloc, PLANT.as_bytes())?;
    Ok(save(alloc, core, text).err() == Some(why))
}

#[test]
fn a_core_of_which_a_frame_waits_is_not_saved_nor_changed(rt: HostRuntime) -> Result<(), Fail> {
    let alloc = rt.alloc();
    let mut core = open(alloc)?;
    let ticked = &[(StepCall::Tick(0), StepOutput::Frame(0, 0))];
    assert!(rt; does_all(alloc, &mut core, ticked)?);
    let why = RestFault::FrameWaits { op: 0 };
    assert!(rt; is_not_saved(alloc, &core, SaveFault::Unfinished { why })?);
    let changed = change_plant(alloc, PLANT, &core)?;
    assert!(rt; is_not_changed(&changed, ChangeFault::Unfinished { why }));
    Ok(())
}

/// Operator B leaves, and A keeps its flow and its frames.
#[test]
fn an_operator_without_a_row_leaves(rt: HostRuntime) -> Result<(), Fail> {
    let alloc = rt.alloc();
    let core = begun(alloc)?;
    let mut alone = change_plant(alloc, ALONE, &core)??;
    let rows = &[
        (StepCall::Arrive(MODEM_OF_A, SECOND), StepOutput::Nothing),
        (StepCall::Work(0), StepOutput::Reply(SECOND_REPLY)),
        (StepCall::Tick(0), StepOutput::Frame(0, 1)),
        (StepCall::Collect(0), StepOutput::Map(1)),
    ];
    assert!(rt; does_all(alloc, &mut alone, rows)?);
    Ok(())
}
