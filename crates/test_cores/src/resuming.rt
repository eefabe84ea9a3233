//! Cores of operators that are at work already: each goes on in its state, or the reason why they are not resumed as one core.

ghost use Rattle.std.specs.Prelude.{◌≡◌, Some, slice_get, IfSome};
ghost use Rattle.plant_core.specs.live.LiveOperator.{row_of, Shares};

use crate::fixtures::{ADDITION, MODEM_OF_A, REPLY, heard_message};
use crate::step_calls::{StepCall, step_of};
use crate::steps::HALF;
use operator_book::{Action, Machine, Output, SliceRow};
use plant::{Op, Plant};
use plant_core::{CoreFault, LiveCore, ResliceFault, RestFault, ResumeFault};
use run_model::Out;
use slice_table::read_plant;
use std::alloc::{AllocError, Global};
use std::process::Abort;
use test_plants::PLANT;

/// What an operator does before it is resumed.
#[derive(Clone, Copy, Debug, PartialEq, Eq)]
enum MachineCall {
    /// Receives an addition.
    Arrive,
    Work,
    Tick,
    /// Takes this slice from this frame on.
    Reslice(u32, SliceRow),
}

/// Returns the action that a table writes so.
fn action(alloc: Global, call: MachineCall) -> Result<Action, AllocError> {
    match call {
        MachineCall::Arrive => Ok(Action::Arrive {
            modem: MODEM_OF_A,
            heard: heard_message(alloc, ADDITION)?,
        }),
        MachineCall::Work => Ok(Action::Work),
        MachineCall::Tick => Ok(Action::Tick),
        MachineCall::Reslice(from, row) => Ok(Action::Reslice { from, row }),
    }
}

/// Does an action of an operator. Returns nothing where it is refused.
fn do_action(alloc: Global, machine: &mut Machine, call: MachineCall) -> Option<()>
    ensures row { row_of machine.new ≡ row_of machine.old }
    ensures consts { machine.new.sound.consts ≡ machine.old.sound.consts }
{
    let action = action(alloc, call).ok()?;
    match machine.act(alloc, action) {
        Ok(_outputs) => Some(()),
        Err(_fault) => None,
    }
}

/// Does actions, and returns the operator after them, or nothing where one of them is refused.
fn do_actions(alloc: Global, mut machine: Machine, calls: &[MachineCall]) -> Option<Machine>
    ensures row { IfSome result (λ after. row_of after ≡ row_of machine) }
    ensures consts { IfSome result (Shares machine.sound.consts) }
{
    for call in calls {
        do_action(alloc, &mut machine, *call)?;
    }
    Some(machine)
}

/// Opens an operator of a plant, and returns it after these actions.
fn machine_after(alloc: Global, plant: &Plant, op: Op, calls: &[MachineCall]) -> Option<Machine>
    ensures row { IfSome result (λ after. slice_get plant.now.rows op ≡ Some (row_of after)) }
    ensures consts { IfSome result (Shares plant.now.consts) }
{
    let row = plant.rows().get(op)?;
    match Machine::open(alloc, row, plant.consts()) {
        Ok(machine) => do_actions(alloc, machine, calls),
        Err(_error) => None,
    }
}

/// What operators A and B do, and the frame at which they are resumed then.
#[derive(Clone, Copy, Debug, PartialEq, Eq)]
struct Resumption {
    first: &'static [MachineCall],
    second: &'static [MachineCall],
    frame: u32,
}

/// Resumes operators A and B of a plant. Returns nothing where one of their actions is refused.
fn resume_on_plant(
    alloc: Global,
    plant: Plant,
    resumption: Resumption,
) -> Option<Result<LiveCore, ResumeFault>> {
    let first = machine_after(alloc, &plant, 0, resumption.first)?;
    let second = machine_after(alloc, &plant, 1, resumption.second)?;
    if plant.rows().len() != 2 {
        return None;
    }
    match Vec::from_array(alloc, [first, second]) {
        Ok(machines) => Some(LiveCore::resume(alloc, plant, resumption.frame, machines)),
        Err(_error) => None,
    }
}

/// Resumes operators A and B.
fn resume_operators(
    alloc: Global,
    resumption: Resumption,
) -> Option<Result<LiveCore, ResumeFault>> {
    match read_plant(alloc, PLANT) {
        Ok(plant) => resume_on_plant(alloc, plant, resumption),
        Err(_fault) => None,
    }
}

/// What a step of a resumed core outputs, or its fault.
#[derive(Clone, Copy, Debug, PartialEq, Eq)]
enum ResumedOutput {
    Nothing,
    Reply(&'static [u8]),
    /// The operator's frame of this number, of which the first minislot is this one.
    Frame(Op, u32, u16),
    Map(u32),
    Fault(CoreFault),
}

/// Returns whether an output is the expected one.
fn is_expected_output(out: &Out, wanted: ResumedOutput) -> bool {
    match (out, wanted) {
        (
            Out::Of {
                op: _,
                output: Output::Reply { modem: _, bytes },
            },
            ResumedOutput::Reply(reply),
        ) => bytes.as_slice() == reply,
        (
            Out::Of {
                op,
                output: Output::Frame { number, elements },
            },
            ResumedOutput::Frame(of, frame, start),
        ) => match elements.get_spans() {
            [first, ..] => *op == of && *number == frame && first.start == start,
            [] => false,
        },
        (Out::Map(made), ResumedOutput::Map(frame)) => made.frame == frame,
        _ => false,
    }
}

/// Returns whether a step has the expected output alone, or none, or the expected fault.
fn is_expected(returned: &Result<Vec<Out>, CoreFault>, wanted: ResumedOutput) -> bool {
    match returned {
        Ok(outs) => match outs.as_slice() {
            [] => wanted == ResumedOutput::Nothing,
            [out] => is_expected_output(out, wanted),
            _ => false,
        },
        Err(fault) => wanted == ResumedOutput::Fault(*fault),
    }
}

/// What a resumed core does, step by step, or why operators are not resumed as one core.
type Expected = Result<&'static [(StepCall, ResumedOutput)], ResumeFault>;

/// Returns whether a core does steps as expected, one after the other.
fn does_all(
    alloc: Global,
    core: &mut LiveCore,
    rows: &[(StepCall, ResumedOutput)],
) -> Result<bool, AllocError> {
    for (call, wanted) in rows {
        let step = step_of(alloc, *call)?;
        if !is_expected(&core.step(alloc, step), *wanted) {
            return Ok(false);
        }
    }
    Ok(true)
}

/// Returns whether operators are resumed as expected.
fn are_resumed(
    alloc: Global,
    resumed: &mut Result<LiveCore, ResumeFault>,
    expected: Expected,
) -> Result<bool, AllocError> {
    match resumed {
        Ok(core) => match expected {
            Ok(rows) => does_all(alloc, core, rows),
            Err(_fault) => Ok(false),
        },
        Err(fault) => Ok(expected.err() == Some(*fault)),
    }
}

/// Returns whether operators are resumed as expected, where none of their actions is refused.
fn are_resumed_so(
    alloc: Global,
    resumed: &mut Option<Result<LiveCore, ResumeFault>>,
    expected: Expected,
) -> Result<bool, AllocError> {
    match resumed {
        Some(resumed) => are_resumed(alloc, resumed, expected),
        None => Ok(false),
    }
}

/// Writes the slice of these minislots with a budget of 16, to be taken from a frame on.
macro_rules! reslice {
    ($from:expr, $start:expr, $length:expr) => {
        MachineCall::Reslice(
            $from,
            SliceRow {
                start: $start,
                length: $length,
                budget: 16,
            },
        )
    };
}

/// A second addition, and the reply to it: SFID and SID 257 are taken by the flow of the first.
const SECOND: &[u8] = &[15, 0, 2, 24, 10, 1, 2, 0, 1, 6, 1, 6, 15, 1, 2];

const SECOND_REPLY: &[u8] = &[
    16, 0, 2, 0, 24, 14, 1, 2, 0, 1, 2, 4, 0, 0, 1, 2, 3, 2, 1, 2,
];

/// The flow of A stays, and the frames go on from the second one.
const GOES_ON: Resumption = Resumption {
    first: &[MachineCall::Arrive, MachineCall::Work, MachineCall::Tick],
    second: &[MachineCall::Tick],
    frame: 1,
};

const GONE_ON: &[(StepCall, ResumedOutput)] = &[
    (
        StepCall::Collect(0),
        ResumedOutput::Fault(CoreFault::NothingToCollect { op: 0 }),
    ),
    (StepCall::Arrive(MODEM_OF_A, SECOND), ResumedOutput::Nothing),
    (StepCall::Work(0), ResumedOutput::Reply(SECOND_REPLY)),
    (StepCall::Tick(0), ResumedOutput::Frame(0, 1, 8)),
    (StepCall::Tick(1), ResumedOutput::Frame(1, 1, 40)),
    (StepCall::Collect(0), ResumedOutput::Nothing),
    (StepCall::Collect(1), ResumedOutput::Map(1)),
];

/// What was received and not handled is handled then.
const HANDLES: Resumption = Resumption {
    first: &[MachineCall::Arrive],
    second: &[],
    frame: 0,
};

/// Slices that wait take force in their frame. Until then no others are accepted.
const RESLICED: Resumption = Resumption {
    first: &[reslice!(2, 8, 16), MachineCall::Tick],
    second: &[reslice!(2, 24, 48), MachineCall::Tick],
    frame: 1,
};

const TAKES_SLICES: &[(StepCall, ResumedOutput)] = &[
    (
        StepCall::Reslice(3, HALF),
        ResumedOutput::Fault(CoreFault::Reslice(ResliceFault::Unfinished { op: 0 })),
    ),
    (StepCall::Tick(0), ResumedOutput::Frame(0, 1, 8)),
    (StepCall::Tick(1), ResumedOutput::Frame(1, 1, 40)),
    (StepCall::Tick(0), ResumedOutput::Frame(0, 2, 8)),
    (StepCall::Tick(1), ResumedOutput::Frame(1, 2, 24)),
    (StepCall::Collect(0), ResumedOutput::Nothing),
    (StepCall::Collect(1), ResumedOutput::Map(1)),
    (StepCall::Collect(1), ResumedOutput::Nothing),
    (StepCall::Collect(0), ResumedOutput::Map(2)),
];

/// Operators that are resumed or refused, and what is expected then.
const ROWS: &[(Resumption, Expected)] = &[
    (GOES_ON, Ok(GONE_ON)),
    (
        HANDLES,
        Ok(&[(StepCall::Work(0), ResumedOutput::Reply(REPLY))]),
    ),
    (RESLICED, Ok(TAKES_SLICES)),
    (
        Resumption {
            first: &[MachineCall::Tick],
            second: &[],
            frame: 1,
        },
        Err(ResumeFault::NotAtFrame { op: 1 }),
    ),
    (
        Resumption {
            first: &[reslice!(2, 8, 16)],
            second: &[reslice!(3, 24, 48)],
            frame: 0,
        },
        Err(ResumeFault::SliceChangesDiffer { op: 1 }),
    ),
    (
        Resumption {
            first: &[reslice!(1, 8, 33), MachineCall::Tick],
            second: &[MachineCall::Tick],
            frame: 1,
        },
        Err(ResumeFault::InvalidSlice { op: 1 }),
    ),
    (
        Resumption {
            first: &[reslice!(1, 8, 17)],
            second: &[reslice!(1, 24, 48)],
            frame: 0,
        },
        Err(ResumeFault::InvalidNextSlice { op: 1 }),
    ),
];

#[test]
fn operators_are_resumed_as_one_core_or_refused(rt: HostRuntime) -> Result<(), AllocError> {
    let alloc = rt.alloc();
    for (resumption, expected) in ROWS {
        let mut resumed = resume_operators(alloc, *resumption);
        assert!(rt;
            are_resumed_so(alloc, &mut resumed, *expected)?,
            "{resumption:?}"
        );
    }
    Ok(())
}

/// Returns whether the machine at a place is at this frame, or there is none where none is expected.
fn is_machine_at(core: &LiveCore, op: Op, frame: Option<u32>) -> bool {
    match core.machine(op) {
        Some(machine) => Some(machine.frame()) == frame,
        None => frame.is_none(),
    }
}

/// Returns whether a resumed core rests until a frame is output, and no longer until all operators are one frame further.
fn rests_between_frames(
    alloc: Global,
    resumed: &mut Option<Result<LiveCore, ResumeFault>>,
) -> Result<bool, AllocError> {
    match resumed {
        Some(Ok(core)) => rests_as_expected(alloc, core),
        _ => Ok(false),
    }
}

/// What a core does, and the frame before which it rests then, or why it does not rest.
const RESTS: &[(StepCall, ResumedOutput, Result<u32, RestFault>)] = &[
    (
        StepCall::Collect(0),
        ResumedOutput::Fault(CoreFault::NothingToCollect { op: 0 }),
        Ok(1),
    ),
    (
        StepCall::Tick(1),
        ResumedOutput::Frame(1, 1, 40),
        Err(RestFault::FrameWaits { op: 1 }),
    ),
    (
        StepCall::Collect(1),
        ResumedOutput::Nothing,
        Err(RestFault::NotAtFrame { op: 1 }),
    ),
    (
        StepCall::Tick(0),
        ResumedOutput::Frame(0, 1, 8),
        Err(RestFault::FrameWaits { op: 0 }),
    ),
    (StepCall::Collect(0), ResumedOutput::Map(1), Ok(2)),
];

/// Returns whether a core rests after each step as expected, and its machines are at their frames then.
fn rests_as_expected(alloc: Global, core: &mut LiveCore) -> Result<bool, AllocError> {
    for (call, wanted, frame) in RESTS {
        let step = step_of(alloc, *call)?;
        if !is_expected(&core.step(alloc, step), *wanted) || core.resting_frame() != *frame {
            return Ok(false);
        }
    }
    Ok(
        is_machine_at(core, 0, Some(2))
            && is_machine_at(core, 1, Some(2))
            && is_machine_at(core, 2, None),
    )
}

#[test]
fn a_core_rests_where_all_frames_are_collected(rt: HostRuntime) -> Result<(), AllocError> {
    let alloc = rt.alloc();
    let mut resumed = resume_operators(alloc, GOES_ON);
    assert!(rt; rests_between_frames(alloc, &mut resumed)?);
    Ok(())
}
