//! Why a step of a script is refused: the script is run again up to there.

use crate::joint::{Side, name_of, say_over_slice, say_overlap};
use crate::reason::{GapText, Reason};
use crate::values::say_slice;
use line_service::LineStep;
use operator_book::{BookFault, SliceRow};
use plant::{Op, Plant};
use plant_core::{CoreFault, LiveCore, ResliceFault};
use run_model::{SliceRows, Step};

/// What a refused step asked for, as far as a reason says it.
#[derive(Drop)]
struct Asked {
    op: Op,
    from: u32,
    rows: Vec<SliceRow>,
}

/// Returns what a step asks for.
fn asked_of(reason: &mut Reason, step: &Step) -> Asked {
    let mut asked = Asked {
        op: 0,
        from: 0,
        rows: Vec::new(reason.alloc),
    };
    match step {
        Step::Tick { op } | Step::Work { op } | Step::Collect { op } => asked.op = *op,
        Step::Reslice { from, rows } => {
            asked.from = *from;
            if asked.rows.extend_from_slice(rows.as_slice()).is_err() {
                reason.is_lost = true;
            }
        }
        Step::Arrive { .. } => {}
    }
    asked
}

/// Returns the name of an operator.
fn name_at(plant: &Plant, op: Op) -> &str {
    match plant.rows().get(op) {
        Some(row) => name_of(&row.get_fields().name),
        None => "",
    }
}

/// Returns the number of an operator's next frame.
fn frame_of(core: &LiveCore, op: Op) -> u64 {
    match core.machine(op) {
        Some(machine) => u64::from(machine.frame()),
        None => 0,
    }
}

/// Returns the slice that was asked for an operator, and its budget.
fn row_at(asked: &Asked, op: Op) -> SliceRow {
    match asked.rows.as_slice().get(op) {
        Some(row) => *row,
        None => SliceRow {
            start: 0,
            length: 0,
            budget: 0,
        },
    }
}

/// Says why a slice is not after the head and within the frame.
fn say_off_frame(reason: &mut Reason, plant: &Plant, row: SliceRow) {
    let channel = &plant.consts().get_fields().channel;
    let (head, frame) = (u64::from(channel.head), u64::from(channel.frame_minislots));
    let slice = (u64::from(row.start), u64::from(row.length));
    say_slice(reason, slice, head, frame);
}

/// Returns the first and the last minislot of a slice.
fn minislots_of(row: SliceRow) -> (u64, u64) {
    let start = u64::from(row.start);
    (start, (start + u64::from(row.length)).saturating_sub(1))
}

/// Returns an operator in a message about the slices of two.
fn side_of<'a>(plant: &'a Plant, asked: &Asked, op: Op) -> Side<'a> {
    Side {
        name: name_at(plant, op),
        line: None,
        range: minislots_of(row_at(asked, op)),
    }
}

/// Says that two slices have a minislot in common.
fn say_slices_meet(reason: &mut Reason, plant: &Plant, asked: &Asked, a: Op, b: Op) {
    let (a, b) = (side_of(plant, asked, a), side_of(plant, asked, b));
    say_overlap(reason, "slices", "minislots", a, b);
}

/// Says that an operator is past the frame from which on new slices were asked for.
fn say_past(reason: &mut Reason, core: &LiveCore, op: Op, from: u32) {
    reason.say(
        "operator {} is at frame {}: new slices must start at a later frame, not at {}",
        &[
            GapText::Words(name_at(core.plant(), op)),
            GapText::Number(frame_of(core, op)),
            GapText::Number(u64::from(from)),
        ],
    );
}

/// Returns the rows that were asked for, with another budget of an operator.
fn rows_with(reason: &mut Reason, asked: &Asked, op: Op, budget: u16) -> SliceRows {
    let mut rows = Vec::new(reason.alloc);
    for (place, row) in asked.rows.as_slice().iter().enumerate() {
        let mut row = *row;
        if place == op {
            row.budget = budget;
        }
        if rows.push(row).is_err() {
            reason.is_lost = true;
        }
    }
    SliceRows::from_vec(rows)
}

/// Returns the least budget up to an operator's slice that is not refused as too small: what its flows have committed. `None`
/// where all are. The core is of no use afterwards.
fn least_budget(reason: &mut Reason, core: &mut LiveCore, asked: &Asked, op: Op) -> Option<u16> {
    let row = row_at(asked, op);
    let mut outs = Vec::new(reason.alloc);
    for budget in row.budget..row.length {
        let budget = budget.saturating_add(1);
        let rows = rows_with(reason, asked, op, budget);
        let from = asked.from;
        match core.step_over(reason.alloc, Step::Reslice { from, rows }, &mut outs) {
            Err(CoreFault::Reslice(ResliceFault::Unfit { op: unfit })) if unfit == op => {}
            Err(CoreFault::NoMemory) => {
                reason.is_lost = true;
                return None;
            }
            _ => return Some(budget),
        }
    }
    None
}

/// Says that the budget that was asked for an operator is less than what its flows have committed.
fn say_unfit(reason: &mut Reason, core: &mut LiveCore, asked: &Asked, op: Op) {
    let row = row_at(asked, op);
    reason.say(
        "operator {}: budget {} is too small: ",
        &[
            GapText::Words(name_at(core.plant(), op)),
            GapText::Number(u64::from(row.budget)),
        ],
    );
    match least_budget(reason, core, asked, op) {
        Some(committed) => reason.say(
            "{} minislots are committed",
            &[GapText::Number(u64::from(committed))],
        ),
        None => reason.say(
            "more than {} minislots are committed",
            &[GapText::Number(u64::from(row.length))],
        ),
    }
}

/// Says why the slice that was asked for an operator, and its budget, are refused.
fn say_row(reason: &mut Reason, plant: &Plant, op: Op, row: SliceRow, fault: ResliceFault) {
    reason.say("operator {}: ", &[GapText::Words(name_at(plant, op))]);
    match fault {
        ResliceFault::OffFrame { .. } => say_off_frame(reason, plant, row),
        _ => say_over_slice(reason, u64::from(row.budget), u64::from(row.length)),
    }
}

/// Says why new slices are refused.
fn say_reslice(reason: &mut Reason, core: &LiveCore, asked: &Asked, fault: ResliceFault) {
    let plant = core.plant();
    match fault {
        ResliceFault::Count => reason.say("Z must have a slice for each operator", &[]),
        ResliceFault::NotPast { op } => say_past(reason, core, op, asked.from),
        ResliceFault::Unfinished { op } => reason.say(
            "operator {} is at frame {}, and slices of an earlier Z have not started: send this line when they have",
            &[
                GapText::Words(name_at(plant, op)),
                GapText::Number(frame_of(core, op)),
            ],
        ),
        ResliceFault::SlicesMeet { a, b } => say_slices_meet(reason, plant, asked, a, b),
        ResliceFault::OffFrame { op } | ResliceFault::BudgetOverSlice { op } => {
            say_row(reason, plant, op, row_at(asked, op), fault);
        }
        ResliceFault::Unfit { .. } => reason.say("a budget is too small", &[]),
    }
}

/// Says why a step is refused.
fn say_core(reason: &mut Reason, core: &mut LiveCore, asked: &Asked, fault: CoreFault) {
    match fault {
        CoreFault::NoMemory => reason.is_lost = true,
        CoreFault::Reslice(ResliceFault::Unfit { op }) => say_unfit(reason, core, asked, op),
        CoreFault::Reslice(fault) => say_reslice(reason, core, asked, fault),
        CoreFault::Book(BookFault::FramesSpent) => reason.say(
            "operator {} is at frame 4294967295, the last one: no tick can follow",
            &[GapText::Words(name_at(core.plant(), asked.op))],
        ),
        _ => reason.say("the step is refused", &[]),
    }
}

/// Runs steps up to the first that is refused. Returns the number of its line, and the reason says why.
fn first_refused(reason: &mut Reason, core: &mut LiveCore, steps: Vec<LineStep>) -> u64 {
    let mut outs = Vec::new(reason.alloc);
    for LineStep {
        number,
        step,
        place: _,
    } in steps {
        let asked = asked_of(reason, &step);
        if let Err(fault) = core.step_over(reason.alloc, step, &mut outs) {
            say_core(reason, core, &asked, fault);
            return number;
        }
    }
    0
}

/// Runs the steps on the plant's core. Returns the number of the line of the first that is refused, and the reason says why.
pub(crate) fn refused_of(reason: &mut Reason, plant: Plant, steps: Vec<LineStep>) -> u64 {
    match LiveCore::open(reason.alloc, plant) {
        Ok(mut core) => first_refused(reason, &mut core, steps),
        Err(_full) => {
            reason.is_lost = true;
            0
        }
    }
}
