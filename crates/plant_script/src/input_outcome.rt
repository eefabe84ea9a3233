//! What is done for an input.

ghost use Rattle.std.proofs.Props.{props};
ghost use Rattle.line_service.specs.script.Script.{ArePlaced};

use crate::answer::Answer;
use command_line::RunReport;
use line_service::LineStep;
use plant::{Op, Plant};

/// The run of a script on a plant, and what is printed of it. The type keeps that what arrives is placed at the operator that lists
/// its modem.
#[derive(Drop)]
pub struct Task {
    pub plant: Plant,
    /// The steps of the script.
    pub lines: Vec<LineStep>,
    /// What is printed. An operator is stated by its place in the plant.
    pub report: RunReport<Op>,
    ghost placed: { ArePlaced plant lines.items } by { Prim.hlevel props },
}

/// What is done for an input.
#[derive(Drop)]
pub enum InputOutcome {
    /// It is answered.
    Answer(Answer),
    /// A run answers it.
    Task(Task),
    /// A run on threads answers it: of a plant, and the steps of a script.
    Threads { plant: Plant, lines: Vec<LineStep> },
}
