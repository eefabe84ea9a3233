//! Whether operators' histories follow the steps of a run.

ghost use Rattle.std.specs.Prelude.{◌≡◌, ◌↔◌, ◌<◌, length, IsTrue, is_some, Some, slice_get, MatchOption};
ghost use Rattle.plant.specs.Row.{is_listed};
ghost use Rattle.operator_model.specs.declared.action.Action.{Action};
ghost use Rattle.plant.specs.declared.operator_row.RowFields.{RowFields};
ghost use Rattle.operator_model.specs.Replay.{actions_of};
ghost use Rattle.operator_book.specs.ViewOf.{view_of};
ghost use Rattle.run_model.specs.OwnSteps.{action_of, own_steps};
ghost use Rattle.run_model.specs.IsStateAfter.{IsBookAfter};
ghost use Rattle.plant_workers.specs.audit.Straying.{DifferFirst, HistoryStraysAt};
ghost use Rattle.plant_workers.specs.audit.Taken.{taken_by, waiting_operator};

use crate::receipts::is_same_heard;
use dsx_messages::Modem;
use operator_book::Book;
use operator_model::{Action, Entry};
use plant::{Op, Plant, are_same_consts, is_same_row};
use run_model::Step;

/// Returns whether a modem is of this operator.
fn is_of(plant: &Plant, modem: Modem, op: Op) -> bool
    ensures { (row : RowFields) → slice_get plant.now.rows op ≡ Some row → result ≡ is_listed modem row.modems }
{
    // For the proof: a plant is valid, so a modem is listed by one operator only.
    let _rows = plant.rows();
    match plant.operator_of(modem) {
        Some(other) => other == op,
        None => false,
    }
}

/// Returns whether a step is one of this operator's own.
pub(crate) fn is_own(plant: &Plant, op: Op, step: &Step) -> bool
    ensures { (row : RowFields) → slice_get plant.now.rows op ≡ Some row
        → result ≡ is_some (action_of row op step.now) }
{
    match step {
        Step::Arrive { modem, heard: _ } => is_of(plant, *modem, op),
        Step::Work { op: other } | Step::Tick { op: other } => *other == op,
        Step::Collect { op: _ } => false,
        Step::Reslice { from: _, rows } => match rows.as_slice().get(op) {
            Some(_) => true,
            None => false,
        },
    }
}

/// Returns whether a step, taken as this operator's own, is this action.
fn is_action(op: Op, step: &Step, action: &Action) -> bool
    ensures { IsTrue result ↔ (taken_by op step.now ≡ Some action.now) }
{
    match (step, action) {
        (
            Step::Arrive { modem, heard },
            Action::Arrive {
                modem: other,
                heard: others,
            },
        ) => modem == other && is_same_heard(heard, others),
        (Step::Work { op: _ }, Action::Work) | (Step::Tick { op: _ }, Action::Tick) => true,
        (Step::Reslice { from, rows }, Action::Reslice { from: other, row }) => {
            from == other && rows.as_slice().get(op) == Some(row)
        }
        _ => false,
    }
}

/// Returns whether a step, taken as this operator's own, is the action at this place of the
/// history.
pub(crate) fn is_next(op: Op, step: &Step, history: &[Entry], place: usize) -> bool
    ensures value { (action : Action) → taken_by op step.now ≡ Some action
        → (IsTrue result ↔ (slice_get (actions_of history.now) place ≡ Some action)) }
    ensures within { IsTrue result → place < length history.now }
{
    match history.get(place) {
        Some(entry) => is_action(op, step, &entry.action),
        None => false,
    }
}

/// Returns the first place at which the actions of a history are not the operator's own steps.
fn first_difference(plant: &Plant, op: Op, history: &[Entry], steps: &[Step]) -> Option<usize>
    requires { op < length plant.now.rows }
    ensures { (row : RowFields) → slice_get plant.now.rows op ≡ Some row
        → MatchOption result (actions_of history.now ≡ own_steps row op steps.now)
        (DifferFirst (actions_of history.now) (own_steps row op steps.now)) }
{
    let mut place = 0;
    for step in steps {
        if is_own(plant, op, step) {
            if !is_next(op, step, history, place) {
                return Some(place);
            }
            place += 1;
        }
    }
    if place < history.len() {
        Some(place)
    } else {
        None
    }
}

/// Finds where an operator's history strays. Takes no memory.
pub fn stray_at(plant: &Plant, op: Op, book: &Book, steps: &[Step]) -> Option<usize>
    requires { op < length plant.now.rows }
    ensures { (row : RowFields) → slice_get plant.now.rows op ≡ Some row
        → MatchOption result (IsBookAfter plant.now steps.now op row (view_of book.now))
        (HistoryStraysAt plant.now steps.now op row (view_of book.now)) }
{
    // For the proof: the state and the outputs of the book are those of its actions.
    book.always_replayed();
    if !is_same_row(book.row(), &plant.rows()[op])
        || !are_same_consts(book.consts(), plant.consts())
    {
        return Some(0);
    }
    first_difference(plant, op, book.history(), steps)
}

/// Returns the operator in whose history a step waits for a place, if it waits for one.
pub fn waiting_operator(plant: &Plant, step: &Step) -> Option<Op>
    ensures { result ≡ waiting_operator plant.now step.now }
{
    match step {
        Step::Arrive { modem, heard: _ } => plant.operator_of(*modem),
        Step::Work { op } | Step::Tick { op } | Step::Collect { op } => Some(*op),
        Step::Reslice { from: _, rows: _ } => None,
    }
}
