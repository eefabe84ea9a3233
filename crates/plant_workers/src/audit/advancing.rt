//! Whether operators' histories follow the steps of a run, in one walk over the steps, and which is the first that does not.

ghost use Rattle.std.specs.Prelude.{◌≡◌, ◌+◌, ◌<◌, [], length, map, take, slice_get, is_some, Some, IsTrue, MatchOption};
ghost use Rattle.plant.specs.declared.operator_row.RowFields.{RowFields};
ghost use Rattle.operator_model.specs.declared.action.Action.{Action};
ghost use Rattle.operator_model.specs.Replay.{actions_of};
ghost use Rattle.operator_book.specs.ViewOf.{view_of};
ghost use Rattle.run_model.specs.declared.step.Step.{Step};
ghost use Rattle.run_model.specs.OwnSteps.{action_of};
ghost use Rattle.plant_workers.specs.audit.Taken.{taken_by, waiting_operator};
ghost use Rattle.plant_workers.specs.audit.Straying.{AreOwnRuns, IsStrayHistory};
ghost use Rattle.plant_workers.specs.audit.Advancing.{Advances, HaveAdvanced, EndsAt, AllEndAt};

use crate::audit::counting::MOST_OPERATORS;
use crate::audit::following::{is_next, is_own, stray_at, waiting_operator};
use operator_book::Book;
use operator_model::Entry;
use plant::{Op, Plant, are_same_consts, is_same_row};
use run_model::Step;

/// Returns whether a step, taken as an operator's own, is an action of it.
fn is_taken(op: Op, step: &Step) -> bool
    ensures { result ≡ is_some (taken_by op step.now) }
{
    match step {
        Step::Arrive { modem: _, heard: _ } | Step::Work { op: _ } | Step::Tick { op: _ } => true,
        Step::Collect { op: _ } => false,
        Step::Reslice { from: _, rows } => match rows.as_slice().get(op) {
            Some(_) => true,
            None => false,
        },
    }
}

/// Moves an operator's place past the next action of its history, if that is what a step is, taken as its own. Returns whether
/// it is.
fn advance_past(op: Op, step: &Step, history: &[Entry], place: &mut usize) -> bool
    ensures { IsTrue result → (action : Action) → taken_by op step.now ≡ Some action
        → Advances (actions_of history.now) (Some action) place.old place.new }
{
    if !is_next(op, step, history, *place) {
        return false;
    }
    *place += 1;
    true
}

/// Advances an operator by a step, if the step is its own. Returns whether its history follows.
fn advance(plant: &Plant, op: Op, step: &Step, history: &[Entry], place: &mut usize) -> bool
    ensures { IsTrue result → (row : RowFields) → slice_get plant.now.rows op ≡ Some row
        → Advances (actions_of history.now) (action_of row op step.now) place.old place.new }
{
    if !is_own(plant, op, step) {
        return true;
    }
    advance_past(op, step, history, place)
}

/// Advances the operator in whose history the step at a place waits, and no other. Returns whether its history follows.
fn advance_own(
    plant: &Plant,
    op: Op,
    books: &[Book],
    places: &mut [usize],
    steps: &[Step],
    at: usize,
) -> bool
    requires within { at < length steps.now }
    requires one_each { length books.now ≡ length plant.now.rows }
    requires own { (step : Step) → slice_get steps.now at ≡ Some step → waiting_operator plant.now step ≡ Some op }
    requires before { HaveAdvanced plant.now (map view_of books.now) (take at steps.now) places.old }
    ensures { IsTrue result → HaveAdvanced plant.now (map view_of books.now) (take (at + 1) steps.now) places.new }
{
    // For the proof: a plant is valid, so a modem is listed by one operator only.
    let _rows = plant.rows();
    let step = &steps[at];
    if op >= books.len() || !is_taken(op, step) {
        return true;
    }
    advance_past(op, step, books[op].history(), &mut places[op])
}

/// Advances each operator by the step at a place. Returns whether all histories follow.
fn advance_all(
    plant: &Plant,
    books: &[Book],
    places: &mut [usize],
    steps: &[Step],
    at: usize,
) -> bool
    requires within { at < length steps.now }
    requires one_each { length books.now ≡ length plant.now.rows }
    requires before { HaveAdvanced plant.now (map view_of books.now) (take at steps.now) places.old }
    ensures { IsTrue result → HaveAdvanced plant.now (map view_of books.now) (take (at + 1) steps.now) places.new }
{
    for op in 0..books.len() {
        if !advance(plant, op, &steps[at], books[op].history(), &mut places[op]) {
            return false;
        }
    }
    true
}

/// Advances the operators by the step at a place. Its operator is looked up, and it alone advances. Returns whether the
/// histories follow.
fn advance_by(
    plant: &Plant,
    books: &[Book],
    places: &mut [usize],
    steps: &[Step],
    at: usize,
) -> bool
    requires within { at < length steps.now }
    requires one_each { length books.now ≡ length plant.now.rows }
    requires before { HaveAdvanced plant.now (map view_of books.now) (take at steps.now) places.old }
    ensures { IsTrue result → HaveAdvanced plant.now (map view_of books.now) (take (at + 1) steps.now) places.new }
{
    match waiting_operator(plant, &steps[at]) {
        Some(op) => advance_own(plant, op, books, places, steps, at),
        None => advance_all(plant, books, places, steps, at),
    }
}

/// Advances the operators by all steps. Returns whether the histories follow.
fn advance_to_the_end(plant: &Plant, books: &[Book], places: &mut [usize], steps: &[Step]) -> bool
    requires one_each { length books.now ≡ length plant.now.rows }
    requires begin { HaveAdvanced plant.now (map view_of books.now) [] places.old }
    ensures { IsTrue result → HaveAdvanced plant.now (map view_of books.now) steps.now places.new }
{
    for at in 0..steps.len() {
        if !advance_by(plant, books, places, steps, at) {
            return false;
        }
    }
    true
}

/// Returns whether a book is of an operator's row and of the plant's constants, and its history ends at a place.
fn ends_at(plant: &Plant, op: Op, book: &Book, place: usize) -> bool
    requires { op < length plant.now.rows }
    ensures { IsTrue result → (row : RowFields) → slice_get plant.now.rows op ≡ Some row
        → EndsAt plant.now row (view_of book.now) place }
{
    // For the proof: the state of the book is the replay of its history.
    book.always_replayed();
    is_same_row(book.row(), &plant.rows()[op])
        && are_same_consts(book.consts(), plant.consts())
        && book.history().len() <= place
}

/// Returns whether each book is of its operator's row and of the plant's constants, and its history ends at its place.
fn all_end_at(plant: &Plant, books: &[Book], places: &[usize]) -> bool
    requires one_each { length books.now ≡ length plant.now.rows }
    requires places { length places.now ≡ length plant.now.rows }
    ensures { IsTrue result → AllEndAt plant.now (map view_of books.now) places.now }
{
    for (op, book) in books.iter().enumerate() {
        if !ends_at(plant, op, book, places[op]) {
            return false;
        }
    }
    true
}

/// Returns whether each operator's book is what its own machine makes of its own steps. Takes no memory, and time in
/// proportion to the steps, and for each `Reslice` in proportion to the operators.
fn all_follow(plant: &Plant, books: &[Book], steps: &[Step]) -> bool
    requires { length books.now ≡ length plant.now.rows }
    ensures { IsTrue result → AreOwnRuns plant.now steps.now (map view_of books.now) }
{
    let operators = plant.rows().len();
    let mut places = [0; MOST_OPERATORS];
    let places = &mut places[..operators];
    advance_to_the_end(plant, books, places, steps) && all_end_at(plant, books, places)
}

/// Returns the least operator whose history strays, and where it does. It is looked for operator by operator only if there is one.
pub(crate) fn first_stray(plant: &Plant, books: &[Book], steps: &[Step]) -> Option<(Op, usize)>
    requires { length books.now ≡ length plant.now.rows }
    ensures { MatchOption result (AreOwnRuns plant.now steps.now (map view_of books.now))
        (λ stray. IsStrayHistory plant.now steps.now (map view_of books.now) stray.0 stray.1) }
{
    if all_follow(plant, books, steps) {
        return None;
    }
    for (op, book) in books.iter().enumerate() {
        if let Some(index) = stray_at(plant, op, book, steps) {
            return Some((op, index));
        }
    }
    None
}
