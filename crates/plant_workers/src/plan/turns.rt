//! Where in its operator's history each step of a run is due.

ghost use Rattle.std.specs.Prelude.{◌≡◌, ◌+◌, ◌<◌, ◌++◌, [], ◌∷◌, length, take, slice_get, unwrap_or, Some, ◌↔◌, IsTrue, OnOk, IfOk};
ghost use Rattle.plant.specs.Roster.{holder};
ghost use Rattle.plant.specs.declared.operator_row.RowFields.{RowFields};
ghost use Rattle.run_model.specs.declared.step.Step.{Step};
ghost use Rattle.plant_workers.specs.audit.Taken.{waiting_operator};
ghost use Rattle.plant_workers.specs.plan.Turns.{IsTurn, AreTurns};
ghost use Rattle.plant_workers.specs.plan.Courses.{IsCourse, IsOwnTurn, AreNewCourses, AreCourses};

use crate::audit::waiting_operator;
use dsx_messages::Modem;
use plant::{Op, Plant};
use run_model::Step;
use std::alloc::{AllocError, Global};

/// How far an operator has come.
#[derive(Drop)]
struct Course {
    /// How many actions of its own there were.
    pub actions: usize,
    /// How many there were right after each of its Ticks.
    pub behind: Vec<usize>,
    /// How many of its frames were collected.
    pub collects: usize,
}

impl Course {
    /// Goes on by an action that is not a Tick: its place.
    fn act(&mut self) -> usize
        requires { self.old.actions < usize.MAX }
        ensures place { result ≡ self.old.actions }
        ensures course { self.new ≡ record self.old { actions = self.old.actions + 1 } }
    {
        let place = self.actions;
        self.actions += 1;
        place
    }

    /// Goes on by a Tick: its place.
    fn tick(&mut self) -> Result<usize, AllocError>
        requires { self.old.actions < usize.MAX }
        ensures place { IfOk result (λ place. place ≡ self.old.actions) }
        ensures actions { OnOk result (self.new.actions ≡ self.old.actions + 1) }
        ensures collects { OnOk result (self.new.collects ≡ self.old.collects) }
        ensures behind { OnOk result
            (self.new.behind.items ≡ self.old.behind.items ++ (self.old.actions + 1) ∷ []) }
    {
        self.behind.push(self.actions + 1)?;
        Ok(self.act())
    }

    /// Goes on by a collection. Returns the action after which it is due, or 0 where there is not a
    /// Tick for it.
    fn collect(&mut self) -> usize
        requires { self.old.collects < usize.MAX }
        ensures turn { result ≡ unwrap_or (slice_get self.old.behind.items self.old.collects) 0 }
        ensures course { self.new ≡ record self.old { collects = self.old.collects + 1 } }
    {
        let turn = self.behind.get(self.collects).copied().unwrap_or(0);
        self.collects += 1;
        turn
    }
}

/// Returns whether a modem is of this operator.
fn is_of(plant: &Plant, modem: Modem, op: Op) -> bool
    ensures { IsTrue result ↔ (holder plant.now.rows modem ≡ Some op) }
{
    plant.operator_of(modem) == Some(op)
}

/// Returns the turn of the step at a place, if it is a step of this operator, and counts it.
fn turn_of(
    plant: &Plant,
    op: Op,
    course: &mut Course,
    steps: &[Step],
    at: usize,
) -> Result<Option<usize>, AllocError>
    requires within { at < length steps.now }
    requires room { at < usize.MAX }
    requires known { op < length plant.now.rows }
    requires course { (row : RowFields) → slice_get plant.now.rows op ≡ Some row
        → IsCourse row op (take at steps.now) course.old }
    ensures turn { IfOk result (λ turn. (row : RowFields) (step : Step) → slice_get plant.now.rows op ≡ Some row
        → slice_get steps.now at ≡ Some step → IsOwnTurn plant.now row op (take at steps.now) step turn) }
    ensures course { OnOk result ((row : RowFields) → slice_get plant.now.rows op ≡ Some row
        → IsCourse row op (take (at + 1) steps.now) course.new) }
{
    // For the proof: a plant is valid, so a modem is listed by one operator only.
    let _rows = plant.rows();
    match &steps[at] {
        Step::Arrive { modem, heard: _ } => {
            if is_of(plant, *modem, op) {
                Ok(Some(course.act()))
            } else {
                Ok(None)
            }
        }
        Step::Work { op: other } => {
            if *other == op {
                Ok(Some(course.act()))
            } else {
                Ok(None)
            }
        }
        Step::Tick { op: other } => {
            if *other == op {
                Ok(Some(course.tick()?))
            } else {
                Ok(None)
            }
        }
        Step::Collect { op: other } => {
            if *other == op {
                Ok(Some(course.collect()))
            } else {
                Ok(None)
            }
        }
        Step::Reslice { from: _, rows } => {
            if op < rows.as_slice().len() {
                course.act();
            }
            Ok(None)
        }
    }
}

/// Makes the courses of so many operators that have not begun.
fn new_courses(alloc: Global, operators: usize) -> Result<Vec<Course>, AllocError>
    ensures { IfOk result (λ courses. AreNewCourses operators courses.items) }
{
    let mut courses = Vec::with_capacity(alloc, operators)?;
    for op in 0..operators {
        courses.push(Course {
            actions: 0,
            behind: Vec::new(alloc),
            collects: 0,
        })?;
    }
    Ok(courses)
}

/// Has each operator go on by the step at a place, which waits for no place of a history.
fn pass_all(
    plant: &Plant,
    courses: &mut [Course],
    steps: &[Step],
    at: usize,
) -> Result<(), AllocError>
    requires within { at < length steps.now }
    requires room { at < usize.MAX }
    requires courses { AreCourses plant.now (take at steps.now) courses.old }
    ensures { OnOk result (AreCourses plant.now (take (at + 1) steps.now) courses.new) }
{
    for op in 0..courses.len() {
        turn_of(plant, op, &mut courses[op], steps, at)?;
    }
    Ok(())
}

/// Returns the turn of the step at a place, which is a step of this operator, and counts it.
fn own_turn(
    plant: &Plant,
    op: Op,
    courses: &mut [Course],
    steps: &[Step],
    at: usize,
) -> Result<usize, AllocError>
    requires within { at < length steps.now }
    requires room { at < usize.MAX }
    requires own { (step : Step) → slice_get steps.now at ≡ Some step → waiting_operator plant.now step ≡ Some op }
    requires courses { AreCourses plant.now (take at steps.now) courses.old }
    ensures turn { IfOk result (λ turn. (step : Step) → slice_get steps.now at ≡ Some step
        → IsTurn plant.now (take at steps.now) step turn) }
    ensures courses { OnOk result (AreCourses plant.now (take (at + 1) steps.now) courses.new) }
{
    // For the proof: a plant is valid, so a modem is listed by one operator only.
    let _rows = plant.rows();
    if op >= courses.len() {
        return Ok(0);
    }
    match turn_of(plant, op, &mut courses[op], steps, at)? {
        Some(turn) => Ok(turn),
        None => Ok(0),
    }
}

/// Returns the turn of the step at a place, and counts it. The operator is looked up once.
fn next_turn(
    plant: &Plant,
    courses: &mut [Course],
    steps: &[Step],
    at: usize,
) -> Result<usize, AllocError>
    requires within { at < length steps.now }
    requires room { at < usize.MAX }
    requires courses { AreCourses plant.now (take at steps.now) courses.old }
    ensures turn { IfOk result (λ turn. (step : Step) → slice_get steps.now at ≡ Some step
        → IsTurn plant.now (take at steps.now) step turn) }
    ensures courses { OnOk result (AreCourses plant.now (take (at + 1) steps.now) courses.new) }
{
    match waiting_operator(plant, &steps[at]) {
        Some(op) => own_turn(plant, op, courses, steps, at),
        None => {
            pass_all(plant, courses, steps, at)?;
            Ok(0)
        }
    }
}

/// Returns at which place of its operator's history each step is due: an Arrive, a Work or a Tick
/// after all of the operator's own actions before it, slice changes among them, and a Collect after
/// the Tick whose frame it takes. 0 for a `Reslice`, which is of all operators. Takes time in
/// proportion to the steps, and for each `Reslice` in proportion to the operators.
pub fn turns_of(alloc: Global, plant: &Plant, steps: &[Step]) -> Result<Vec<usize>, AllocError>
    ensures { IfOk result (λ turns. AreTurns plant.now steps.now turns.items) }
{
    let mut courses = new_courses(alloc, plant.rows().len())?;
    let mut turns = Vec::with_capacity(alloc, steps.len())?;
    for at in 0..steps.len() {
        let turn = next_turn(plant, courses.as_mut_slice(), steps, at)?;
        turns.push(turn)?;
    }
    Ok(turns)
}
