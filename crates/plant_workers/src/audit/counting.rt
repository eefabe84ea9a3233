//! How often each operator's frames are collected and how often it ticks, in one walk over the steps.

ghost use Rattle.std.specs.Prelude.{◌≡◌, ◌↔◌, [], IsTrue};
ghost use Rattle.run_model.specs.OwnSteps.{is_collect, collects_of};
ghost use Rattle.plant_workers.specs.audit.Counting.{AreCountsOf};
ghost use Rattle.plant_workers.specs.audit.Outcome.{AreTicked, is_tick_of};

use plant::{Op, Plant};
use run_model::Step;

/// The most operators that a plant has.
pub(crate) const MOST_OPERATORS: usize = 32;

/// Returns whether a step collects a frame of this operator.
fn is_collect(op: Op, step: &Step) -> bool
    ensures { result ≡ is_collect op step.now }
{
    match step {
        Step::Collect { op: other } => *other == op,
        Step::Arrive { modem: _, heard: _ }
        | Step::Work { op: _ }
        | Step::Tick { op: _ }
        | Step::Reslice { from: _, rows: _ } => false,
    }
}

/// Returns how often an operator's frames are collected.
pub(crate) fn count_collects(op: Op, steps: &[Step]) -> usize
    ensures { result ≡ collects_of op steps.now }
{
    steps.iter().filter(|step| is_collect(op, step)).count()
}

/// Counts how often each operator's frames are collected, in one walk over the steps. The counts are 0 before.
pub(crate) fn count_all_collects(counts: &mut [usize], steps: &[Step])
    requires { AreCountsOf is_collect [] counts.old }
    ensures { AreCountsOf is_collect steps.now counts.new }
{
    for at in 0..steps.len() {
        if let Step::Collect { op } = &steps[at] {
            if *op < counts.len() {
                counts[*op] += 1;
            }
        }
    }
}

/// Returns how often an operator's frames are collected, as the counts say if it is one of them.
pub(crate) fn collects_of(counts: &[usize], op: Op, steps: &[Step]) -> usize
    requires { AreCountsOf is_collect steps.now counts.now }
    ensures { result ≡ collects_of op steps.now }
{
    match counts.get(op) {
        Some(count) => *count,
        None => count_collects(op, steps),
    }
}

/// Counts how often each operator ticks, in one walk over the steps. The counts are 0 before.
fn count_all_ticks(counts: &mut [usize], steps: &[Step])
    requires { AreCountsOf is_tick_of [] counts.old }
    ensures { AreCountsOf is_tick_of steps.now counts.new }
{
    for at in 0..steps.len() {
        if let Step::Tick { op } = &steps[at] {
            if *op < counts.len() {
                counts[*op] += 1;
            }
        }
    }
}

/// Returns whether no operator's frames are collected more often than it ticks. What `compare` asks
/// for.
pub fn are_ticked(plant: &Plant, steps: &[Step]) -> bool
    ensures { IsTrue result ↔ AreTicked plant.now steps.now }
{
    let mut ticks = [0; MOST_OPERATORS];
    let mut collects = [0; MOST_OPERATORS];
    count_all_ticks(&mut ticks, steps);
    count_all_collects(&mut collects, steps);
    for op in 0..plant.rows().len() {
        if ticks[op] < collects[op] {
            return false;
        }
    }
    true
}
