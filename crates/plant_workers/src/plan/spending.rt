//! The first Tick past an operator's last frame number.

ghost use Rattle.std.specs.Prelude.{◌≡◌, length, MatchOption};
ghost use Rattle.plant_workers.specs.audit.Outcome.{is_tick_of};
ghost use Rattle.plant_workers.specs.receipts.Straying.{lesser};
ghost use Rattle.plant_workers.specs.plan.Spending.{IsOwnSpent, NoneSpentBefore, IsFirstSpent, is_reslice, before_reslice};

use plant::{Op, Plant};
use run_model::Step;

/// Returns whether a step is a Tick of this operator.
fn is_tick_of(op: Op, step: &Step) -> bool
    ensures { result ≡ is_tick_of op step.now }
{
    match step {
        Step::Tick { op: other } => *other == op,
        Step::Arrive { modem: _, heard: _ }
        | Step::Work { op: _ }
        | Step::Collect { op: _ }
        | Step::Reslice { from: _, rows: _ } => false,
    }
}

/// Returns the place of an operator's first Tick that has so many of its Ticks before it that no
/// frame number is left. Fewer steps than there are frame numbers left are not looked at.
fn spent_of(first_frame: u32, op: Op, steps: &[Step]) -> Option<usize>
    ensures { IsOwnSpent first_frame op steps.now result }
{
    let allowed = (u32::MAX - first_frame) as usize;
    if steps.len() <= allowed {
        return None;
    }
    let mut ticks = 0;
    for at in 0..steps.len() {
        if is_tick_of(op, &steps[at]) {
            if ticks == allowed {
                return Some(at);
            }
            ticks += 1;
        }
    }
    None
}

/// Returns the lesser of two places, where they are there.
fn lesser(a: Option<usize>, b: Option<usize>) -> Option<usize>
    ensures { result ≡ lesser a b }
{
    match (a, b) {
        (Some(a), Some(b)) => Some(a.min(b)),
        (Some(a), None) => Some(a),
        (None, b) => b,
    }
}

/// Returns the place of the first Tick that finds its operator's frame numbers spent. Takes no
/// memory. Takes time in proportion to the operators, of which there are at most 32, and to the
/// steps only where these are more than the frame numbers that are left.
pub fn first_spent(plant: &Plant, steps: &[Step]) -> Option<usize>
    ensures { MatchOption result (NoneSpentBefore plant.now steps.now (length steps.now))
        (IsFirstSpent plant.now steps.now) }
{
    let first_frame = plant.consts().get_fields().channel.first_frame;
    let mut least = None;
    for op in 0..plant.rows().len() {
        least = lesser(least, spent_of(first_frame, op, steps));
    }
    least
}

/// Returns whether a step gives new slices.
fn is_reslice(step: &Step) -> bool
    ensures { result ≡ is_reslice step.now }
{
    match step {
        Step::Reslice { from: _, rows: _ } => true,
        Step::Arrive { modem: _, heard: _ }
        | Step::Work { op: _ }
        | Step::Tick { op: _ }
        | Step::Collect { op: _ } => false,
    }
}

/// Returns the steps before the first that gives new slices. Takes no memory.
pub fn before_reslice(steps: &[Step]) -> &[Step]
    ensures { result.now ≡ before_reslice steps.now }
{
    for at in 0..steps.len() {
        if is_reslice(&steps[at]) {
            return &steps[..at];
        }
    }
    steps
}
