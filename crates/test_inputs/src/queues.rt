//! Queues of several operators in which nothing waits.

ghost use Rattle.std.specs.Prelude.{◌≡◌, [], All, IfSome};

use fair_queue::{FairQueue, OperatorQueue, OwnerQueue};
use line_intake::Intake;
use std::alloc::Global;

/// The most bytes of an operator's lines that wait: room for a line of the greatest length, and for little else.
pub(crate) const MOST_BYTES: usize = 5000;

/// Returns queues of so many operators, each with this limit.
fn queues_of(alloc: Global, operators: usize, limit: u64) -> Option<Vec<OperatorQueue>>
    ensures { IfSome result (λ queues. All (λ q. q.items ≡ []) queues.items) }
{
    let mut queues = Vec::with_capacity(alloc, operators).ok()?;
    for _ in 0..operators {
        let Ok(queue) = OperatorQueue::new(alloc, limit, MOST_BYTES, 0, 0) else {
            return None;
        };
        let Ok(()) = queues.push(queue) else {
            return None;
        };
    }
    Some(queues)
}

/// Returns an intake of so many operators, each with this limit.
pub(crate) fn intake_of(alloc: Global, operators: usize, limit: u64) -> Option<Intake> {
    let queues = queues_of(alloc, operators, limit)?;
    let queue = FairQueue::new(OwnerQueue::new(alloc, MOST_BYTES, 0), queues);
    Intake::new(alloc, queue).ok()
}
