//! Parts that wait for their frame's MAP.

ghost use Rattle.std.specs.Prelude.{◌≡◌, ℕ, ◌<◌, [], ◌∷◌, ◌++◌, nat_lt, length, drop, List, slice_get, OnOk, IfErr};
ghost use Rattle.std.specs.List.{list_all};
ghost use Rattle.std.specs.Option.{option_copied};
ghost use Rattle.slice_scheduler.specs.declared.elements.ElementsFields.{ElementsFields};
ghost use Rattle.map_assembly.specs.Gathering.{is_whole, part_at, queue_of, front_or};

use plant::Op;
use slice_scheduler::Elements;
use std::alloc::Global;
use std::collections::VecDeque;
use std::marker::Model;

/// The parts of an operator that are in no MAP yet, frame by frame. Contracts see their list.
#[derive(Debug, Drop)]
pub struct Queue {
    parts: VecDeque<Elements>,
    /// The operator's last part whose MAP is made, which is kept for its memory.
    spent: Option<Elements>,
}

impl Model for Queue {
    ghost use Rattle.std.specs.Prelude.{List};
    ghost use Rattle.slice_scheduler.specs.declared.elements.ElementsFields.{ElementsFields};

    ghost Value = { List ElementsFields };

    ghost view = { λ q. q.parts.items };
}

impl Queue {
    /// Creates the empty queue of an operator that has put no part.
    pub(crate) fn new(alloc: Global) -> Queue
        ensures { result ≡ [] }
    {
        Queue {
            parts: VecDeque::new(alloc),
            spent: None,
        }
    }

    /// Returns how many parts there are.
    pub(crate) fn len(&self) -> usize
        ensures { result ≡ length self.now }
    {
        self.parts.len()
    }

    /// Returns the part of the earliest frame, else this one.
    fn front_or<'a>(&'a self, part: &'a Elements) -> &'a Elements
        ensures { result.now ≡ front_or part.now self.now }
    {
        match self.parts.front() {
            Some(front) => front,
            None => part,
        }
    }

    /// Adds the part of a frame. Where no memory is left, hands it back, and nothing has changed.
    pub(crate) fn push(&mut self, part: Elements) -> Result<(), Elements>
        ensures ok { OnOk result (self.new ≡ self.old ++ part ∷ []) }
        ensures err { IfErr result (λ back. (back ≡ part) × (self.new ≡ self.old)) }
    {
        match self.parts.push_back(part) {
            Ok(()) => Ok(()),
            Err(failed) => Err(failed.value),
        }
    }

    /// Takes the part of the earliest frame out, if there is one, and keeps its memory.
    pub(crate) fn drop_front(&mut self)
        ensures { self.new ≡ drop 1 self.old }
    {
        let front = self.parts.pop_front();
        if front.is_some() {
            self.spent = front;
        }
    }

    /// Returns the last part whose MAP is made, if it is kept. The parts that wait stay as they are.
    pub(crate) fn take_spent(&mut self) -> Option<Elements>
        ensures { self.new ≡ self.old }
    {
        self.spent.take()
    }

    /// Keeps a part whose MAP is made for its memory. The parts that wait stay as they are.
    pub(crate) fn keep_spent(&mut self, part: Elements)
        ensures { self.new ≡ self.old }
    {
        self.spent = Some(part);
    }
}

/// Returns whether each of these operators has put a part.
pub(crate) fn is_whole(queues: &[Queue]) -> bool
    ensures { result ≡ is_whole queues.now }
{
    queues.iter().all(|queue| queue.len() > 0)
}

/// Returns an operator's part of the frame whose last part is this one of `op`.
pub(crate) fn part_at<'a>(queues: &'a [Queue], op: Op, part: &'a Elements, k: usize) -> &'a Elements
    ensures { result.now ≡ part_at queues.now op part.now k }
{
    if k == op {
        return part;
    }
    match queues.get(k) {
        Some(queue) => queue.front_or(part),
        None => part,
    }
}
