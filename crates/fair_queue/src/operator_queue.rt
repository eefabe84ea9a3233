//! The queue of an operator.

ghost use Rattle.std.specs.Prelude.{◌≡◌, ◌<◌, ◌≤◌, ◌+◌, ◌↔◌, true, IsTrue, IsErr, OnOk, OnErr, IfOk, length, min, slice_get, Some, if◌then◌else◌};
ghost use Rattle.fair_queue.specs.declared.line.Item.TheVariants as items;
ghost use Rattle.fair_queue.specs.Items.{waiting_bytes, own_lines, owner_places, owner_place, begins_with_line, opened_queue, MayChoose, IsCutOut};
ghost use Rattle.fair_queue.specs.Runs.{IsArrival, IsTaken, IsPassed};

use crate::line::{InputCounts, Item, Line, NumberedLine, next_number};
use std::alloc::{AllocError, Global};
use std::collections::VecDeque;
use std::marker::Model;

/// Says that a queue was to be opened of which no line may be chosen: the operator would never be served.
#[derive(Clone, Copy, Debug, PartialEq, Eq)]
pub struct ZeroLimit;

/// Holds the lines of an operator that wait, with the marks of the owner's lines that wait among them.
#[derive(Drop)]
pub struct OperatorQueue {
    items: VecDeque<Item>,
    chosen: u64,
    limit: u64,
    lines: usize,
    bytes: usize,
    most_bytes: usize,
    taken: u64,
}

impl Model for OperatorQueue {
    ghost use Rattle.std.specs.Prelude.{◌≡◌, ◌≤◌, ◌<◌, length};
    ghost use Rattle.fair_queue.specs.Items.{QueueView, waiting_bytes, own_lines};

    ghost Value = { QueueView };

    ghost view = { λ q. record {
      items = q.items.items;
      chosen = q.chosen;
      limit = q.limit;
      most_bytes = q.most_bytes;
      taken = q.taken;
    } };

    ghost invariant = { λ q. (q.bytes ≡ waiting_bytes q.items.items) × (q.bytes ≤ q.most_bytes) × (q.chosen ≤ q.limit)
        × (q.lines ≡ length (own_lines q.items.items)) × (0 < q.limit) };
}

/// Returns how many lines were chosen since the last tick, once a line of the owner is chosen.
fn count_after(chosen: u64, is_tick: bool) -> u64
    ensures { result ≡ if is_tick then 0 else chosen }
{
    if is_tick { 0 } else { chosen }
}

impl OperatorQueue {
    /// Returns an empty queue of which at most `limit` lines are chosen between two ticks, and in which at most `most_bytes` wait. So
    /// many lines were chosen before this start: `taken` in all, and `chosen` since the last tick.
    pub fn new(
        alloc: Global,
        limit: u64,
        most_bytes: usize,
        taken: u64,
        chosen: u64,
    ) -> Result<OperatorQueue, ZeroLimit>
        ensures ok { IfOk result (λ q. q ≡ opened_queue limit most_bytes taken (min chosen limit)) }
        ensures err { IsErr result ↔ (limit ≡ 0) }
    {
        if limit == 0 {
            return Err(ZeroLimit);
        }
        Ok(OperatorQueue {
            items: VecDeque::new(alloc),
            chosen: chosen.min(limit),
            limit,
            lines: 0,
            bytes: 0,
            most_bytes,
            taken,
        })
    }

    /// Returns the counts of the operator's lines. The bytes that wait are at most as many as may.
    pub fn counts(&self) -> InputCounts
        ensures taken { result.taken ≡ self.now.taken }
        ensures waiting { result.waiting ≡ length (own_lines self.now.items) }
        ensures bytes { result.bytes ≡ waiting_bytes self.now.items }
        ensures most { result.bytes ≤ self.now.most_bytes }
    {
        InputCounts {
            taken: self.taken,
            waiting: self.lines,
            bytes: self.bytes,
        }
    }

    /// Returns whether there is room for a line of so many bytes.
    pub fn has_room(&self, bytes: usize) -> bool
        ensures { IsTrue result ↔ (waiting_bytes self.now.items + bytes < self.now.most_bytes) }
    {
        bytes < self.most_bytes - self.bytes
    }

    /// Puts a line after all that waits. If memory runs out, the queue is as it was.
    #[tactic(auto, using(crate::proofs::ItemLemmas::bytes_more, crate::proofs::ItemLemmas::lines_more, crate::proofs::ItemLemmas::lines_few))]
    pub fn offer(&mut self, line: Line) -> Result<(), AllocError>
        requires room { waiting_bytes self.old.items + length line < self.old.most_bytes }
        ensures ok { OnOk result (IsArrival (items.Line line) self.old self.new) }
        ensures err { OnErr result (self.new ≡ self.old) }
    {
        let bytes = line.bytes().len() + 1;
        self.items
            .push_back(Item::Line(line))
            .map_err(AllocError::from)?;
        self.bytes += bytes;
        self.lines += 1;
        Ok(())
    }

    /// Puts the mark of a line of the owner after all that waits. If memory runs out, the queue is as it was.
    #[tactic(auto, using(crate::proofs::ItemLemmas::bytes_more, crate::proofs::ItemLemmas::lines_more))]
    pub fn mark(&mut self, is_tick: bool) -> Result<(), AllocError>
        ensures ok { OnOk result (IsArrival (items.Owner is_tick) self.old self.new) }
        ensures err { OnErr result (self.new ≡ self.old) }
    {
        self.items
            .push_back(Item::Owner { is_tick })
            .map_err(AllocError::from)?;
        Ok(())
    }

    /// Returns whether the first line may be chosen.
    pub fn is_ready(&self) -> bool
        ensures { IsTrue result ↔ MayChoose self.now }
    {
        if self.chosen >= self.limit {
            return false;
        }
        match self.items.front() {
            Some(item) => item.is_line(),
            None => false,
        }
    }

    /// Returns whether a line is first that the limit holds back until the next tick.
    pub fn is_held_back(&self) -> bool
        // A line is first, and the limit is reached.
        ensures { IsTrue result ↔ ((begins_with_line self.now.items ≡ true) × (self.now.limit ≤ self.now.chosen)) }
    {
        if self.chosen < self.limit {
            return false;
        }
        match self.items.front() {
            Some(item) => item.is_line(),
            None => false,
        }
    }

    /// Takes the first line out, and counts it. It is chosen.
    pub fn choose(&mut self) -> NumberedLine
        requires { MayChoose self.old }
        ensures taken { IsTaken result.line self.old self.new }
        ensures number { result.number ≡ self.new.taken }
    {
        match self.items.pop_front() {
            Some(Item::Line(line)) => {
                self.bytes -= line.bytes().len() + 1;
                self.lines -= 1;
                self.chosen += 1;
                self.taken = next_number(self.taken);
                NumberedLine {
                    number: self.taken,
                    line,
                }
            }
            _ => unreachable!(),
        }
    }

    /// Passes the first mark of the owner, whose line is chosen. The lines before it, which the limit holds back, stay first.
    pub fn pass(&mut self, is_tick: bool)
        requires none { MayChoose self.old → ⊥ }
        requires first { slice_get (owner_places self.old.items) 0 ≡ Some is_tick }
        ensures { IsPassed is_tick self.old self.new }
    {
        remove_mark(&mut self.items, is_tick);
        self.chosen = count_after(self.chosen, is_tick);
    }
}

/// Takes the first mark of the owner out.
fn remove_mark(items: &mut VecDeque<Item>, is_tick: bool)
    requires { slice_get (owner_places items.old.items) 0 ≡ Some is_tick }
    ensures { IsCutOut is_tick items.old.items items.new.items }
{
    let place = mark_place(items);
    match items.remove(place) {
        Some(_passed) => {}
        None => unreachable!(),
    }
}

/// Returns where the first mark of the owner is, or how many items there are if there is none.
fn mark_place(items: &VecDeque<Item>) -> usize
    ensures { result ≡ owner_place items.now.items }
{
    for place in 0..items.len() {
        if !items[place].is_line() {
            return place;
        }
    }
    items.len()
}
