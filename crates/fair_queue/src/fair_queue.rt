//! The queues of all operators and of the owner, and whose line is next.

ghost use Rattle.std.specs.Prelude.{◌≡◌, ◌<◌, ◌≤◌, ◌+◌, ◌↔◌, ℕ, [], length, true, Some, slice_get, IfSome, IfNone, OnOk, OnErr, IsTrue, IsFalse, All};
ghost use Rattle.fair_queue.specs.declared.line.Item.TheVariants as items;
ghost use Rattle.fair_queue.specs.Items.{QueueView, waiting_bytes, own_lines, owner_bytes, owner_places, begins_with_line};
ghost use Rattle.fair_queue.specs.Runs.{IsArrival, IsPassed};
ghost use Rattle.fair_queue.specs.Fair.{ReadyAt, IsNextReady, NoneReady, AllAct, IsOffered, IsOwnerOffered, IsChoice, IsNothingReady};

use crate::line::{InputCounts, Line, OwnerLine};
use crate::operator_queue::OperatorQueue;
use crate::owner_queue::OwnerQueue;
use std::alloc::AllocError;
use std::marker::Model;

/// Returns the first operator from `from` on and before `to` of which a line may be chosen.
fn first_ready(queues: &[OperatorQueue], from: usize, to: usize) -> Option<usize>
    requires { to ≤ length queues.now }
    ensures some { IfSome result (λ op. (from ≤ op) × (op < to) × ReadyAt queues.now op
        × ((j : ℕ) → from ≤ j → j < op → ReadyAt queues.now j → ⊥)) }
    ensures none { IfNone result ((j : ℕ) → from ≤ j → j < to → ReadyAt queues.now j → ⊥) }
{
    for op in from..to {
        if queues[op].is_ready() {
            return Some(op);
        }
    }
    None
}

/// Returns the next operator of which a line may be chosen, from this turn on and round again.
fn next_ready(queues: &[OperatorQueue], turn: usize) -> Option<usize>
    ensures some { IfSome result (λ op. IsNextReady queues.now turn op) }
    ensures none { IfNone result (NoneReady queues.now) }
{
    if let Some(op) = first_ready(queues, turn, queues.len()) {
        return Some(op);
    }
    if turn < queues.len() {
        return first_ready(queues, 0, turn);
    }
    first_ready(queues, 0, queues.len())
}

/// Puts a mark of the owner into each queue.
fn mark_all(queues: &mut [OperatorQueue], is_tick: bool) -> Result<(), AllocError>
    ensures { OnOk result (AllAct (IsArrival (items.Owner is_tick)) queues.old queues.new) }
{
    for op in 0..queues.len() {
        queues[op].mark(is_tick)?;
    }
    Ok(())
}

/// Passes the first mark of the owner in each queue.
fn pass_all(queues: &mut [OperatorQueue], is_tick: bool)
    requires none { NoneReady queues.old }
    requires first { (op : ℕ) (q : QueueView) → slice_get queues.old op ≡ Some q
        → slice_get (owner_places q.items) 0 ≡ Some is_tick }
    ensures { AllAct (IsPassed is_tick) queues.old queues.new }
{
    let count = queues.len();
    for op in 0..count {
        queues[op].pass(is_tick);
    }
}

/// Holds the line that is chosen, with its number among the lines of its input.
#[derive(Drop)]
pub enum Choice {
    /// A line of the operator at this place.
    Operator { op: usize, number: u64, line: Line },
    /// A line of the owner.
    Owner { number: u64, line: OwnerLine },
}

/// Holds the lines of several operators and of the owner that wait.
#[derive(Drop)]
pub struct FairQueue {
    owner: OwnerQueue,
    queues: Vec<OperatorQueue>,
    turn: usize,
    is_whole: bool,
}

impl Model for FairQueue {
    ghost use Rattle.std.specs.Prelude.{◌≡◌, true};
    ghost use Rattle.fair_queue.specs.Fair.{FairView, AreInStep};

    ghost Value = { FairView };

    ghost view = { λ f. record { owner = f.owner; queues = f.queues.items; turn = f.turn; is_whole = f.is_whole } };

    ghost invariant = { λ f. f.is_whole ≡ true → AreInStep f.owner.lines f.queues.items };
}

impl FairQueue {
    /// Returns these queues, in which nothing waits.
    pub fn new(owner: OwnerQueue, queues: Vec<OperatorQueue>) -> FairQueue
        requires owner { owner.lines ≡ [] }
        requires queues { All (λ q. q.items ≡ []) queues.items }
        ensures { result ≡ record { owner = owner; queues = queues.items; turn = 0; is_whole = true } }
    {
        FairQueue {
            owner,
            queues,
            turn: 0,
            is_whole: true,
        }
    }

    /// Returns how many operators there are.
    pub fn len(&self) -> usize
        ensures { result ≡ length self.now.queues }
    {
        self.queues.len()
    }

    /// Returns the counts of this operator's lines.
    pub fn counts(&self, op: usize) -> InputCounts
        requires { op < length self.now.queues }
        ensures taken { (q : QueueView) → slice_get self.now.queues op ≡ Some q → result.taken ≡ q.taken }
        // The lines are counted that wait in the operator's queue.
        ensures waiting { (q : QueueView) → slice_get self.now.queues op ≡ Some q
            → result.waiting ≡ length (own_lines q.items) }
        ensures bytes { (q : QueueView) → slice_get self.now.queues op ≡ Some q → result.bytes ≡ waiting_bytes q.items }
    {
        self.queues[op].counts()
    }

    /// Returns the counts of the owner's lines.
    pub fn owner_counts(&self) -> InputCounts
        ensures taken { result.taken ≡ self.now.owner.taken }
        ensures waiting { result.waiting ≡ length self.now.owner.lines }
        ensures bytes { result.bytes ≡ owner_bytes self.now.owner.lines }
    {
        self.owner.counts()
    }

    /// Returns whether the limit holds back a line of this operator until the next tick.
    pub fn is_held_back(&self, op: usize) -> bool
        requires { op < length self.now.queues }
        // A line is first in the operator's queue, and the limit is reached.
        ensures { (q : QueueView) → slice_get self.now.queues op ≡ Some q → IsTrue result
            ↔ ((begins_with_line q.items ≡ true) × (q.limit ≤ q.chosen)) }
    {
        self.queues[op].is_held_back()
    }

    /// Returns whether there is room for a line of so many bytes of this operator.
    pub fn has_room(&self, op: usize, bytes: usize) -> bool
        requires { op < length self.now.queues }
        // With the line and its line feed at most `most_bytes` wait.
        ensures { (q : QueueView) → slice_get self.now.queues op ≡ Some q → IsTrue result
            ↔ (waiting_bytes q.items + bytes < q.most_bytes) }
    {
        self.queues[op].has_room(bytes)
    }

    /// Returns whether there is room for a line of so many bytes of the owner.
    pub fn has_owner_room(&self, bytes: usize) -> bool
        ensures { IsTrue result ↔ (owner_bytes self.now.owner.lines + bytes < self.now.owner.most_bytes) }
    {
        self.owner.has_room(bytes)
    }

    /// Puts a line of this operator after all that waits of it. If memory runs out, the queues are as they were.
    pub fn offer(&mut self, op: usize, line: Line) -> Result<(), AllocError>
        requires op { op < length self.old.queues }
        // With the line and its line feed at most `most_bytes` wait: see `has_room`.
        requires room { (q : QueueView) → slice_get self.old.queues op ≡ Some q
            → waiting_bytes q.items + length line < q.most_bytes }
        ensures ok { OnOk result (IsOffered op line self.old self.new) }
        ensures err { OnErr result (self.new ≡ self.old) }
    {
        self.queues[op].offer(line)
    }

    /// Puts a line of the owner after all that wait, and a mark into each queue. If memory runs out, nothing is chosen any more.
    pub fn offer_owner(&mut self, line: OwnerLine) -> Result<(), AllocError>
        requires { owner_bytes self.old.owner.lines + length line.line < self.old.owner.most_bytes }
        ensures { OnOk result (IsOwnerOffered line self.old self.new) }
    {
        let is_whole = self.is_whole;
        self.is_whole = false;
        mark_all(self.queues.as_mut_slice(), line.is_tick)?;
        match self.owner.offer(line) {
            Ok(()) => {
                self.is_whole = is_whole;
                Ok(())
            }
            Err(_failed) => Err(AllocError),
        }
    }

    /// Returns whether nothing may be chosen.
    pub fn is_idle(&self) -> bool
        ensures idle { IsTrue result → IsNothingReady self.now }
        ensures ready { IsFalse result → IsNothingReady self.now → ⊥ }
    {
        if let Some(_op) = next_ready(self.queues.as_slice(), self.turn) {
            return false;
        }
        self.owner.is_empty()
    }

    /// Takes the next line out: of the operators whose lines may be chosen that of the one whose turn it is, or the owner's first line
    /// if there is none of them.
    pub fn choose(&mut self) -> Option<Choice>
        requires whole { self.old.is_whole ≡ true }
        ensures some { IfSome result (λ choice. IsChoice choice self.old self.new) }
        ensures none { IfNone result (IsNothingReady self.old × (self.new ≡ self.old)) }
    {
        if let Some(op) = next_ready(self.queues.as_slice(), self.turn) {
            let chosen = self.queues[op].choose();
            self.turn = op + 1;
            return Some(Choice::Operator {
                op,
                number: chosen.number,
                line: chosen.line,
            });
        }
        let line = self.owner.take()?;
        pass_all(self.queues.as_mut_slice(), line.is_tick);
        Some(Choice::Owner {
            number: self.owner.counts().taken,
            line,
        })
    }
}
