//! The queue of the owner.

ghost use Rattle.std.specs.Prelude.{◌≡◌, ◌<◌, ◌≤◌, ◌+◌, ◌↔◌, [], IsTrue, OnOk, OnErr, IfSome, IfNone, length};
ghost use Rattle.fair_queue.specs.Items.{OwnerView, owner_bytes, IsLineAdded, IsFirstTaken};

use crate::line::{InputCounts, OwnerLine, next_number};
use std::alloc::{AllocError, Global};
use std::collections::VecDeque;
use std::marker::Model;

/// Holds the lines of the owner that wait.
#[derive(Drop)]
pub struct OwnerQueue {
    lines: VecDeque<OwnerLine>,
    bytes: usize,
    most_bytes: usize,
    taken: u64,
}

impl Model for OwnerQueue {
    ghost use Rattle.std.specs.Prelude.{◌≡◌, ◌≤◌};
    ghost use Rattle.fair_queue.specs.Items.{OwnerView, owner_bytes};

    ghost Value = { OwnerView };

    ghost view = { λ q. record { lines = q.lines.items; most_bytes = q.most_bytes; taken = q.taken } };

    ghost invariant = { λ q. (q.bytes ≡ owner_bytes q.lines.items) × (q.bytes ≤ q.most_bytes) };
}

impl OwnerQueue {
    /// Returns an empty queue in which at most `most_bytes` wait. So many lines were chosen before this start.
    pub fn new(alloc: Global, most_bytes: usize, taken: u64) -> OwnerQueue
        ensures { result ≡ record { lines = []; most_bytes = most_bytes; taken = taken } }
    {
        OwnerQueue {
            lines: VecDeque::new(alloc),
            bytes: 0,
            most_bytes,
            taken,
        }
    }

    /// Returns the counts of the owner's lines. The bytes that wait are at most as many as may.
    pub fn counts(&self) -> InputCounts
        ensures taken { result.taken ≡ self.now.taken }
        ensures waiting { result.waiting ≡ length self.now.lines }
        ensures bytes { result.bytes ≡ owner_bytes self.now.lines }
        ensures most { result.bytes ≤ self.now.most_bytes }
    {
        InputCounts {
            taken: self.taken,
            waiting: self.lines.len(),
            bytes: self.bytes,
        }
    }

    /// Returns whether no line waits.
    pub fn is_empty(&self) -> bool
        ensures { IsTrue result ↔ (self.now.lines ≡ []) }
    {
        self.lines.is_empty()
    }

    /// Returns whether there is room for a line of so many bytes.
    pub fn has_room(&self, bytes: usize) -> bool
        ensures { IsTrue result ↔ (owner_bytes self.now.lines + bytes < self.now.most_bytes) }
    {
        bytes < self.most_bytes - self.bytes
    }

    /// Puts a line after all that wait. If memory runs out, the queue is as it was.
    #[tactic(auto, using(crate::proofs::ItemLemmas::owner_bytes_more))]
    pub fn offer(&mut self, line: OwnerLine) -> Result<(), AllocError>
        requires room { owner_bytes self.old.lines + length line.line < self.old.most_bytes }
        ensures ok { OnOk result (IsLineAdded line self.old self.new) }
        ensures err { OnErr result (self.new ≡ self.old) }
    {
        let bytes = line.line.bytes().len() + 1;
        self.lines.push_back(line).map_err(AllocError::from)?;
        self.bytes += bytes;
        Ok(())
    }

    /// Takes the first line out, and counts it.
    pub fn take(&mut self) -> Option<OwnerLine>
        ensures some { IfSome result (λ line. IsFirstTaken line self.old self.new) }
        ensures none { IfNone result ((self.old.lines ≡ []) × (self.new ≡ self.old)) }
    {
        let line = self.lines.pop_front()?;
        self.bytes -= line.line.bytes().len() + 1;
        self.taken = next_number(self.taken);
        Some(line)
    }
}
