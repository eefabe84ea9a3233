//! What the lock of an intake guards. All that a caller under the lock can do is a call here.

ghost use Rattle.std.specs.Prelude.{◌≡◌, ◌≤◌, ◌<◌, ◌+◌, ◌⊎◌, ◌↔◌, true, false, Some, Err, IsTrue, IfSome, IfNone, OnOk, OnErr, length, slice_get, vec_capacity};
ghost use Rattle.fair_queue.specs.Fair.{IsChoice, IsNothingReady, IsOffered, IsOwnerOffered};
ghost use Rattle.fair_queue.specs.Items.{QueueView, owner_bytes, waiting_bytes};
ghost use Rattle.line_intake.specs.declared.state.OfferFault.TheVariants as faults;
ghost use Rattle.line_intake.specs.Batches.{is_tick_choice, IsBatchTaken};

use fair_queue::{Choice, FairQueue, Line, OwnerLine};

/// Says why a line is not taken.
#[derive(Clone, Copy, Debug, PartialEq, Eq)]
pub enum OfferFault {
    /// There is no room, or no such input.
    Full,
    /// No line is taken any more.
    Stopped,
    /// Memory ran out.
    NoMemory,
}

/// Holds the lines that wait, and how far the inputs are.
#[derive(Drop)]
pub struct IntakeState {
    pub queue: FairQueue,
    /// The number of inputs that are still read.
    pub open: usize,
    /// The number of inputs that could not be read, which is not reported yet.
    pub failed: usize,
    /// Whether lines are read: all threads are made.
    pub is_begun: bool,
    /// Whether no line is taken any more.
    pub is_stopped: bool,
    pub ghost whole: { is_stopped ≡ false → queue.is_whole ≡ true },
}

/// Returns whether a line that is chosen is a tick of the owner.
fn is_tick(choice: &Choice) -> bool
    ensures { result ≡ is_tick_choice choice.now }
{
    match choice {
        Choice::Operator { .. } => false,
        Choice::Owner { number: _, line } => line.is_tick,
    }
}

impl IntakeState {
    /// Returns whether the readers have to wait until all threads are made.
    pub fn must_begin(&self) -> bool
        ensures { IsTrue result ↔ ((self.now.is_begun ≡ false) × (self.now.is_stopped ≡ false)) }
    {
        !self.is_begun && !self.is_stopped
    }

    /// Returns whether the reader of this operator has to wait until one of its lines is taken.
    pub fn must_wait(&self, op: usize, bytes: usize) -> bool {
        !self.is_stopped && op < self.queue.len() && !self.queue.has_room(op, bytes)
    }

    /// Returns whether the owner's reader has to wait until one of its lines is taken.
    pub fn must_owner_wait(&self, bytes: usize) -> bool {
        !self.is_stopped && !self.queue.has_owner_room(bytes)
    }

    /// Returns whether nothing may be chosen, and nothing is to be reported, but more lines may come.
    pub fn must_wait_for_line(&self) -> bool {
        !self.is_stopped && self.failed == 0 && self.open > 0 && self.queue.is_idle()
    }

    /// Puts a line of an operator into its queue. It tests again whether there is room and nothing is stopped.
    pub fn offer(&mut self, op: usize, line: Line) -> Result<(), OfferFault>
        ensures ok { OnOk result (IsOffered op line self.old.queue self.new.queue) }
        ensures err { OnErr result (self.new.queue ≡ self.old.queue) }
        ensures stopped { (result ≡ Err faults.Stopped) ↔ (self.old.is_stopped ≡ true) }
        // There is no such input, or no room for the line.
        ensures full { result ≡ Err faults.Full → (q : QueueView) → slice_get self.old.queue.queues op ≡ Some q
            → q.most_bytes ≤ waiting_bytes q.items + length line }
    {
        if self.is_stopped {
            return Err(OfferFault::Stopped);
        }
        if op >= self.queue.len() || !self.queue.has_room(op, line.bytes().len()) {
            return Err(OfferFault::Full);
        }
        match self.queue.offer(op, line) {
            Ok(()) => Ok(()),
            Err(_) => Err(OfferFault::NoMemory),
        }
    }

    /// Puts a line of the owner into its queue. If memory runs out, no line is taken any more.
    pub fn offer_owner(&mut self, line: OwnerLine) -> Result<(), OfferFault>
        ensures ok { OnOk result (IsOwnerOffered line self.old.queue self.new.queue) }
        ensures err { OnErr result ((self.new.queue ≡ self.old.queue) ⊎ (self.new.is_stopped ≡ true)) }
        ensures stopped { (result ≡ Err faults.Stopped) ↔ (self.old.is_stopped ≡ true) }
        // There is no room for the line.
        ensures full { result ≡ Err faults.Full → self.old.queue.owner.most_bytes
            ≤ owner_bytes self.old.queue.owner.lines + length line.line }
    {
        if self.is_stopped {
            return Err(OfferFault::Stopped);
        }
        if !self.queue.has_owner_room(line.line.bytes().len()) {
            return Err(OfferFault::Full);
        }
        match self.queue.offer_owner(line) {
            Ok(()) => Ok(()),
            Err(_) => {
                self.is_stopped = true;
                Err(OfferFault::NoMemory)
            }
        }
    }

    /// Takes the next line out, unless nothing may be chosen or no line is taken any more.
    pub fn choose(&mut self) -> Option<Choice>
        ensures some { IfSome result (λ choice. IsChoice choice self.old.queue self.new.queue) }
        ensures none { IfNone result (self.new.queue ≡ self.old.queue) }
        ensures why { IfNone result ((self.old.is_stopped ≡ true) ⊎ IsNothingReady self.old.queue) }
    {
        if self.is_stopped {
            return None;
        }
        self.queue.choose()
    }

    /// Takes lines out in turns, until the list has `most`, or a tick is taken, or nothing may be chosen. The list has room for them.
    #[tactic(auto, using(crate::proofs::BatchLemmas::begun, crate::proofs::BatchLemmas::one_more, crate::proofs::BatchLemmas::with_last, crate::proofs::BatchLemmas::all_taken))]
    pub fn take_lines(&mut self, batch: &mut Vec<Choice>, most: usize)
        requires { most ≤ vec_capacity batch.old }
        ensures { IsBatchTaken batch.old.items batch.new.items self.old.queue self.new.queue }
    {
        for _length in batch.len()..most {
            let Some(choice) = self.choose() else {
                return;
            };
            let is_last = is_tick(&choice);
            batch.push_reserved(choice);
            if is_last {
                return;
            }
        }
    }

    /// Notes that an input has ended, or could not be read.
    pub fn end_input(&mut self, is_failed: bool)
        ensures open { (self.old.open ≡ 0 → self.new.open ≡ 0)
            × (0 < self.old.open → self.new.open + 1 ≡ self.old.open) }
        ensures same { (self.new.queue ≡ self.old.queue) × (self.new.is_stopped ≡ self.old.is_stopped) }
        ensures failed { (is_failed ≡ false → self.new.failed ≡ self.old.failed)
            × (is_failed ≡ true → 0 < self.new.failed) }
    {
        self.open = self.open.saturating_sub(1);
        if is_failed {
            self.failed = self.failed.saturating_add(1);
        }
    }

    /// Returns whether an input could not be read that is not reported yet, and notes that it is.
    pub fn take_failure(&mut self) -> bool
        ensures failed { IsTrue result ↔ (0 < self.old.failed) }
        ensures noted { (self.old.failed ≡ 0 → self.new.failed ≡ 0)
            × (0 < self.old.failed → self.new.failed + 1 ≡ self.old.failed) }
        ensures same { (self.new.queue ≡ self.old.queue) × (self.new.is_stopped ≡ self.old.is_stopped) }
    {
        let is_failed = self.failed > 0;
        self.failed = self.failed.saturating_sub(1);
        is_failed
    }
}
