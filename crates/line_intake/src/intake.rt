//! The lock of the queues, and who waits for what.

ghost use Rattle.std.specs.Prelude.{◌≡◌, true};

use crate::fault::IntakeFault;
use crate::offering::{offer_lines, offer_owner_lines};
use crate::reading::MOST_KEPT;
use crate::state::IntakeState;
use crate::tick_rule::TickRule;
use fair_queue::{Choice, FairQueue, InputCounts};
use std::alloc::Global;
use std::io;
use std::io::BufRead;
use std::sync::{Condvar, Mutex, Wait};

/// Holds lines that are taken at once, in the order in which they were chosen.
pub type ChosenLines = Vec<Choice>;

/// Holds the queues under a lock. A thread for each input puts lines in, and one takes them out.
#[derive(Drop)]
pub struct Intake {
    pub(crate) state: Mutex<IntakeState>,
    /// Signalled when all threads are made.
    begun: Condvar,
    /// Signalled when a line came, or an input ended.
    pub(crate) arrived: Condvar,
    /// Signalled when a line of this operator was taken.
    pub(crate) room: Vec<Condvar>,
    /// Signalled when a line of the owner was taken.
    pub(crate) owner_room: Condvar,
}

impl Intake {
    /// Returns an intake of these queues, of which nothing is read yet. Each of them must have room for the longest line.
    pub fn new(alloc: Global, queue: FairQueue) -> Result<Intake, IntakeFault>
        requires { queue.is_whole ≡ true }
    {
        let mut room = Vec::with_capacity(alloc, queue.len())?;
        for op in 0..queue.len() {
            if !queue.has_room(op, MOST_KEPT) {
                return Err(IntakeFault::SmallQueue);
            }
            room.push(Condvar::new())?;
        }
        if !queue.has_owner_room(MOST_KEPT) {
            return Err(IntakeFault::SmallQueue);
        }
        let open = queue.len().saturating_add(1);
        Ok(Intake {
            state: Mutex::new(IntakeState {
                queue,
                open,
                failed: 0,
                is_begun: false,
                is_stopped: false,
            }),
            begun: Condvar::new(),
            arrived: Condvar::new(),
            room,
            owner_room: Condvar::new(),
        })
    }

    /// Returns how many operators there are.
    pub fn operators(&self) -> usize {
        self.room.len()
    }

    /// Returns the counts of this operator's lines, if there is such an operator.
    pub fn counts<R: Wait>(&self, rt: &R, op: usize) -> Option<InputCounts> {
        let state = self.state.lock(rt);
        if op < state.queue.len() {
            Some(state.queue.counts(op))
        } else {
            None
        }
    }

    /// Returns the counts of the owner's lines.
    pub fn owner_counts<R: Wait>(&self, rt: &R) -> InputCounts {
        self.state.lock(rt).queue.owner_counts()
    }

    /// Puts each line of the reader into the queue of this operator, up to the end of the input or until the intake stops. It waits until
    /// the intake begins, and reads nothing more while the queue is full. A read that fails is reported here and to the caller of
    /// `take_batch`.
    pub fn read_operator<R: Wait, B: BufRead>(
        &self,
        rt: &R,
        alloc: Global,
        op: usize,
        reader: &mut B,
    ) -> io::Result<()> {
        if !self.is_begun(rt) {
            return Ok(());
        }
        let outcome = offer_lines(rt, alloc, self, op, reader);
        self.end_input(rt, outcome.is_err());
        outcome
    }

    /// Puts each line of the reader into the owner's queue, as `read_operator` does. The rule says which of them are ticks.
    pub fn read_owner<R: Wait, B: BufRead, K: TickRule>(
        &self,
        rt: &R,
        alloc: Global,
        rule: &K,
        reader: &mut B,
    ) -> io::Result<()> {
        if !self.is_begun(rt) {
            return Ok(());
        }
        let outcome = offer_owner_lines(rt, alloc, self, rule, reader);
        self.end_input(rt, outcome.is_err());
        outcome
    }

    /// Waits until all threads are made, and returns whether lines are read.
    fn is_begun<R: Wait>(&self, rt: &R) -> bool {
        let state = self
            .begun
            .wait_while(rt, self.state.lock(rt), |state| state.must_begin());
        !state.is_stopped
    }

    /// Notes that an input has ended, or could not be read.
    pub fn end_input<R: Wait>(&self, rt: &R, is_failed: bool) {
        let mut state = self.state.lock(rt);
        state.end_input(is_failed);
        drop(state);
        self.arrived.notify_one();
    }

    /// Lets the readers read, once all threads are made.
    pub fn begin<R: Wait>(&self, rt: &R) {
        let mut state = self.state.lock(rt);
        state.is_begun = true;
        drop(state);
        self.begun.notify_all();
    }

    /// Stops all: no line is taken any more. A reader that waits in a read sees this with its next line.
    pub fn stop<R: Wait>(&self, rt: &R) {
        let mut state = self.state.lock(rt);
        state.is_stopped = true;
        drop(state);
        self.begun.notify_all();
        self.arrived.notify_all();
        self.owner_room.notify_all();
        for room in self.room.iter() {
            room.notify_all();
        }
    }

    /// Waits for the first line of any input, and takes up to `most` in turns. The batch ends with a tick. It is empty if all inputs have
    /// ended or the intake is stopped. The failure of an input is reported once, and no line is lost then.
    pub fn take_batch<R: Wait>(
        &self,
        rt: &R,
        most: usize,
        batch: &mut ChosenLines,
    ) -> Result<(), IntakeFault> {
        let most = most.max(1);
        batch.clear();
        batch.reserve(most)?;
        let mut state = self.arrived.wait_while(
            rt,
            self.state.lock(rt),
            |state| state.must_wait_for_line(),
        );
        if state.take_failure() {
            return Err(IntakeFault::InputFailed);
        }
        state.take_lines(batch, most);
        drop(state);
        self.note_room(batch.as_slice());
        Ok(())
    }

    /// Wakes the readers for whose lines there may be room now.
    fn note_room(&self, batch: &[Choice]) {
        for choice in batch {
            match choice {
                Choice::Operator { op, .. } => {
                    if let Some(room) = self.room.get(*op) {
                        room.notify_one();
                    }
                }
                Choice::Owner { .. } => self.owner_room.notify_one(),
            }
        }
    }
}
