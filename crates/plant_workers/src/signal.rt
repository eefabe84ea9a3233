//! What signals to those who wait for a turn that an operator's history has grown.

use crate::cell_state::Held;
use std::array;
use std::sync::atomic::{AtomicUsize, Ordering};
use std::sync::{Condvar, Mutex, MutexGuard, Wait};

/// The groups into which those who sleep are divided. A run has seldom as many entries of one operator between two ticks.
const GROUPS: usize = 64;

/// Signals that a history has grown or its turns have stopped. A thread first looks at `count`, and then sleeps with those who
/// wait for a place with the same remainder, so that an entry wakes whoever waits for the place after it, and few others. What
/// the words hold is a hint: the state under the lock decides.
#[derive(Drop)]
pub(crate) struct Signal {
    /// How many entries the history has, or `usize::MAX` once its turns have stopped.
    count: AtomicUsize,
    /// How many threads sleep, or are about to.
    sleepers: AtomicUsize,
    grown: [Condvar; GROUPS],
}

impl Signal {
    /// Makes the signal of a history that has so many entries. Takes no memory.
    pub(crate) fn new(count: usize) -> Signal {
        Signal {
            count: AtomicUsize::new(count),
            sleepers: AtomicUsize::new(0),
            grown: array::from_fn(|_group| Condvar::new()),
        }
    }

    /// Looks so many times whether the history has `index` entries. It does not pause between two looks: where it was measured, a
    /// pause takes 16 cycles, and a look 2. The manuals of other kinds of processors say up to 140 for a pause.
    fn look(&self, index: usize, looks: usize) {
        for _ in 0..looks {
            if index <= self.count.load(Ordering::SeqCst) {
                return;
            }
        }
    }

    /// Waits until the history has `index` entries or the turns have stopped, and returns the lock. Looks so many times before
    /// it sleeps.
    pub(crate) fn wait_for<'a, R: Wait>(
        &self,
        rt: &R,
        held: &'a Mutex<Held>,
        index: usize,
        looks: usize,
    ) -> MutexGuard<'a, Held> {
        self.look(index, looks);
        let held = held.lock(rt);
        if index <= held.count() || held.stopped {
            return held;
        }
        // Counted before the lock is released, so that whoever changes the history next finds that one sleeps.
        self.sleepers.fetch_add(1, Ordering::SeqCst);
        let held = self.grown[index % GROUPS].wait_while(rt, held, |held| {
            held.count() < index && !held.stopped
        });
        self.sleepers.fetch_sub(1, Ordering::SeqCst);
        held
    }

    /// Signals that the history has grown to so many entries. Call it after the lock is released, for each entry.
    pub(crate) fn grow(&self, count: usize) {
        self.count.store(count, Ordering::SeqCst);
        if self.sleepers.load(Ordering::SeqCst) != 0 {
            self.grown[count % GROUPS].notify_all();
        }
    }

    /// Signals that the turns have stopped. Call it after the lock is released.
    pub(crate) fn stop(&self) {
        self.count.store(usize::MAX, Ordering::SeqCst);
        for grown in &self.grown {
            grown.notify_all();
        }
    }
}
