//! Two threads that wait for each other at one cell: no clause says what a call does under the lock, nor when.

use crate::threads::cells::{has_frame, has_idled, is_taken};
use crate::threads::gates::{LONG, is_counted};
use crate::threads::opening::{opened_cell, strict};
use operator_book::Action;
use plant::Op;
use plant_workers::{CellFault, Gate, OpenGate, OperatorCell, Receipt};
use slice_scheduler::Elements;
use std::alloc::{AllocError, Global};
use std::process::Abort;
use std::sync::Wait;
use std::sync::atomic::{AtomicU64, Ordering};
use std::thread;
use std::thread::{Builder, Threads};
use std::time::{Clock, Duration};

/// The milliseconds in which another thread does what it can do.
const SHORT: u32 = 200;

/// Sees whether another thread gets the lock while `gate`'s `inside` and its `outside` are called.
#[derive(Drop)]
struct WatchingGate {
    /// How often `inside` was called of operator 0's entry 1.
    inside: AtomicU64,
    /// How often the other thread has worked since.
    works: AtomicU64,
    /// How often it had worked by the end of `inside`.
    early: AtomicU64,
    /// How often it had worked by the end of `outside`.
    late: AtomicU64,
}

impl<R: Wait + Clock> Gate<R> for WatchingGate {
    fn inside(&self, rt: &R, op: Op, index: usize) {
        if op == 0 && index == 1 {
            self.inside.fetch_add(1, Ordering::SeqCst);
            if is_counted(rt, &self.works, SHORT) {
                self.early.fetch_add(1, Ordering::SeqCst);
            }
        }
    }

    fn outside(&self, rt: &R, op: Op, index: usize) {
        if op == 0 && index == 1 && is_counted(rt, &self.works, LONG) {
            self.late.fetch_add(1, Ordering::SeqCst);
        }
    }
}

/// What two threads do at a cell.
#[derive(Clone, Copy, Debug, PartialEq, Eq)]
enum Play {
    /// One collects after two entries, which the other makes: first work, later a tick.
    Collect,
    /// One ticks in the turn after the other's work, and the other works again once `gate`'s `inside` is called.
    Turn,
    /// One waits for a turn, and the other stops the turns.
    Stop,
}

/// What each of two threads does. A trait of its own, so that a thread that borrows the cell asks for no more of it than that
/// it may be shared.
trait Plays<R: Wait> {
    /// Returns whether the calls of the thread that waits return what they should.
    fn wait(&self, rt: &R, alloc: Global, gate: &WatchingGate, play: Play) -> bool;

    /// Returns whether the calls of the thread that is waited for return what they should.
    fn act(&self, rt: &R, alloc: Global, gate: &WatchingGate, play: Play) -> bool;
}

/// Lets the other thread result in its call.
fn pause<C: Clock>(clock: &C) {
    thread::sleep(clock, Duration::from_millis(100));
}

/// Returns whether the first frame is collected.
fn has_first_frame(answer: &Result<Option<(u32, Elements)>, CellFault>) -> bool {
    match answer {
        Ok(taken) => is_taken(taken, 0),
        Err(_) => false,
    }
}

/// Returns whether a call is refused since the turns have stopped.
fn is_stopped(answer: &Result<Receipt, CellFault>) -> bool {
    match answer {
        Ok(_) => false,
        Err(fault) => *fault == CellFault::Stopped { op: 0 },
    }
}

impl<R: Wait + Clock> Plays<R> for OperatorCell {
    fn wait(&self, rt: &R, alloc: Global, gate: &WatchingGate, play: Play) -> bool {
        match play {
            Play::Collect => has_first_frame(&self.collect_after(rt, alloc, 2)),
            Play::Turn => has_frame(&self.in_turn(rt, alloc, 1, Action::Tick, gate), 1, 0),
            Play::Stop => is_stopped(&self.in_turn(rt, alloc, 1, Action::Tick, &OpenGate)),
        }
    }

    fn act(&self, rt: &R, alloc: Global, gate: &WatchingGate, play: Play) -> bool {
        pause(rt);
        if play == Play::Stop {
            self.stop(rt);
            return true;
        }
        let works = has_idled(&self.work(rt, alloc), 0);
        if play == Play::Collect {
            pause(rt);
            return works && has_frame(&self.tick(rt, alloc), 1, 0);
        }
        let is_inside = is_counted(rt, &gate.inside, LONG);
        let works_again = has_idled(&self.work(rt, alloc), 2);
        gate.works.fetch_add(1, Ordering::SeqCst);
        works && is_inside && works_again
    }
}

/// Runs both threads. Returns whether the calls of both return what they should.
fn run_both<R: Threads + Wait + Sync, P: Plays<R> + Sync>(
    rt: &R,
    alloc: Global,
    plays: &P,
    gate: &WatchingGate,
    play: Play,
) -> bool {
    thread::scope(thread::scope_env(), rt, |scope| -> bool {
        let waits = Builder::new().spawn_scoped(scope, move || {
            plays.wait(rt, alloc, gate, play)
        });
        let acts = Builder::new().spawn_scoped(scope, move || { plays.act(rt, alloc, gate, play) });
        match (waits, acts) {
            (Ok(waits), Ok(acts)) => {
                let (waited, acted) = (waits.join(rt), acts.join(rt));
                waited && acted
            }
            _ => false,
        }
    })
}

/// Returns whether two threads do so at a cell, and how often `inside` was called, the other had worked by its end, and by
/// the end of `outside`.
fn plays_on<R: Threads + Wait + Sync + Clock>(
    rt: &R,
    alloc: Global,
    cell: &OperatorCell,
    of: Play,
) -> (bool, [u64; 3]) {
    let gate = WatchingGate {
        inside: AtomicU64::new(0),
        works: AtomicU64::new(0),
        early: AtomicU64::new(0),
        late: AtomicU64::new(0),
    };
    let played = run_both(rt, alloc, cell, &gate, of);
    let inside = gate.inside.load(Ordering::SeqCst);
    let early = gate.early.load(Ordering::SeqCst);
    (played, [inside, early, gate.late.load(Ordering::SeqCst)])
}

/// What two threads do, and how often `gate`'s `inside` is called, the other thread works during it, and by the end of
/// `outside`.
const ROWS: [(Play, [u64; 3]); 3] = [
    (Play::Collect, [0, 0, 0]),
    (Play::Turn, [1, 0, 1]),
    (Play::Stop, [0, 0, 0]),
];

/// Returns whether two threads at the cell of operator A wait as they should.
fn waits<R: Threads + Wait + Sync + Clock>(
    rt: &R,
    alloc: Global,
    of: Play,
    wanted: [u64; 3],
) -> Result<bool, AllocError> {
    match opened_cell(alloc, strict!(alloc)) {
        Some(cell) => Ok(plays_on(rt, alloc, &cell, of) == (true, wanted)),
        None => Ok(false),
    }
}

#[test]
fn a_call_waits_for_its_turn_and_no_longer(rt: HostRuntime) -> Result<(), AllocError> {
    for (of, wanted) in ROWS {
        assert!(rt; waits(&rt, rt.alloc(), of, wanted)?);
    }
    Ok(())
}
