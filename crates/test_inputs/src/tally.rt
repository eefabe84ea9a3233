//! A consumer that keeps what it takes.

use fair_queue::Choice;
use line_intake::{ChosenLines, Intake, IntakeFault, TakesBatches};
use std::alloc::{AllocError, Global};
use std::sync::Wait;

/// Keeps the lines of each operator, with a bar after each of them, and counts of batches.
#[derive(Drop)]
pub(crate) struct Tally {
    /// The lines of each operator.
    pub lines: Vec<Vec<u8>>,
    /// The lines of the owner.
    pub owner: Vec<u8>,
    /// Whether the numbers of each input were 1, 2 and so on.
    pub is_numbered: bool,
    /// The number of ticks that were not the last of their batch.
    pub early_ticks: usize,
    /// The number of inputs that failed.
    pub failures: usize,
    /// The number of ticks after which no batch is taken.
    pub most_ticks: usize,
    ticks: usize,
    counts: Vec<u64>,
    owner_count: u64,
}

impl Tally {
    /// Returns a tally of so many operators, which ends after so many ticks.
    pub(crate) fn new(
        alloc: Global,
        operators: usize,
        most_ticks: usize,
    ) -> Result<Tally, AllocError> {
        let mut lines = Vec::with_capacity(alloc, operators)?;
        let mut counts = Vec::with_capacity(alloc, operators)?;
        for _ in 0..operators {
            lines.push(Vec::new(alloc))?;
            counts.push(0)?;
        }
        Ok(Tally {
            lines,
            owner: Vec::new(alloc),
            is_numbered: true,
            early_ticks: 0,
            failures: 0,
            most_ticks,
            ticks: 0,
            counts,
            owner_count: 0,
        })
    }

    /// Keeps a line of an operator.
    fn keep_line(&mut self, op: usize, number: u64, bytes: &[u8]) -> Result<(), AllocError> {
        if let Some(count) = self.counts.get_mut(op) {
            *count = count.saturating_add(1);
            self.is_numbered = self.is_numbered && *count == number;
        }
        if let Some(lines) = self.lines.get_mut(op) {
            lines.extend_from_slice(bytes)?;
            lines.push(b'|')?;
        }
        Ok(())
    }

    /// Keeps a line of the owner.
    fn keep_owner(&mut self, number: u64, bytes: &[u8]) -> Result<(), AllocError> {
        self.owner_count = self.owner_count.saturating_add(1);
        self.is_numbered = self.is_numbered && self.owner_count == number;
        self.owner.extend_from_slice(bytes)?;
        self.owner.push(b'|')?;
        Ok(())
    }

    /// Keeps all lines of a batch.
    fn keep(&mut self, batch: &[Choice]) -> Result<(), AllocError> {
        for (place, choice) in batch.iter().enumerate() {
            match choice {
                Choice::Operator { op, number, line } => {
                    self.keep_line(*op, *number, line.bytes())?;
                }
                Choice::Owner { number, line } => {
                    self.keep_owner(*number, line.line.bytes())?;
                    if line.is_tick {
                        self.ticks = self.ticks.saturating_add(1);
                    }
                    if line.is_tick && place.saturating_add(1) < batch.len() {
                        self.early_ticks = self.early_ticks.saturating_add(1);
                    }
                }
            }
        }
        Ok(())
    }

    /// Takes batches up to the end of all inputs, or to the last tick.
    fn take<R: Wait>(&mut self, rt: &R, alloc: Global, intake: &Intake) -> Result<(), IntakeFault> {
        let mut batch: ChosenLines = Vec::new(alloc);
        for _ in rt.forever() {
            match intake.take_batch(rt, 8, &mut batch) {
                Ok(()) => {
                    if batch.is_empty() {
                        return Ok(());
                    }
                    self.keep(batch.as_slice())?;
                }
                Err(IntakeFault::InputFailed) => self.failures = self.failures.saturating_add(1),
                Err(fault) => return Err(fault),
            }
            if self.ticks >= self.most_ticks {
                return Ok(());
            }
        }
        unreachable!()
    }
}

impl<R: Wait> TakesBatches<R> for Tally {
    fn take_all(&mut self, rt: &R, alloc: Global, intake: &Intake) {
        if self.take(rt, alloc, intake).is_err() {
            self.is_numbered = false;
        }
    }
}
