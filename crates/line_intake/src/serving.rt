//! Who reads the inputs, and who takes the batches.

use crate::intake::Intake;
use std::alloc::Global;
use std::sync::Wait;

/// Says which of the inputs it is.
#[derive(Clone, Copy, Debug, PartialEq, Eq)]
pub enum Input {
    Owner,
    /// The operator at this place.
    Operator(usize),
}

/// Reads inputs in threads. It is a trait of its own, so that the threads borrow nothing but what may be shared.
pub trait ReadsInputs<R: Wait> {
    /// Opens an input and reads all its lines into the intake, by `read_owner` or `read_operator`. If it cannot be opened, `end_input`
    /// notes that.
    fn read_input(&self, rt: &R, alloc: Global, intake: &Intake, input: Input);

    /// Wakes the readers that wait in a read, once the intake is stopped.
    fn wake_readers(&self, rt: &R, alloc: Global);
}

/// Takes the batches of an intake, and keeps what comes of them.
pub trait TakesBatches<R: Wait> {
    /// Takes batches by `take_batch`, until it wants no more of them.
    fn take_all(&mut self, rt: &R, alloc: Global, intake: &Intake);
}
