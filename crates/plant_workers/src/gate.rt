//! What is called at each turn.

use plant::Op;
use std::sync::Wait;

/// What is called at each turn of an operator, with the place of its action in the history.
pub trait Gate<R: Wait> {
    /// Runs once the action is done, before the operator's lock is released.
    fn inside(&self, rt: &R, op: Op, index: usize);

    /// Runs after the lock is released.
    fn outside(&self, rt: &R, op: Op, index: usize);
}

/// A gate that lets every turn through at once.
#[derive(Clone, Copy, Debug)]
pub struct OpenGate;

impl<R: Wait> Gate<R> for OpenGate {
    fn inside(&self, _rt: &R, _op: Op, _index: usize) {}

    fn outside(&self, _rt: &R, _op: Op, _index: usize) {}
}
