//! Which lines of the owner are ticks.

/// Says which lines of the owner are ticks. The service reads them by the same rule, so that no line is a tick for one of both only.
pub trait TickRule {
    /// Returns whether a line of these bytes is a tick.
    fn is_tick(&self, bytes: &[u8]) -> bool;
}
