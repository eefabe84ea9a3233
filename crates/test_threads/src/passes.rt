//! Passes, as tests alone: calls with values that others worked out, threads that share a cell, and calls of which one request
//! for memory is refused.

mod calls;
pub(crate) mod cells;
mod pace;
mod races;
mod racing;
mod teams;
mod want_of_memory;
