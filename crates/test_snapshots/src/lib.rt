//! Tests of snapshots: a text that is typed by hand, which is read and written, and texts that are refused.
#![tactic(auto)]

#[cfg(test)]
mod texts;
