//! Tests of a journal's file, and of services whose lines are in a journal.
#![tactic(auto)]

#[cfg(test)]
mod folders;
#[cfg(test)]
mod services;
