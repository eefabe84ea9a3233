//! Tests of what threads share: runs on threads, an operator's cell by one caller and by two threads, and cells of passes. They are in
//! one crate, since each test program is linked with all that it reaches.
#![tactic(auto)]

#[cfg(test)]
mod passes;
#[cfg(test)]
mod threads;
