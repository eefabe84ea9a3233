//! A list inside a public type: a `Vec` that contracts see as the list of its items.
#![tactic(auto)]

mod listed;

pub use listed::Listed;
