//! What the program says on standard error: why its exit status is not 0, and warnings of a plant file. The text is made anew
//! from the input, and only where something is wrong. No clause says what it is; tests do.
#![tactic(auto)]

mod encodings;
mod file;
mod joint;
mod key_messages;
mod keys;
mod lines;
mod parts;
mod places;
mod plain;
mod plants;
mod provisioned;
mod reason;
mod reasons;
mod refusals;
mod report;
mod scan;
mod show;
mod strict;
mod tree;
mod unread;
mod unworkable;
mod unworkable_channel;
mod unworkable_encodings;
mod unworkable_limits;
mod values;
mod wanted;

pub use reasons::{Trouble, reason_of, reason_of_trouble, reason_of_words};
pub use strict::{StrictFault, strict_fault_of};
