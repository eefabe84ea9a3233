//! Messages and expected outputs for the tables of tests.

use dsx_messages::Modem;
use operator_book::{Cause, Heard, Output};
use std::alloc::{AllocError, Global};
use tlv24::Bytes;

/// A modem of operator A.
pub const MODEM_OF_A: Modem = Modem([2, 0, 0, 0, 0, 1]);

/// A modem of operator B.
pub const MODEM_OF_B: Modem = Modem([2, 0, 0, 0, 0, 3]);

/// A modem of no operator.
pub const UNKNOWN_MODEM: Modem = Modem([2, 0, 0, 0, 0, 9]);

/// A message that adds a flow of best effort.
pub const ADDITION: &[u8] = &[15, 0, 1, 24, 10, 1, 2, 0, 1, 6, 1, 6, 15, 1, 2];

/// The reply to it of operator A: the first flow has the least SFID and SID, 257 both.
pub const REPLY: &[u8] = &[
    16, 0, 1, 0, 24, 14, 1, 2, 0, 1, 2, 4, 0, 0, 1, 1, 3, 2, 1, 1,
];

/// An output that a test expects.
#[derive(Clone, Copy, Debug, PartialEq, Eq)]
pub enum ExpectedOutput {
    /// No output.
    Nothing,
    Reply(&'static [u8]),
    Silent(Option<Modem>, Cause),
}

/// Returns whether an output is the expected one.
pub fn is_output(output: &Output, wanted: ExpectedOutput) -> bool {
    match (output, wanted) {
        (Output::Reply { modem: _, bytes }, ExpectedOutput::Reply(reply)) => bytes.as_slice()
            == reply,
        (Output::Silent { modem, cause }, ExpectedOutput::Silent(of, why)) => *modem == of
            && *cause == why,
        _ => false,
    }
}

/// Returns a message of these bytes.
pub fn heard_message(alloc: Global, bytes: &[u8]) -> Result<Heard, AllocError> {
    Ok(Heard::Message(Bytes::from_slice(alloc, bytes)?))
}
