//! What is wrong with a flow encoding.

use crate::tlv::TlvFault;

/// The first fault of a flow encoding in the order of its bytes, and what was before it.
#[derive(Clone, Copy, Debug, PartialEq, Eq)]
pub struct FlowFault {
    pub fault: TlvFault,
    /// The Service Flow Reference, where it was before the fault.
    pub reference: Option<u16>,
    /// The Service Flow Identifier, where it was before the fault.
    pub sfid: Option<u32>,
}
