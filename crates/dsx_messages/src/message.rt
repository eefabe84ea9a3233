//! Messages as what they say.

use crate::kind::Kind;
use lists::Listed;
use tlv24::FlowTlv;

/// The flow encodings of a request in the order of its bytes.
pub type FlowEncodings = Listed<FlowTlv>;

/// What a modem asks for.
#[derive(Debug, Drop)]
pub enum Request {
    /// DSA-REQ (type 15): flows to add.
    Dsa { tid: u16, flows: FlowEncodings },
    /// DSC-REQ (type 18): flows to change.
    Dsc { tid: u16, flows: FlowEncodings },
    /// DSD-REQ (type 21): a flow to delete.
    Dsd { tid: u16, sfid: u32 },
}

/// What a message of a modem says. `tid` is its transaction ID.
#[derive(Debug, Drop)]
pub enum Message {
    Request(Request),
    /// DSA-ACK (type 17) or DSC-ACK (type 20), with its confirmation code, which may be any byte.
    Ack { kind: Kind, tid: u16, code: u8 },
}
