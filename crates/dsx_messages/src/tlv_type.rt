//! The types of TLVs in a dynamic service message (CM-SP-MULPIv3.1, Annex C) that are known here: the flow encodings of the
//! upstream, and those that this product leaves out. Every other type is passed over.

/// An upstream classifier: left out.
pub const UPSTREAM_CLASSIFIER: u8 = 22;

/// A downstream classifier: left out.
pub const DOWNSTREAM_CLASSIFIER: u8 = 23;

/// An upstream service flow, whose value is a flow encoding.
pub const UPSTREAM_SERVICE_FLOW: u8 = 24;

/// A downstream service flow: left out.
pub const DOWNSTREAM_SERVICE_FLOW: u8 = 25;

/// Payload header suppression: left out.
pub const PAYLOAD_HEADER_SUPPRESSION: u8 = 26;
