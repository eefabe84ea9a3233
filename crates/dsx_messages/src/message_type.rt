//! The message types of dynamic service messages (CM-SP-MULPIv3.1, 6.4.12 to 6.4.19).

/// DSA-REQ (6.4.12): a modem asks for flows to be added.
pub const DSA_REQ: u8 = 15;

/// DSA-RSP (6.4.13): the answer to it.
pub const DSA_RSP: u8 = 16;

/// DSA-ACK (6.4.14): the modem has the answer.
pub const DSA_ACK: u8 = 17;

/// DSC-REQ (6.4.15): a modem asks for flows to be changed.
pub const DSC_REQ: u8 = 18;

/// DSC-RSP (6.4.16): the answer to it.
pub const DSC_RSP: u8 = 19;

/// DSC-ACK (6.4.17): the modem has the answer.
pub const DSC_ACK: u8 = 20;

/// DSD-REQ (6.4.18): a modem deletes a flow.
pub const DSD_REQ: u8 = 21;

/// DSD-RSP (6.4.19): the answer to it.
pub const DSD_RSP: u8 = 22;
