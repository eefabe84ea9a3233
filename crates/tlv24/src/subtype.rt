//! The subtypes of an upstream service flow encoding (CM-SP-MULPIv3.1, Annex C, type 24) that are known here, and those of error
//! encodings within one of them. Every other subtype is passed over.

/// The service flow reference (2 bytes).
pub const REFERENCE: u8 = 1;

/// The SFID (4 bytes).
pub const SFID: u8 = 2;

/// The SID (2 bytes, of which 14 bits count).
pub const SID: u8 = 3;

/// The service class name (2 to 16 bytes).
pub const CLASS_NAME: u8 = 4;

/// The error encodings (6 bytes).
pub const ERRORED: u8 = 5;

/// The quality of service parameter set type (1 byte).
pub const SET_TYPE: u8 = 6;

/// The traffic priority (1 byte).
pub const TRAFFIC_PRIORITY: u8 = 7;

/// The maximum sustained traffic rate (4 bytes).
pub const MAX_SUSTAINED_RATE: u8 = 8;

/// The maximum traffic burst (4 bytes).
pub const MAX_BURST: u8 = 9;

/// The minimum reserved traffic rate (4 bytes).
pub const MIN_RESERVED_RATE: u8 = 10;

/// The scheduling type (1 byte).
pub const SCHEDULING_TYPE: u8 = 15;

/// The request and transmission policy (4 bytes).
pub const REQUEST_POLICY: u8 = 16;

/// The nominal polling interval (4 bytes).
pub const POLLING_INTERVAL: u8 = 17;

/// The tolerated poll jitter (4 bytes).
pub const POLL_JITTER: u8 = 18;

/// The unsolicited grant size (2 bytes).
pub const GRANT_SIZE: u8 = 19;

/// The nominal grant interval (4 bytes).
pub const GRANT_INTERVAL: u8 = 20;

/// The tolerated grant jitter (4 bytes).
pub const GRANT_JITTER: u8 = 21;

/// The grants per interval (1 byte).
pub const GRANTS_PER_INTERVAL: u8 = 22;

/// Within error encodings: the invalid subtype (1 byte).
pub const ERRORED_PARAMETER: u8 = 1;

/// Within error encodings: the confirmation code (1 byte).
pub const ERROR_CODE: u8 = 2;
