//! The numbers of a MAP's layout (implementation-specific, after CM-SP-MULPIv3.1, 6.4.4, where no
//! other section is named). Places are bytes of the header, from 0. Of the Interval Usage Codes,
//! `slice_scheduler` has those that it uses.

/// Where the upstream channel ID is.
pub(crate) const CHANNEL_PLACE: usize = 0;

/// Where the UCD count is.
pub(crate) const UCD_COUNT_PLACE: usize = 1;

/// Where the number of elements is.
pub(crate) const COUNT_PLACE: usize = 2;

/// Where the Alloc Start Time begins.
pub(crate) const ALLOC_START_PLACE: usize = 4;

/// Where the Ack Time begins.
pub(crate) const ACK_TIME_PLACE: usize = 8;

/// Where the Ranging Backoff Start is.
pub(crate) const RANGING_START_PLACE: usize = 12;

/// Where the Ranging Backoff End is.
pub(crate) const RANGING_END_PLACE: usize = 13;

/// Where the Data Backoff Start is.
pub(crate) const DATA_START_PLACE: usize = 14;

/// Where the Data Backoff End is.
pub(crate) const DATA_END_PLACE: usize = 15;

/// The bytes of a header.
pub(crate) const HEADER_BYTES: usize = 16;

/// What the reserved byte of a header is written as.
pub(crate) const RESERVED: u8 = 0;

/// The bytes of an element (6.4.4.2).
pub(crate) const ELEMENT_BYTES: usize = 4;

/// How many offsets an element can have: 14 bits of them (6.4.4.2).
pub(crate) const OFFSETS: u32 = 1 << 14;

/// How many Interval Usage Codes an element can have: 4 bits of them (6.4.4.2).
pub(crate) const IUCS: u32 = 1 << 4;

/// The SID of minislots that are granted to nobody, and of the Null (Annex A, A.2).
pub(crate) const NOBODYS_SID: u16 = 0;

/// The SID of all modems (Annex A, A.2).
pub(crate) const BROADCAST_SID: u16 = 0x3FFF;

/// The Interval Usage Code of the Null.
pub(crate) const NULL_IUC: u8 = 7;

/// The most elements of a MAP.
pub(crate) const ELEMENT_LIMIT: usize = 240;
