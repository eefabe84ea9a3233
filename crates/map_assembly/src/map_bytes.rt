//! MAPs as bytes.

use tlv24::Bytes;

/// The MAP of a frame.
#[derive(Debug, Drop)]
pub struct MapBytes {
    /// The number of the frame.
    pub frame: u32,
    /// The body of the MAP (CM-SP-MULPIv3.1, 6.4.4): its header, then its elements.
    pub bytes: Bytes,
}
