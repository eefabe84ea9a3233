//! The checksum of a text.

ghost use Rattle.std.specs.Prelude.{◌≡◌, ◌≤◌, length};
ghost use Rattle.snapshot_format.specs.Checksum.{adler_32, line_count};

/// Returns the Adler-32 checksum of bytes (RFC 1950, 8.2).
#[tactic(auto, unfolding(crate::specs::Checksum::adler_32))]
pub(crate) fn adler_32(bytes: &[u8]) -> u32
    ensures { result ≡ adler_32 bytes.now }
{
    let mut low = 1u32;
    let mut high = 0u32;
    for byte in bytes {
        low = (low + *byte as u32) % 65521;
        high = (high + low) % 65521;
    }
    high * 65536 + low
}

/// Returns how many lines end in a text.
pub(crate) fn line_count(text: &[u8]) -> usize
    ensures value { result ≡ line_count text.now }
    ensures few { result ≤ length text.now }
{
    text.iter().filter(|byte| **byte == b'\n').count()
}
