//! Check sequences.

ghost use Rattle.std.specs.Prelude.{◌≡◌, ◌^◌};
ghost use Rattle.pcap_capture.specs.Checks.{with_bit, with_byte, rest_of, header_check, frame_check};

/// Returns a bit more is divided.
fn with_bit(polynomial: u32, rest: u32) -> u32
    ensures { result ≡ with_bit polynomial rest }
{
    if rest % 2 == 1 {
        rest / 2 ^ polynomial
    } else {
        rest / 2
    }
}

/// Returns a byte more is divided.
#[tactic(auto, using(crate::proofs::BitLemmas::with_bits_more), unfolding(crate::specs::Checks::with_byte))]
fn with_byte(polynomial: u32, rest: u32, byte: u8) -> u32
    ensures { result ≡ with_byte polynomial rest byte }
{
    let mut rest = rest ^ byte as u32;
    for _bit in 0..8_u32 {
        rest = with_bit(polynomial, rest);
    }
    rest
}

/// Returns what is left of bytes that are divided by a polynomial.
fn rest_of(polynomial: u32, start: u32, bytes: &[u8]) -> u32
    ensures { result ≡ rest_of polynomial start bytes.now }
{
    let mut rest = start;
    for byte in bytes {
        rest = with_byte(polynomial, rest, *byte);
    }
    rest
}

/// Returns the header check sequence, as it is sent.
pub(crate) fn header_check(bytes: &[u8]) -> [u8; 2]
    ensures { result ≡ header_check bytes.now }
{
    let check = rest_of(0x8408, 0xFFFF, bytes) ^ 0xFFFF;
    let [a, b, _, _] = check.to_le_bytes();
    [a, b]
}

/// Returns the frame check sequence, as it is sent.
pub(crate) fn frame_check(bytes: &[u8]) -> [u8; 4]
    ensures { result ≡ frame_check bytes.now }
{
    let check = rest_of(0xEDB8_8320, 0xFFFF_FFFF, bytes) ^ 0xFFFF_FFFF;
    check.to_le_bytes()
}
