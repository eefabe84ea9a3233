//! Bytes out of hexadecimal digits.

ghost use Rattle.std.specs.Prelude.{◌≡◌, ◌*◌, true, false, length, MatchResult};
ghost use Rattle.hex.specs.Hex.{decode_sized};

/// Puts the bytes that pairs of digits say into room for so many. False where one is not a digit;
/// the room then holds no message.
pub(crate) fn decode_into(digits: &[u8], room: &mut [u8]) -> bool
    requires { length digits.now ≡ 2 * length room.old }
    ensures { MatchResult (decode_sized digits.now (length room.old))
        (λ bytes. (result ≡ true) × (room.new ≡ bytes))
        (λ _. result ≡ false) }
{
    hex::decode_to_slice(digits, room).is_ok()
}
