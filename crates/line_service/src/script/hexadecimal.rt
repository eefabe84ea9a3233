//! Bytes in upper-case hexadecimal, many of them in one write.

ghost use Rattle.std.specs.Prelude.{◌≡◌, ◌+◌, ◌*◌, ◌/◌, ◌%◌, ◌<◌, ◌≤◌, [], ◌∷◌, ◌++◌, length, map, take, slice_index, OnOk};
ghost use Rattle.std.specs.Io.KnownBytes.{Appends};
ghost use Rattle.dsx_messages.specs.Modem.{hex_digit, hex_pair};
ghost use Rattle.hex.specs.Hex.{encode_upper, upper_digits};

use std::io;
use std::io::Write;

/// How many bytes are written at once.
const STEP: usize = 64;

/// Room for their digits, and for the end of a line.
const ROOM: usize = 129;

/// Returns the upper-case digit of a number below 16, for addresses, whose six bytes fill no vector.
#[inline(always)]
fn digit(number: u8) -> u8
    requires { number < 16 }
    ensures { result ≡ hex_digit number }
{
    if number < 10 {
        b'0' + number
    } else {
        b'A' - 10 + number
    }
}

/// Returns the two digits of a byte.
#[tactic(auto, using(crate::proofs::ScriptLemmas::Encoded::digit_is))]
#[inline(always)]
pub(crate) fn hex_pair(byte: u8) -> (u8, u8)
    ensures high { result.0 ≡ slice_index upper_digits (byte / 16) }
    ensures low { result.1 ≡ slice_index upper_digits (byte % 16) }
    ensures pair { result.0 ∷ result.1 ∷ [] ≡ hex_pair byte }
{
    (digit(byte / 16), digit(byte % 16))
}

/// Puts the upper-case digits of bytes into room for so many: the kit's, which are lower case, raised.
fn put_digits(bytes: &[u8], room: &mut [u8])
    requires { length room.old ≡ 2 * length bytes.now }
    ensures { room.new ≡ encode_upper bytes.now }
{
    let _ = hex::encode_to_slice(bytes, room);
    room.make_ascii_uppercase();
}

/// Puts the digits of bytes at the front of their room.
fn fill(room: &mut [u8; ROOM], bytes: &[u8])
    requires { length bytes.now ≤ 64 }
    ensures { take (2 * length bytes.now) room.new ≡ encode_upper bytes.now }
{
    put_digits(bytes, &mut room[..2 * bytes.len()]);
}

/// Writes few bytes in hexadecimal.
fn write_few<W: Write>(writer: &mut W, bytes: &[u8]) -> io::Result<()>
    requires { length bytes.now ≤ 64 }
    ensures { OnOk result (Appends (W.contents writer.old) (W.contents writer.new) (encode_upper bytes.now)) }
{
    let mut room = [0u8; ROOM];
    fill(&mut room, bytes);
    writer.write_all(&room[..2 * bytes.len()])
}

/// Writes the last bytes of a line, which are few, and the line's end.
fn write_last<W: Write>(writer: &mut W, bytes: &[u8]) -> io::Result<()>
    requires { length bytes.now ≤ 64 }
    ensures { OnOk result (Appends (W.contents writer.old) (W.contents writer.new) (encode_upper bytes.now ++ 10 ∷ [])) }
{
    let mut room = [0u8; ROOM];
    fill(&mut room, bytes);
    let end = 2 * bytes.len();
    room[end] = b'\n';
    writer.write_all(&room[..end + 1])
}

/// Writes bytes, and the end of their line.
pub(crate) fn write_hex_line<W: Write>(writer: &mut W, bytes: &[u8]) -> io::Result<()>
    ensures { OnOk result (Appends (W.contents writer.old) (W.contents writer.new) (encode_upper bytes.now ++ 10 ∷ [])) }
{
    let mut place = 0;
    while bytes.len() - place > STEP {
        write_few(writer, &bytes[place..place + STEP])?;
        place += STEP;
    }
    write_last(writer, &bytes[place..])
}
