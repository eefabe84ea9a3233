//! Numbers and addresses, their digits written in place.

ghost use Rattle.std.specs.Prelude.{◌≡◌, ◌+◌, ◌<◌, ◌≤◌, ◌∷◌, ◌++◌, codes, drop, length};
ghost use Rattle.std.specs.Fmt.{decimal};
ghost use Rattle.std.specs.List.{flat_map};
ghost use Rattle.line_service.specs.script.Text.{address, after_space, span_text, pending_text};

use crate::script::hexadecimal::hex_pair;
use dsx_messages::Modem;
use itoa::write_digits;
use slice_scheduler::Span;

/// How many spans are written at once.
pub(crate) const SPANS: usize = 32;

/// The bytes of so many spans, at most.
pub(crate) const SPANS_ROOM: usize = 768;

/// How many grants pending are written at once.
pub(crate) const PENDINGS: usize = 32;

/// The bytes of so many grants pending, at most.
pub(crate) const PENDINGS_ROOM: usize = 256;

/// Writes a mark and the digit of a number below 10 after it, up to a place. Returns the place of the
/// mark.
#[inline(always)]
fn write_marked_digit(room: &mut [u8], mark: u8, number: u16, end: usize) -> usize
    requires few { number < 10 }
    requires room { (2 ≤ end) × (end ≤ length room.old) }
    ensures start { result + 2 ≡ end }
    ensures written { drop result room.new ≡ mark ∷ (decimal number ++ drop end room.old) }
{
    room[end - 1] = b'0' + number as u8;
    room[end - 2] = mark;
    end - 2
}

/// Writes a mark and the digits of a number after it, up to a place. Returns the place of the mark.
#[inline(always)]
fn write_marked(room: &mut [u8], mark: u8, number: u16, end: usize) -> usize
    requires { (6 ≤ end) × (end ≤ length room.old) }
    ensures start { (end ≤ result + 6) × (result < end) }
    ensures written { drop result room.new ≡ mark ∷ (decimal number ++ drop end room.old) }
{
    if number < 10 {
        return write_marked_digit(room, mark, number, end);
    }
    let start = write_digits(u64::from(number), room, end) - 1;
    room[start] = mark;
    start
}

/// Writes a span after a space, up to a place of its room. Returns where it begins.
#[tactic(auto, using(crate::proofs::ScriptLemmas::Marked::marks_written))]
#[inline(always)]
fn marked_span(room: &mut [u8], span: Span, end: usize) -> usize
    requires { (24 ≤ end) × (end ≤ length room.old) }
    ensures start { (end ≤ result + 24) × (result ≤ end) }
    ensures written { drop result room.new ≡ after_space (span_text span) ++ drop end room.old }
{
    let Span {
        sid,
        iuc,
        start,
        len,
    } = span;
    let place = write_marked(room, b'/', len, end);
    let place = write_marked(room, b'/', start, place);
    let place = write_marked(room, b'/', u16::from(iuc.number()), place);
    write_marked(room, b' ', sid, place)
}

/// Writes few spans, each after a space, at the end of their room. Returns where they begin.
#[inline(always)]
pub(crate) fn spans_digits(room: &mut [u8; SPANS_ROOM], spans: &[Span]) -> usize
    requires { length spans.now ≤ 32 }
    ensures within { result ≤ 768 }
    ensures written { drop result room.new ≡ flat_map (λ span. after_space (span_text span)) spans.now }
{
    let mut place = SPANS_ROOM;
    let mut left = spans.len();
    while left > 0 {
        left -= 1;
        place = marked_span(room, spans[left], place);
    }
    place
}

/// Writes a grant pending after a space, up to a place of its room. Returns where it begins.
fn marked_pending(room: &mut [u8], sid: u16, end: usize) -> usize
    requires { (8 ≤ end) × (end ≤ length room.old) }
    ensures start { (end ≤ result + 8) × (result ≤ end) }
    ensures written { drop result room.new ≡ after_space (pending_text sid) ++ drop end room.old }
{
    room[end - 1] = b'P';
    room[end - 2] = b'/';
    write_marked(room, b' ', sid, end - 2)
}

/// Writes few grants pending, each after a space, at the end of their room. Returns where they
/// begin.
pub(crate) fn pendings_digits(room: &mut [u8; PENDINGS_ROOM], pending: &[u16]) -> usize
    requires { length pending.now ≤ 32 }
    ensures within { result ≤ 256 }
    ensures written { drop result room.new ≡ flat_map (λ sid. after_space (pending_text sid)) pending.now }
{
    let mut place = PENDINGS_ROOM;
    let mut left = pending.len();
    while left > 0 {
        left -= 1;
        place = marked_pending(room, pending[left], place);
    }
    place
}

/// Returns the digits of a modem's address.
#[inline(always)]
pub(crate) fn address_digits(modem: Modem) -> [u8; 12]
    ensures { result ≡ address modem }
{
    let [a, b, c, d, e, f] = modem.0;
    let (a, b, c) = (hex_pair(a), hex_pair(b), hex_pair(c));
    let (d, e, f) = (hex_pair(d), hex_pair(e), hex_pair(f));
    [a.0, a.1, b.0, b.1, c.0, c.1, d.0, d.1, e.0, e.1, f.0, f.1]
}

/// Returns what is before the bytes of a message: the letter of its line, and the modem.
#[inline(always)]
pub(crate) fn line_head(letter: u8, modem: Modem) -> [u8; 15]
    ensures { result ≡ letter ∷ (codes " " ++ (address modem ++ codes " ")) }
{
    let [a, b, c, d, e, f, g, h, i, j, k, l] = address_digits(modem);
    [letter, b' ', a, b, c, d, e, f, g, h, i, j, k, l, b' ']
}
