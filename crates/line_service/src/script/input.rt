//! An input in two: a plant file, and the script after a line of three dashes.

ghost use Rattle.std.specs.Prelude.{◌≡◌, ◌≤◌, length, true};
ghost use Rattle.std.specs.Str.{is_utf8};
ghost use Rattle.line_service.specs.script.Input.{is_bar, before_bar, plant_text, script_text};

use memchr::memchr;

/// Returns whether a line of three dashes is at the head of the bytes.
#[inline(always)]
fn is_bar(bytes: &[u8]) -> bool
    ensures { result ≡ is_bar bytes.now }
{
    match bytes {
        [b'-', b'-', b'-'] | [b'-', b'-', b'-', b'\n', ..] => true,
        _ => false,
    }
}

/// Returns the number of bytes before the first line of three dashes.
pub fn before_bar(input: &[u8]) -> usize
    ensures value { result ≡ before_bar true input.now }
    ensures inside { result ≤ length input.now }
{
    let mut start = 0;
    while start < input.len() {
        let rest = &input[start..];
        if is_bar(rest) {
            return start;
        }
        match memchr(b'\n', rest) {
            Some(place) => start += place + 1,
            None => return input.len(),
        }
    }
    input.len()
}

/// Returns what is before that line.
#[tactic(auto, unfolding(crate::specs::script::Input::plant_text))]
pub fn plant_text(input: &[u8], place: usize) -> &str
    requires utf8 { is_utf8 input.now ≡ true }
    requires place { place ≡ before_bar true input.now }
    requires inside { place ≤ length input.now }
    ensures { result.now ≡ plant_text input.now }
{
    match str::from_utf8(&input[..place]) {
        Ok(text) => text,
        Err(_error) => unreachable!(),
    }
}

/// Returns what is after it.
#[tactic(auto, unfolding(crate::specs::script::Input::script_text))]
pub fn script_text(input: &[u8], place: usize) -> &[u8]
    requires place { place ≡ before_bar true input.now }
    requires inside { place ≤ length input.now }
    ensures { result.now ≡ script_text input.now }
{
    if input.len() - place < 4 {
        &[]
    } else {
        &input[place + 4..]
    }
}
