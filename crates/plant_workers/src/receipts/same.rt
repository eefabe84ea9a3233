//! Whether two values are the same.

ghost use Rattle.std.specs.Prelude.{◌≡◌, ◌↔◌, IsTrue};

use operator_model::{Action, Heard, Output};
use slice_scheduler::{Elements, Span};

/// Returns whether the same was received.
pub fn is_same_heard(a: &Heard, b: &Heard) -> bool
    ensures { IsTrue result ↔ (a.now ≡ b.now) }
{
    match (a, b) {
        (Heard::Message(bytes), Heard::Message(others)) => bytes.as_slice() == others.as_slice(),
        (
            Heard::Request { sid, minislots },
            Heard::Request {
                sid: other,
                minislots: others,
            },
        ) => sid == other && minislots == others,
        _ => false,
    }
}

/// Returns whether the same was done.
pub(crate) fn is_same_action(a: &Action, b: &Action) -> bool
    ensures { IsTrue result ↔ (a.now ≡ b.now) }
{
    match (a, b) {
        (
            Action::Arrive { modem, heard },
            Action::Arrive {
                modem: other,
                heard: others,
            },
        ) => modem == other && is_same_heard(heard, others),
        (Action::Work, Action::Work) | (Action::Tick, Action::Tick) => true,
        (
            Action::Reslice { from, row },
            Action::Reslice {
                from: other,
                row: others,
            },
        ) => from == other && row == others,
        _ => false,
    }
}

/// Returns whether the spans are the same.
fn are_same_spans(a: &[Span], b: &[Span]) -> bool
    ensures { IsTrue result ↔ (a.now ≡ b.now) }
{
    a == b
}

/// Returns whether the elements are the same.
pub fn are_same_elements(a: &Elements, b: &Elements) -> bool
    ensures { IsTrue result ↔ (a.now ≡ b.now) }
{
    a.get_slice() == b.get_slice()
        && are_same_spans(a.get_spans(), b.get_spans())
        && a.get_pending() == b.get_pending()
}

/// Returns whether the same was output.
fn is_same_output(a: &Output, b: &Output) -> bool
    ensures { IsTrue result ↔ (a.now ≡ b.now) }
{
    match (a, b) {
        (
            Output::Reply { modem, bytes },
            Output::Reply {
                modem: other,
                bytes: others,
            },
        ) => modem == other && bytes.as_slice() == others.as_slice(),
        (
            Output::Silent { modem, cause },
            Output::Silent {
                modem: other,
                cause: others,
            },
        ) => modem == other && cause == others,
        (
            Output::Frame { number, elements },
            Output::Frame {
                number: other,
                elements: others,
            },
        ) => number == other && are_same_elements(elements, others),
        _ => false,
    }
}

/// Returns whether the same was output, in the same order.
pub(crate) fn are_same_outputs(a: &[Output], b: &[Output]) -> bool
    ensures { IsTrue result ↔ (a.now ≡ b.now) }
{
    if a.len() != b.len() {
        return false;
    }
    for (place, output) in a.iter().enumerate() {
        if !is_same_output(output, &b[place]) {
            return false;
        }
    }
    true
}
