//! The frames of an operator's history that are due, one after the other.

ghost use Rattle.std.specs.Prelude.{◌≡◌, ◌+◌, ◌<◌, ◌∷◌, [], drop, take, slice_get, option_map, Some, None, IsSome, IsTrue, ◌↔◌, All, MatchOption};
ghost use Rattle.run_model.specs.IsStateAfter.{frames_of};
ghost use Rattle.plant_core.specs.Waiting.{frames_in, waiting_in, IsOneFrame};
ghost use Rattle.plant_workers.specs.receipts.Framing.{numbered_frame};

use crate::receipts::{Frame, are_same_elements};
use operator_model::{Entry, Output};

/// Returns the first frame among outputs.
fn frame_in(outputs: &[Output]) -> Option<Frame<'_>>
    ensures { option_map numbered_frame result ≡ slice_get (frames_of outputs.now) 0 }
{
    for output in outputs {
        if let Output::Frame { number, elements } = output {
            return Some(Frame {
                number: *number,
                elements,
            });
        }
    }
    None
}

/// Returns the first frame from a place of a history on, with the place after it. Takes no memory.
fn next_frame(history: &[Entry], from: usize) -> Option<(usize, Frame<'_>)>
    requires { All IsOneFrame history.now }
    ensures { MatchOption result (waiting_in history.now from ≡ [])
        (λ next. waiting_in history.now from ≡ numbered_frame next.1 ∷ waiting_in history.now next.0) }
{
    for place in from..history.len() {
        if let Some(frame) = frame_in(history[place].outputs.as_slice()) {
            return Some((place + 1, frame));
        }
    }
    None
}

/// Returns the frame that is due after so many others, with the place after it; so many frames of
/// the history are due, and those after the others are looked for from a place on.
pub(crate) fn next_due(
    history: &[Entry],
    due: usize,
    given: usize,
    from: usize,
) -> Option<(usize, Frame<'_>)>
    requires one { All IsOneFrame history.now }
    requires place { waiting_in history.now from ≡ drop given (frames_in history.now) }
    ensures next { MatchOption result (slice_get (take due (frames_in history.now)) given ≡ None)
        (λ next. (slice_get (take due (frames_in history.now)) given ≡ Some (numbered_frame next.1))
        × (waiting_in history.now next.0 ≡ drop (given + 1) (frames_in history.now))) }
    ensures room { IsSome result → given < due }
{
    if given < due {
        next_frame(history, from)
    } else {
        None
    }
}

/// Returns whether two frames are the same.
fn is_same_frame(a: &Frame, b: &Frame) -> bool
    ensures { IsTrue result ↔ (numbered_frame a.now ≡ numbered_frame b.now) }
{
    a.number == b.number && are_same_elements(a.elements, b.elements)
}

/// Returns the place after the frame that is due after so many others, where it is this one.
pub(crate) fn behind_due(
    history: &[Entry],
    due: usize,
    given: usize,
    from: usize,
    put: &Frame,
) -> Option<usize>
    requires one { All IsOneFrame history.now }
    requires place { waiting_in history.now from ≡ drop given (frames_in history.now) }
    ensures next { MatchOption result (slice_get (take due (frames_in history.now)) given ≡ Some (numbered_frame put.now) → ⊥)
        (λ behind. (slice_get (take due (frames_in history.now)) given ≡ Some (numbered_frame put.now))
        × (waiting_in history.now behind ≡ drop (given + 1) (frames_in history.now))) }
    ensures room { IsSome result → given < due }
{
    match next_due(history, due, given, from) {
        Some((behind, frame)) => {
            if is_same_frame(&frame, put) {
                Some(behind)
            } else {
                None
            }
        }
        None => None,
    }
}
