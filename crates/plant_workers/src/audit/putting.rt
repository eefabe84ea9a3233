//! Whether what was put in an assembly is what operators' histories output.

ghost use Rattle.std.specs.Prelude.{◌≡◌, ℕ, All, map, take, option_map, MatchOption, Option, Some, None};
ghost use Rattle.operator_book.specs.ViewOf.{view_of};
ghost use Rattle.run_model.specs.IsStateAfter.{AreNumbered};
ghost use Rattle.plant_core.specs.Waiting.{frames_in, IsOneFrame};
ghost use Rattle.plant_workers.specs.receipts.Framing.{numbered_frame};
ghost use Rattle.plant_workers.specs.audit.Placings.{put_by, puts_of};
ghost use Rattle.plant_workers.specs.audit.Straying.{ArePut, IsPutStray};
ghost use Rattle.plant_workers.specs.audit.Numbering.{AllAreNumbered, IsMissed};
ghost use Rattle.plant_workers.specs.receipts.Straying.{lesser};

use crate::audit::counting::{MOST_OPERATORS, collects_of, count_all_collects};
use crate::audit::due::{behind_due, next_due};
use crate::audit::placing::Placing;
use crate::receipts::Frame;
use operator_book::Book;
use operator_model::Entry;
use plant::Op;
use run_model::Step;

/// Returns the frame that a placing put of this operator, if it put one.
fn put_by(op: Op, placing: &Placing) -> Option<Frame<'_>>
    ensures { option_map numbered_frame result ≡ put_by op placing.now }
{
    match placing {
        Placing::Put {
            op: other,
            frame,
            elements,
        } => {
            if *other == op {
                Some(Frame {
                    number: *frame,
                    elements,
                })
            } else {
                None
            }
        }
        Placing::Reslice { from: _, rows: _ } => None,
    }
}

/// Returns the number of the first frame that an operator has not put as it is due, or has put and is not due. So many of
/// the frames of its history are due. Takes no memory.
fn first_missed(op: Op, history: &[Entry], due: usize, placings: &[Placing]) -> Option<u32>
    requires { All IsOneFrame history.now }
    ensures { (first : ℕ) → AreNumbered first (puts_of op placings.now) → AreNumbered first (take due (frames_in history.now))
        → MatchOption result (puts_of op placings.now ≡ take due (frames_in history.now))
        (IsMissed first (puts_of op placings.now) (take due (frames_in history.now))) }
{
    let mut from = 0;
    let mut given = 0;
    for placing in placings {
        if let Some(put) = put_by(op, placing) {
            let number = put.number;
            let Some(behind) = behind_due(history, due, given, from, &put) else {
                return Some(number);
            };
            from = behind;
            given += 1;
        }
    }
    match next_due(history, due, given, from) {
        Some((_, frame)) => Some(frame.number),
        None => None,
    }
}

/// Returns the lesser of two numbers, where they are there.
fn lesser(a: Option<u32>, b: Option<u32>) -> Option<u32>
    ensures { result ≡ lesser a b }
{
    match (a, b) {
        (Some(a), Some(b)) => Some(a.min(b)),
        (Some(a), None) => Some(a),
        (None, b) => b,
    }
}

/// Returns the first frame of which an operator's part was not put as it was due. Takes no memory.
pub(crate) fn first_put_stray(books: &[Book], placings: &[Placing], steps: &[Step]) -> Option<u32>
    ensures { (first : ℕ) → AllAreNumbered first steps.now (map view_of books.now) placings.now
        → MatchOption result (ArePut steps.now (map view_of books.now) placings.now)
        (IsPutStray first steps.now (map view_of books.now) placings.now) }
{
    let mut counts = [0; MOST_OPERATORS];
    count_all_collects(&mut counts, steps);
    let mut least = None;
    for (op, book) in books.iter().enumerate() {
        // For the proof: the frames of the history are numbered without a gap.
        book.always_replayed();
        let due = collects_of(&counts, op, steps);
        least = lesser(least, first_missed(op, book.history(), due, placings));
    }
    least
}
