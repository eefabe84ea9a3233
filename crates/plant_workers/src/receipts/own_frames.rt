//! The frames of an operator's book.

ghost use Rattle.std.specs.Prelude.{◌≡◌, ◌++◌, ℕ, List, [], ◌∷◌, map, MatchOption, IfOk, OnOk};
ghost use Rattle.std.specs.List.{AllZip};
ghost use Rattle.operator_model.specs.declared.output.Output.{Output};
ghost use Rattle.run_model.specs.IsTraceOf.{elements_at_frame};
ghost use Rattle.run_model.specs.IsStateAfter.{frames_of, AreNumbered};
ghost use Rattle.operator_book.specs.ViewOf.{view_of};
ghost use Rattle.plant_workers.specs.receipts.OwnParts.{history_outputs};
ghost use Rattle.plant_workers.specs.receipts.Framing.{frames_with_numbers, AreFramesOf};

use admission::IdRange;
use operator_book::{Book, Entry, Output};
use operator_model::frames_have_no_gap;
use slice_scheduler::Elements;
use std::alloc::{AllocError, Global};

/// A frame that a book has output.
#[derive(Clone, Copy, Debug)]
pub struct Frame<'a> {
    /// Its number.
    pub number: u32,
    /// What is in it.
    pub elements: &'a Elements,
}

/// An operator's SIDs, and the frames that its book has output, in order.
#[derive(Drop)]
pub(crate) struct OwnFrames<'a> {
    pub sids: IdRange,
    pub frames: Vec<Frame<'a>>,
}

/// Adds the frames of an action's outputs after others.
fn push_frames<'a>(frames: &mut Vec<Frame<'a>>, outputs: &'a [Output]) -> Result<(), AllocError>
    ensures { OnOk result (frames_with_numbers frames.new.items ≡ frames_with_numbers frames.old.items ++ frames_of outputs.now) }
{
    for output in outputs {
        if let Output::Frame { number, elements } = output {
            frames.push(Frame {
                number: *number,
                elements,
            })?;
        }
    }
    Ok(())
}

/// Returns the frames of a history, in order.
pub fn frames_in<'a>(alloc: Global, history: &'a [Entry]) -> Result<Vec<Frame<'a>>, AllocError>
    ensures { IfOk result (λ frames. frames_with_numbers frames.items ≡ frames_of (history_outputs history.now)) }
{
    let mut frames = Vec::new(alloc);
    for entry in history {
        push_frames(&mut frames, entry.outputs.as_slice())?;
    }
    Ok(frames)
}

/// Returns the frames of a book.
fn frames_of_book<'a>(alloc: Global, book: &'a Book) -> Result<OwnFrames<'a>, AllocError>
    ensures { IfOk result (λ own. AreFramesOf own (view_of book.now)) }
{
    // For the proof: the frames of the history are numbered without a gap.
    book.always_replayed();
    frames_have_no_gap();
    Ok(OwnFrames {
        sids: book.row().get_fields().sids,
        frames: frames_in(alloc, book.history())?,
    })
}

/// Returns the frames of all books.
pub(crate) fn frames_of_books<'a>(
    alloc: Global,
    books: &'a [Book],
) -> Result<Vec<OwnFrames<'a>>, AllocError>
    ensures { IfOk result (λ own. AllZip AreFramesOf own.items (map view_of books.now)) }
{
    let mut own = Vec::with_capacity(alloc, books.len())?;
    for book in books {
        own.push(frames_of_book(alloc, book)?)?;
    }
    Ok(own)
}

/// Returns the elements of the frame of a number. Takes the same time wherever it exists.
pub(crate) fn part_of_number<'a>(frames: &[Frame<'a>], number: u32) -> Option<&'a Elements>
    requires { (first : ℕ) × AreNumbered first (frames_with_numbers frames.now) }
    ensures { (outputs : List Output) → frames_with_numbers frames.now ≡ frames_of outputs
        → MatchOption result (elements_at_frame number outputs ≡ [])
        (λ part. elements_at_frame number outputs ≡ part.now ∷ []) }
{
    let first = frames.first()?.number;
    let place = number.checked_sub(first)?;
    Some(frames.get(place as usize)?.elements)
}
