//! A book put behind a lock, and taken from after it.

ghost use Rattle.std.specs.Prelude.{◌≡◌, ◌≤◌, [], false, All, drop, length, count_by};
ghost use Rattle.operator_book.specs.ViewOf.{view_of};
ghost use Rattle.plant_workers.specs.cell_state.HeldView.{cell_book, waiting_of};
ghost use Rattle.plant_core.specs.Waiting.{frames_in, waiting_in, IsOneFrame};
ghost use Rattle.plant_workers.specs.cell_state.Taking.{frames_at, is_frame, has_frame};

use crate::cell_state::held::Held;
use operator_book::Book;
use operator_model::{Entry, Output};

/// Returns whether an output is a frame.
fn is_frame(output: &Output) -> bool
    ensures { result ≡ is_frame output.now }
{
    match output {
        Output::Frame {
            number: _,
            elements: _,
        } => true,
        Output::Reply { modem: _, bytes: _ } | Output::Silent { modem: _, cause: _ } => false,
    }
}

/// Returns how many outputs are frames.
fn count_frames(outputs: &[Output]) -> usize
    ensures { result ≡ count_by is_frame outputs.now }
{
    outputs.iter().filter(|output| is_frame(output)).count()
}

/// Returns whether an entry output a frame.
fn has_frame(entry: &Entry) -> bool
    ensures { result ≡ has_frame entry.now }
{
    0 < count_frames(entry.outputs.as_slice())
}

/// Returns how many entries output a frame.
fn entries_with_frame(entries: &[Entry]) -> usize
    ensures { result ≡ count_by has_frame entries.now }
{
    entries.iter().filter(|entry| has_frame(entry)).count()
}

/// Returns the place of a history after its first frames, so many of them.
fn behind(history: &[Entry], taken: usize) -> usize
    requires one { All IsOneFrame history.now }
    requires enough { taken ≤ length (frames_in history.now) }
    ensures within { result ≤ length history.now }
    ensures waiting { waiting_in history.now result ≡ drop taken (frames_in history.now) }
{
    let mut left = taken;
    for (place, entry) in history.iter().enumerate() {
        if left == 0 {
            return place;
        }
        left -= count_frames(entry.outputs.as_slice());
    }
    history.len()
}

impl Held {
    /// Returns a book of which all frames count as collected. Takes no memory.
    pub fn of(book: Book) -> Held
        requires { book.ranking.policy ≡ book.kept.book.row.policy }
        ensures book { cell_book result ≡ view_of book }
        ensures waiting { waiting_of result ≡ [] }
        ensures stopped { result.stopped ≡ false }
    {
        let collected = book.history().len();
        Held {
            book,
            collected,
            stopped: false,
        }
    }

    /// Returns a book of which so many frames are collected: what `into_parts` gives, put together
    /// again. Takes no memory.
    pub fn again(book: Book, taken: usize) -> Held
        requires { taken ≤ length (frames_at (view_of book)) }
        ensures book { cell_book result ≡ view_of book }
        ensures waiting { waiting_of result ≡ drop taken (frames_at (view_of book)) }
        ensures stopped { result.stopped ≡ false }
    {
        // For the proof: each entry of the history outputs one frame at most.
        book.always_replayed();
        let collected = behind(book.history(), taken);
        Held {
            book,
            collected,
            stopped: false,
        }
    }

    /// Returns the book, and how many of its frames were collected. Takes no memory.
    pub fn into_parts(self) -> (Book, usize)
        requires { self.collected ≤ length (cell_book self).history }
        ensures book { view_of result.0 ≡ cell_book self }
        ensures within { result.1 ≤ length (frames_at (view_of result.0)) }
        ensures taken { waiting_of self ≡ drop result.1 (frames_at (view_of result.0)) }
    {
        let Held {
            book,
            collected,
            stopped: _,
        } = self;
        // For the proof: each entry of the history outputs one frame at most.
        book.always_replayed();
        let taken = entries_with_frame(&book.history()[..collected]);
        (book, taken)
    }
}
