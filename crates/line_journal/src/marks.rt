//! The bytes that the lines of a journal begin with, and a line with its mark.
ghost use Rattle.std.specs.Prelude.{◌≡◌, ◌↔◌, [], ◌∷◌, ◌++◌, IsTrue, IfOk};
ghost use Rattle.line_journal.specs.Lines.{IsLine, records};

use memchr::memchr;
use std::alloc::{AllocError, AllocFailed, Global};

/// The mark of a line of a snapshot.
pub(crate) const SNAPSHOT: u8 = b'=';

/// The mark of a line that counts.
pub(crate) const OPEN: u8 = b'+';

/// The mark before what does not count yet.
pub(crate) const CLOSED: u8 = b'-';

/// Says why a line was refused: out of memory, or it holds a line feed.
#[derive(Clone, Copy, Debug, PartialEq, Eq)]
pub enum LineError {
    Memory,
    LineFeed,
}

impl From<AllocError> for LineError {
    ghost use Rattle.line_journal.specs.declared.marks.LineError.TheVariants.{Memory};

    ghost from_gives = { λ _ e. e ≡ Memory };

    fn from(_: AllocError) -> Self {
        LineError::Memory
    }
}

impl<T: Drop> From<AllocFailed<T>> for LineError {
    ghost use Rattle.line_journal.specs.declared.marks.LineError.TheVariants.{Memory};

    ghost from_gives = { λ _ e. e ≡ Memory };

    fn from(_: AllocFailed<T>) -> Self {
        LineError::Memory
    }
}

/// Returns whether a text holds no line feed.
#[tactic(auto, using(crate::proofs::FirstLine::whole_line, crate::proofs::FirstLine::broken_line))]
pub(crate) fn is_line(text: &[u8]) -> bool
    ensures { IsTrue result ↔ IsLine text.now }
{
    match memchr(b'\n', text) {
        None => true,
        Some(_place) => false,
    }
}

/// Returns a line with its mark and its line feed.
pub(crate) fn marked_line(alloc: Global, mark: u8, line: &[u8]) -> Result<Vec<u8>, AllocError>
    ensures { IfOk result (λ text. text.items ≡ records mark (line.now ∷ [])) }
{
    let mut text = Vec::new(alloc);
    text.push(mark)?;
    text.extend_from_slice(line)?;
    text.push(b'\n')?;
    Ok(text)
}
