//! The lines that a journal begins with.
ghost use Rattle.std.specs.Prelude.{◌≡◌, ◌↔◌, [], ◌∷◌, ◌++◌, List, ℕ, IfOk, OnOk, OnErr, IsErrOf};
ghost use Rattle.line_journal.specs.Lines.{IsLine, marked_lines, records};
ghost use Rattle.line_journal.specs.Journal.{journal_text};

use crate::LineError;
use crate::marks::{CLOSED, SNAPSHOT, is_line, marked_line};
use std::alloc::{AllocError, Global};
use std::marker::Model;

/// Holds the lines of a snapshot, each with its mark and its line feed.
#[derive(Drop)]
pub struct SnapshotLines {
    text: Vec<u8>,
}

impl Model for SnapshotLines {
    ghost Value = { List (List ℕ) };

    ghost view = { λ s. marked_lines 61 s.text.items };

    ghost invariant = { λ s. s.text.items ≡ records 61 (marked_lines 61 s.text.items) };
}

impl SnapshotLines {
    /// Creates a snapshot without lines.
    pub fn new(alloc: Global) -> Self
        ensures { result ≡ [] }
    {
        SnapshotLines {
            text: Vec::new(alloc),
        }
    }

    /// Adds a line at the end. A line that holds a line feed is refused. An error changes nothing.
    pub fn push(&mut self, alloc: Global, line: &[u8]) -> Result<(), LineError>
        ensures ok { OnOk result (self.new ≡ self.old ++ line.now ∷ []) }
        ensures err { OnErr result (self.new ≡ self.old) }
        // Refused exactly if the line has a line feed.
        ensures line_feed { IsErrOf result LineError.LineFeed ↔ (IsLine line.now → ⊥) }
    {
        if !is_line(line) {
            return Err(LineError::LineFeed);
        }
        let record = marked_line(alloc, SNAPSHOT, line)?;
        self.text.extend_from_slice(&record)?;
        Ok(())
    }

    /// Returns the text of a journal that has this snapshot and no line.
    pub(crate) fn file(&self, alloc: Global) -> Result<Vec<u8>, AllocError>
        ensures text { IfOk result (λ text. text.items ≡ journal_text (record { snapshot = self.now; lines = [] })) }
        ensures lines { IfOk result (λ text. marked_lines 61 text.items ≡ self.now) }
    {
        let mut text = self.text.to_vec(alloc)?;
        text.extend_from_slice(&[b'\n', CLOSED])?;
        Ok(text)
    }
}
