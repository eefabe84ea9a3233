//! Lines that become durable together.
ghost use Rattle.std.specs.Prelude.{◌≡◌, ◌↔◌, [], ◌∷◌, ◌++◌, List, ℕ, IfOk, OnOk, OnErr, IsErrOf};
ghost use Rattle.line_journal.specs.Lines.{IsLine, marked_lines, records};
ghost use Rattle.line_journal.specs.Journal.{shut_text};

use crate::LineError;
use crate::marks::{CLOSED, OPEN, is_line, marked_line};
use std::alloc::{AllocError, Global};
use std::marker::Model;

/// Holds lines, each with its mark and its line feed.
#[derive(Drop)]
pub struct Batch {
    text: Vec<u8>,
}

impl Model for Batch {
    ghost Value = { List (List ℕ) };

    ghost view = { λ b. marked_lines 43 b.text.items };

    ghost invariant = { λ b. b.text.items ≡ records 43 (marked_lines 43 b.text.items) };
}

impl Batch {
    /// Creates a batch without any line.
    pub fn new(alloc: Global) -> Self
        ensures { result ≡ [] }
    {
        Batch {
            text: Vec::new(alloc),
        }
    }

    /// Adds a line at the end. A line that holds a line feed is refused. An error changes nothing.
    pub fn push(&mut self, alloc: Global, line: &[u8]) -> Result<(), LineError>
        ensures ok { OnOk result (self.new ≡ self.old ++ line.now ∷ []) }
        ensures err { OnErr result (self.new ≡ self.old) }
        // Refused exactly if the line has a line feed.
        ensures line_feed { IsErrOf result LineError.LineFeed ↔ (IsLine line.now → ⊥) }
    {
        if !is_line(line) {
            return Err(LineError::LineFeed);
        }
        let record = marked_line(alloc, OPEN, line)?;
        self.text.extend_from_slice(&record)?;
        Ok(())
    }

    /// Removes all lines, and keeps the memory for others.
    pub fn clear(&mut self)
        ensures { self.new ≡ [] }
    {
        self.text.clear();
    }

    /// Returns the text of the lines, with a closed gate after them.
    pub(crate) fn closed_text(&self, alloc: Global) -> Result<Vec<u8>, AllocError>
        ensures text { IfOk result (λ text. text.items ≡ shut_text self.now) }
        ensures lines { IfOk result (λ text. marked_lines 43 text.items ≡ self.now) }
    {
        let mut text = self.text.to_vec(alloc)?;
        text.push(CLOSED)?;
        Ok(text)
    }
}
