//! The history of an operator: all that it did.

ghost use Rattle.std.specs.Prelude.{◌≡◌, ◌<◌, ◌++◌, ◌∷◌, [], OnOk};

use operator_model::Entry;
use std::alloc::{AllocError, Global};
use std::marker::Model;

/// All that an operator did, entry by entry. Contracts see the entries, and `spare`: how many of
/// them more it takes without memory.
#[derive(Drop)]
pub struct History {
    entries: Vec<Entry>,
}

impl Model for History {
    ghost use Rattle.std.specs.Prelude.{◌-◌, vec_len, vec_capacity};
    ghost use Rattle.operator_book.specs.Kept.{HeldHistory};

    ghost Value = { HeldHistory };

    ghost view = { λ h. record {
      entries = h.entries.items;
      spare = vec_capacity h.entries - vec_len h.entries;
    } };
}

impl History {
    /// Creates an empty history. Takes no memory.
    pub fn new(alloc: Global) -> History
        ensures { result.entries ≡ [] }
    {
        History {
            entries: Vec::new(alloc),
        }
    }

    /// Makes room for one entry more. A full history takes room for three times as many as it has,
    /// so that a long one is seldom moved.
    pub fn make_room(&mut self) -> Result<(), AllocError>
        ensures room { OnOk result (0 < self.new.spare) }
        ensures entries { self.new.entries ≡ self.old.entries }
    {
        if self.entries.len() < self.entries.capacity() {
            return Ok(());
        }
        self.entries
            .reserve(self.entries.len().saturating_mul(3).max(4))
    }

    /// Puts an entry at the end, in the room that `make_room` made. Takes no memory, and cannot fail.
    pub fn push(&mut self, entry: Entry)
        requires { 0 < self.old.spare }
        ensures { self.new.entries ≡ self.old.entries ++ entry ∷ [] }
    {
        self.entries.push_reserved(entry);
    }

    /// Returns the entries, from the first on.
    pub fn as_slice(&self) -> &[Entry]
        ensures { result.now ≡ self.now.entries }
    {
        self.entries.as_slice()
    }

    /// Returns what the history takes its memory from.
    pub fn allocator(&self) -> Global {
        *self.entries.allocator()
    }
}
