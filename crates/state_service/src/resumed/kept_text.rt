//! The text of a plant file that is being read.

ghost use Rattle.std.specs.Prelude.{◌++◌, ◌∷◌, [], List, ℕ, codes};
ghost use Rattle.state_service.specs.resumed.PlantFiles.{IsKeptUpTo, most_bytes, most_kept};

use std::alloc::Global;

/// The most bytes that are kept: those of a plant file, and the three dashes after it.
const MOST_KEPT: usize = 1_048_579;

/// The bytes of the line that ends a plant file.
const DASHES: usize = 3;

/// How much of a text is kept.
#[derive(Clone, Copy, Debug, PartialEq, Eq)]
pub(crate) enum Keeping {
    /// All of it.
    Whole,
    /// Its beginning: it is too long.
    TooLong,
    /// Its beginning: memory ran out.
    NoMemory,
}

/// The text of a plant file that is being read. A text that is too long, or for which memory runs out, is not kept further.
#[derive(Drop)]
pub(crate) struct KeptText {
    pub(crate) bytes: Vec<u8>,
    pub(crate) keeping: Keeping,
}

impl KeptText {
    /// Returns the text of which nothing is read.
    pub(crate) fn new(alloc: Global) -> KeptText
        ensures { IsKeptUpTo most_kept result.keeping result.bytes.items [] }
    {
        KeptText {
            bytes: Vec::new(alloc),
            keeping: Keeping::Whole,
        }
    }

    /// Adds a byte to the text.
    pub(crate) fn push(&mut self, byte: u8)
        ensures { (text : List ℕ) → IsKeptUpTo most_kept self.old.keeping self.old.bytes.items text
            → IsKeptUpTo most_kept self.new.keeping self.new.bytes.items (text ++ byte ∷ []) }
    {
        if self.keeping != Keeping::Whole {
            return;
        }
        if self.bytes.len() >= MOST_KEPT {
            self.keeping = Keeping::TooLong;
        } else if self.bytes.push(byte).is_err() {
            self.keeping = Keeping::NoMemory;
        }
    }

    /// Removes the three dashes at the end of the text.
    pub(crate) fn remove_dashes(&mut self)
        ensures { (text : List ℕ) → IsKeptUpTo most_kept self.old.keeping self.old.bytes.items (text ++ codes "---")
            → IsKeptUpTo most_bytes self.new.keeping self.new.bytes.items text }
    {
        let length = self.bytes.len().saturating_sub(DASHES);
        self.bytes.truncate(length);
    }
}
