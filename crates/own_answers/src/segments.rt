//! Files that are written one after the other.

ghost use Rattle.std.specs.Prelude.{◌≡◌, ◌++◌, ◌∷◌, [], ℕ, List, OnOk};

use std::io;

/// Describes files that are written one after the other, each of them a segment.
///
/// What a segment has before its texts, such as a line with its number, does not count as part of `current`.
pub trait Segments {
    /// The texts of each segment that is closed, as bytes.
    ghost closed: { Self → List (List ℕ) };

    /// The texts of the current segment, as bytes.
    ghost current: { Self → List ℕ };

    /// Writes bytes to the end of the current segment.
    fn append(&mut self, bytes: &[u8]) -> io::Result<()>
        ensures closed { OnOk result (closed self.new ≡ closed self.old) }
        ensures current { OnOk result (current self.new ≡ current self.old ++ bytes.now) };

    /// Closes the current segment and begins the next one, which is empty.
    fn begin_next(&mut self) -> io::Result<()>
        ensures closed { OnOk result (closed self.new ≡ closed self.old ++ current self.old ∷ []) }
        ensures current { OnOk result (current self.new ≡ []) };
}
