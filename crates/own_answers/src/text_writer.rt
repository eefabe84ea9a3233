//! A writer of the texts of one operator.

ghost use Rattle.std.specs.Prelude.{ℕ, List, IsTrue};

/// Describes where the texts of one operator are written.
pub trait TextWriter {
    /// What it makes of a writer that this text is written.
    ghost puts: { List ℕ → Self → Self → Type 0 };

    /// Writes a text. Returns whether all of it is written.
    fn write_text(&mut self, text: &[u8]) -> bool
        ensures { IsTrue result → puts text.now self.old self.new };
}
