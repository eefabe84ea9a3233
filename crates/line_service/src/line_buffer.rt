//! The line that is being read.

ghost use Rattle.std.specs.Prelude.{◌++◌, ◌∷◌, [], List, ℕ, OnOk, IfOk};
ghost use Rattle.line_service.specs.SoFar.{IsHeld};

use std::alloc::{AllocError, Global};

/// The most bytes of a line.
pub const MOST_BYTES: usize = 4096;

/// What was read of a line: its bytes, or that it is too long. It has room for a line from its opening on.
#[derive(Drop)]
pub struct LineBuffer {
    /// The bytes that were read, 4,096 at most.
    pub bytes: Vec<u8>,
    /// Whether there were more.
    pub is_long: bool,
}

impl LineBuffer {
    /// Creates an empty buffer with room for a line.
    pub fn new(alloc: Global) -> Result<LineBuffer, AllocError>
        ensures { IfOk result (λ held. IsHeld held.bytes.items held.is_long []) }
    {
        let bytes = Vec::with_capacity(alloc, MOST_BYTES)?;
        Ok(LineBuffer {
            bytes,
            is_long: false,
        })
    }

    /// Adds bytes to the line. If they do not fit, the line is too long.
    pub fn extend(&mut self, bytes: &[u8]) -> Result<(), AllocError>
        ensures { OnOk result ((part : List ℕ) → IsHeld self.old.bytes.items self.old.is_long part
            → IsHeld self.new.bytes.items self.new.is_long (part ++ bytes.now)) }
    {
        if bytes.len() <= MOST_BYTES.saturating_sub(self.bytes.len()) {
            self.bytes.extend_from_slice(bytes)?;
        } else {
            self.is_long = true;
        }
        Ok(())
    }

    /// Adds a byte to the line.
    pub fn push(&mut self, byte: u8) -> Result<(), AllocError>
        ensures { OnOk result ((part : List ℕ) → IsHeld self.old.bytes.items self.old.is_long part
            → IsHeld self.new.bytes.items self.new.is_long (part ++ byte ∷ [])) }
    {
        self.extend(&[byte])
    }

    /// Makes the line empty again.
    pub fn clear(&mut self)
        ensures { IsHeld self.new.bytes.items self.new.is_long [] }
    {
        self.bytes.clear();
        self.is_long = false;
    }
}
