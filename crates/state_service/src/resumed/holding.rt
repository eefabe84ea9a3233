//! Comparing the line that was read.

ghost use Rattle.std.specs.Prelude.{◌≡◌, ◌≤◌, List, ℕ, length};
ghost use Rattle.std.specs.Str.{bytes_eq};
ghost use Rattle.line_service.specs.SoFar.{IsHeld};

use line_service::LineBuffer;

/// Returns whether the line that was read is this one, of at most 4,096 bytes.
pub(crate) fn is_held(held: &LineBuffer, text: &[u8]) -> bool
    requires { length text.now ≤ 4096 }
    ensures { (line : List ℕ) → IsHeld held.now.bytes.items held.now.is_long line → result ≡ bytes_eq line text.now }
{
    if held.is_long {
        return false;
    }
    held.bytes.as_slice() == text
}
