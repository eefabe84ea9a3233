//! The option `--version`.

ghost use Rattle.std.specs.Prelude.{◌≡◌, ◌≢◌};
ghost use Rattle.std.specs.Io.KnownBytes.{Appends};
ghost use Rattle.program_runner.specs.Version.{version_text};

use crate::answering::finish;
use std::io::Write;

/// The program and its version, which is that of the table in `command_line`.
const VERSION: &str = "plant_script 0.1\n";

/// Writes the version. Returns the status.
pub(crate) fn answer_version<W: Write>(writer: &mut W) -> u8
    ensures { result ≢ 6 → (result ≡ 0) × Appends (W.contents writer.old) (W.contents writer.new) version_text }
{
    finish(writer, 0, VERSION.as_bytes())
}
