//! Which lines are commands.

ghost use Rattle.std.specs.Prelude.{◌≡◌};
ghost use Rattle.state_service.specs.resumed.Items.{asks_snapshot};
ghost use Rattle.state_service.specs.resumed.NewFrames.{asks_frame};
ghost use Rattle.state_service.specs.Commands.{is_command};

/// The most bytes of a line.
const MOST_LINE: usize = 4096;

/// Returns whether a line requests a snapshot.
pub(crate) fn asks_snapshot(line: &[u8]) -> bool
    ensures { result ≡ asks_snapshot line.now }
{
    line == b"K".as_slice()
}

/// Returns whether a line requests another number for the next frame.
fn asks_frame(line: &[u8]) -> bool
    ensures { result ≡ asks_frame line.now }
{
    line.len() <= MOST_LINE && line.strip_prefix(b"N").is_some()
}

/// Returns whether a line is a command: it requests a snapshot, or another number for the next frame.
pub(crate) fn is_command(line: &[u8]) -> bool
    ensures { result ≡ is_command line.now }
{
    asks_snapshot(line) || asks_frame(line)
}
