//! Lines of operators and of the owner, and what waits in the queue of an operator.

ghost use Rattle.std.specs.Prelude.{◌≡◌, ◌<◌, ◌↔◌, ℕ, List, IsTrue, length};
ghost use Rattle.fair_queue.specs.Items.{is_line, next_number};

use std::marker::Model;

/// The most bytes that a line may have, without its line feed.
pub const MOST_LINE_BYTES: usize = 4096;

/// Holds a line of an input without its line feed. Contracts see its bytes.
///
/// Of a line that is too long a reader keeps one byte more than a line may have, so that the line stays too long and is not taken for
/// another one.
#[derive(Drop)]
pub struct Line {
    bytes: Vec<u8>,
}

impl Model for Line {
    ghost use Rattle.std.specs.Prelude.{ℕ, List};

    ghost Value = { List ℕ };

    ghost view = { λ line. line.bytes.items };
}

impl Line {
    /// Returns the line of these bytes.
    pub fn new(bytes: Vec<u8>) -> Line
        ensures { result ≡ bytes.items }
    {
        Line { bytes }
    }

    /// Returns the bytes of the line.
    pub fn bytes(&self) -> &[u8]
        ensures { result.now ≡ self.now }
    {
        self.bytes.as_slice()
    }

    /// Returns whether the line has more bytes than a line may have.
    pub fn is_long(&self) -> bool
        ensures { IsTrue result ↔ (4096 < length self.now) }
    {
        self.bytes.len() > MOST_LINE_BYTES
    }
}

/// Holds a line of an operator that is chosen, with its number among the lines of its input.
#[derive(Drop)]
pub struct NumberedLine {
    pub number: u64,
    pub line: Line,
}

/// Holds a line of the owner.
#[derive(Drop)]
pub struct OwnerLine {
    pub line: Line,
    /// Says whether the line is a tick.
    pub is_tick: bool,
}

/// Says what waits in the queue of an operator, in the order in which it came.
#[derive(Drop)]
pub enum Item {
    /// A line of the operator.
    Line(Line),
    /// The mark of a line of the owner, which is a tick or not.
    Owner { is_tick: bool },
}

impl Item {
    /// Returns whether the item is a line of the operator.
    pub fn is_line(&self) -> bool
        ensures { result ≡ is_line self.now }
    {
        matches!(self, Item::Line(_))
    }
}

/// Holds counts of an input, for metrics.
#[derive(Clone, Copy, Debug, PartialEq, Eq)]
pub struct InputCounts {
    /// The number of lines that were chosen, over all starts.
    pub taken: u64,
    /// The number of lines that wait.
    pub waiting: usize,
    /// The number of bytes that wait, with a line feed for each line.
    pub bytes: usize,
}

/// Returns the number of the line after so many lines of an input. After 2^64 - 1 lines it stays the same.
pub(crate) fn next_number(taken: u64) -> u64
    ensures { result ≡ next_number taken }
{
    taken.saturating_add(1)
}
