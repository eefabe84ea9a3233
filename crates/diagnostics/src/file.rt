//! A plant file that is TOML: what it says, and on which lines.

use crate::places::{Lines, lines_of};
use crate::reason::{GapText, Reason};
use crate::tree::{number, table_at, text};
use crate::values::{Letters, first_beside};
use slice_table::{Field, Key, Place};
use toml::Table;

/// A plant file that is TOML.
#[derive(Drop)]
pub(crate) struct File<'a> {
    pub(crate) document: &'a Table,
    pub(crate) lines: Lines<'a>,
}

impl<'a> File<'a> {
    /// Returns the plant file of a text and its document.
    pub(crate) fn new(reason: &mut Reason, document: &'a Table, text: &'a str) -> File<'a> {
        let lines = lines_of(reason, text);
        File { document, lines }
    }

    /// Returns the name in the table at a place, or of the operator around it. `None` where it has other characters than
    /// letters and digits.
    pub(crate) fn name_at(&self, place: Place) -> Option<&str> {
        let named = match place {
            Place::Flow(operator, _) => Place::Operator(operator),
            place => place,
        };
        let name = text(table_at(self.document, named)?, Field::Name)?;
        match first_beside(name, Letters::Alphanumeric) {
            None if !name.is_empty() && name.len() <= 16 => Some(name),
            _ => None,
        }
    }

    /// Returns a number under a key of the table `plant`, if it is in a range.
    fn plant_number(&self, field: Field, low: u64, high: u64) -> Option<u64> {
        let plant = table_at(self.document, Place::Plant)?;
        match number(plant, field) {
            Some(number) if low <= number && number <= high => Some(number),
            _ => None,
        }
    }

    /// Returns the minislots of a frame, if the key is valid.
    pub(crate) fn frame(&self) -> Option<u64> {
        self.plant_number(Field::FrameMinislots, 1, 4096)
    }

    /// Returns the minislots of the head and of a frame, if both keys are valid.
    pub(crate) fn head_and_frame(&self) -> Option<(u64, u64)> {
        let frame = self.frame()?;
        let head = self.plant_number(Field::Head, 0, frame)?;
        Some((head, frame))
    }
}

/// Says a line number, if it is known, after the name of a place.
fn say_line(reason: &mut Reason, line: Option<u64>) {
    if let Some(line) = line {
        reason.say(", line {}", &[GapText::Number(line)]);
    }
}

/// Says which table of a plant file a message is about: its place, its name, and a line.
pub(crate) fn say_where(reason: &mut Reason, file: &File<'_>, place: Place, line: Option<u64>) {
    reason.say("{}", &[GapText::Place(place)]);
    if let Some(name) = file.name_at(place) {
        reason.say(" ({})", &[GapText::Words(name)]);
    }
    say_line(reason, line);
    reason.say(": ", &[]);
}

/// Says which key at the top of a plant file a message is about, and its line.
pub(crate) fn say_where_at_top(reason: &mut Reason, file: &File<'_>, key: Key) {
    reason.say("{}", &[GapText::Key(key)]);
    say_line(reason, file.lines.line_of(key));
    reason.say(": ", &[]);
}
