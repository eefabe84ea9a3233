//! Line numbers of the tables and the keys of a plant file.

use crate::reason::Reason;
use crate::scan::Scan;
use slice_table::{Field, Key, Place};

/// Where a line is written.
#[derive(Clone, Copy, PartialEq, Eq)]
pub(crate) enum Spot {
    /// Among the keys and tables at the top of the file.
    Top,
    /// In a table that the program reads.
    Table(Place),
    /// In another table.
    Elsewhere,
}

/// A key, or the first line of a table, which has no word here.
#[derive(Drop)]
struct Written<'a> {
    spot: Spot,
    word: &'a str,
    number: u64,
}

/// The lines of a plant file. A file whose lines are not understood has no line numbers, and never a wrong one.
#[derive(Drop)]
pub(crate) struct Lines<'a> {
    text: &'a str,
    written: Vec<Written<'a>>,
    is_understood: bool,
}

impl<'a> Lines<'a> {
    /// Returns the number of the first line that writes a word in a spot.
    fn find(&self, spot: Spot, word: &str) -> Option<u64> {
        for written in self.written.as_slice() {
            if written.spot == spot && written.word == word {
                return Some(written.number);
            }
        }
        None
    }

    /// Returns the line of a word at the top of the file: a key, or the first line of a table of this name.
    pub(crate) fn line_at_top(&self, word: &str) -> Option<u64> {
        if self.is_understood {
            self.find(Spot::Top, word)
        } else {
            None
        }
    }

    /// Returns the first line of the table at a place, or of the array that holds it.
    fn line_of_table(&self, place: Place) -> Option<u64> {
        let own = self.find(Spot::Table(place), "");
        if own.is_some() {
            return own;
        }
        match place {
            Place::Plant => self.find(Spot::Top, "plant"),
            Place::Class(_) => self.find(Spot::Top, "class"),
            Place::Operator(_) => self.find(Spot::Top, "operator"),
            Place::Flow(operator, _) => {
                let spot = Spot::Table(Place::Operator(operator));
                let array = self.find(spot, "flow");
                match array {
                    Some(_) => array,
                    None => self.find(spot, ""),
                }
            }
        }
    }

    /// Returns the line of a word in the table at a place, or else the first line of the table.
    pub(crate) fn line_in(&self, place: Place, word: &str) -> Option<u64> {
        if !self.is_understood {
            return None;
        }
        let own = self.find(Spot::Table(place), word);
        match own {
            Some(_) => own,
            None => self.line_of_table(place),
        }
    }

    /// Returns the line of a key.
    pub(crate) fn line_of(&self, key: Key) -> Option<u64> {
        match key {
            Key::Classes => self.line_at_top("class"),
            Key::Operators => self.line_at_top("operator"),
            Key::Table(place) => self.line_in(place, ""),
            Key::Entry(place, field) => self.line_in(place, field.text()),
        }
    }

    /// Returns the line on which an item of the array under a key begins.
    pub(crate) fn line_of_item(&self, place: Place, field: Field, item: u64) -> Option<u64> {
        let first = self.line_in(place, field.text())?;
        let mut scan = Scan::new();
        let mut number = 0u64;
        for line in self.text.split('\n') {
            number = number.saturating_add(1);
            if number >= first {
                scan.take_line(value_in(line, number, first));
            }
            if scan.items() > item {
                return Some(number);
            }
        }
        Some(first)
    }
}

/// Returns what a line has of a value whose key is on the first line.
fn value_in<'l>(line: &'l str, number: u64, first: u64) -> &'l str {
    match line.split_once('=') {
        Some((_key, value)) if number == first => value,
        _ => line,
    }
}

/// Returns whether a word needs no quotation marks, dots included.
fn is_bare(word: &str) -> bool {
    for c in word.chars() {
        if !c.is_ascii_alphanumeric() && c != '_' && c != '-' && c != '.' {
            return false;
        }
    }
    !word.is_empty()
}

/// Returns a word without the quotation marks around it, if it has some.
fn without_quotes(word: &str) -> &str {
    let inner = match word.strip_prefix('"') {
        Some(rest) => rest.strip_suffix('"'),
        None => match word.strip_prefix('\'') {
            Some(rest) => rest.strip_suffix('\''),
            None => None,
        },
    };
    inner.unwrap_or(word)
}

/// The lines so far, and the table that the next line is in.
#[derive(Drop)]
struct Walk<'a> {
    lines: Lines<'a>,
    spot: Spot,
    classes: usize,
    operators: usize,
    flows: usize,
    scan: Scan,
}

impl<'a> Walk<'a> {
    /// Adds a key, or the first line of a table.
    fn add_key(&mut self, reason: &mut Reason, spot: Spot, word: &'a str, number: u64) {
        let written = Written { spot, word, number };
        if self.lines.written.push(written).is_err() {
            reason.is_lost = true;
        }
    }

    /// Enters the table at a place, whose first line this is.
    fn enter(&mut self, reason: &mut Reason, place: Place, number: u64) {
        let spot = Spot::Table(place);
        self.spot = spot;
        self.add_key(reason, spot, "", number);
    }

    /// Returns the place of the last operator.
    fn operator(&self) -> Place {
        Place::Operator(self.operators.saturating_sub(1))
    }

    /// Returns the spot of the table that holds the table of a name.
    fn parent(&self, prefix: &str) -> Spot {
        match prefix {
            "plant" => Spot::Table(Place::Plant),
            "class" => Spot::Table(Place::Class(self.classes.saturating_sub(1))),
            "operator" => Spot::Table(self.operator()),
            _ => Spot::Elsewhere,
        }
    }

    /// Reads the first line of a table that the program does not read.
    fn take_other(&mut self, reason: &mut Reason, name: &'a str, number: u64) {
        let (spot, word) = match name.split_once('.') {
            Some((prefix, rest)) => (self.parent(prefix), rest),
            None => (Spot::Top, name),
        };
        self.spot = Spot::Elsewhere;
        self.add_key(reason, spot, word, number);
    }

    /// Reads the first line of a table of an array.
    fn take_array(&mut self, reason: &mut Reason, name: &'a str, number: u64) {
        match name {
            "class" => {
                self.enter(reason, Place::Class(self.classes), number);
                self.classes = self.classes.saturating_add(1);
            }
            "operator" => {
                self.enter(reason, Place::Operator(self.operators), number);
                self.operators = self.operators.saturating_add(1);
                self.flows = 0;
            }
            "operator.flow" => {
                let operator = self.operators.saturating_sub(1);
                self.enter(reason, Place::Flow(operator, self.flows), number);
                self.flows = self.flows.saturating_add(1);
            }
            _ => self.take_other(reason, name, number),
        }
    }

    /// Reads the first line of a table.
    fn take_head(&mut self, reason: &mut Reason, line: &'a str, number: u64) {
        let head = match line.split_once('#') {
            Some((head, _comment)) => head.trim(),
            None => line,
        };
        let whole = head.strip_prefix('[').unwrap_or(head);
        let name = whole.strip_suffix(']').unwrap_or(whole);
        let in_array = match name.strip_prefix('[') {
            Some(rest) => rest.strip_suffix(']'),
            None => None,
        };
        let word = in_array.unwrap_or(name).trim();
        if !is_bare(word) {
            self.lines.is_understood = false;
        }
        match in_array {
            Some(_) => self.take_array(reason, word, number),
            None if word == "plant" => self.enter(reason, Place::Plant, number),
            None => self.take_other(reason, word, number),
        }
    }

    /// Reads the line of a key.
    fn take_key(&mut self, reason: &mut Reason, key: &'a str, number: u64) {
        let word = without_quotes(key.trim());
        if word.contains('"') || word.contains('\'') {
            self.lines.is_understood = false;
        }
        match (self.spot, word.split_once('.')) {
            (Spot::Top, Some(("plant", rest))) => {
                self.add_key(reason, Spot::Table(Place::Plant), rest, number);
            }
            (spot, Some((first, _rest))) => self.add_key(reason, spot, first, number),
            (spot, None) => self.add_key(reason, spot, word, number),
        }
    }

    /// Reads one line of the file.
    fn take_line(&mut self, reason: &mut Reason, line: &'a str, number: u64) {
        let line = line.trim();
        if self.scan.is_open() {
            self.scan.take_line(line);
        } else if line.starts_with('[') {
            self.take_head(reason, line, number);
        } else if !line.starts_with('#') {
            if let Some((key, value)) = line.split_once('=') {
                self.take_key(reason, key, number);
                self.scan = Scan::new();
                self.scan.take_line(value);
            }
        }
    }
}

/// Returns the lines of a plant file.
pub(crate) fn lines_of<'a>(reason: &mut Reason, text: &'a str) -> Lines<'a> {
    let mut walk = Walk {
        lines: Lines {
            text,
            written: Vec::new(reason.alloc),
            is_understood: true,
        },
        spot: Spot::Top,
        classes: 0,
        operators: 0,
        flows: 0,
        scan: Scan::new(),
    };
    let mut number = 0u64;
    for line in text.split('\n') {
        number = number.saturating_add(1);
        walk.take_line(reason, line, number);
    }
    let Walk { lines, .. } = walk;
    lines
}
