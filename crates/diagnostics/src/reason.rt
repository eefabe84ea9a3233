//! The text of a message on standard error.

use crate::show::put_shown;
use dsx_messages::Modem;
use slice_table::{Key, Place};
use std::alloc::{AllocError, Global};
use std::fmt::Display;
use toml::Value;

/// What fills a gap of a sentence.
#[derive(Clone, Copy)]
pub(crate) enum GapText<'a> {
    /// Words, as they are.
    Words(&'a str),
    /// A text of the input, between quotation marks and cut where it is long.
    Quoted(&'a str),
    /// A number.
    Number(u64),
    /// A character, as Rust writes it.
    Letter(char),
    /// A key of a plant file.
    Key(Key),
    /// A place of a plant file.
    Place(Place),
    /// The address of a modem.
    Modem(Modem),
    /// A value as TOML writes it, cut where it is long.
    Value(&'a Value),
    /// A value with its type, as in `the string "24"`, cut where it is long. An integer has no type before it.
    Typed(&'a Value),
    /// What another reason says.
    Told(&'a Reason),
    /// What another reason says, cut where it is long.
    Cut(&'a Reason),
}

/// The text of a message. After a failed allocation it is lost, and takes further sentences without effect.
#[derive(Drop)]
pub(crate) struct Reason {
    /// Where its memory is from.
    pub(crate) alloc: Global,
    text: String,
    /// Whether an allocation for it failed.
    pub(crate) is_lost: bool,
}

/// Adds what is printed of something.
fn put_printed<T: Display>(text: &mut String, printed: &T) -> Result<(), AllocError> {
    write!(text, "{printed}")
}

impl Reason {
    /// Creates a reason that says nothing yet.
    pub(crate) fn new(alloc: Global) -> Reason {
        Reason {
            alloc,
            text: String::new(alloc),
            is_lost: false,
        }
    }

    /// Returns whether nothing was said or lost.
    pub(crate) fn is_silent(&self) -> bool {
        self.text.is_empty() && !self.is_lost
    }

    /// Returns the whole text, or an error if an allocation for it failed.
    pub(crate) fn into_text(self) -> Result<String, AllocError> {
        match self {
            Reason {
                text,
                is_lost: false,
                ..
            } => Ok(text),
            _ => Err(AllocError),
        }
    }

    /// Returns the text so far, or an error if an allocation for it failed.
    fn so_far(&self) -> Result<&str, AllocError> {
        if self.is_lost {
            Err(AllocError)
        } else {
            Ok(self.text.as_str())
        }
    }

    /// Adds a value as TOML writes it, cut where it is long.
    fn put_value(&mut self, value: &Value) -> Result<(), AllocError> {
        let written = format!(in self.alloc; "{value}")?;
        put_shown(&mut self.text, written.as_str())
    }

    /// Adds a value with its type.
    fn put_typed(&mut self, value: &Value) -> Result<(), AllocError> {
        if value.is_table() {
            return self.text.push_str("a table");
        }
        if !value.is_integer() {
            self.text.push_str("the ")?;
            self.text.push_str(value.type_str())?;
            self.text.push(' ')?;
        }
        self.put_value(value)
    }

    /// Adds a text between quotation marks, cut where it is long.
    fn put_quoted(&mut self, shown: &str) -> Result<(), AllocError> {
        self.text.push('"')?;
        put_shown(&mut self.text, shown)?;
        self.text.push('"')
    }

    /// Adds what fills a gap.
    fn put_part(&mut self, part: GapText<'_>) -> Result<(), AllocError> {
        match part {
            GapText::Words(words) => self.text.push_str(words),
            GapText::Quoted(shown) => self.put_quoted(shown),
            GapText::Number(number) => put_printed(&mut self.text, &number),
            GapText::Letter(c) => write!(self.text, "{c:?}"),
            GapText::Key(key) => put_printed(&mut self.text, &key),
            GapText::Place(place) => put_printed(&mut self.text, &place),
            GapText::Modem(modem) => put_printed(&mut self.text, &modem),
            GapText::Value(value) => self.put_value(value),
            GapText::Typed(value) => self.put_typed(value),
            GapText::Told(told) => self.text.push_str(told.so_far()?),
            GapText::Cut(told) => put_shown(&mut self.text, told.so_far()?),
        }
    }

    /// Adds a sentence with its gaps filled.
    fn add_sentence(&mut self, sentence: &str, parts: &[GapText<'_>]) -> Result<(), AllocError> {
        for (gap, words) in sentence.split("{}").enumerate() {
            self.text.push_str(words)?;
            if let Some(part) = parts.get(gap) {
                self.put_part(*part)?;
            }
        }
        Ok(())
    }

    /// Adds a sentence, each `{}` of which is filled by the next part. It has as many gaps as there are parts.
    pub(crate) fn say(&mut self, sentence: &str, parts: &[GapText<'_>]) {
        if self.add_sentence(sentence, parts).is_err() {
            self.is_lost = true;
        }
    }
}
