//! Messages about keys of a plant file that is read: unknown keys, and keys with which no channel works.

use crate::file::{File, say_where};
use crate::reason::{GapText, Reason};
use crate::report::Report;
use slice_table::{Field, Key, Place};
use std::alloc::{AllocError, Global};

/// The most messages that are written.
const MOST: u64 = 100;

/// What a message about a key is.
#[derive(Clone, Copy, PartialEq, Eq)]
pub(crate) enum Severity {
    /// A warning, which changes no status.
    Warning,
    /// A fault of the plant file.
    Fault,
}

/// Messages about keys of a plant file, and the name of the first of these keys.
#[derive(Drop)]
pub(crate) struct KeyMessages {
    report: Report,
    severity: Severity,
    /// What a key is called that is counted and not written.
    one: &'static str,
    /// What several such keys are called.
    several: &'static str,
    /// The name of the first key, as messages show it. Silent where there is none.
    first: Reason,
}

impl KeyMessages {
    /// Returns an empty list of messages about what the words name: one of it, and several.
    pub(crate) fn new(
        alloc: Global,
        severity: Severity,
        one: &'static str,
        several: &'static str,
    ) -> KeyMessages {
        KeyMessages {
            report: Report::new(alloc, MOST),
            severity,
            one,
            several,
            first: Reason::new(alloc),
        }
    }

    /// Returns where the memory is from.
    pub(crate) fn alloc(&self) -> Global {
        self.report.alloc()
    }

    /// Returns whether the next message is written.
    pub(crate) fn is_open(&self) -> bool {
        self.report.is_open()
    }

    /// Returns a message that says nothing yet but that it is a warning, if it is one.
    pub(crate) fn new_message(&self) -> Reason {
        let mut message = Reason::new(self.report.alloc());
        if self.severity == Severity::Warning {
            message.say("warning: ", &[]);
        }
        message
    }

    /// Adds a key or a table of this name with its message.
    pub(crate) fn add(&mut self, name: &Reason, message: &Reason) {
        if self.report.is_empty() {
            self.first.say("{}", &[GapText::Cut(name)]);
        }
        self.report.add(message);
    }

    /// Adds a key that is known with its message: where it is, and a sentence, each `{}` of which is filled by the next part.
    pub(crate) fn add_key(
        &mut self,
        file: &File<'_>,
        place: Place,
        field: Field,
        sentence: &str,
        parts: &[GapText<'_>],
    ) {
        let mut name = Reason::new(self.report.alloc());
        let mut message = self.new_message();
        if self.is_open() {
            let key = Key::Entry(place, field);
            name.say("{}", &[GapText::Key(key)]);
            say_where(&mut message, file, place, file.lines.line_of(key));
        }
        message.say(sentence, parts);
        self.add(&name, &message);
    }

    /// Says the messages, and how many more there are.
    pub(crate) fn say(&self, reason: &mut Reason) {
        self.report.say(reason, self.one, self.several);
    }

    /// Returns the name of the first key, as messages show it. It is empty where there is none.
    pub(crate) fn into_first_name(self) -> Result<String, AllocError> {
        let KeyMessages { first, .. } = self;
        first.into_text()
    }
}
