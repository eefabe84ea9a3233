//! A list of messages, a line each, of which the first are written and the others counted.

use crate::reason::{GapText, Reason};
use std::alloc::Global;

/// A list of messages, a line each.
#[derive(Drop)]
pub(crate) struct Report {
    lines: Reason,
    /// How many messages there are.
    count: u64,
    /// How many of them are written at most.
    most: u64,
}

impl Report {
    /// Returns an empty list, of which so many messages are written at most.
    pub(crate) fn new(alloc: Global, most: u64) -> Report {
        Report {
            lines: Reason::new(alloc),
            count: 0,
            most,
        }
    }

    /// Returns where the memory is from.
    pub(crate) fn alloc(&self) -> Global {
        self.lines.alloc
    }

    /// Returns whether there is no message, and none was lost.
    pub(crate) fn is_empty(&self) -> bool {
        self.count == 0 && !self.lines.is_lost
    }

    /// Returns whether the next message is written.
    pub(crate) fn is_open(&self) -> bool {
        self.count < self.most
    }

    /// Notes that an allocation failed.
    pub(crate) fn lose(&mut self) {
        self.lines.is_lost = true;
    }

    /// Adds a message, if it says something. Of a message that comes after the last one written, only the number counts.
    pub(crate) fn add(&mut self, message: &Reason) {
        if message.is_silent() {
            return;
        }
        if self.is_open() {
            self.lines.say("{}\n", &[GapText::Told(message)]);
        }
        self.lines.is_lost |= message.is_lost;
        self.count = self.count.saturating_add(1);
    }

    /// Says the messages, and how many more there are of what the words name: one of it, and several.
    pub(crate) fn say(&self, reason: &mut Reason, one: &str, several: &str) {
        reason.is_lost |= self.lines.is_lost;
        reason.say("{}", &[GapText::Told(&self.lines)]);
        let left = self.count.saturating_sub(self.most);
        if left > 0 {
            let name = if left == 1 { one } else { several };
            reason.say(
                "and {} more {}\n",
                &[GapText::Number(left), GapText::Words(name)],
            );
        }
    }
}
