//! What is said of the output that comes next: the line of the script, and the check that decides it.

ghost use Rattle.std.specs.Prelude.{◌≡◌, None, Some};

use crate::plain_line::PlainLine;
use crate::remark::{Remark, remark_of};
use std::alloc::{AllocError, Global};

/// The numbers that a check compared.
#[derive(Clone, Copy, Debug, PartialEq, Eq)]
pub struct Comparison {
    /// What is held or present.
    pub held: u64,
    /// The most that may be.
    pub limit: u64,
    /// What the request needs, where the check adds it.
    pub needed: Option<u64>,
    /// The frame from which the limit counts, where that is a later one.
    pub from_frame: Option<u64>,
}

/// The check that decided what a message is answered.
#[derive(Debug, Drop)]
pub struct DecidingCheck {
    /// Its number in the table of checks.
    pub number: u64,
    /// Its name.
    pub name: String,
    /// The numbers that it compared, where it compares any.
    pub comparison: Option<Comparison>,
}

/// What is known of an output besides its own line.
#[derive(Debug, Drop)]
pub struct OutputNote {
    /// The line of the script, counted from 1.
    pub line: Option<u64>,
    /// The check that decided it.
    pub check: Option<DecidingCheck>,
}

impl OutputNote {
    /// Returns a note of a line of the script, and of no check.
    pub(crate) fn of_line(line: Option<u64>) -> OutputNote
        ensures { (result.line ≡ line) × (result.check ≡ None) }
    {
        OutputNote { line, check: None }
    }
}

/// Returns the numbers of a text, at most four.
fn numbers_in(text: &str) -> ([u64; 4], usize) {
    let mut numbers = [0u64; 4];
    let mut count = 0usize;
    for word in text.split(' ') {
        let digits = word.strip_suffix(",").unwrap_or(word);
        if let Ok(number) = digits.parse::<u64>() {
            if count < numbers.len() {
                numbers[count] = number;
                count += 1;
            }
        }
    }
    (numbers, count)
}

/// Returns the numbers that a check compared, by the remark on them.
fn comparison_of(remark: &str) -> Option<Comparison> {
    let ([first, second, third, fourth], count) = numbers_in(remark);
    let (held, limit, needed, from_frame) = match count {
        2 => (first, second, None, None),
        3 => (second, first, Some(third), None),
        4 => (third, first, Some(fourth), Some(second)),
        _ => return None,
    };
    Some(Comparison {
        held,
        limit,
        needed,
        from_frame,
    })
}

/// What a line of a trace is.
#[derive(Debug, Drop)]
pub(crate) enum TakenLine {
    /// An output, with what was said of it before.
    Output(OutputNote),
    /// The numbers that a check compared, with the line of the script.
    Comparison {
        line: Option<u64>,
        comparison: Comparison,
    },
    /// Any other line.
    Other,
}

/// What was said so far of the output that comes next.
#[derive(Drop)]
pub struct OutputContext {
    line: Option<u64>,
    check: Option<DecidingCheck>,
}

impl OutputContext {
    /// Returns that nothing was said.
    pub(crate) fn new() -> OutputContext
        ensures { (result.line ≡ None) × (result.check ≡ None) }
    {
        OutputContext {
            line: None,
            check: None,
        }
    }

    /// Begins a line of the script. No check was said yet.
    pub(crate) fn begin_line(&mut self, number: u64)
        ensures { (self.new.line ≡ Some number) × (self.new.check ≡ None) }
    {
        self.line = Some(number);
        self.check = None;
    }

    /// Says which check decides the next output, if one does.
    pub(crate) fn say_check(&mut self, check: Option<DecidingCheck>)
        ensures { (self.new.line ≡ self.old.line) × (self.new.check ≡ check) }
    {
        self.check = check;
    }

    /// Returns a note of the line of the script alone.
    pub(crate) fn note_of_line(&self) -> OutputNote
        ensures { (result.line ≡ self.now.line) × (result.check ≡ None) }
    {
        OutputNote::of_line(self.line)
    }

    /// Takes what was said of an output that has come.
    pub(crate) fn take_note(&mut self) -> OutputNote
        ensures note { (result.line ≡ self.old.line) × (result.check ≡ self.old.check) }
        ensures taken { (self.new.line ≡ self.old.line) × (self.new.check ≡ None) }
    {
        OutputNote {
            line: self.line,
            check: self.check.take(),
        }
    }

    /// Takes a remark other than an output: between a check and its output, the numbers that the check compared.
    fn take_other(&mut self, remark: &str) -> TakenLine {
        match (&mut self.check, comparison_of(remark)) {
            (Some(check), Some(comparison)) => {
                check.comparison = Some(comparison);
                TakenLine::Comparison {
                    line: self.line,
                    comparison,
                }
            }
            _ => TakenLine::Other,
        }
    }

    /// Takes a remark. Returns what it is.
    fn take_remark(&mut self, remark: &str) -> TakenLine {
        match remark_of(remark) {
            Remark::Other => self.take_other(remark),
            _ => TakenLine::Output(self.take_note()),
        }
    }

    /// Takes a line of a trace. Returns what it is.
    pub(crate) fn take_line(
        &mut self,
        alloc: Global,
        line: PlainLine<'_>,
    ) -> Result<TakenLine, AllocError> {
        match line {
            PlainLine::Script { number } => {
                self.begin_line(number);
                Ok(TakenLine::Other)
            }
            PlainLine::Check { number, name } => {
                let name = String::from_str(alloc, name)?;
                let comparison = None;
                self.check = Some(DecidingCheck {
                    number,
                    name,
                    comparison,
                });
                Ok(TakenLine::Other)
            }
            PlainLine::Remark { remark } => Ok(self.take_remark(remark)),
            _ => Ok(TakenLine::Other),
        }
    }
}
