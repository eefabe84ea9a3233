//! Inputs of texts, of endless lines, and of a writer that never comes.

use line_intake::{Input, Intake, ReadsInputs, TickRule};
use std::alloc::Global;
use std::io;
use std::io::{BufReader, Read};
use std::sync::{Condvar, Mutex, Wait};

/// Says that the line `T` is a tick.
pub(crate) struct TickLine;

impl TickRule for TickLine {
    fn is_tick(&self, bytes: &[u8]) -> bool {
        bytes == b"T".as_slice()
    }
}

/// Says what an operator sends.
#[derive(Clone, Copy, Debug, PartialEq, Eq)]
pub(crate) enum Sender {
    /// The text of the operator, and then its end.
    Text,
    /// Lines without an end.
    Flood,
    /// Nothing, until all stops.
    Silence,
    /// A read that fails after the text.
    Failure,
}

/// Reads empty lines without an end.
#[derive(Drop)]
struct Flood;

impl Read for Flood {
    fn read(&mut self, buf: &mut [u8]) -> io::Result<usize> {
        for place in 0..buf.len() {
            buf[place] = b'\n';
        }
        Ok(buf.len())
    }
}

/// Reads a text, and fails at its end.
#[derive(Drop)]
struct FailingText<'a> {
    text: &'a [u8],
}

impl Read for FailingText<'_> {
    fn read(&mut self, buf: &mut [u8]) -> io::Result<usize> {
        let count = self.text.read(buf)?;
        if count == 0 {
            return Err(io::Error::from(io::ErrorKind::Other));
        }
        Ok(count)
    }
}

/// Holds what each input sends.
#[derive(Drop)]
pub(crate) struct TestInputs<'a> {
    pub owner: &'a [u8],
    pub text: &'a [u8],
    /// What each operator sends; those after the last of them send the text.
    pub senders: &'a [Sender],
    is_over: Mutex<bool>,
    over: Condvar,
}

impl<'a> TestInputs<'a> {
    /// Returns inputs of these texts.
    pub(crate) fn new(owner: &'a [u8], text: &'a [u8], senders: &'a [Sender]) -> TestInputs<'a> {
        TestInputs {
            owner,
            text,
            senders,
            is_over: Mutex::new(false),
            over: Condvar::new(),
        }
    }

    /// Waits until all stops, as a read of a pipe without a writer does.
    fn wait_for_the_end<R: Wait>(&self, rt: &R) {
        let is_over = self
            .over
            .wait_while(rt, self.is_over.lock(rt), |is_over| !*is_over);
        drop(is_over);
    }

    /// Returns what this operator sends.
    fn sender_at(&self, op: usize) -> Sender {
        match self.senders.get(op) {
            Some(sender) => *sender,
            None => Sender::Text,
        }
    }

    /// Reads what an operator sends.
    fn read_operator<R: Wait>(
        &self,
        rt: &R,
        alloc: Global,
        intake: &Intake,
        op: usize,
    ) -> io::Result<()> {
        match self.sender_at(op) {
            Sender::Text => {
                let mut text = self.text;
                intake.read_operator(rt, alloc, op, &mut text)
            }
            Sender::Flood => {
                let mut reader = BufReader::new(alloc, Flood)?;
                intake.read_operator(rt, alloc, op, &mut reader)
            }
            Sender::Failure => {
                let mut reader = BufReader::new(alloc, FailingText { text: self.text })?;
                intake.read_operator(rt, alloc, op, &mut reader)
            }
            Sender::Silence => {
                self.wait_for_the_end(rt);
                let mut text = b"".as_slice();
                intake.read_operator(rt, alloc, op, &mut text)
            }
        }
    }
}

impl<R: Wait> ReadsInputs<R> for TestInputs<'_> {
    fn read_input(&self, rt: &R, alloc: Global, intake: &Intake, input: Input) {
        let _outcome = match input {
            Input::Owner => {
                let mut text = self.owner;
                intake.read_owner(rt, alloc, &TickLine, &mut text)
            }
            Input::Operator(op) => self.read_operator(rt, alloc, intake, op),
        };
    }

    fn wake_readers(&self, rt: &R, _alloc: Global) {
        let mut is_over = self.is_over.lock(rt);
        *is_over = true;
        drop(is_over);
        self.over.notify_all();
    }
}
