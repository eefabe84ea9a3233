//! The executable: passes its arguments and standard streams to `plant_script`.
#![tactic(auto)]

use program_runner::{Ending, behind_name, exit_code, run_with_options};
use std::io::{BufRead, BufReader, BufWriter, IsTerminal, Read, Write};
use std::process::ExitCode;
use std::rt::{Env, Files};
use std::sync::Wait;
use std::thread::Threads;
use std::{env, io};

/// What a person at a terminal is asked to type.
const AWAITED: &[u8] =
    b"a plant file, a line --- and a script are read from here, up to Ctrl-D (run has --help)\n";

/// An input of which the first read reports what is awaited, where a person types it.
#[derive(Drop)]
struct PromptingReader<'a, R, N> {
    reader: R,
    note: Option<&'a mut N>,
}

impl<R: Read, N: Write> Read for PromptingReader<'_, R, N> {
    fn read(&mut self, buf: &mut [u8]) -> io::Result<usize> {
        if let Some(note) = self.note.take() {
            let _lost = note.write_all(AWAITED);
        }
        self.reader.read(buf)
    }
}

/// An output that notes whether its reader has gone, as after `| head -1`: then a failed write is not
/// reported.
#[derive(Drop)]
struct BrokenPipeWatch<W> {
    writer: W,
    is_left: bool,
}

impl<W> BrokenPipeWatch<W> {
    /// Notes whether an answer says that the reader has gone.
    fn note<T>(&mut self, told: &io::Result<T>) {
        if let Err(error) = told {
            self.is_left = self.is_left || error.kind() == io::ErrorKind::BrokenPipe;
        }
    }
}

impl<W: Write> Write for BrokenPipeWatch<W> {
    fn write(&mut self, buf: &[u8]) -> io::Result<usize> {
        let told = self.writer.write(buf);
        self.note(&told);
        told
    }

    fn flush(&mut self) -> io::Result<()> {
        let told = self.writer.flush();
        self.note(&told);
        told
    }
}

/// Runs the program over its words, standard input and standard output. Reasons go to standard error.
fn main(rt: HostRuntime) -> ExitCode {
    let (mut note, mut reasons) = (rt.stderr(), rt.stderr());
    let note = if rt.stdin().is_terminal() {
        Some(&mut note)
    } else {
        None
    };
    exit_code(run(&rt, &rt, note, &mut reasons))
}

/// Returns the words of the command line, the program's name first.
fn words_of(rt: &(impl Env + AllocGlobal)) -> io::Result<Vec<String>> {
    let mut words = Vec::new(rt.alloc());
    for word in env::args(rt)? {
        words.push(word)?;
    }
    Ok(words)
}

/// Returns whether reasons are written as they come: those of `resume`, `restore` and `snapshot`, and of `serve` with the option
/// `--state`. Those of other commands are written at the end, and not if the reader of the output has gone. The words are only
/// searched for these, which costs less than to parse them once more. Where one is an operand, its reasons come at once too.
fn reports_at_once(words: &[&str]) -> bool {
    for word in words {
        if matches!(*word, "resume" | "restore" | "snapshot" | "--state")
            || word.starts_with("--state=")
        {
            return true;
        }
    }
    false
}

/// Runs the program over its words. Returns the status.
fn run_words<'a, R: BufRead, W: Write, E: Write>(
    rt: &(impl Files + Threads + Wait + Sync),
    host: &HostRuntime,
    words: &'a [&'a str],
    reader: &mut R,
    writer: &mut W,
    reasons: &mut E,
) -> u8 {
    run_with_options(rt, host, words, reader, writer, reasons, Ending::Ends)
}

/// Returns the status that the program answers to its words.
fn run<N: Write>(
    rt: &(impl Env + Files + Input + Print + AllocGlobal + Threads + Wait + Sync),
    host: &HostRuntime,
    note: Option<&mut N>,
    reasons: &mut impl Write,
) -> io::Result<u8> {
    let words = words_of(rt)?;
    let mut texts = Vec::with_capacity(rt.alloc(), words.len())?;
    for word in &words {
        texts.push(word.as_str())?;
    }
    let awaited = PromptingReader {
        reader: rt.reader(),
        note,
    };
    let left = BrokenPipeWatch {
        writer: io::writer(rt),
        is_left: false,
    };
    let mut reader = BufReader::new(rt.alloc(), awaited)?;
    let mut writer = BufWriter::new(rt.alloc(), left)?;
    let words = behind_name(texts.as_slice());
    if reports_at_once(words) {
        return Ok(run_words(rt, host, words, &mut reader, &mut writer, reasons));
    }
    let mut told = Vec::new(rt.alloc());
    let status = run_words(rt, host, words, &mut reader, &mut writer, &mut told);
    if !writer.get_ref().is_left {
        let _lost = reasons.write_all(told.as_slice());
    }
    Ok(status)
}
