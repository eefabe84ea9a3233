//! The program over any reader and any writer.

ghost use Rattle.std.specs.Prelude.{◌≡◌, ◌≢◌, ◌⊎◌, ⊤, true, false, Err, IfOk, IfErr, IfSome, MatchResult};
ghost use Rattle.clap.specs.Walk.{texts};
ghost use Rattle.std.specs.Io.KnownBytes.{Appends};
ghost use Rattle.plant_script.specs.Task.{noted_script, Comes, IsNotThreaded};
ghost use Rattle.plant_script.specs.Reaching.{AnswersFault, AnswersWords, Completes, IsLeftEnded, ReachesOrder, ReachesWords};
ghost use Rattle.line_service.specs.script.Input.{script_text};
ghost use Rattle.command_line.specs.declared.asked.BatchWord.TheVariants as batch;
ghost use Rattle.command_line.specs.Order.{batch_order, order_of};
ghost use Rattle.command_line.specs.CommandLine.{AsksHelp, AreWrong};
ghost use Rattle.plant_script.specs.Words.{AnswersWith};
ghost use Rattle.plant_script.specs.One.{answer_of, is_readable};
ghost use Rattle.plant_script.specs.Statuses.{status_code};

use crate::answer::Answer;
use crate::check::check_of;
use crate::ending::{Ending, write_answer, write_fault};
use crate::input::{AnswerFault, read_input};
use crate::input_outcome::InputOutcome;
use crate::on_threads::write_threads;
use crate::one::text_of_outputs;
use crate::progress::Progress;
use crate::running::write_ranked;
use crate::serving::serve_words;
use crate::status::Status;
use crate::task::{task_of, threads_of};
use command_line::{BatchWord, Word, WordsFault, read_words};
use diagnostics::{Trouble, reason_of, reason_of_trouble, reason_of_words};
use line_service::{LineFault, before_bar, messages_of, parts_of, script_text};
use simdutf8::compat::from_utf8;
use std::alloc::{AllocError, Global};
use std::io;
use std::io::{BufRead, Read, Write};
use std::sync::Wait;
use std::thread::Threads;

/// What was seen on the way to an answer: what its reasons are made of.
#[derive(Drop)]
struct Seen<'a> {
    /// What the words ask for, where they give an order.
    word: Option<Word<'a>>,
    /// Whether a read failed.
    failed: bool,
    /// Of an input that is not UTF-8, how many bytes are.
    valid: Option<usize>,
    /// The input, where it could be read.
    input: Option<Vec<u8>>,
}

impl<'a> Seen<'a> {
    /// Returns that nothing was read yet.
    fn new() -> Seen<'a>
        ensures { result.failed ≡ false }
    {
        Seen {
            word: None,
            failed: false,
            valid: None,
            input: None,
        }
    }
}

/// Returns why an input could not be read or an output not be written.
fn trouble_of(seen: &Seen<'_>, status: Status) -> Trouble {
    match (status, seen.valid) {
        (Status::OutOfMemory, _) => Trouble::Memory,
        (Status::Strayed, _) => Trouble::Strayed,
        (_, Some(valid)) => Trouble::NoText { valid },
        _ if seen.failed => Trouble::Read,
        _ if seen.word.is_some() && seen.input.is_none() => Trouble::TooLong,
        _ => Trouble::Write,
    }
}

/// Returns the reasons of a status that has some in what was read.
fn reasons_of<'a>(
    alloc: Global,
    words: &'a [&'a str],
    seen: &Seen<'a>,
    status: Status,
) -> Result<String, AllocError> {
    match (seen.word, &seen.input) {
        (Some(word), Some(input)) => {
            let text = from_utf8(input.as_slice()).unwrap_or("");
            reason_of(alloc, word, text, status.code())
        }
        (None, _) if status == Status::WrongArguments => reason_of_words(alloc, words),
        _ => Ok(String::new(alloc)),
    }
}

/// Writes the reasons of a status. What fails in it is lost.
fn tell_reasons<'a, E: Write>(
    alloc: Global,
    words: &'a [&'a str],
    seen: &Seen<'a>,
    status: Status,
    reasons: &mut E,
) {
    let told = match status {
        Status::OutOfMemory | Status::IoError | Status::Strayed => {
            reason_of_trouble(alloc, trouble_of(seen, status))
        }
        _ => reasons_of(alloc, words, seen, status),
    };
    let _lost = match told {
        Ok(text) => reasons.write_all(text.as_bytes()),
        Err(_full) => reasons.write_all(b"out of memory: no message can be written\n"),
    };
    let _lost = reasons.flush();
}

/// Returns what `one` answers to an input.
#[tactic(auto, unfolding(crate::specs::One::answer_of))]
fn answer_of(alloc: Global, input: &[u8]) -> Result<Answer, AnswerFault>
    requires { is_readable input.now ≡ true }
    ensures value { IfOk result (λ answer. (status_code answer.status ≡ (answer_of input.now).status)
        × (answer.text.items ≡ (answer_of input.now).text)) }
    ensures memory { IfErr result (λ fault. fault ≡ AnswerFault.Memory) }
{
    let lines = parts_of(alloc, b'\n', input)?;
    match messages_of(alloc, lines.as_slice()) {
        Ok(messages) => {
            let text = text_of_outputs(alloc, messages.as_slice())?;
            Ok(Answer {
                status: Status::Success,
                text,
            })
        }
        Err(LineFault::Shape { number }) => {
            let line = format!(in alloc; "fault: line {number}\n")?;
            let text = line.into_bytes();
            Ok(Answer {
                status: Status::InvalidLine,
                text,
            })
        }
        Err(LineFault::NoMemory) => Err(AnswerFault::Memory),
    }
}

/// Returns what is done for an input.
fn serve_input(
    alloc: Global,
    word: BatchWord<'_>,
    input: &[u8],
) -> Result<InputOutcome, AnswerFault>
    requires { is_readable input.now ≡ true }
    ensures served { IfOk result (λ outcome. Comes outcome (script_text input.now) (AnswersWith (batch_order word.entry) input.now)) }
    ensures threads { word.entry ≢ batch.Threads → IfOk result IsNotThreaded }
    ensures memory { IfErr result (λ fault. fault ≡ AnswerFault.Memory) }
{
    match word {
        BatchWord::One => Ok(InputOutcome::Answer(answer_of(alloc, input)?)),
        BatchWord::Check => Ok(InputOutcome::Answer(check_of(alloc, input)?)),
        BatchWord::Threads => threads_of(alloc, input),
        BatchWord::Run(report) => task_of(alloc, report, input),
    }
}

/// Returns what is done for what a reader has left. The input is noted where it can be read.
fn serve<R: Read>(
    alloc: Global,
    word: BatchWord<'_>,
    reader: &mut R,
    seen: &mut Seen<'_>,
) -> Result<InputOutcome, AnswerFault>
    requires { seen.old.failed ≡ false }
    ensures served { IfOk result (λ outcome.
        IfSome (R.remaining reader.old) (λ input. Comes outcome (noted_script seen.new.input) (AnswersWith (batch_order word.entry) input))) }
    ensures threads { word.entry ≢ batch.Threads → IfOk result IsNotThreaded }
    ensures io { (result ≡ Err AnswerFault.Io)
        → (seen.new.failed ≡ true) ⊎ IfSome (R.remaining reader.old) (λ input. is_readable input ≡ false) }
{
    let input = read_input(alloc, reader, &mut seen.failed, &mut seen.valid)?;
    let served = serve_input(alloc, word, input.as_slice());
    seen.input = Some(input);
    served
}

/// Returns the script of the input that was noted; nothing where none was.
fn script_of<'s>(seen: &'s Seen<'_>) -> &'s [u8]
    ensures { result.now ≡ noted_script seen.now.input }
{
    match &seen.input {
        Some(input) => script_text(input.as_slice(), before_bar(input.as_slice())),
        None => b"",
    }
}

/// Writes what is answered to words that give no order. Returns the exit status.
fn answer_to_words<W: Write>(writer: &mut W, fault: WordsFault) -> io::Result<Status>
    ensures { IfOk result (λ status. AnswersFault fault (status_code status)
        (λ text. Appends (W.contents writer.old) (W.contents writer.new) text)) }
{
    match fault {
        WordsFault::Help { text } => write_answer(writer, Status::Success, text.as_bytes()),
        WordsFault::Wrong => write_answer(writer, Status::WrongArguments, b"fault: words\n"),
        WordsFault::NoMemory => write_fault(writer, AnswerFault::Memory),
    }
}

/// Carries out a command that reads all of its input, and notes what was seen on the way. The run of
/// `threads` is left to the caller. An `Err` is a write that failed.
fn answer_batch<'a, R: Read, W: Write>(
    alloc: Global,
    word: BatchWord<'a>,
    reader: &mut R,
    writer: &mut W,
    seen: &mut Seen<'a>,
    ending: Ending,
) -> io::Result<Progress>
    requires { seen.old.failed ≡ false }
    ensures { IfOk result (λ progress. ReachesOrder (batch_order word.entry) (R.remaining reader.old) progress
        (W.contents writer.old) (W.contents writer.new)) }
{
    match serve(alloc, word, reader, seen) {
        Ok(InputOutcome::Task(task)) => {
            let status = write_ranked(alloc, task, script_of(seen), ending, writer)?;
            Ok(Progress::Ended {
                status,
                is_read_failed: seen.failed,
            })
        }
        Ok(InputOutcome::Threads { plant, lines }) => Ok(Progress::Threads { plant, lines }),
        Ok(InputOutcome::Answer(answer)) => {
            let status = write_answer(writer, answer.status, answer.text.as_slice())?;
            Ok(Progress::Ended {
                status,
                is_read_failed: seen.failed,
            })
        }
        Err(fault) => {
            let status = write_fault(writer, fault)?;
            Ok(Progress::Ended {
                status,
                is_read_failed: seen.failed,
            })
        }
    }
}

/// Carries out a command, and notes what was seen on the way. The run of `threads` is left to the
/// caller. An `Err` is a write that failed, or under `serve` a read after the plant file.
fn answer_word<'a, R: BufRead, W: Write>(
    alloc: Global,
    word: Word<'a>,
    reader: &mut R,
    writer: &mut W,
    seen: &mut Seen<'a>,
    ending: Ending,
) -> io::Result<Progress>
    requires untried { seen.old.failed ≡ false }
    ensures { IfOk result (λ progress. ReachesOrder (order_of word.entry) (R.remaining reader.old) progress
        (W.contents writer.old) (W.contents writer.new)) }
{
    match word {
        Word::Serve => {
            let (file, failed, valid) = (&mut seen.input, &mut seen.failed, &mut seen.valid);
            let status = serve_words(alloc, reader, writer, file, failed, valid)?;
            Ok(Progress::Ended {
                status,
                is_read_failed: seen.failed,
            })
        }
        Word::Batch(word) => answer_batch(alloc, word, reader, writer, seen, ending),
    }
}

/// Answers the words, and notes what was seen on the way. The run of `threads` is left to the
/// caller. An `Err` is a write that failed, or under `serve` a read after the plant file.
fn answer_words<'a, R: BufRead, W: Write>(
    alloc: Global,
    words: &'a [&'a str],
    reader: &mut R,
    writer: &mut W,
    seen: &mut Seen<'a>,
    ending: Ending,
) -> io::Result<Progress>
    requires untried { seen.old.failed ≡ false }
    ensures answered { IfOk result (λ progress. ReachesWords (texts words.entry.now) (R.remaining reader.old) progress
        (W.contents writer.old) (W.contents writer.new)) }
    // Nothing is read for words that are wrong or ask for help.
    ensures unread_if_wrong { AreWrong (texts words.entry.now) → reader.new ≡ reader.old }
    ensures unread_for_help { AsksHelp (texts words.entry.now) → reader.new ≡ reader.old }
{
    match read_words(alloc, words) {
        Ok(word) => {
            seen.word = Some(word);
            answer_word(alloc, word, reader, writer, seen, ending)
        }
        Err(fault) => {
            let status = answer_to_words(writer, fault)?;
            Ok(Progress::Ended {
                status,
                is_read_failed: false,
            })
        }
    }
}

/// Reports a read or a write that failed, and returns the status of that. What is written then no clause says, since nothing
/// is known of a write that failed.
fn report_failure<W: Write>(writer: &mut W) -> Status
    ensures { result ≡ Status.IoError }
{
    let _lost = writer.write_all(b"fault: io\n");
    let _lost = writer.flush();
    Status::IoError
}

/// Ends the program: does what is left of it, the run of `threads`, and returns the exit status. What has ended is left as it
/// is. After a write that failed, or under `serve` a read, it tries to write the line that says so, and returns 6.
fn end_program<H: Threads + Wait + Sync, W: Write>(
    rt: &H,
    alloc: Global,
    reached: io::Result<Progress>,
    writer: &mut W,
    ending: Ending,
) -> Status
    ensures written { status_code result ≢ 6 → MatchResult reached
        (λ progress. Completes progress (status_code result) (W.contents writer.old) (W.contents writer.new)) (λ error. ⊥) }
    // What has ended is left as it is, with its status.
    ensures ended { MatchResult reached
        (λ progress. IsLeftEnded progress (status_code result) (W.contents writer.old) (W.contents writer.new)) (λ error. ⊤) }
{
    let written = match reached {
        Ok(
            Progress::Ended {
                status,
                is_read_failed: _,
            },
        ) => return status,
        Ok(Progress::Threads { plant, lines }) => write_threads(
            rt, alloc, plant, lines, ending, writer,
        ),
        Err(error) => Err(error),
    };
    match written {
        Ok(status) => status,
        Err(_failed) => report_failure(writer),
    }
}

/// Carries out the command that the arguments after the program's name give, as `run_program` does,
/// up to the run of `threads`. All other commands have ended when it returns, and it waits for
/// nobody.
///
/// An `Err` is a write that failed, or under `serve` a read after the plant file: what is written
/// then no clause says.
pub fn run_without_threads<'a, R: BufRead, W: Write>(
    alloc: Global,
    words: &'a [&'a str],
    reader: &mut R,
    writer: &mut W,
    ending: Ending,
) -> io::Result<Progress>
    // What is written answers the words and what is read, status 6 included; or the words are `threads`.
    ensures answered { IfOk result (λ progress. ReachesWords (texts words.entry.now) (R.remaining reader.old) progress
        (W.contents writer.old) (W.contents writer.new)) }
    // Nothing is read for words that are wrong or ask for help.
    ensures unread_if_wrong { AreWrong (texts words.entry.now) → reader.new ≡ reader.old }
    ensures unread_for_help { AsksHelp (texts words.entry.now) → reader.new ≡ reader.old }
{
    let mut seen = Seen::new();
    answer_words(alloc, words, reader, writer, &mut seen, ending)
}

/// Runs the program on the arguments after its name, an input and an output, and returns the exit
/// status: 0 success, or help that was requested; 2 wrong arguments, or an operator that the plant
/// does not have; 3 an invalid plant; 4 an invalid line, or one whose step is refused; 5 out of
/// memory; 6 a read or a write that failed, or an input that is too long or not UTF-8; 7 threads
/// that strayed from the script's steps.
///
/// The command `capture` writes a file, or the one line `fault:` of an invalid plant or line. A file
/// that ends at a refused step has status 4 and no line after it.
///
/// The command `threads` may wait, and nothing is said of its returning. All others are carried out
/// by `run_without_threads`, which returns.
///
/// The command `run` writes the outputs of each step as they are made, and keeps no history. If
/// memory runs out for a later step, the lines of those before it are before the last line, `fault:
/// memory`. The command `trace` writes what decided each step in the same way.
///
/// Status 6 may come at any time, since no clause says what a writer does. What is written with it
/// is fixed where no write has failed (`run_without_threads`). Status 5 may come wherever memory is
/// allocated, and never in place of a refused step of `run`, `trace` or `serve`. No clause says
/// anything of the text of help.
pub fn run_program<'a, H: Threads + Wait + Sync, R: BufRead, W: Write>(
    rt: &H,
    alloc: Global,
    words: &'a [&'a str],
    reader: &mut R,
    writer: &mut W,
) -> u8
    // For every status but 6, what is written answers the words and what is read, as `AnswersWords` says.
    ensures answered { result ≢ 6 → AnswersWords (texts words.entry.now) (R.remaining reader.old) result
        (λ text. Appends (W.contents writer.old) (W.contents writer.new) text) }
    // Nothing is read for words that are wrong or ask for help.
    ensures unread_if_wrong { AreWrong (texts words.entry.now) → reader.new ≡ reader.old }
    ensures unread_for_help { AsksHelp (texts words.entry.now) → reader.new ≡ reader.old }
{
    let ending = Ending::GoesOn;
    let reached = run_without_threads(alloc, words, reader, writer, ending);
    end_program(rt, alloc, reached, writer, ending).code()
}

/// Runs the program as `run_program` does, under the same contract, and writes the reasons of its
/// status to one writer more: what was wrong, where, and the numbers that disagree. Of a plant that
/// is well it reports keys that nothing reads. What fails in writing reasons is lost, and changes
/// no status. No clause says what the reasons are. A process that ends after the answer says so by
/// `ending`, and need not wait until a core or a settled run is taken apart.
pub fn run_program_with_reasons<'a, H: Threads + Wait + Sync, R: BufRead, W: Write, E: Write>(
    rt: &H,
    alloc: Global,
    words: &'a [&'a str],
    reader: &mut R,
    writer: &mut W,
    reasons: &mut E,
    ending: Ending,
) -> u8
    // Where no write has failed, what is written answers the words and what is read.
    ensures answered { result ≢ 6 → AnswersWords (texts words.entry.now) (R.remaining reader.old) result
        (λ text. Appends (W.contents writer.old) (W.contents writer.new) text) }
    // Nothing is read for words that are wrong or ask for help.
    ensures unread_if_wrong { AreWrong (texts words.entry.now) → reader.new ≡ reader.old }
    ensures unread_for_help { AsksHelp (texts words.entry.now) → reader.new ≡ reader.old }
{
    let mut seen = Seen::new();
    let reached = answer_words(alloc, words, reader, writer, &mut seen, ending);
    let status = end_program(rt, alloc, reached, writer, ending);
    tell_reasons(alloc, words, &seen, status, reasons);
    status.code()
}
