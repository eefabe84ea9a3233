//! The program with its options.

ghost use Rattle.std.specs.Prelude.{◌≡◌, ◌≢◌, true, false};
ghost use Rattle.std.specs.Io.KnownBytes.{Appends};
ghost use Rattle.clap.specs.Walk.{texts};
ghost use Rattle.command_line.specs.CommandLine.{AreRefused, AsksHelp, AsksVersion, NamesOrder, NamesService, asks_json};
ghost use Rattle.command_line.specs.Options.{is_bare, texts_of};
ghost use Rattle.command_line.specs.Order.{Order, asked_of, order, service};
ghost use Rattle.command_line.specs.declared.asked.ServiceWord.{ServiceWord};
ghost use Rattle.command_line.specs.declared.options.OutputFormat.TheVariants.{Plain};
ghost use Rattle.command_line.specs.declared.options.UnknownKeyHandling.TheVariants.{Warn};
ghost use Rattle.program_runner.specs.Answered.{IsAskedAnswer, IsCommandAnswer, WritesLineFault, is_run, words_line};
ghost use Rattle.program_runner.specs.Resume.{WritesHelp};
ghost use Rattle.program_runner.specs.Version.{version_text};

use crate::answering::{answer_out_of_memory, finish, pass_on, refuse, tell};
use crate::command::Command;
use crate::file_input::FileInput;
use crate::objects::run_objects;
use crate::restoring::run_input;
use crate::state_command::run_state;
use crate::strict::run_keys;
use crate::version::answer_version;
use command_line::{
    BatchWord, CommandLine, CommandWord, LineFault, OutputFormat, RunReport, Word, asks_json,
    bare_words, read_command_line,
};
use plant_script::Ending;
use std::alloc::Global;
use std::io::{BufRead, BufReader, Write};
use std::rt::Files;
use std::sync::Wait;
use std::thread::Threads;

/// Returns whether the command is `run`, whose input may begin with a snapshot.
fn is_run(word: CommandWord<'_>) -> bool
    ensures { result ≡ is_run (asked_of word.entry) }
{
    match word {
        CommandWord::Order(Word::Batch(BatchWord::Run(RunReport::Outputs))) => true,
        _ => false,
    }
}

/// Performs a command on a reader, and writes lines or objects. Returns the status.
#[tactic(auto, using(crate::proofs::RestoreLemmas::as_run, crate::proofs::RestoreLemmas::as_word))]
fn run_format<H: Threads + Wait + Sync, R: BufRead, W: Write, E: Write>(
    command: &Command<'_, H>,
    output: OutputFormat,
    reader: &mut R,
    writer: &mut W,
    reasons: &mut E,
) -> u8
    ensures { output ≡ Plain → command.now.unknown_keys ≡ Warn → IsCommandAnswer (asked_of command.now.word) (texts command.now.words.now)
        (R.remaining reader.old) result (W.contents writer.old) (W.contents writer.new) }
{
    match output {
        OutputFormat::Plain if is_run(command.word) => run_input(command, reader, writer, reasons),
        OutputFormat::Plain => run_keys(command, reader, writer, reasons),
        OutputFormat::JsonLines => run_objects(command, reader, writer, reasons),
    }
}

/// Performs a command on a file. Where the file cannot be opened or read, the reason says so. Returns the status.
fn run_file<H: Files + Threads + Wait + Sync, W: Write, E: Write>(
    command: &Command<'_, H>,
    output: OutputFormat,
    path: &str,
    writer: &mut W,
    reasons: &mut E,
) -> u8 {
    let file = FileInput::new(command.rt, path);
    let Ok(mut reader) = BufReader::new(command.alloc, file) else {
        return answer_out_of_memory(writer, reasons);
    };
    let mut message = Vec::new(command.alloc);
    let status = run_format(command, output, &mut reader, writer, &mut message);
    match reader.get_ref().reason(command.alloc) {
        Some(reason) if status == 6 => tell(reasons, reason),
        _ => pass_on(message.as_slice(), reasons),
    }
    status
}

/// Performs a command with its options. Returns the status.
#[tactic(auto, using(crate::proofs::WithoutOptions::asked_answered, crate::proofs::WithoutOptions::asked_out_of_memory, crate::proofs::WithoutOptions::bare_options))]
fn run_line<H: Files + Threads + Wait + Sync, R: BufRead, W: Write, E: Write>(
    rt: &H,
    host: &HostRuntime,
    line: CommandLine<'_>,
    reader: &mut R,
    writer: &mut W,
    reasons: &mut E,
    ending: Ending,
) -> u8
    ensures { is_bare (texts_of line.entry.options) ≡ true → IsAskedAnswer (asked_of line.entry.word) (R.remaining reader.old) result
        (W.contents writer.old) (W.contents writer.new) }
{
    let CommandLine { word, options } = line;
    let alloc = host.alloc();
    let Ok(words) = bare_words(alloc, word) else {
        return answer_out_of_memory(writer, reasons);
    };
    let command = Command {
        rt,
        host,
        alloc,
        word,
        words: words.as_slice(),
        unknown_keys: options.unknown_keys,
        ending,
    };
    match (options.state, options.input) {
        (Some(folder), _) => run_state(&command, folder, options, reader, writer, reasons),
        (None, None) => run_format(&command, options.output, reader, writer, reasons),
        (None, Some(path)) => run_file(&command, options.output, path, writer, reasons),
    }
}

/// Answers a command line that has no command to perform. Returns the status.
fn answer_fault<'a, W: Write, E: Write>(
    alloc: Global,
    words: &'a [&'a str],
    fault: LineFault,
    writer: &mut W,
    reasons: &mut E,
) -> u8
    ensures { result ≢ 6 → WritesLineFault fault (asks_json words.entry.now) result (W.contents writer.old) (W.contents writer.new) }
{
    match fault {
        LineFault::Help { text } => finish(writer, 0, text.as_bytes()),
        LineFault::Version => answer_version(writer),
        LineFault::Options { .. } => refuse(alloc, words, OutputFormat::Plain, writer, reasons),
        LineFault::Wrong if asks_json(words) => {
            refuse(alloc, words, OutputFormat::JsonLines, writer, reasons)
        }
        LineFault::Wrong => refuse(alloc, words, OutputFormat::Plain, writer, reasons),
        LineFault::NoMemory => answer_out_of_memory(writer, reasons),
    }
}

/// Runs the program on the arguments after its name: a command with its options. Returns the status.
///
/// With `--input FILE` the file is read in place of the reader. With `--strict`, unknown keys are a fault of the plant file, with
/// status 3. With `--json`, an object of JSON is written for each line. An invalid command line gives status 2, and a message that
/// says why; then nothing is read. With `--version` or `-V` alone, the version is written. The command `resume` serves a plant that
/// begins with a plant file or a snapshot. So does `restore`, which takes a snapshot only, and `run` if its input begins as a
/// snapshot does. `snapshot` writes the snapshot after the last line. With `--state FOLDER`, `serve` has its lines in the journal of
/// that folder before they are answered, and goes on from the journal at the next start.
pub fn run_with_options<'a, H: Files + Threads + Wait + Sync, R: BufRead, W: Write, E: Write>(
    rt: &H,
    host: &HostRuntime,
    words: &'a [&'a str],
    reader: &mut R,
    writer: &mut W,
    reasons: &mut E,
    ending: Ending,
) -> u8
    // Without an option it writes what `run_program` writes, but where `run` begins with a snapshot. With options, what
    // it does is only tested, except what `serve --state` guarantees.
    ensures named { (o : Order) → NamesOrder (texts words.entry.now) o → IsAskedAnswer (order o) (R.remaining reader.old) result
        (W.contents writer.old) (W.contents writer.new) }
    // `resume`, `restore` and `snapshot` write what `resumed_service` guarantees, or the status and the line of the
    // fault.
    ensures served { (s : ServiceWord) → NamesService (texts words.entry.now) s → IsAskedAnswer (service s) (R.remaining reader.old) result
        (W.contents writer.old) (W.contents writer.new) }
    // Nothing is read for words that are wrong or ask for help or for the version.
    ensures unread_if_wrong { AreRefused (texts words.entry.now) → reader.new ≡ reader.old }
    ensures unread_for_help { AsksHelp (texts words.entry.now) → reader.new ≡ reader.old }
    ensures unread_for_version { AsksVersion (texts words.entry.now) → reader.new ≡ reader.old }
    // Wrong arguments have status 2, unless memory ran out (5) or a write failed (6).
    ensures refused { AreRefused (texts words.entry.now) → asks_json words.entry.now ≡ false → result ≢ 5 → result ≢ 6
        → (result ≡ 2) × Appends (W.contents writer.old) (W.contents writer.new) words_line }
    // Help is some text with status 0.
    ensures helped { AsksHelp (texts words.entry.now) → result ≢ 5 → result ≢ 6 → WritesHelp result (W.contents writer.old) (W.contents writer.new) }
    // `--version` alone writes the version with status 0.
    ensures version { AsksVersion (texts words.entry.now) → result ≢ 5 → result ≢ 6
        → (result ≡ 0) × Appends (W.contents writer.old) (W.contents writer.new) version_text }
{
    let alloc = host.alloc();
    match read_command_line(alloc, words) {
        Ok(line) => run_line(rt, host, line, reader, writer, reasons, ending),
        Err(fault) => answer_fault(alloc, words, fault, writer, reasons),
    }
}
