//! Reading of the command line.
ghost use Rattle.std.specs.Prelude.{◌≡◌, IfOk, IfErr, option_map, ◌==◌, Some};
ghost use Rattle.clap.specs.Walk.{texts};
ghost use Rattle.clap.specs.Words.{found_of, kind_of, rows_of, subcommand_rows_of};
ghost use Rattle.command_line.specs.Order.{Order, asked_by, asked_name, asked_of, bare_texts, operand_of, order_of};
ghost use Rattle.command_line.specs.Options.{is_bare, no_options, texts_of};
ghost use Rattle.clap.specs.declared.error.kind.ErrorKind.TheVariants as kind;
ghost use Rattle.command_line.specs.declared.asked.LineFault.TheVariants as line;
ghost use Rattle.command_line.specs.CommandLine.{
  Allows,
  AreWrong,
  AsksHelp,
  GivesFault,
  GivesHelp,
  GivesOrder,
  GivesReading,
  GivesWrong,
  NamesOrder,
  bare_order,
  command,
  line_in,
  line_named,
  reading,
  refusal,
  words_fault,
};

use crate::asked::{
    BatchWord, CommandLine, CommandWord, LineFault, RunReport, ServiceWord, Word, WordsFault,
};
use crate::command::matches_of;
use crate::names::{CommandName, name_of};
use crate::option_errors::option_fault;
use crate::options::{OutputFormat, ProgramOptions, UnknownKeyHandling, options_in, options_of};
use clap::error::ErrorKind;
use clap::{ArgMatches, Error};
use std::alloc::{AllocError, Global};

/// Parses the words that follow the program's name, which is not among them: a command with its options, before it or after it.
///
/// An `Err` is help or the version that was asked for, an invalid command line, or a failed allocation, which any command line may
/// meet. No clause says more of the text of help than that it is there: clap promises nothing of it.
pub fn read_command_line<'a>(
    alloc: Global,
    words: &'a [&'a str],
) -> Result<CommandLine<'a>, LineFault>
    // A command with its options, help, the version, or wrong, by clap's own definitions; or memory ran out.
    ensures { GivesReading (reading (texts words.entry.now)) result }
{
    match matches_of(alloc, words) {
        Ok(matches) => line_of(&matches),
        Err(error) => Err(fault_of_error(alloc, &error, words.len())),
    }
}

/// Returns the command with its options, of words that clap takes.
pub(crate) fn line_of<'a>(matches: &ArgMatches<'a>) -> Result<CommandLine<'a>, LineFault>
    ensures { GivesReading (line_in (rows_of (found_of matches.now)) (subcommand_rows_of matches.now)) result }
{
    let Some((text, inner)) = matches.subcommand() else {
        return Err(LineFault::Wrong);
    };
    let Some(name) = name_of(text) else {
        return Err(LineFault::Wrong);
    };
    named_line(name, matches, inner)
}

/// Returns a command with its options, before it and after it.
fn named_line<'a>(
    name: CommandName,
    top: &ArgMatches<'a>,
    own: &ArgMatches<'a>,
) -> Result<CommandLine<'a>, LineFault>
    ensures { GivesReading (line_named (Some name) (rows_of (found_of top.now)) (rows_of (found_of own.now))) result }
{
    let Some(word) = word_of(name, own) else {
        return Err(LineFault::Wrong);
    };
    match options_of(name, options_in(top), options_in(own)) {
        Ok(options) => Ok(CommandLine { word, options }),
        Err(fault) => Err(LineFault::Options { fault }),
    }
}

/// Returns a command, with its operand if it has one.
#[tactic(auto, using(crate::proofs::CommandLemmas::value_in_rows))]
fn word_of<'a>(name: CommandName, inner: &ArgMatches<'a>) -> Option<CommandWord<'a>>
    ensures { option_map asked_of result ≡ asked_by name (rows_of (found_of inner.now)) }
{
    let batch = match name {
        CommandName::Resume => return Some(CommandWord::Service(ServiceWord::Resume)),
        CommandName::Restore => return Some(CommandWord::Service(ServiceWord::Restore)),
        CommandName::Snapshot => return Some(CommandWord::Service(ServiceWord::Snapshot)),
        CommandName::Serve => return Some(CommandWord::Order(Word::Serve)),
        CommandName::One => BatchWord::One,
        CommandName::Check => BatchWord::Check,
        CommandName::Threads => BatchWord::Threads,
        CommandName::Run => BatchWord::Run(RunReport::Outputs),
        CommandName::Capture => BatchWord::Run(RunReport::Capture),
        CommandName::Trace => BatchWord::Run(RunReport::Trace),
        CommandName::History => BatchWord::Run(RunReport::History(inner.get_str("operator")?)),
    };
    Some(CommandWord::Order(Word::Batch(batch)))
}

/// Returns what a failed parse says of so many words. The text of help is clap's own, of which clap promises nothing.
fn fault_of_error(alloc: Global, error: &Error, count: usize) -> LineFault
    ensures memory { kind_of error.now ≡ kind.OutOfMemory → result ≡ line.NoMemory }
    ensures refused { GivesFault result (refusal (count == 1) (kind_of error.now)) }
{
    match error.kind() {
        ErrorKind::OutOfMemory => LineFault::NoMemory,
        ErrorKind::DisplayHelp => match format!(in alloc; "{error}") {
            Ok(text) => LineFault::Help { text },
            Err(_error) => LineFault::NoMemory,
        },
        ErrorKind::DisplayVersion if count == 1 => LineFault::Version,
        ErrorKind::InvalidValue | ErrorKind::ArgumentConflict | ErrorKind::UnknownArgument => {
            match option_fault(alloc, error) {
                Ok(Some(fault)) => LineFault::Options { fault },
                Ok(None) => LineFault::Wrong,
                Err(_error) => LineFault::NoMemory,
            }
        }
        _ => LineFault::Wrong,
    }
}

/// Returns whether no option is there.
fn is_bare(options: ProgramOptions<'_>) -> bool
    ensures { result ≡ is_bare (texts_of options.entry) }
{
    options.input.is_none()
        && options.output == OutputFormat::Plain
        && options.unknown_keys == UnknownKeyHandling::Warn
        && options.state.is_none()
        && options.snapshot_every.is_none()
}

/// Returns the command that `run_program` carries out, if the line is one and has no option.
fn bare_word<'a>(line: CommandLine<'a>) -> Option<Word<'a>>
    ensures { option_map order_of result ≡ bare_order (command (asked_of line.entry.word) (texts_of line.entry.options)) }
{
    if !is_bare(line.options) {
        return None;
    }
    match line.word {
        CommandWord::Order(word) => Some(word),
        CommandWord::Service(_service) => None,
    }
}

/// Returns what `run_program` makes of a fault: it has no version.
fn words_fault(fault: LineFault) -> WordsFault
    ensures { result ≡ words_fault fault }
{
    match fault {
        LineFault::Help { text } => WordsFault::Help { text },
        LineFault::NoMemory => WordsFault::NoMemory,
        LineFault::Version | LineFault::Wrong | LineFault::Options { .. } => WordsFault::Wrong,
    }
}

/// Parses the words of `run_program`, which has no options, and none of the commands whose service may begin with a snapshot.
///
/// An `Err` is help that was asked for, an invalid command line, or a failed allocation, which any command line may meet. No
/// clause says more of the text of help than that it is there: clap promises nothing of it.
pub fn read_words<'a>(alloc: Global, words: &'a [&'a str]) -> Result<Word<'a>, WordsFault>
    // A command is returned only if the arguments name it and have no option.
    ensures ok { IfOk result (λ word. NamesOrder (texts words.entry.now) (order_of word)) }
    ensures fault { IfErr result (Allows (texts words.entry.now)) }
    // It is returned if they do, unless memory runs out.
    ensures named { (o : Order) → NamesOrder (texts words.entry.now) o → GivesOrder o result }
    ensures help { AsksHelp (texts words.entry.now) → GivesHelp result }
    ensures wrong { AreWrong (texts words.entry.now) → GivesWrong result }
{
    match read_command_line(alloc, words) {
        Ok(line) => bare_word(line).ok_or(WordsFault::Wrong),
        Err(fault) => Err(words_fault(fault)),
    }
}

/// Returns the name of a command.
fn name_of_word(word: CommandWord<'_>) -> CommandName
    ensures { result ≡ asked_name (asked_of word.entry) }
{
    match word {
        CommandWord::Service(ServiceWord::Resume) => CommandName::Resume,
        CommandWord::Service(ServiceWord::Restore) => CommandName::Restore,
        CommandWord::Service(ServiceWord::Snapshot) => CommandName::Snapshot,
        CommandWord::Order(Word::Serve) => CommandName::Serve,
        CommandWord::Order(Word::Batch(BatchWord::One)) => CommandName::One,
        CommandWord::Order(Word::Batch(BatchWord::Check)) => CommandName::Check,
        CommandWord::Order(Word::Batch(BatchWord::Threads)) => CommandName::Threads,
        CommandWord::Order(Word::Batch(BatchWord::Run(report))) => match report {
            RunReport::Outputs => CommandName::Run,
            RunReport::Capture => CommandName::Capture,
            RunReport::Trace => CommandName::Trace,
            RunReport::History(_) => CommandName::History,
        },
    }
}

/// Returns the operand of a command, if it has one.
fn operand_of<'a>(word: CommandWord<'a>) -> Option<&'a str>
    ensures { option_map (λ operand. operand.now) result ≡ operand_of (asked_of word.entry) }
{
    match word {
        CommandWord::Order(Word::Batch(BatchWord::Run(RunReport::History(operator)))) => Some(
            operator,
        ),
        _ => None,
    }
}

/// Returns the name of a command; with an operand also two hyphens and the operand.
fn command_texts<'a>(alloc: Global, word: CommandWord<'a>) -> Result<Vec<&'a str>, AllocError>
    ensures { IfOk result (λ words. texts words.items ≡ bare_texts (asked_of word.entry)) }
{
    let mut words = Vec::with_capacity(alloc, 3)?;
    words.push(name_of_word(word).text())?;
    if let Some(operand) = operand_of(word) {
        words.push("--")?;
        words.push(operand)?;
    }
    Ok(words)
}

/// Returns words of a command without an option.
pub fn bare_words<'a>(alloc: Global, word: CommandWord<'a>) -> Result<Vec<&'a str>, AllocError>
    ensures texts { IfOk result (λ words. texts words.items ≡ bare_texts (asked_of word.entry)) }
    // The arguments are read as that command.
    ensures read { IfOk result (λ words. reading (texts words.items) ≡ command (asked_of word.entry) no_options) }
{
    command_texts(alloc, word)
}
