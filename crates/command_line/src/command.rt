//! The program's command line, as clap reads it.
ghost use Rattle.std.specs.Prelude.{◌≡◌, IfOk, IfErr, [], true, false, Some};
ghost use Rattle.clap.specs.Walk.{texts};
ghost use Rattle.clap.specs.Words.{HasKind, app_of, found_of, new_app, rows_of, rule_of, subcommand_rows_of};
ghost use Rattle.command_line.specs.ClapLine.{
  command_app,
  entered_subcommand,
  faults,
  is_listed,
  operand_rule,
  option_rule,
  program,
  top,
  top_rows,
  with_command,
  with_first_commands,
  with_later_commands,
  with_operand,
  with_option,
  with_options,
  with_services,
};
ghost use Rattle.command_line.specs.Names.{name_text};

use crate::help_texts::PROGRAM_INPUT;
use crate::names::{CommandName, OptionName, has_option};
use clap::{Arg, ArgAction, ArgMatches, Command, Error};
use std::alloc::{AllocError, Global};

/// The version of the program, that of the first heading in CHANGELOG.md.
pub const VERSION: &str = "0.1";

/// Returns what clap reads in `words`.
pub(crate) fn matches_of<'a>(alloc: Global, words: &'a [&'a str]) -> Result<ArgMatches<'a>, Error>
    ensures taken { IfOk result (λ m. faults (texts words.entry.now) ≡ []) }
    ensures top { IfOk result (λ m. rows_of (found_of m) ≡ top_rows (texts words.entry.now)) }
    ensures rows { IfOk result (λ m. subcommand_rows_of m ≡ entered_subcommand (texts words.entry.now)) }
    ensures kinds { IfErr result (HasKind (faults (texts words.entry.now))) }
{
    let command = clap_command(alloc)?;
    command.try_get_matches_from(words)
}

/// Returns the command line of the program, with all its commands and options.
fn clap_command<'a>(alloc: Global) -> Result<Command<'a>, AllocError>
    ensures { IfOk result (λ c. app_of c ≡ program) }
{
    let top = with_options(alloc, top_command(alloc)?, None)?;
    let first = with_first_commands(alloc, top)?;
    let later = with_later_commands(alloc, first)?;
    with_services(alloc, later)
}

/// Returns the command line of the program without its commands and options.
fn top_command<'a>(alloc: Global) -> Result<Command<'a>, AllocError>
    ensures { IfOk result (λ c. app_of c ≡ top) }
{
    Command::new(alloc, "plant_script")
        .about("Schedule one DOCSIS upstream channel that several operators share")
        .after_help(PROGRAM_INPUT)
        .version(VERSION)
        .no_binary_name(true)
        .subcommand_required(true)
        .bin_name("plant_script")
}

/// Adds the commands `one`, `check`, `run` and `threads`.
fn with_first_commands<'a>(alloc: Global, command: Command<'a>) -> Result<Command<'a>, AllocError>
    ensures { IfOk result (λ c. app_of c ≡ with_first_commands (app_of command.entry)) }
{
    let one = with_command(alloc, command, CommandName::One)?;
    let check = with_command(alloc, one, CommandName::Check)?;
    let run = with_command(alloc, check, CommandName::Run)?;
    with_command(alloc, run, CommandName::Threads)
}

/// Adds the commands `capture`, `serve`, `trace` and `history`.
fn with_later_commands<'a>(alloc: Global, command: Command<'a>) -> Result<Command<'a>, AllocError>
    ensures { IfOk result (λ c. app_of c ≡ with_later_commands (app_of command.entry)) }
{
    let capture = with_command(alloc, command, CommandName::Capture)?;
    let serve = with_command(alloc, capture, CommandName::Serve)?;
    let trace = with_command(alloc, serve, CommandName::Trace)?;
    with_command(alloc, trace, CommandName::History)
}

/// Adds the commands whose service may begin with a snapshot.
fn with_services<'a>(alloc: Global, command: Command<'a>) -> Result<Command<'a>, AllocError>
    ensures { IfOk result (λ c. app_of c ≡ with_services (app_of command.entry)) }
{
    let resume = with_command(alloc, command, CommandName::Resume)?;
    let restore = with_command(alloc, resume, CommandName::Restore)?;
    with_command(alloc, restore, CommandName::Snapshot)
}

/// Adds a command with its help and its options.
fn with_command<'a>(
    alloc: Global,
    command: Command<'a>,
    name: CommandName,
) -> Result<Command<'a>, AllocError>
    ensures { IfOk result (λ c. app_of c ≡ with_command (app_of command.entry) name) }
{
    command.subcommand(named_command(alloc, name)?)
}

/// Returns a command with its options and its operand.
fn named_command<'a>(alloc: Global, name: CommandName) -> Result<Command<'a>, AllocError>
    ensures { IfOk result (λ c. app_of c ≡ command_app name) }
{
    let bare = bare_command(alloc, name);
    let optioned = with_options(alloc, bare, Some(name))?;
    match name {
        CommandName::History => optioned.arg(operand(alloc)),
        _ => Ok(optioned),
    }
}

/// Returns a command without arguments.
fn bare_command<'a>(alloc: Global, name: CommandName) -> Command<'a>
    ensures { app_of result ≡ new_app (name_text name) }
{
    Command::new(alloc, name.text())
        .about(name.summary())
        .after_help(name.input_text())
}

/// Adds the options of a command; without a command, all options.
fn with_options<'a>(
    alloc: Global,
    command: Command<'a>,
    name: Option<CommandName>,
) -> Result<Command<'a>, AllocError>
    ensures { IfOk result (λ c. app_of c ≡ with_options name (app_of command.entry)) }
{
    let input = with_option(alloc, command, name, OptionName::Input)?;
    let json = with_option(alloc, input, name, OptionName::Json)?;
    let strict = with_option(alloc, json, name, OptionName::Strict)?;
    let state = with_option(alloc, strict, name, OptionName::State)?;
    with_option(alloc, state, name, OptionName::SnapshotEvery)
}

/// Returns whether an option is one of a command; without a command, each is.
fn is_listed(option: OptionName, name: Option<CommandName>) -> bool
    ensures { result ≡ is_listed option name }
{
    match name {
        Some(name) => has_option(option, name),
        None => true,
    }
}

/// Adds an option, if it is one of the command's.
fn with_option<'a>(
    alloc: Global,
    command: Command<'a>,
    name: Option<CommandName>,
    option: OptionName,
) -> Result<Command<'a>, AllocError>
    ensures { IfOk result (λ c. app_of c ≡ with_option name (app_of command.entry) option) }
{
    if is_listed(option, name) {
        command.arg(option_argument(alloc, option))
    } else {
        Ok(command)
    }
}

/// Returns an option: with a value, or a flag.
fn option_argument<'a>(alloc: Global, option: OptionName) -> Arg<'a>
    ensures rule { rule_of result ≡ option_rule option }
    ensures local { result.global ≡ false }
{
    let named = Arg::new(alloc, option.text())
        .long(option.text())
        .help(option.summary());
    match option.value_name() {
        Some(value) => named.value_name(value),
        None => named.action(ArgAction::SetTrue),
    }
}

/// Returns the operand of `history`: the name of an operator.
fn operand<'a>(alloc: Global) -> Arg<'a>
    ensures rule { rule_of result ≡ operand_rule }
    ensures local { result.global ≡ false }
{
    Arg::new(alloc, "operator")
        .value_name("OPERATOR")
        .required(true)
        .help("Name of the operator in the plant file")
}
