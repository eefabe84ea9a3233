//! The commands and options of the program: the one table of which the command line, the help and the rules of options are made.
ghost use Rattle.std.specs.Prelude.{◌≡◌, is_some};
ghost use Rattle.command_line.specs.Names.{name_text, name_of, option_text, has_value, has_option};

use crate::help_texts::{
    CAPTURE_INPUT, CHECK_INPUT, HISTORY_INPUT, ONE_INPUT, RESTORE_INPUT, RESUME_INPUT, RUN_INPUT,
    SERVE_INPUT, SNAPSHOT_INPUT, THREADS_INPUT, TRACE_INPUT,
};
use std::fmt;
use std::fmt::{Display, Formatter};

/// A command, as its name.
#[derive(Clone, Copy, Debug, PartialEq, Eq)]
pub enum CommandName {
    /// Processes messages of one modem on a built-in plant.
    One,
    /// Checks a plant file and a script.
    Check,
    /// Runs a script.
    Run,
    /// Runs a script with a thread for each operator.
    Threads,
    /// Runs a script, and writes a pcap file.
    Capture,
    /// Keeps a plant running.
    Serve,
    /// Runs a script, and explains each step.
    Trace,
    /// Runs a script, and prints the history of an operator.
    History,
    /// Serves the lines after a plant file or a snapshot.
    Resume,
    /// Serves the lines after a snapshot.
    Restore,
    /// Performs a script, and writes the snapshot after it.
    Snapshot,
}

impl CommandName {
    /// Returns the name as it is written.
    pub fn text<'a>(self) -> &'a str
        ensures { result.now ≡ name_text self }
    {
        match self {
            CommandName::One => "one",
            CommandName::Check => "check",
            CommandName::Run => "run",
            CommandName::Threads => "threads",
            CommandName::Capture => "capture",
            CommandName::Serve => "serve",
            CommandName::Trace => "trace",
            CommandName::History => "history",
            CommandName::Resume => "resume",
            CommandName::Restore => "restore",
            CommandName::Snapshot => "snapshot",
        }
    }

    /// Returns what the command does, in a line.
    pub(crate) fn summary<'a>(self) -> &'a str {
        match self {
            CommandName::One => "Process messages of one modem on a built-in plant",
            CommandName::Check => "Check a plant file and a script, and run nothing",
            CommandName::Run => "Run a script on a plant, and print replies, frames and MAPs",
            CommandName::Threads => "Run a script as run does, with a thread for each operator",
            CommandName::Capture => "Run a script on a plant, and write a pcap file",
            CommandName::Serve => "Keep a plant running, and process each line as it arrives",
            CommandName::Trace => "Run a script on a plant, and explain what decided each step",
            CommandName::History => "Run a script on a plant, and print the history of an operator",
            CommandName::Resume =>
                "Serve a plant from a plant file or a snapshot, save it and change it",
            CommandName::Restore => "Go on from a snapshot with the lines after it",
            CommandName::Snapshot =>
                "Perform a script and write the snapshot of the plant after it",
        }
    }

    /// Returns what the help of the command says after its options.
    pub(crate) fn input_text<'a>(self) -> &'a str {
        match self {
            CommandName::One => ONE_INPUT,
            CommandName::Check => CHECK_INPUT,
            CommandName::Run => RUN_INPUT,
            CommandName::Threads => THREADS_INPUT,
            CommandName::Capture => CAPTURE_INPUT,
            CommandName::Serve => SERVE_INPUT,
            CommandName::Trace => TRACE_INPUT,
            CommandName::History => HISTORY_INPUT,
            CommandName::Resume => RESUME_INPUT,
            CommandName::Restore => RESTORE_INPUT,
            CommandName::Snapshot => SNAPSHOT_INPUT,
        }
    }
}

/// Returns the command of this name.
pub(crate) fn name_of(text: &str) -> Option<CommandName>
    ensures { result ≡ name_of text.now }
{
    if text == "one" {
        Some(CommandName::One)
    } else if text == "check" {
        Some(CommandName::Check)
    } else if text == "run" {
        Some(CommandName::Run)
    } else if text == "threads" {
        Some(CommandName::Threads)
    } else if text == "capture" {
        Some(CommandName::Capture)
    } else if text == "serve" {
        Some(CommandName::Serve)
    } else if text == "trace" {
        Some(CommandName::Trace)
    } else if text == "history" {
        Some(CommandName::History)
    } else if text == "resume" {
        Some(CommandName::Resume)
    } else if text == "restore" {
        Some(CommandName::Restore)
    } else if text == "snapshot" {
        Some(CommandName::Snapshot)
    } else {
        None
    }
}

/// An option, as its name.
#[derive(Clone, Copy, Debug, PartialEq, Eq)]
pub enum OptionName {
    /// Reads a file in place of standard input.
    Input,
    /// Writes objects of JSON in place of lines.
    Json,
    /// Refuses what `check` warns of.
    Strict,
    /// Keeps a journal in a folder.
    State,
    /// Saves the state after so many lines.
    SnapshotEvery,
}

impl OptionName {
    /// Returns the name as it is written, without its two hyphens.
    pub fn text<'a>(self) -> &'a str
        ensures { result.now ≡ option_text self }
    {
        match self {
            OptionName::Input => "input",
            OptionName::Json => "json",
            OptionName::Strict => "strict",
            OptionName::State => "state",
            OptionName::SnapshotEvery => "snapshot-every",
        }
    }

    /// Returns what the option does, in a line.
    pub(crate) fn summary<'a>(self) -> &'a str {
        match self {
            OptionName::Input => "Read FILE in place of standard input",
            OptionName::Json => "Write a JSON object for each line of the output",
            OptionName::Strict =>
                "Refuse what is warned of, with status 3 and `fault: plant 12 KEY`",
            OptionName::State => "Keep the lines and the state in FOLDER, which is there already",
            OptionName::SnapshotEvery => "With --state, save the state each N lines (10,000)",
        }
    }

    /// Returns what the value of the option is, or nothing if it has no value.
    pub fn value_name<'a>(self) -> Option<&'a str>
        ensures { is_some result ≡ has_value self }
    {
        match self {
            OptionName::Input => Some("FILE"),
            OptionName::State => Some("FOLDER"),
            OptionName::SnapshotEvery => Some("N"),
            OptionName::Json | OptionName::Strict => None,
        }
    }
}

impl Display for OptionName {
    fn fmt<W: fmt::Write>(&self, f: &mut Formatter<W>) -> fmt::Result {
        f.write_str("--")?;
        f.write_str(self.text())
    }
}

/// Returns whether a command has an option.
pub(crate) fn has_option(option: OptionName, command: CommandName) -> bool
    ensures { result ≡ has_option option command }
{
    match option {
        OptionName::Input => true,
        OptionName::Json => matches!(
            &command,
            CommandName::Run | CommandName::Serve | CommandName::Check | CommandName::Trace
        ),
        OptionName::Strict => matches!(&command, CommandName::Check),
        OptionName::State | OptionName::SnapshotEvery => matches!(&command, CommandName::Serve),
    }
}
