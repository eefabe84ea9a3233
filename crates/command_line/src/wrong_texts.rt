//! What standard error says of a command line that is invalid.
ghost use Rattle.std.specs.Prelude.{◌≡◌};
ghost use Rattle.command_line.specs.CommandLine.{asks_json};

use crate::asked::{LineFault, OptionsFault};
use crate::command::matches_of;
use crate::names::OptionName;
use crate::option_errors::option_fault;
use crate::reading::line_of;
use clap::Error;
use clap::error::ErrorKind;
use std::alloc::{AllocError, Global};

/// Where the input is read, after a message of clap.
const WHERE_INPUT_IS: &str =
    "\nThe program reads a plant file and a script from standard input: plant_script run < script.txt\n";

/// How a file is given, after a message of clap about an operand.
const HOW_FILE_IS_GIVEN: &str =
    "\nA command reads standard input, or a file with the option --input: plant_script run --input script.txt\n";

/// Returns the commands that have an option, as a sentence says them.
fn commands_with(option: OptionName) -> &'static str {
    match option {
        OptionName::Input => "all commands have it",
        OptionName::Json => "run, serve, check and trace have it",
        OptionName::Strict => "check has it",
        OptionName::State | OptionName::SnapshotEvery => "serve has it",
    }
}

/// Returns what the value of an option is, and how the option is written.
fn value_text(option: OptionName) -> &'static str {
    match option {
        OptionName::State => "folder: write --state FOLDER",
        OptionName::SnapshotEvery => "number: write --snapshot-every N",
        _ => "file: write --input FILE",
    }
}

/// Returns why options are invalid.
fn options_text(alloc: Global, fault: OptionsFault) -> Result<String, AllocError> {
    match fault {
        OptionsFault::Twice { option } => format!(in alloc;
            "the option {option} is there twice: write it once\n"
        ),
        OptionsFault::NoValue { option } => {
            let value = value_text(option);
            format!(in alloc; "the option {option} has no {value}\n")
        }
        OptionsFault::NotOf { option } => {
            let others = commands_with(option);
            format!(in alloc; "this command has no option {option}: {others}\n")
        }
        OptionsFault::Without { option, needed } => {
            let value = value_text(needed);
            format!(in alloc; "the option {option} needs the option {needed} and its {value}\n")
        }
        OptionsFault::Together { option, other } => format!(in alloc;
            "the options {option} and {other} do not go together: leave one of them out\n"
        ),
    }
}

/// Returns what is said after a message of clap: of an operand, which no command takes but `history`, how a file is given.
fn text_after_clap(kind: ErrorKind, message: &str) -> &'static str {
    match kind {
        ErrorKind::UnknownArgument if !message.contains("argument '-") => HOW_FILE_IS_GIVEN,
        _ => WHERE_INPUT_IS,
    }
}

/// Returns the message of an error of clap.
fn error_text(alloc: Global, error: &Error) -> Result<String, AllocError> {
    if let Some(fault) = option_fault(alloc, error)? {
        return options_text(alloc, fault);
    }
    match error.kind() {
        ErrorKind::DisplayVersion => String::from_str(
            alloc,
            "the option --version is alone on the command line\n",
        ),
        kind => {
            let mut text = format!(in alloc; "{error}")?;
            let after = text_after_clap(kind, text.as_str());
            text.push_str(after)?;
            Ok(text)
        }
    }
}

/// Returns what is said of an invalid command line: which option is wrong, or clap's message, the usage, and where the input is
/// read. No clause says what the text is: clap promises nothing of it. Empty where the command line is valid.
pub fn text_of_wrong<'a>(alloc: Global, words: &'a [&'a str]) -> Result<String, AllocError> {
    match matches_of(alloc, words) {
        Ok(matches) => match line_of(&matches) {
            Err(LineFault::Options { fault }) => options_text(alloc, fault),
            _ => Ok(String::new(alloc)),
        },
        Err(error) => error_text(alloc, &error),
    }
}

/// Returns whether `--json` is among the words. Of words that clap refuses it hands out no matches, so this is how the form of the
/// line `fault: words` is found. Nothing else depends on it.
pub fn asks_json(words: &[&str]) -> bool
    ensures { result ≡ asks_json words.now }
{
    words.contains(&"--json")
}
