//! What a command line asks for, and why it may ask for nothing.
ghost use Rattle.std.specs.Prelude.{◌≡◌};
ghost use Rattle.command_line.specs.declared.asked.WordsFault.TheVariants as words_fault;

use crate::names::OptionName;
use crate::options::ProgramOptions;
use std::alloc::AllocError;

/// What is printed of the run of a script on a plant.
///
/// `Operator` is how an operator is stated: by its name in a command line, by its place in a plant.
#[derive(Clone, Copy, Debug, PartialEq, Eq)]
pub enum RunReport<Operator> {
    /// Replies, frames and MAPs.
    Outputs,
    /// A pcap file of the messages of the modems, the replies and the MAPs.
    Capture,
    /// The check that decided each step, and its output, in words.
    Trace,
    /// The steps of one operator.
    History(Operator),
}

/// A command that reads all of its input before it answers.
#[derive(Clone, Copy, Debug, PartialEq, Eq)]
pub enum BatchWord<'a> {
    /// Processes messages of one modem on a built-in plant.
    One,
    /// Checks a plant file and a script, and runs nothing.
    Check,
    /// Runs a script with a thread for each operator, and prints replies, frames and MAPs.
    Threads,
    /// Runs a script on a plant, and prints this of the run. An operator is stated by its name, as it
    /// was written.
    Run(RunReport<&'a str>),
}

/// A command that `run_program` carries out.
#[derive(Clone, Copy, Debug, PartialEq, Eq)]
pub enum Word<'a> {
    /// Keeps a plant running, and processes each line as it arrives.
    Serve,
    /// Reads all of its input, and answers it.
    Batch(BatchWord<'a>),
}

/// A command whose service may begin with a snapshot.
#[derive(Clone, Copy, Debug, PartialEq, Eq)]
pub enum ServiceWord {
    /// `resume`: serves the lines after a plant file or a snapshot.
    Resume,
    /// `restore`: serves the lines after a snapshot.
    Restore,
    /// `snapshot`: performs the lines, and writes the snapshot after them.
    Snapshot,
}

/// Any command of the program.
#[derive(Clone, Copy, Debug, PartialEq, Eq)]
pub enum CommandWord<'a> {
    /// One that `run_program` carries out.
    Order(Word<'a>),
    /// One whose service may begin with a snapshot.
    Service(ServiceWord),
}

/// A command with its options.
#[derive(Clone, Copy, Debug, PartialEq, Eq)]
pub struct CommandLine<'a> {
    /// The command.
    pub word: CommandWord<'a>,
    /// The options.
    pub options: ProgramOptions<'a>,
}

/// Why a command line has no command that `run_program` carries out.
#[derive(Debug, Drop)]
pub enum WordsFault {
    /// It asks for help.
    Help {
        /// The help, as it is to be printed: lines, the last of them ended.
        text: String,
    },
    /// It is invalid: neither a command nor a request for help.
    Wrong,
    /// The process is out of memory, whatever the command line is.
    NoMemory,
}

impl From<AllocError> for WordsFault {
    ghost from_gives = { λ _ fault. fault ≡ words_fault.NoMemory };

    fn from(_error: AllocError) -> WordsFault {
        WordsFault::NoMemory
    }
}

/// Why the options of a command line are invalid.
#[derive(Clone, Copy, Debug, PartialEq, Eq)]
pub enum OptionsFault {
    /// An option is there twice.
    Twice {
        /// The option.
        option: OptionName,
    },
    /// No value follows an option that has one.
    NoValue {
        /// The option.
        option: OptionName,
    },
    /// The command does not have the option.
    NotOf {
        /// The option.
        option: OptionName,
    },
    /// An option is there without one that it needs.
    Without {
        /// The option.
        option: OptionName,
        /// The option that it needs.
        needed: OptionName,
    },
    /// Two options are there that do not go together.
    Together {
        /// The option.
        option: OptionName,
        /// The other option.
        other: OptionName,
    },
}

/// Why a command line has no command with its options.
#[derive(Debug, Drop)]
pub enum LineFault {
    /// It asks for help.
    Help {
        /// The help, as it is to be printed: lines, the last of them ended.
        text: String,
    },
    /// It asks for the version.
    Version,
    /// clap refuses it, or it asks for the version and more.
    Wrong,
    /// Its options are invalid.
    Options {
        /// Why.
        fault: OptionsFault,
    },
    /// The process is out of memory, whatever the command line is.
    NoMemory,
}
