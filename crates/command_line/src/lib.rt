//! The command line of the program: one table of its commands and options, of which clap makes the help.
#![tactic(auto)]

mod asked;
mod command;
mod help_texts;
mod laws_of_words;
mod names;
mod option_errors;
mod options;
mod reading;
mod wrong_texts;

pub use asked::{
    BatchWord, CommandLine, CommandWord, LineFault, OptionsFault, RunReport, ServiceWord, Word,
    WordsFault,
};
pub use command::VERSION;
pub use laws_of_words::{
    commands_have_no_operand, help_is_asked, options_are_read, options_are_refused,
    orders_are_named, other_names_are_wrong, others_are_wrong, refused_are_wrong,
    services_are_named, version_is_asked, words_come_to_one,
};
pub use names::{CommandName, OptionName};
pub use options::{OutputFormat, ProgramOptions, UnknownKeyHandling};
pub use reading::{bare_words, read_command_line, read_words};
pub use wrong_texts::{asks_json, text_of_wrong};
