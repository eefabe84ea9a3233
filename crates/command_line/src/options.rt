//! The options of a command line, and which of them go together.
ghost use Rattle.std.specs.Prelude.{◌≡◌, is_some, option_map, IfErr, IfSome, MatchResult, true, false};
ghost use Rattle.clap.specs.Words.{first_of, found_of, rows_of};
ghost use Rattle.command_line.specs.Names.{option_text};
ghost use Rattle.command_line.specs.declared.names.OptionName.TheVariants.{Json, Strict};
ghost use Rattle.command_line.specs.Options.{HasFault, IsMismatch, are_wrong, is_beyond, is_found, is_in_both, is_json, is_mismatch, is_set, is_stray, is_strict, is_twice, joined, options_in, texts_of};

use crate::asked::OptionsFault;
use crate::names::{CommandName, OptionName, has_option};
use clap::ArgMatches;

/// The form of standard output.
#[derive(Clone, Copy, Debug, PartialEq, Eq)]
pub enum OutputFormat {
    /// Lines of text.
    Plain,
    /// An object of JSON for each line.
    JsonLines,
}

/// What unknown keys of a plant file are.
#[derive(Clone, Copy, Debug, PartialEq, Eq)]
pub enum UnknownKeyHandling {
    /// Each is a warning on standard error.
    Warn,
    /// They are a fault.
    Refuse,
}

/// The options of a command line.
#[derive(Clone, Copy, Debug, PartialEq, Eq)]
pub struct ProgramOptions<'a> {
    /// The file that is read in place of standard input.
    pub input: Option<&'a str>,
    /// The form of standard output.
    pub output: OutputFormat,
    /// What unknown keys are.
    pub unknown_keys: UnknownKeyHandling,
    /// The folder of a journal.
    pub state: Option<&'a str>,
    /// After how many lines the state is saved, as it is written.
    pub snapshot_every: Option<&'a str>,
}

/// Returns the value of an option; of a flag whether it is set, as a word.
fn value_in<'a>(matches: &ArgMatches<'a>, option: OptionName) -> Option<&'a str>
    ensures { option_map (λ value. value.now) result ≡ first_of (option_text option) (rows_of (found_of matches.now)) }
{
    matches.get_str(option.text())
}

/// Returns whether a flag is set. `get_flag` says the same, but clap's clauses say it of no other word than these two.
fn is_set(matches: &ArgMatches<'_>, option: OptionName) -> bool
    ensures { result ≡ is_set option (rows_of (found_of matches.now)) }
{
    match value_in(matches, option) {
        Some(text) => text == "true",
        None => false,
    }
}

/// Returns the form of standard output.
fn output_in(matches: &ArgMatches<'_>) -> OutputFormat
    ensures { is_json result ≡ is_set Json (rows_of (found_of matches.now)) }
{
    if is_set(matches, OptionName::Json) {
        OutputFormat::JsonLines
    } else {
        OutputFormat::Plain
    }
}

/// Returns what unknown keys are.
fn keys_in(matches: &ArgMatches<'_>) -> UnknownKeyHandling
    ensures { is_strict result ≡ is_set Strict (rows_of (found_of matches.now)) }
{
    if is_set(matches, OptionName::Strict) {
        UnknownKeyHandling::Refuse
    } else {
        UnknownKeyHandling::Warn
    }
}

/// Returns the options that clap read, before the command or after it.
pub(crate) fn options_in<'a>(matches: &ArgMatches<'a>) -> ProgramOptions<'a>
    ensures { texts_of result ≡ options_in (rows_of (found_of matches.now)) }
{
    ProgramOptions {
        input: value_in(matches, OptionName::Input),
        output: output_in(matches),
        unknown_keys: keys_in(matches),
        state: value_in(matches, OptionName::State),
        snapshot_every: value_in(matches, OptionName::SnapshotEvery),
    }
}

/// Returns whether an option was found.
fn is_found(options: ProgramOptions<'_>, option: OptionName) -> bool
    ensures { result ≡ is_found (texts_of options.entry) option }
{
    match option {
        OptionName::Input => options.input.is_some(),
        OptionName::Json => options.output == OutputFormat::JsonLines,
        OptionName::Strict => options.unknown_keys == UnknownKeyHandling::Refuse,
        OptionName::State => options.state.is_some(),
        OptionName::SnapshotEvery => options.snapshot_every.is_some(),
    }
}

/// Returns the options of both places.
fn joined<'a>(top: ProgramOptions<'a>, own: ProgramOptions<'a>) -> ProgramOptions<'a>
    ensures { texts_of result ≡ joined (texts_of top.entry) (texts_of own.entry) }
{
    ProgramOptions {
        input: top.input.or(own.input),
        output: if is_found(top, OptionName::Json) {
            top.output
        } else {
            own.output
        },
        unknown_keys: if is_found(top, OptionName::Strict) {
            top.unknown_keys
        } else {
            own.unknown_keys
        },
        state: top.state.or(own.state),
        snapshot_every: top.snapshot_every.or(own.snapshot_every),
    }
}

/// Returns whether an option is before the command and after it.
fn is_in_both(top: ProgramOptions<'_>, own: ProgramOptions<'_>, option: OptionName) -> bool
    ensures { result ≡ is_in_both (texts_of top.entry) (texts_of own.entry) option }
{
    is_found(top, option) && is_found(own, option)
}

/// Returns an option that is before the command and after it.
fn option_twice(top: ProgramOptions<'_>, own: ProgramOptions<'_>) -> Option<OptionName>
    ensures twice { is_some result ≡ is_twice (texts_of top.entry) (texts_of own.entry) }
    ensures option { IfSome result (λ option. is_in_both (texts_of top.entry) (texts_of own.entry) option ≡ true) }
{
    if is_in_both(top, own, OptionName::Input) {
        Some(OptionName::Input)
    } else if is_in_both(top, own, OptionName::Json) {
        Some(OptionName::Json)
    } else if is_in_both(top, own, OptionName::Strict) {
        Some(OptionName::Strict)
    } else if is_in_both(top, own, OptionName::State) {
        Some(OptionName::State)
    } else if is_in_both(top, own, OptionName::SnapshotEvery) {
        Some(OptionName::SnapshotEvery)
    } else {
        None
    }
}

/// Returns whether an option is before a command that does not have it.
fn is_stray(top: ProgramOptions<'_>, option: OptionName, command: CommandName) -> bool
    ensures { result ≡ is_stray (texts_of top.entry) command option }
{
    is_found(top, option) && !has_option(option, command)
}

/// Returns an option that is before a command that does not have it.
fn option_beyond(top: ProgramOptions<'_>, command: CommandName) -> Option<OptionName>
    ensures beyond { is_some result ≡ is_beyond (texts_of top.entry) command }
    ensures option { IfSome result (λ option. is_stray (texts_of top.entry) command option ≡ true) }
{
    if is_stray(top, OptionName::Json, command) {
        Some(OptionName::Json)
    } else if is_stray(top, OptionName::Strict, command) {
        Some(OptionName::Strict)
    } else if is_stray(top, OptionName::State, command) {
        Some(OptionName::State)
    } else if is_stray(top, OptionName::SnapshotEvery, command) {
        Some(OptionName::SnapshotEvery)
    } else {
        None
    }
}

/// Returns why options do not go together.
fn mismatch(options: ProgramOptions<'_>) -> Option<OptionsFault>
    ensures mismatch { is_some result ≡ is_mismatch (texts_of options.entry) }
    ensures fault { IfSome result (IsMismatch (texts_of options.entry)) }
{
    match (options.state, options.snapshot_every, options.output) {
        (None, Some(_every), _) => Some(OptionsFault::Without {
            option: OptionName::SnapshotEvery,
            needed: OptionName::State,
        }),
        (Some(_folder), _, OutputFormat::JsonLines) => Some(OptionsFault::Together {
            option: OptionName::Json,
            other: OptionName::State,
        }),
        _ => None,
    }
}

/// Returns the options before a command and after it, or why they are invalid: an option is in both places, the command does not
/// have it, or it does not go with the others. clap could say the last two of one list of options, not of two.
pub(crate) fn options_of<'a>(
    command: CommandName,
    top: ProgramOptions<'a>,
    own: ProgramOptions<'a>,
) -> Result<ProgramOptions<'a>, OptionsFault>
    ensures read { MatchResult result
        (λ options. (are_wrong command (texts_of top.entry) (texts_of own.entry) ≡ false)
        × (texts_of options ≡ joined (texts_of top.entry) (texts_of own.entry)))
        (λ fault. are_wrong command (texts_of top.entry) (texts_of own.entry) ≡ true) }
    ensures fault { IfErr result (HasFault command (texts_of top.entry) (texts_of own.entry)) }
{
    if let Some(option) = option_twice(top, own) {
        return Err(OptionsFault::Twice { option });
    }
    if let Some(option) = option_beyond(top, command) {
        return Err(OptionsFault::NotOf { option });
    }
    let options = joined(top, own);
    match mismatch(options) {
        Some(fault) => Err(fault),
        None => Ok(options),
    }
}
