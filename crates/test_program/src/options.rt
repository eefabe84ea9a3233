//! What is read of options, and what is said of those that are refused.

use command_line::{
    BatchWord, CommandWord, OutputFormat, UnknownKeyHandling, Word, read_command_line,
    text_of_wrong,
};
use std::test::Fail;

#[test]
fn options_are_read_at_both_places(rt: HostRuntime) -> Result<(), Fail> {
    let words = ["--json", "check", "--input", "a", "--strict", "--"];
    let line = read_command_line(rt.alloc(), words.as_slice()).expect(&rt, "a command");
    assert!(rt; line.word == CommandWord::Order(Word::Batch(BatchWord::Check)));
    assert!(rt; line.options.input == Some("a"));
    assert!(rt; line.options.output == OutputFormat::JsonLines);
    assert!(rt; line.options.unknown_keys == UnknownKeyHandling::Refuse);
    Ok(())
}

#[test]
fn a_message_names_the_option(rt: HostRuntime) -> Result<(), Fail> {
    let words = ["check", "--strict", "--strict"];
    let text = text_of_wrong(rt.alloc(), words.as_slice())?;
    assert_eq!(rt;
        text.as_str(),
        "the option --strict is there twice: write it once\n"
    );
    Ok(())
}
