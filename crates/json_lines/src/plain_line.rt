//! What a line of the program is.

/// A line of the program, without its end.
#[derive(Clone, Copy, Debug)]
pub(crate) enum PlainLine<'a> {
    /// A line of the script, which a trace shows.
    Script {
        number: u64,
    },
    /// The check that decided a message.
    Check {
        number: u64,
        name: &'a str,
    },
    /// A remark of a trace, without its indentation.
    Remark {
        remark: &'a str,
    },
    /// A reply to a modem.
    Reply {
        modem: &'a str,
        bytes: &'a str,
    },
    /// A message without a reply, or a request without an effect.
    Drop {
        modem: &'a str,
        cause: &'a str,
    },
    /// A frame of an operator.
    Frame {
        operator: &'a str,
        frame: u64,
        elements: &'a str,
    },
    /// The MAP of a frame.
    Map {
        frame: u64,
        bytes: &'a str,
    },
    /// A fault, without the word before it.
    Fault {
        fault: &'a str,
    },
    /// The answer that all is valid.
    Valid,
    /// Any other line.
    Other,
}

/// Returns the two parts of a text around its first blank.
fn halves(text: &str) -> Option<(&str, &str)> {
    text.split_once(' ')
}

/// Returns a line of the script, by what follows its first word.
fn script_of(text: &str) -> Option<PlainLine<'_>> {
    let (number, _said) = text.split_once(": ")?;
    let number = number.parse::<u64>().ok()?;
    Some(PlainLine::Script { number })
}

/// Returns a check, by what follows its first word.
fn check_of(text: &str) -> Option<PlainLine<'_>> {
    let (number, name) = text.split_once(", ")?;
    let number = number.parse::<u64>().ok()?;
    Some(PlainLine::Check { number, name })
}

/// Returns a frame, by what follows its first word.
fn frame_of(text: &str) -> Option<PlainLine<'_>> {
    let (operator, rest) = halves(text)?;
    let (frame, elements) = halves(rest).unwrap_or((rest, ""));
    let frame = frame.parse::<u64>().ok()?;
    Some(PlainLine::Frame {
        operator,
        frame,
        elements,
    })
}

/// Returns a MAP, by what follows its first word.
fn map_of(text: &str) -> Option<PlainLine<'_>> {
    let (frame, bytes) = halves(text)?;
    let frame = frame.parse::<u64>().ok()?;
    Some(PlainLine::Map { frame, bytes })
}

/// Returns what an output is, by its first word and what follows.
fn output_of<'a>(word: &str, rest: &'a str) -> Option<PlainLine<'a>> {
    match word {
        "R" => {
            let (modem, bytes) = halves(rest)?;
            Some(PlainLine::Reply { modem, bytes })
        }
        "S" => {
            let (modem, cause) = halves(rest)?;
            Some(PlainLine::Drop { modem, cause })
        }
        "F" => frame_of(rest),
        "MAP" => map_of(rest),
        "line" => script_of(rest),
        "fault:" => Some(PlainLine::Fault { fault: rest }),
        _ => None,
    }
}

/// Returns what a line is.
pub(crate) fn plain_line(text: &str) -> PlainLine<'_> {
    if let Some(remark) = text.strip_prefix("    ") {
        return PlainLine::Remark { remark };
    }
    if let Some(check) = text.strip_prefix("  check ") {
        return check_of(check).unwrap_or(PlainLine::Other);
    }
    if text == "ok" {
        return PlainLine::Valid;
    }
    match halves(text) {
        Some((word, rest)) => output_of(word, rest).unwrap_or(PlainLine::Other),
        None => PlainLine::Other,
    }
}
