//! What a remark of a trace says.

/// The transaction, or the SID and the minislots, that a step is about.
#[derive(Clone, Copy, Debug)]
pub(crate) enum StepSubject {
    /// Nothing that a remark says.
    Nothing,
    /// A transaction.
    Transaction { transaction: u64 },
    /// A request of this SID for so many minislots.
    Request { sid: u64, minislots: u64 },
}

/// What a remark of a trace says.
#[derive(Clone, Copy, Debug)]
pub(crate) enum Remark<'a> {
    /// A reply in words. After the code there is what it names.
    Reply {
        message: &'a str,
        modem: &'a str,
        transaction: u64,
        code: &'a str,
        named: &'a str,
    },
    /// A message or a request without an answer.
    Drop {
        modem: Option<&'a str>,
        cause: &'a str,
        subject: StepSubject,
    },
    /// A frame of an operator.
    Frame {
        frame: u64,
        operator: &'a str,
    },
    /// The MAP of a frame.
    Map {
        frame: u64,
    },
    /// Anything else.
    Other,
}

/// Returns the number after a word.
fn number_after(text: &str, word: &str) -> Option<u64> {
    text.strip_prefix(word)?.parse::<u64>().ok()
}

/// Returns a reply, by the remark.
fn reply_of(remark: &str) -> Option<Remark<'_>> {
    let (head, answer) = remark.split_once(": ")?;
    let (message, rest) = head.split_once(" to ")?;
    let (modem, transaction) = rest.split_once(", ")?;
    let transaction = number_after(transaction, "transaction ")?;
    let (code, named) = answer.split_once(", ").unwrap_or((answer, ""));
    Some(Remark::Reply {
        message,
        modem,
        transaction,
        code,
        named,
    })
}

/// Returns what a step without an answer is about, by the words after the cause.
fn subject_of(text: &str) -> StepSubject {
    if let Some(transaction) = number_after(text, "transaction ") {
        return StepSubject::Transaction { transaction };
    }
    match request_of(text) {
        Some((sid, minislots)) => StepSubject::Request { sid, minislots },
        None => StepSubject::Nothing,
    }
}

/// Returns the SID and the minislots of a request.
fn request_of(text: &str) -> Option<(u64, u64)> {
    let (sid, minislots) = text.split_once(" for ")?;
    let sid = number_after(sid, "SID ")?;
    let minislots = minislots.strip_suffix(" minislots")?.parse::<u64>().ok()?;
    Some((sid, minislots))
}

/// Returns a message or a request without an answer, by what follows the words that say so.
fn drop_of(text: &str) -> Option<Remark<'_>> {
    let (head, answer) = text.split_once(": ")?;
    let (cause, subject) = answer.split_once(", ").unwrap_or((answer, ""));
    Some(Remark::Drop {
        modem: head.strip_prefix(" to "),
        cause,
        subject: subject_of(subject),
    })
}

/// Returns a frame of an operator, by what follows the first word.
fn frame_of(text: &str) -> Option<Remark<'_>> {
    let (frame, operator) = text.split_once(" of ")?;
    let frame = frame.parse::<u64>().ok()?;
    Some(Remark::Frame { frame, operator })
}

/// Returns the MAP of a frame, by what follows the first words.
fn map_of(text: &str) -> Option<Remark<'_>> {
    let frame = text.strip_suffix(" made")?.parse::<u64>().ok()?;
    Some(Remark::Map { frame })
}

/// Returns what a remark says.
pub(crate) fn remark_of(remark: &str) -> Remark<'_> {
    let found = if let Some(text) = remark.strip_prefix("no answer") {
        drop_of(text)
    } else if let Some(text) = remark.strip_prefix("frame ") {
        frame_of(text)
    } else if let Some(text) = remark.strip_prefix("MAP of frame ") {
        map_of(text)
    } else {
        reply_of(remark)
    };
    found.unwrap_or(Remark::Other)
}
