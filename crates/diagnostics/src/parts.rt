//! The parts of an input: the plant file, the line of three dashes, and the script.

use memchr::memmem;

/// The parts of an input.
#[derive(Clone, Copy)]
pub(crate) struct InputParts<'a> {
    /// What is before the first line of three dashes, or all.
    pub(crate) plant: &'a str,
    /// What is after it; none where there is no such line.
    pub(crate) script: Option<&'a str>,
    /// The plant file and that line; empty where there is no such line.
    pub(crate) through_bar: &'a str,
}

impl<'a> InputParts<'a> {
    /// Returns the number of the line of three dashes, counted from 1; 0 where there is no such
    /// line. It is counted here, since only messages need it.
    pub(crate) fn bar(&self) -> usize {
        self.through_bar.lines().count()
    }
}

/// Returns the number of the last line of a text, counted from 1.
pub(crate) fn last_line(text: &str) -> usize {
    text.matches('\n').count().saturating_add(1)
}

/// Returns the length of the text before a line of three dashes that is not the first line.
fn inner_bar(input: &str) -> Option<usize> {
    let before = match memmem::find(input.as_bytes(), b"\n---\n".as_slice()) {
        Some(place) => place,
        None => input.strip_suffix("\n---")?.len(),
    };
    Some(before.saturating_add(1))
}

/// Returns the length of the text before the first line of three dashes.
fn first_bar(input: &str) -> Option<usize> {
    if input == "---" || input.starts_with("---\n") {
        Some(0)
    } else {
        inner_bar(input)
    }
}

/// Returns the parts of an input whose line of three dashes begins at a place.
fn parts_around(input: &str, place: usize) -> Option<InputParts<'_>> {
    let (plant, rest) = input.split_at_checked(place)?;
    Some(InputParts {
        plant,
        script: Some(rest.get("---\n".len()..).unwrap_or("")),
        through_bar: input
            .get(..place.saturating_add("---\n".len()))
            .unwrap_or(input),
    })
}

/// Returns the parts of an input.
pub(crate) fn parts_of(input: &str) -> InputParts<'_> {
    let whole = InputParts {
        plant: input,
        script: None,
        through_bar: "",
    };
    match first_bar(input) {
        Some(place) => parts_around(input, place).unwrap_or(whole),
        None => whole,
    }
}
