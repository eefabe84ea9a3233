//! Lines of a text, one after the other, with no memory taken.

ghost use Rattle.std.specs.Prelude.{◌≡◌, ◌+◌, ◌<◌, ◌≤◌, length};
ghost use Rattle.line_service.specs.Front.{HasNoBreak};
ghost use Rattle.trace_report.specs.Quotes.{line_at, IsRestAfter};

use memchr::memchr;

/// Splits a text at its first line feed, into the line before it and what follows. Without one the whole text is the line.
#[tactic(auto, using(crate::proofs::LineLemmas::line_before, crate::proofs::LineLemmas::whole_line, crate::proofs::LineLemmas::lines_after, crate::proofs::LineLemmas::only_line, crate::proofs::LineLemmas::none_after))]
pub(crate) fn split_line(text: &[u8]) -> (&[u8], &[u8])
    ensures line { HasNoBreak result.0.now }
    ensures first { result.0.now ≡ line_at text.now 0 }
    ensures after { IsRestAfter text.now 1 result.1.now }
    ensures rest { 1 ≤ length text.now → length result.1.now < length text.now }
{
    match memchr(b'\n', text) {
        Some(place) => {
            let (line, rest) = text.split_at(place);
            let (_end, rest) = rest.split_at(1);
            (line, rest)
        }
        None => (text, &[]),
    }
}

/// Skips so many lines of a text, and returns the next one and what follows.
#[tactic(auto, using(crate::proofs::LineLemmas::all_left, crate::proofs::LineLemmas::rest_more, crate::proofs::LineLemmas::line_there))]
pub(crate) fn line_after(text: &[u8], skipped: u64) -> (&[u8], &[u8])
    ensures line { HasNoBreak result.0.now }
    ensures there { result.0.now ≡ line_at text.now skipped }
    ensures after { IsRestAfter text.now (skipped + 1) result.1.now }
{
    let mut rest = text;
    for _place in 0..skipped {
        let (_line, after) = split_line(rest);
        rest = after;
    }
    split_line(rest)
}
