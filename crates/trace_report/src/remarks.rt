//! Remarks of a trace: lines that are not those of checks.

ghost use Rattle.std.specs.Prelude.{◌≡◌, ◌∷◌, ◌++◌, [], List, ℕ, codes, max, OnOk, IfOk};
ghost use Rattle.std.specs.Io.KnownBytes.{Appends};
ghost use Rattle.trace_report.specs.Quotes.{IsRestAfter, quote};
ghost use Rattle.trace_report.specs.Remarks.{no_words_line};
ghost use Rattle.trace_report.specs.Told.{HasQuoted, HasWorded};

use crate::lines::{line_after, split_line};
use std::io;
use std::io::Write;

/// Writes a line as a remark, indented further than the line of a check.
fn write_remark<W: Write>(writer: &mut W, line: &[u8]) -> io::Result<()>
    ensures { OnOk result (Appends (W.contents writer.old) (W.contents writer.new)
        (codes "    " ++ (line.now ++ 10 ∷ []))) }
{
    writer.write_all(b"    ")?;
    writer.write_all(line)?;
    writer.write_all(b"\n")
}

/// Writes words as remarks, line by line. So no line of a remark begins as that of a check does, whatever the words are.
#[tactic(auto, using(crate::proofs::RemarkLemmas::none_worded))]
pub(crate) fn write_words<W: Write>(writer: &mut W, words: &[u8]) -> io::Result<()>
    ensures { OnOk result (HasWorded (W.contents writer.old) (W.contents writer.new)) }
{
    let mut rest = words;
    while !rest.is_empty() {
        let (line, after) = split_line(rest);
        write_remark(writer, line)?;
        rest = after;
    }
    Ok(())
}

/// Writes that an allocation failed for the words of a step.
pub(crate) fn write_no_words<W: Write>(writer: &mut W) -> io::Result<()>
    ensures { OnOk result (Appends (W.contents writer.old) (W.contents writer.new) no_words_line) }
{
    write_remark(
        writer,
        b"out of memory: what this step did is not described",
    )
}

/// Writes the number of a line and what it says.
fn write_said<W: Write>(writer: &mut W, number: u64, said: &[u8]) -> io::Result<()>
    ensures { OnOk result (Appends (W.contents writer.old) (W.contents writer.new) (quote number said.now)) }
{
    write!(writer, "line {number}: ")?;
    writer.write_all(said)?;
    writer.write_all(b"\n")
}

/// Writes the line of this number before its first step. `rest` is the script after the line `last`, the last one that was
/// written. Returns the script after both lines.
#[tactic(auto, using(crate::proofs::QuoteLemmas::line_quoted, crate::proofs::QuoteLemmas::quoted_before, crate::proofs::QuoteLemmas::rest_of_line, crate::proofs::QuoteLemmas::rest_stays))]
pub(crate) fn write_line<'a, W: Write>(
    writer: &mut W,
    rest: &'a [u8],
    last: u64,
    number: u64,
) -> io::Result<&'a [u8]>
    ensures quoted { OnOk result ((script : List ℕ) → IsRestAfter script last rest.now
        → HasQuoted script last number (W.contents writer.old) (W.contents writer.new)) }
    ensures rest { IfOk result (λ after. (script : List ℕ) → IsRestAfter script last rest.now
        → IsRestAfter script (max last number) after.now) }
{
    if number <= last {
        return Ok(rest);
    }
    let (line, after) = line_after(rest, number - last - 1);
    write_said(writer, number, line)?;
    Ok(after)
}
