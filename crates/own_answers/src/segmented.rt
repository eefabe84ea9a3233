//! Texts in segments of a bounded size, none of them split over two.

ghost use Rattle.std.specs.Prelude.{◌≡◌, ◌≤◌, ◌<◌, ◌+◌, ◌^◌, ◌++◌, ◌∷◌, [], length, false, IsTrue, IfOk, OnOk};
ghost use Rattle.own_answers.specs.Segments.{IsTextPut};

use crate::segments::Segments;
use crate::text_writer::TextWriter;
use std::io;

/// Returns whether a segment of this size has room for a text of so many bytes. An empty text has room in any segment, and any text in an
/// empty one.
fn has_room(size: usize, count: usize, most_bytes: usize) -> bool
    ensures room { IsTrue result → 0 < count → 0 < size → size + count ≤ most_bytes }
    ensures sum { IsTrue result → size + count < 2 ^ 64 }
{
    if count == 0 {
        return true;
    }
    if size == 0 {
        return true;
    }
    count <= most_bytes.saturating_sub(size)
}

/// Puts a text into the next segment. Returns how many bytes that has then.
#[tactic(auto, using(crate::proofs::SegmentLemmas::next_is))]
fn put_next<F: Segments>(files: &mut F, text: &[u8]) -> io::Result<usize>
    ensures put { OnOk result ((F.closed files.new ≡ F.closed files.old ++ F.current files.old ∷ [])
        × (F.current files.new ≡ text.now)) }
    ensures size { IfOk result (λ size. size ≡ length (F.current files.new)) }
{
    files.begin_next()?;
    files.append(text)?;
    Ok(text.len())
}

/// Puts a text at the end of the current segment, or into the next one if there is no room or the next one is asked for. Returns how many
/// bytes the current segment has then.
#[tactic(auto, using(crate::proofs::SegmentLemmas::put_here, crate::proofs::SegmentLemmas::size_here, crate::proofs::SegmentLemmas::put_there))]
fn put_text<F: Segments>(
    files: &mut F,
    size: usize,
    begins_next: bool,
    most_bytes: usize,
    text: &[u8],
) -> io::Result<usize>
    requires { begins_next ≡ false → size ≡ length (F.current files.old) }
    ensures put { OnOk result (IsTextPut most_bytes text.now
        (F.closed files.old) (F.current files.old) (F.closed files.new) (F.current files.new)) }
    ensures size { IfOk result (λ size. size ≡ length (F.current files.new)) }
{
    if begins_next {
        return put_next(files, text);
    }
    if !has_room(size, text.len(), most_bytes) {
        return put_next(files, text);
    }
    files.append(text)?;
    Ok(size + text.len())
}

/// Holds segments, and where the current one ends.
///
/// After a failed write the next text begins a segment, so a text of which a part is written is the last of its segment.
#[derive(Drop)]
pub struct Segmented<F: Segments> {
    files: F,
    size: usize,
    most_bytes: usize,
    begins_next: bool,
    failures: u64,
    ghost sized: { begins_next ≡ false → size ≡ length (F.current files) },
}

impl<F: Segments> Segmented<F> {
    /// Returns a writer into these files, of which the current one has no text yet. A segment gets at most `most_bytes`.
    pub fn new(files: F, most_bytes: usize) -> Segmented<F>
        requires { F.current files ≡ [] }
        ensures files { result.files ≡ files }
        ensures most { result.most_bytes ≡ most_bytes }
    {
        Segmented {
            files,
            size: 0,
            most_bytes,
            begins_next: false,
            failures: 0,
        }
    }

    /// Returns a writer into files of an earlier start. The first text begins a segment.
    pub fn resume(files: F, most_bytes: usize) -> Segmented<F>
        ensures files { result.files ≡ files }
        ensures most { result.most_bytes ≡ most_bytes }
    {
        Segmented {
            files,
            size: 0,
            most_bytes,
            begins_next: true,
            failures: 0,
        }
    }

    /// Returns the files of all segments.
    pub fn files(&self) -> &F
        ensures { result.now ≡ self.now.files }
    {
        &self.files
    }

    /// Returns how many texts could not be written, up to 2^64 - 1.
    pub fn failures(&self) -> u64
        ensures { result ≡ self.now.failures }
    {
        self.failures
    }
}

impl<F: Segments> TextWriter for Segmented<F> {
    ghost puts = { λ text old new. (new.most_bytes ≡ old.most_bytes) × IsTextPut old.most_bytes text
        (F.closed old.files) (F.current old.files) (F.closed new.files) (F.current new.files) };

    fn write_text(&mut self, text: &[u8]) -> bool {
        match put_text(
            &mut self.files,
            self.size,
            self.begins_next,
            self.most_bytes,
            text,
        ) {
            Ok(size) => {
                self.size = size;
                self.begins_next = false;
                true
            }
            Err(_failed) => {
                self.begins_next = true;
                self.failures = self.failures.saturating_add(1);
                false
            }
        }
    }
}
