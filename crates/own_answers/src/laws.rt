//! The law of texts in segments.

ghost use Rattle.own_answers.specs.Segments.{TextsAreWhole};

/// States that of the texts that are put one after the other none is split over two segments, and that a segment has at most as many bytes
/// as it may, or one text alone.
#[tactic(auto, using(crate::proofs::SegmentLemmas::texts_are_whole))]
pub fn texts_are_whole()
    ensures { TextsAreWhole }
{}
