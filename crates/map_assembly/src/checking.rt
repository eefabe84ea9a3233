//! Whether slices are valid.

ghost use Rattle.std.specs.Prelude.{◌≡◌, ◌↔◌, not, false, length, All, AllPairs, IsTrue, IfSome, None};
ghost use Rattle.std.specs.List.{list_all};
ghost use Rattle.slice_scheduler.specs.Minislots.{slices_overlap};
ghost use Rattle.map_assembly.specs.Plan.{IsInFrame, AreSlices, IsFirstInvalid};
ghost use Rattle.map_assembly.specs.Apart.{all_apart};

use plant::{Channel, Op, Plant};
use slice_scheduler::Slice;

/// Returns whether a slice overlaps none of others.
fn is_apart(slice: Slice, others: &[Slice]) -> bool
    ensures { result ≡ list_all (λ other. not (slices_overlap slice other)) others.now }
{
    others.iter().all(|other| !slice.overlaps(other))
}

/// Returns whether no two slices overlap: each pair is looked at, of at most 32 operators.
fn all_apart(slices: &[Slice]) -> bool
    ensures { result ≡ all_apart slices.now }
{
    let mut rest = slices;
    while let [slice, others @ ..] = rest {
        if !is_apart(*slice, others) {
            return false;
        }
        rest = others;
    }
    true
}

/// Returns whether no two slices overlap.
fn no_two_overlap(slices: &[Slice]) -> bool
    ensures { IsTrue result ↔ AllPairs (λ a b. slices_overlap a b ≡ false) slices.now }
{
    all_apart(slices)
}

/// Returns whether a slice lies in the frame, after the head.
fn is_in_frame(channel: Channel, slice: Slice) -> bool
    ensures { IsTrue result ↔ IsInFrame channel slice }
{
    let end = slice.get_start() + slice.get_length();
    channel.head <= slice.get_start() && end <= channel.frame_minislots
}

/// Returns whether each slice lies in the frame, after the head.
fn all_in_frame(channel: Channel, slices: &[Slice]) -> bool
    ensures { IsTrue result ↔ All (IsInFrame channel) slices.now }
{
    slices.iter().all(|slice| is_in_frame(channel, *slice))
}

/// Returns whether these are valid slices of so many operators.
pub(crate) fn are_slices(channel: Channel, count: usize, slices: &[Slice]) -> bool
    ensures { IsTrue result ↔ AreSlices channel count slices.now }
{
    slices.len() == count && all_in_frame(channel, slices) && no_two_overlap(slices)
}

/// Returns whether these are valid slices of the plant's operators: one for each, inside the frame after the head, no two
/// overlapping. Allocates nothing.
pub fn are_slices_of(plant: &Plant, slices: &[Slice]) -> bool
    ensures { IsTrue result ↔ AreSlices plant.now.consts.channel (length plant.now.rows) slices.now }
{
    are_slices(
        plant.consts().get_fields().channel,
        plant.rows().len(),
        slices,
    )
}

/// Returns the first operator whose slice is outside the frame or overlaps that of an operator before it. Allocates nothing.
pub fn first_invalid_slice(channel: Channel, slices: &[Slice]) -> Option<Op>
    ensures none { (result ≡ None) ↔ AreSlices channel (length slices.now) slices.now }
    ensures first { IfSome result (IsFirstInvalid channel slices.now) }
{
    for op in 0..slices.len() {
        if !are_slices(channel, op + 1, &slices[..op + 1]) {
            return Some(op);
        }
    }
    None
}
