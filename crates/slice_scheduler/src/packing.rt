//! Grants put one after the other into a slice.

ghost use Rattle.std.specs.Prelude.{◌≡◌, ◌+◌, ◌-◌, ◌≤◌, ◌++◌, All, OnOk};
ghost use Rattle.std.specs.List.{flat_map};
ghost use Rattle.slice_scheduler.specs.Schedule.{award_pieces, idle, spans_from, minislots_in};
ghost use Rattle.slice_scheduler.specs.Tiles.{Tiles};
ghost use Rattle.slice_scheduler.specs.Wanted.{HasMinislots};

use crate::award::Award;
use crate::due::iuc_for;
use crate::emptying::empty_for;
use crate::flowing::At;
use crate::piece::Piece;
use crate::slice::Slice;
use crate::span::{Iuc, Span};
use std::alloc::AllocError;

/// Adds the awards that are more than none.
pub(crate) fn push_awards(
    pieces: &mut Vec<Piece>,
    awards: &[Award],
    at: &At,
) -> Result<(), AllocError>
    requires { All HasMinislots pieces.old.items }
    ensures items { OnOk result (pieces.new.items ≡ pieces.old.items ++ flat_map (award_pieces at.now) awards.now) }
    ensures some { OnOk result (All HasMinislots pieces.new.items) }
{
    for award in awards {
        if award.grant == 0 {
            continue;
        }
        pieces.push(Piece {
            sid: award.sid,
            iuc: iuc_for(at, award.grant),
            len: award.grant,
        })?;
    }
    Ok(())
}

/// Fills a list with the grants one after the other from the slice's first minislot on, and then
/// what is left.
pub(crate) fn pack(spans: &mut Vec<Span>, slice: &Slice, pieces: &[Piece]) -> Result<(), AllocError>
    requires some { All HasMinislots pieces.now }
    requires fits { minislots_in pieces.now ≤ slice.now.length }
    ensures items { OnOk result (spans.new.items
        ≡ spans_from slice.now.start (pieces.now ++ idle (slice.now.length - minislots_in pieces.now))) }
    ensures tiles { OnOk result (Tiles slice.now.start (slice.now.start + slice.now.length) spans.new.items) }
{
    let end = slice.get_start() + slice.get_length();
    let mut start = slice.get_start();
    empty_for(spans, pieces.len().saturating_add(1))?;
    for piece in pieces {
        spans.push(Span {
            sid: piece.sid,
            iuc: piece.iuc,
            start,
            len: piece.len,
        })?;
        start += piece.len;
    }
    if start < end {
        spans.push(Span {
            sid: 0,
            iuc: Iuc::Long,
            start,
            len: end - start,
        })?;
    }
    Ok(())
}
