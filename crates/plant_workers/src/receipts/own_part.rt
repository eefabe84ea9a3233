//! Whether what a MAP says to an operator is what the operator put.

ghost use Rattle.std.specs.Prelude.{◌≡◌, ◌==◌, ◌↔◌, not, map, filter, IfOk, IsTrue};
ghost use Rattle.map_assembly.specs.Map.{map_span};
ghost use Rattle.map_assembly.specs.Part.{is_within};
ghost use Rattle.map_assembly.specs.Tiled.{part_of, own_part};

use admission::IdRange;
use map_assembly::{MapSpan, MapView};
use slice_scheduler::{Elements, Span};
use std::alloc::{AllocError, Global};

/// Returns whether a SID is of a range.
fn is_within(sids: &IdRange, sid: u16) -> bool
    ensures { result ≡ is_within sids.now sid }
{
    sids.get_first() <= u32::from(sid) && u32::from(sid) <= sids.get_last()
}

/// Returns an operator's span as a MAP says it.
fn map_span(span: &Span) -> MapSpan
    ensures { result ≡ map_span span.now }
{
    MapSpan {
        sid: span.sid,
        iuc: span.iuc.number(),
        start: span.start,
        len: span.len,
    }
}

/// Returns the spans of a MAP with a SID of the range.
fn spans_within(
    alloc: Global,
    sids: &IdRange,
    spans: &[MapSpan],
) -> Result<Vec<MapSpan>, AllocError>
    ensures { IfOk result (λ own. own.items ≡ filter (λ span. is_within sids.now span.sid) spans.now) }
{
    spans
        .iter()
        .filter(|span| is_within(sids, span.sid))
        .copied()
        .collect(alloc)
}

/// Returns the spans that an operator put for a SID, as a MAP says them.
fn spans_put(alloc: Global, spans: &[Span]) -> Result<Vec<MapSpan>, AllocError>
    ensures { IfOk result (λ put. put.items ≡ map map_span (filter (λ span. not (span.sid == 0)) spans.now)) }
{
    spans
        .iter()
        .filter(|span| span.sid != 0)
        .map(|span| map_span(span))
        .collect(alloc)
}

/// Returns the SIDs of a MAP's grants pending that are of the range.
fn pending_within(alloc: Global, sids: &IdRange, pending: &[u16]) -> Result<Vec<u16>, AllocError>
    ensures { IfOk result (λ own. own.items ≡ filter (λ sid. is_within sids.now sid) pending.now) }
{
    pending
        .iter()
        .copied()
        .filter(|sid| is_within(sids, *sid))
        .collect(alloc)
}

/// Returns the SIDs of an operator's grants pending that are somebody's.
fn pending_put(alloc: Global, pending: &[u16]) -> Result<Vec<u16>, AllocError>
    ensures { IfOk result (λ put. put.items ≡ filter (λ sid. not (sid == 0)) pending.now) }
{
    pending
        .iter()
        .copied()
        .filter(|sid| *sid != 0)
        .collect(alloc)
}

/// Returns whether the spans are the same.
fn are_same_spans(a: &[MapSpan], b: &[MapSpan]) -> bool
    ensures { IsTrue result ↔ (a.now ≡ b.now) }
{
    a == b
}

/// Returns whether what a MAP says to the operator with these SIDs is what it put.
pub(crate) fn is_own_part(
    alloc: Global,
    view: &MapView,
    sids: &IdRange,
    part: &Elements,
) -> Result<bool, AllocError>
    ensures { IfOk result (λ own. IsTrue own ↔ (((part_of sids.now view.now).spans ≡ (own_part part.now).spans)
        × ((part_of sids.now view.now).pending ≡ (own_part part.now).pending))) }
{
    let spans = spans_within(alloc, sids, view.spans.as_slice())?;
    let pending = pending_within(alloc, sids, view.pending.as_slice())?;
    let spans_put = spans_put(alloc, part.get_spans())?;
    let pending_put = pending_put(alloc, part.get_pending())?;
    if !are_same_spans(spans.as_slice(), spans_put.as_slice()) {
        return Ok(false);
    }
    Ok(pending.as_slice() == pending_put.as_slice())
}
