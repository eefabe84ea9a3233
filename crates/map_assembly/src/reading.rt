//! Reading a MAP.

ghost use Rattle.std.specs.Prelude.{◌≡◌, ◌≢◌, ◌↔◌, ◌+◌, ◌*◌, ◌++◌, [], ℕ, ◌≤◌, ◌<◌, ◌==◌, length, map, drop, slice_range, Result, MatchOption, MatchResult, Ok, Err, IfOk, IfErr, OnOk};
ghost use Rattle.std.specs.Int.{w32, from_be_bytes};
ghost use Rattle.map_assembly.specs.Wire.{header_bytes, element_bytes};
ghost use Rattle.map_assembly.specs.Element.{is_null, elements_in};
ghost use Rattle.map_assembly.specs.Judging.{count_before_null, judged_behind, next_offset, spans_in, behind_null, pending_in};
ghost use Rattle.map_assembly.specs.Reading.{is_pending, header_in, elements_behind, IsCounted, MapReads, MapIsRead, IsFirstMapFault};
ghost use Rattle.map_assembly.specs.declared.view.MapView.{MapView};
ghost use Rattle.map_assembly.specs.declared.view.MapFault.{MapFault};
ghost use Rattle.map_assembly.specs.declared.view.MapFault.TheVariants.{NoMemory};

use crate::element::{MapElement, first_element};
use crate::view::{MapFault, MapHeader, MapSpan, MapSpans, MapView};
use crate::wire::{
    ACK_TIME_PLACE, ALLOC_START_PLACE, CHANNEL_PLACE, COUNT_PLACE, DATA_END_PLACE,
    DATA_START_PLACE, ELEMENT_BYTES, HEADER_BYTES, RANGING_END_PLACE, RANGING_START_PLACE,
    UCD_COUNT_PLACE,
};
use plant::Backoffs;
use slice_scheduler::{Iuc, Sids};
use std::alloc::{AllocError, Global};

/// Returns whether an element is a grant pending: the IUC of a short or of a long grant, at the
/// Null's offset.
fn is_pending(element: MapElement, end: u16) -> bool
    ensures { result ≡ is_pending end element }
{
    (element.iuc == Iuc::Short.number() || element.iuc == Iuc::Long.number())
        && element.offset == end
}

/// Returns the number of elements before the Null, given those after it: each is a grant pending.
fn judge_behind(bytes: &[u8], spans: usize, end: u16) -> Result<usize, MapFault>
    requires few { length bytes.now ≤ element_bytes * u8.MAX }
    requires place { spans ≤ u8.MAX }
    ensures { result ≡ judged_behind spans end (spans + 1) (elements_in bytes.now) }
{
    let mut at = spans + 1;
    let mut rest = bytes;
    while let Some(first) = first_element(rest) {
        if !is_pending(first.element, end) {
            return Err(MapFault::AfterNull { at });
        }
        at += 1;
        rest = first.rest;
    }
    Ok(spans)
}

/// Returns the number of elements before the Null. No more than 255 elements.
fn judge(bytes: &[u8]) -> Result<usize, MapFault>
    requires { length bytes.now ≤ element_bytes * u8.MAX }
    ensures { result ≡ count_before_null 0 0 (elements_in bytes.now) }
{
    let mut at = 0;
    let mut least = 0;
    let mut rest = bytes;
    while let Some(first) = first_element(rest) {
        let element = first.element;
        if element.offset < least {
            return Err(MapFault::Backward { at });
        }
        if element.is_null() {
            return judge_behind(first.rest, at, element.offset);
        }
        at += 1;
        least = element.offset + 1;
        rest = first.rest;
    }
    Err(MapFault::NoNull)
}

/// Returns where the first of these elements begins.
fn next_offset(bytes: &[u8]) -> u16
    ensures { result ≡ next_offset (elements_in bytes.now) }
{
    match first_element(bytes) {
        Some(first) => first.element.offset,
        None => 0,
    }
}

/// Returns the spans before the Null: `count` of them.
fn spans_in(alloc: Global, bytes: &[u8], count: usize) -> Result<Vec<MapSpan>, AllocError>
    ensures { IfOk result (λ spans. spans.items ≡ spans_in (elements_in bytes.now)) }
{
    let mut spans = Vec::with_capacity(alloc, count)?;
    let mut rest = bytes;
    while let Some(first) = first_element(rest) {
        let element = first.element;
        if element.is_null() {
            break;
        }
        spans.push(MapSpan {
            sid: element.sid,
            iuc: element.iuc,
            start: element.offset,
            len: next_offset(first.rest).saturating_sub(element.offset),
        })?;
        rest = first.rest;
    }
    Ok(spans)
}

/// Returns the elements after the Null.
fn behind_null(bytes: &[u8]) -> &[u8]
    ensures { elements_in result.now ≡ behind_null (elements_in bytes.now) }
{
    let mut rest = bytes;
    while let Some(first) = first_element(rest) {
        rest = first.rest;
        if first.element.is_null() {
            break;
        }
    }
    rest
}

/// Returns the SIDs of all these elements: `count` of them.
fn sids_in(alloc: Global, bytes: &[u8], count: usize) -> Result<Vec<u16>, AllocError>
    ensures { IfOk result (λ sids. sids.items ≡ map (λ e. e.sid) (elements_in bytes.now)) }
{
    let mut sids = Vec::with_capacity(alloc, count)?;
    let mut rest = bytes;
    while let Some(first) = first_element(rest) {
        sids.push(first.element.sid)?;
        rest = first.rest;
    }
    Ok(sids)
}

/// Returns the four bytes from this one on, as a number.
fn long_at(bytes: &[u8], at: usize) -> u32
    requires { at + 4 ≤ length bytes.now }
    ensures { result ≡ from_be_bytes w32 (slice_range bytes.now at (at + 4)) }
{
    u32::from_be_bytes([bytes[at], bytes[at + 1], bytes[at + 2], bytes[at + 3]])
}

/// Returns the header that the bytes begin with.
fn header_in(bytes: &[u8]) -> MapHeader
    requires { header_bytes ≤ length bytes.now }
    ensures { result ≡ header_in bytes.now }
{
    MapHeader {
        channel: bytes[CHANNEL_PLACE],
        ucd_count: bytes[UCD_COUNT_PLACE],
        elements: bytes[COUNT_PLACE],
        alloc_start: long_at(bytes, ALLOC_START_PLACE),
        ack_time: long_at(bytes, ACK_TIME_PLACE),
        backoffs: Backoffs {
            ranging_start: bytes[RANGING_START_PLACE],
            ranging_end: bytes[RANGING_END_PLACE],
            data_start: bytes[DATA_START_PLACE],
            data_end: bytes[DATA_END_PLACE],
        },
    }
}

/// Returns the bytes after the header.
fn body_of(bytes: &[u8]) -> &[u8]
    requires { header_bytes ≤ length bytes.now }
    ensures { result.now ≡ drop header_bytes bytes.now }
{
    let (_header, body) = bytes.split_at(HEADER_BYTES);
    body
}

/// Returns how many spans the bytes of a MAP say.
fn count_spans(bytes: &[u8]) -> Result<usize, MapFault>
    ensures counted { IfOk result (λ _. IsCounted bytes.now) }
    ensures judged { IfOk result (λ count. count_before_null 0 0 (elements_behind bytes.now) ≡ Ok count) }
    ensures fault { IfErr result (λ told. (fault : MapFault) → (told ≡ fault) ↔ IsFirstMapFault bytes.now fault) }
{
    if bytes.len() < HEADER_BYTES {
        return Err(MapFault::Short);
    }
    let body = body_of(bytes);
    if body.len() != ELEMENT_BYTES * bytes[COUNT_PLACE] as usize {
        return Err(MapFault::Count);
    }
    judge(body)
}

/// Returns what the bytes of a MAP with so many spans say.
fn view_in(alloc: Global, bytes: &[u8], count: usize) -> Result<MapView, AllocError>
    requires { header_bytes ≤ length bytes.now }
    ensures header { IfOk result (λ view. view.header ≡ header_in bytes.now) }
    ensures spans { IfOk result (λ view. view.spans ≡ spans_in (elements_behind bytes.now)) }
    ensures pending { IfOk result (λ view. view.pending ≡ pending_in (elements_behind bytes.now)) }
{
    let body = body_of(bytes);
    let behind = behind_null(body);
    let spans = spans_in(alloc, body, count)?;
    let pending = sids_in(alloc, behind, behind.len() / ELEMENT_BYTES)?;
    Ok(MapView {
        header: header_in(bytes),
        spans: MapSpans::from_vec(spans),
        pending: Sids::from_vec(pending),
    })
}

/// Reads a MAP of this profile.
///
/// Faults: `Short` and `Count` first; then `Backward` or `AfterNull` at the first invalid element,
/// or `NoNull` where all are valid and none is the Null. `NoMemory` comes last.
pub fn read_map(alloc: Global, bytes: &[u8]) -> Result<MapView, MapFault>
    // What is read is what the bytes say.
    ensures found { IfOk result (MapReads bytes.now) }
    // What they say is read, unless memory runs out.
    ensures only { (view : MapView) → MapReads bytes.now view → MapIsRead result view }

    // Otherwise the first fault.
    ensures fault { (fault : MapFault) → fault ≢ NoMemory → ((result ≡ Err fault) ↔ IsFirstMapFault bytes.now fault) }
    // Memory runs out only for bytes that say something.
    ensures memory { result ≡ Err NoMemory → (view : MapView) × MapReads bytes.now view }
{
    let count = count_spans(bytes)?;
    let view = view_in(alloc, bytes, count)?;
    Ok(view)
}
