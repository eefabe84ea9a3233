//! Writing a MAP.

ghost use Rattle.std.specs.Prelude.{◌≡◌, ℕ, ◌<◌, ◌≤◌, [], ◌∷◌, ◌++◌, map, length, All, OnOk};
ghost use Rattle.std.specs.Int.{w32, to_be_bytes};
ghost use Rattle.slice_scheduler.specs.declared.elements.ElementsFields.{ElementsFields};
ghost use Rattle.map_assembly.specs.Element.{FitsElement, spelled_element, spelled_elements};
ghost use Rattle.map_assembly.specs.Reading.{element_of_span, null_at};
ghost use Rattle.map_assembly.specs.Map.{idle_span, head_span, map_span, pending_element};
ghost use Rattle.map_assembly.specs.Writing.{spelled_header, spelled_map};

use crate::element::MapElement;
use crate::view::MapHeader;
use crate::wire::{BROADCAST_SID, ELEMENT_BYTES, HEADER_BYTES, NOBODYS_SID, NULL_IUC, RESERVED};
use slice_scheduler::{Elements, Iuc};
use std::alloc::AllocError;

/// Adds the head, in which every modem may ask.
pub(crate) fn push_head(elements: &mut Vec<MapElement>, head: u16) -> Result<(), AllocError>
    ensures { OnOk result (elements.new.items ≡ elements.old.items ++ map element_of_span (head_span head)) }
{
    if head > 0 {
        elements.push(MapElement {
            sid: BROADCAST_SID,
            iuc: Iuc::Request.number(),
            offset: 0,
        })?;
    }
    Ok(())
}

/// Adds the minislots from one up to another, granted to nobody.
pub(crate) fn push_idle(
    elements: &mut Vec<MapElement>,
    from: u16,
    to: u16,
) -> Result<(), AllocError>
    ensures { OnOk result (elements.new.items ≡ elements.old.items ++ map element_of_span (idle_span from to)) }
{
    if from < to {
        elements.push(MapElement {
            sid: NOBODYS_SID,
            iuc: Iuc::Long.number(),
            offset: from,
        })?;
    }
    Ok(())
}

/// Adds the spans of an operator's part.
pub(crate) fn push_spans(elements: &mut Vec<MapElement>, part: &Elements) -> Result<(), AllocError>
    ensures { OnOk result (elements.new.items ≡ elements.old.items
        ++ map element_of_span (map map_span part.now.spans)) }
{
    for span in part.get_spans() {
        elements.push(MapElement {
            sid: span.sid,
            iuc: span.iuc.number(),
            offset: span.start,
        })?;
    }
    Ok(())
}

/// Adds the Null, which ends the spans.
pub(crate) fn push_null(elements: &mut Vec<MapElement>, end: u16) -> Result<(), AllocError>
    ensures { OnOk result (elements.new.items ≡ elements.old.items ++ null_at end ∷ []) }
{
    elements.push(MapElement {
        sid: NOBODYS_SID,
        iuc: NULL_IUC,
        offset: end,
    })?;
    Ok(())
}

/// Adds the grants pending of an operator's part.
pub(crate) fn push_pending(
    elements: &mut Vec<MapElement>,
    part: &Elements,
    end: u16,
) -> Result<(), AllocError>
    ensures { OnOk result (elements.new.items ≡ elements.old.items ++ map (pending_element end) part.now.pending) }
{
    for sid in part.get_pending() {
        elements.push(MapElement {
            sid: *sid,
            iuc: Iuc::Short.number(),
            offset: end,
        })?;
    }
    Ok(())
}

/// Writes the bytes of a MAP to a list, in place of what it holds.
pub(crate) fn write_map(
    bytes: &mut Vec<u8>,
    header: MapHeader,
    elements: &[MapElement],
) -> Result<(), AllocError>
    requires few { length elements.now ≤ u8.MAX }
    requires fit { All FitsElement elements.now }
    ensures { OnOk result (bytes.new.items ≡ spelled_map header elements.now) }
{
    bytes.clear();
    bytes.reserve(HEADER_BYTES + ELEMENT_BYTES * elements.len())?;
    bytes.extend_from_slice(&[header.channel, header.ucd_count, header.elements, RESERVED])?;
    bytes.extend_from_slice(&header.alloc_start.to_be_bytes())?;
    bytes.extend_from_slice(&header.ack_time.to_be_bytes())?;
    bytes.extend_from_slice(&[
        header.backoffs.ranging_start,
        header.backoffs.ranging_end,
        header.backoffs.data_start,
        header.backoffs.data_end,
    ])?;
    for element in elements {
        bytes.extend_from_slice(&element.word().to_be_bytes())?;
    }
    Ok(())
}
