//! Putting the parts of a frame together.

ghost use Rattle.std.specs.Prelude.{◌≡◌, ℕ, ◌≤◌, [], ◌∷◌, ◌++◌, map, length, All, OnOk};
ghost use Rattle.slice_scheduler.specs.declared.elements.ElementsFields.{ElementsFields};
ghost use Rattle.map_assembly.specs.Wire.{element_limit};
ghost use Rattle.map_assembly.specs.Element.{FitsElement};
ghost use Rattle.map_assembly.specs.Reading.{element_of_span, null_at};
ghost use Rattle.map_assembly.specs.Map.{spans_with_idle, map_pending, pending_element, map_header};
ghost use Rattle.map_assembly.specs.Writing.{spelled_map};
ghost use Rattle.map_assembly.specs.Gathering.{part_at};
ghost use Rattle.map_assembly.specs.Assembled.{ordered_elements};

use crate::element::MapElement;
use crate::header::header_of;
use crate::memory::MapMemory;
use crate::queue::{Queue, part_at};
use crate::wire::ELEMENT_LIMIT;
use crate::writing::{push_head, push_idle, push_null, push_pending, push_spans, write_map};
use plant::{Channel, Op};
use slice_scheduler::Elements;
use std::alloc::AllocError;

/// Adds the spans after the head: those of each operator in this order, and the minislots that no
/// slice holds.
fn push_filled(
    list: &mut Vec<MapElement>,
    channel: Channel,
    order: &[usize],
    queues: &[Queue],
    op: Op,
    part: &Elements,
) -> Result<(), AllocError>
    ensures { OnOk result (list.new.items ≡ list.old.items
        ++ map element_of_span (spans_with_idle channel.head channel.frame_minislots
        (map (part_at queues.now op part.now) order.now))) }
{
    let mut from = channel.head;
    for k in order {
        let elements = part_at(queues, op, part, *k);
        let slice = elements.get_slice();
        push_idle(list, from, slice.get_start())?;
        push_spans(list, elements)?;
        from = slice.get_start() + slice.get_length();
    }
    push_idle(list, from, channel.frame_minislots)
}

/// Adds the grants pending of each operator in this order.
fn push_all_pending(
    list: &mut Vec<MapElement>,
    end: u16,
    order: &[usize],
    queues: &[Queue],
    op: Op,
    part: &Elements,
) -> Result<(), AllocError>
    ensures { OnOk result (list.new.items ≡ list.old.items
        ++ map (pending_element end) (map_pending (map (part_at queues.now op part.now) order.now))) }
{
    for k in order {
        push_pending(list, part_at(queues, op, part, *k), end)?;
    }
    Ok(())
}

/// Writes the elements of the MAP whose last part is this one of `op` to a list, in place of what it
/// holds, the operators going in this order.
fn ordered_elements(
    list: &mut Vec<MapElement>,
    channel: Channel,
    order: &[usize],
    queues: &[Queue],
    op: Op,
    part: &Elements,
) -> Result<(), AllocError>
    ensures { OnOk result (list.new.items ≡ ordered_elements channel order.now queues.now op part.now) }
{
    list.clear();
    list.reserve(ELEMENT_LIMIT)?;
    push_head(list, channel.head)?;
    push_filled(list, channel, order, queues, op, part)?;
    push_null(list, channel.frame_minislots)?;
    push_all_pending(list, channel.frame_minislots, order, queues, op, part)
}

/// Writes the bytes of a frame's MAP whose last part is this one of `op` to the bytes of `memory`, in
/// place of what they are, the operators going in this order.
pub(crate) fn map_bytes(
    memory: &mut MapMemory,
    channel: Channel,
    frame: u32,
    order: &[usize],
    queues: &[Queue],
    op: Op,
    part: &Elements,
) -> Result<(), AllocError>
    requires few { length (ordered_elements channel order.now queues.now op part.now) ≤ element_limit }
    requires fit { All FitsElement (ordered_elements channel order.now queues.now op part.now) }
    ensures { OnOk result (memory.new.bytes.items
        ≡ spelled_map (map_header channel frame (length (ordered_elements channel order.now queues.now op part.now)))
        (ordered_elements channel order.now queues.now op part.now)) }
{
    ordered_elements(&mut memory.list, channel, order, queues, op, part)?;
    let header = header_of(channel, frame, memory.list.len() as u8);
    write_map(&mut memory.bytes, header, memory.list.as_slice())
}
