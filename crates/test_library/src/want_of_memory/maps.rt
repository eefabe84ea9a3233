//! Parts of MAPs put together, and MAPs read.

use crate::want_of_memory::again::{again, are};
use crate::want_of_memory::tables::plant;
use map_assembly::{Gather, GatherFault, MapBytes, MapFault, MapView, Refused, read_map};
use plant::{Op, Plant};
use slice_scheduler::{Elements, ElementsFields, Iuc, Sids, Slice, Span, Spans};
use std::alloc::{AllocError, Global};
use std::process::Abort;

/// Returns one idle span of a slice.
fn idle(alloc: Global, slice: Slice) -> Result<Elements, AllocError> {
    let span = Span {
        sid: 0,
        iuc: Iuc::Long,
        start: slice.get_start(),
        len: slice.get_length(),
    };
    Ok(Elements::new(ElementsFields {
        slice,
        spans: Spans::from_vec(Vec::from_slice(alloc, &[span])?),
        pending: Sids::from_vec(Vec::new(alloc)),
    }))
}

/// Puts an operator's part of the first frame, and once more where that finds no memory: what is handed back is put again.
fn put_part(
    alloc: Global,
    gather: &mut Gather,
    op: Op,
    elements: Elements,
) -> Result<Option<MapBytes>, Refused> {
    match gather.put(alloc, op, 0, elements) {
        Err(
            Refused {
                fault: GatherFault::NoMemory,
                elements,
            },
        ) => gather.put(alloc, op, 0, elements),
        answer => answer,
    }
}

/// Returns whether a part is put, and results in this MAP, or to none where no byte is wanted.
fn comes_to(alloc: Global, gather: &mut Gather, op: Op, elements: Elements, wanted: &[u8]) -> bool {
    match &put_part(alloc, gather, op, elements) {
        Ok(Some(map)) => are(map.bytes.as_slice(), wanted),
        Ok(None) => wanted.is_empty(),
        Err(_) => false,
    }
}

/// Returns the same of an idle part of an operator.
fn idle_comes_to(
    alloc: Global,
    gather: &mut Gather,
    op: Op,
    slice: Slice,
    wanted: &[u8],
) -> Result<bool, AllocError> {
    let elements = idle(alloc, slice)?;
    Ok(comes_to(alloc, gather, op, elements, wanted))
}

/// Returns whether idle parts of both operators result in this MAP of the first frame, and the
/// first of them to none.
fn come_to(
    alloc: Global,
    gather: &mut Gather,
    slices: &[Slice; 2],
    wanted: &[u8],
) -> Result<bool, AllocError> {
    let first = idle_comes_to(alloc, gather, 0, slices[0], &[])?;
    let second = idle_comes_to(alloc, gather, 1, slices[1], wanted)?;
    Ok(first && second)
}

/// Returns nothing is put yet of a plant.
fn gather_of(alloc: Global, plant: &Plant) -> Result<Gather, AllocError> {
    again!(Gather::new(alloc, plant))
}

/// Returns nothing is put yet of the plant.
fn gather(alloc: Global) -> Result<Gather, AllocError> {
    let plant = plant(alloc)?;
    gather_of(alloc, &plant)
}

/// The MAP of idle parts of the plant's slices.
const IDLE: [u8; 32] = [
    1, 1, 4, 0, 0, 0, 0, 0, 0, 0, 0, 0, 0, 0, 0, 0, 0xFF, 0xFC, 0x40, 0x00, 0, 1, 0x80, 0x08, 0, 1,
    0x80, 0x28, 0, 1, 0xC0, 0x48,
];

/// Returns whether idle parts of the plant's slices result in their MAP.
fn idle_parts_come_to_a_map(alloc: Global) -> Result<bool, AllocError> {
    let mut gather = gather(alloc)?;
    let slices = [Slice::new(8, 32), Slice::new(40, 32)];
    come_to(alloc, &mut gather, &slices, &IDLE)
}

/// Gives new slices from the first frame on; whether they may be given.
fn reslices(alloc: Global, gather: &mut Gather, slices: &[Slice]) -> Result<bool, AllocError> {
    if !gather.may_reslice(0, slices) {
        return Ok(false);
    }
    again!(gather.reslice(alloc, 0, Vec::from_slice(alloc, slices)?))?;
    Ok(true)
}

/// The MAP of idle parts of the new slices.
const RESLICED: [u8; 32] = [
    1, 1, 4, 0, 0, 0, 0, 0, 0, 0, 0, 0, 0, 0, 0, 0, 0xFF, 0xFC, 0x40, 0x00, 0, 1, 0x80, 0x08, 0, 1,
    0x80, 0x18, 0, 1, 0xC0, 0x48,
];

/// Returns whether idle parts of new slices result in their MAP.
fn other_slices_are_given(alloc: Global) -> Result<bool, AllocError> {
    let mut gather = gather(alloc)?;
    let slices = [Slice::new(8, 16), Slice::new(24, 48)];
    Ok(reslices(alloc, &mut gather, &slices)? && come_to(alloc, &mut gather, &slices, &RESLICED)?)
}

/// A MAP with a grant and a SID that waits.
const GRANT_AND_WAIT: [u8; 32] = [
    1, 1, 4, 0, 0, 0, 0, 0, 0, 0, 0, 0, 0, 0, 0, 0, 0xFF, 0xFC, 0x40, 0x00, 4, 5, 0x80, 8, 0, 1,
    0xC0, 0x48, 4, 9, 0x40, 0x48,
];

/// Returns what a MAP says, and once more where that finds no memory.
fn view(alloc: Global, bytes: &[u8]) -> Result<MapView, MapFault> {
    again!(read_map(alloc, bytes), MapFault::NoMemory)
}

/// Returns whether the MAP says two spans, and who waits.
fn grant_and_wait_are_read(alloc: Global) -> bool {
    match &view(alloc, &GRANT_AND_WAIT) {
        Ok(view) => {
            view.spans.as_slice().len() == 2 && view.pending.as_slice() == [258].as_slice()
        }
        Err(_) => false,
    }
}

#[test]
fn maps_are_put_together_and_read(rt: HostRuntime) -> Result<(), AllocError> {
    assert!(rt; grant_and_wait_are_read(rt.alloc()));
    assert!(rt; idle_parts_come_to_a_map(rt.alloc())?);
    assert!(rt; other_slices_are_given(rt.alloc())?);
    Ok(())
}
