//! Parts of a frame that give its MAP, and parts that are refused, of a new assembly and of one that is resumed.

use map_assembly::{Gather, GatherFault, are_slices_of};
use plant::{Op, Plant};
use slice_scheduler::{Elements, ElementsFields, Iuc, Sids, Slice, Span, Spans};
use slice_table::read_plant;
use std::alloc::{AllocError, Global};
use std::process::Abort;
use test_plants::PLANT;

/// A part of a frame, as the table writes it: the whole slice of an operator, idle.
#[derive(Clone, Copy, Debug, PartialEq, Eq)]
enum IdlePart {
    OfA,
    OfB,
}

/// The expected result of a put.
#[derive(Clone, Copy, Debug, PartialEq, Eq)]
enum ExpectedPut {
    /// Other parts of the frame are missing.
    Waits,
    /// The frame is complete: its MAP.
    Map(&'static [u8]),
    Refused(GatherFault),
}

/// Returns the slice of a part.
fn slice_of(part: IdlePart) -> Slice {
    match part {
        IdlePart::OfA => Slice::new(8, 32),
        IdlePart::OfB => Slice::new(40, 32),
    }
}

/// Returns the elements of an idle slice: one span.
fn idle(alloc: Global, slice: Slice) -> Result<Elements, AllocError> {
    let span = Span {
        sid: 0,
        iuc: Iuc::Long,
        start: slice.get_start(),
        len: slice.get_length(),
    };
    Ok(Elements::new(ElementsFields {
        slice,
        spans: Spans::from_vec(Vec::from_slice(alloc, &[span])?),
        pending: Sids::from_vec(Vec::new(alloc)),
    }))
}

/// Puts a part, and returns whether the result is as expected.
fn puts_as_expected(
    alloc: Global,
    gather: &mut Gather,
    op: Op,
    frame: u32,
    elements: Elements,
    wanted: ExpectedPut,
) -> bool {
    match (&gather.put(alloc, op, frame, elements), wanted) {
        (Ok(None), ExpectedPut::Waits) => true,
        (Ok(Some(map)), ExpectedPut::Map(bytes)) => {
            map.frame == frame && map.bytes.as_slice() == bytes
        }
        (Err(refused), ExpectedPut::Refused(fault)) => refused.fault == fault,
        _ => false,
    }
}

/// The MAP of frame 0 in which both slices are idle: the header, the head, an idle span of each operator, the Null.
const IDLE: &[u8] = &[
    0x01, 0x01, 0x04, 0x00, 0x00, 0x00, 0x00, 0x00, 0x00, 0x00, 0x00, 0x00, 0x00, 0x00, 0x00, 0x00,
    0xFF, 0xFC, 0x40, 0x00, 0x00, 0x01, 0x80, 0x08, 0x00, 0x01, 0x80, 0x28, 0x00, 0x01, 0xC0, 0x48,
];

/// The operator, the frame and the part of a put, and its expected result.
type Put = (Op, u32, IdlePart, ExpectedPut);

/// Puts of a plant of which nothing is put yet.
const PUTS: &[Put] = &[
    (0, 0, IdlePart::OfA, ExpectedPut::Waits),
    (
        0,
        0,
        IdlePart::OfA,
        ExpectedPut::Refused(GatherFault::PutTwice),
    ),
    (
        1,
        1,
        IdlePart::OfB,
        ExpectedPut::Refused(GatherFault::Early { frame: 1 }),
    ),
    (
        2,
        0,
        IdlePart::OfA,
        ExpectedPut::Refused(GatherFault::Stranger),
    ),
    (
        1,
        0,
        IdlePart::OfA,
        ExpectedPut::Refused(GatherFault::WrongSlice),
    ),
    (1, 0, IdlePart::OfB, ExpectedPut::Map(IDLE)),
    (
        0,
        0,
        IdlePart::OfA,
        ExpectedPut::Refused(GatherFault::Old { frame: 0 }),
    ),
];

/// The MAP of frame 7 in which both slices are idle: as that of frame 0, but that it begins 7 times 72 minislots later.
const IDLE_IN_FRAME_7: &[u8] = &[
    0x01, 0x01, 0x04, 0x00, 0x00, 0x00, 0x01, 0xF8, 0x00, 0x00, 0x01, 0xF8, 0x00, 0x00, 0x00, 0x00,
    0xFF, 0xFC, 0x40, 0x00, 0x00, 0x01, 0x80, 0x08, 0x00, 0x01, 0x80, 0x28, 0x00, 0x01, 0xC0, 0x48,
];

/// Puts where the assembly goes on at frame 7, and each operator has the slice that the plant file gives to the other.
const RESUMED: &[Put] = &[
    (
        0,
        6,
        IdlePart::OfB,
        ExpectedPut::Refused(GatherFault::Old { frame: 6 }),
    ),
    (
        0,
        8,
        IdlePart::OfB,
        ExpectedPut::Refused(GatherFault::Early { frame: 8 }),
    ),
    (
        0,
        7,
        IdlePart::OfA,
        ExpectedPut::Refused(GatherFault::WrongSlice),
    ),
    (0, 7, IdlePart::OfB, ExpectedPut::Waits),
    (1, 7, IdlePart::OfA, ExpectedPut::Map(IDLE_IN_FRAME_7)),
    (
        0,
        7,
        IdlePart::OfB,
        ExpectedPut::Refused(GatherFault::Old { frame: 7 }),
    ),
];

/// Does all puts of a table, and returns whether each result is as expected.
fn all_as_expected(alloc: Global, gather: &mut Gather, puts: &[Put]) -> Result<bool, AllocError> {
    for put in puts {
        let (op, frame, part, wanted) = *put;
        let elements = idle(alloc, slice_of(part))?;
        if !puts_as_expected(alloc, gather, op, frame, elements, wanted) {
            return Ok(false);
        }
    }
    Ok(true)
}

/// Does the puts of a new assembly with that of a plant.
fn all_as_expected_of(alloc: Global, plant: &Plant) -> Result<bool, AllocError> {
    let mut gather = Gather::new(alloc, plant)?;
    all_as_expected(alloc, &mut gather, PUTS)
}

/// Returns the assembly of a plant that goes on at a frame with these slices, or None where they or the frame are not valid.
fn resume_gather(
    alloc: Global,
    plant: &Plant,
    frame: u32,
    slices: &[Slice],
) -> Result<Option<Gather>, AllocError> {
    if !are_slices_of(plant, slices) || frame < plant.consts().get_fields().channel.first_frame {
        return Ok(None);
    }
    let slices = Vec::from_slice(alloc, slices)?;
    Ok(Some(Gather::resume(alloc, plant, frame, slices)?))
}

/// Does the puts of a resumed assembly with that of a plant.
fn all_as_expected_of_resumed(alloc: Global, plant: &Plant) -> Result<bool, AllocError> {
    let slices = [slice_of(IdlePart::OfB), slice_of(IdlePart::OfA)];
    match &mut resume_gather(alloc, plant, 7, &slices)? {
        Some(gather) => all_as_expected(alloc, gather, RESUMED),
        None => Ok(false),
    }
}

/// Does all puts with the plant of operators A and B.
fn all_as_expected_of_both(alloc: Global) -> Result<bool, AllocError> {
    match &read_plant(alloc, PLANT) {
        Ok(plant) => {
            Ok(all_as_expected_of(alloc, plant)? && all_as_expected_of_resumed(alloc, plant)?)
        }
        Err(_) => Ok(false),
    }
}

#[test]
fn a_part_that_does_not_fit_is_refused(rt: HostRuntime) -> Result<(), AllocError> {
    assert!(rt; all_as_expected_of_both(rt.alloc())?);
    Ok(())
}
