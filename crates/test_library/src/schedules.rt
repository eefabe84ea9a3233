//! Schedules of one operator's slice, compared with a plain schedule by the same rules.

mod plain;
mod serving;

use crate::schedules::plain::{PlainFlow, PlainFrame, PlainPolicy};
use crate::schedules::serving::is_as_plain;
use std::alloc::{AllocError, Global};
use std::process::Abort;

/// A frame of 2 milliseconds and minislots of 16 bytes, with short grants of up to 4 minislots.
const FRAME: PlainFrame = PlainFrame {
    number: 100,
    first: 100,
    length: 700,
    short_max: 4,
    frame_us: 2000,
    bytes_per_minislot: 16,
    order: PlainPolicy::Strict,
};

/// The same with a slice of 4,096 minislots, the longest frame.
const WIDE: PlainFrame = PlainFrame {
    first: 0,
    length: 4096,
    ..FRAME
};

/// The same with ranks by backlog.
const BY_BACKLOG: PlainFrame = PlainFrame {
    order: PlainPolicy::Short,
    ..FRAME
};

/// The same with ranks by priority and age.
const BY_AGE: PlainFrame = PlainFrame {
    order: PlainPolicy::Aged { step: 1 },
    ..FRAME
};

/// Returns 200 flows of equal rank. Every third has a reserved rate, and their SIDs descend.
fn equal_flows(alloc: Global) -> Result<Vec<PlainFlow>, AllocError> {
    let mut flows = Vec::new(alloc);
    for number in 0..200u16 {
        flows.push(PlainFlow {
            sfid: 1000 + u32::from(number),
            sid: 600 - number,
            priority: 0,
            rate: if number % 3 == 0 { 100_001 } else { 0 },
            backlog: number % 41,
            since: 100,
        })?;
    }
    Ok(flows)
}

/// Returns one flow of each rank, by priority and age and also by backlog. Neither SFIDs nor SIDs are in the order of ranks.
fn ranked_flows(alloc: Global) -> Result<Vec<PlainFlow>, AllocError> {
    let mut flows = Vec::new(alloc);
    for number in 0..64u16 {
        let rank = number * 37 % 64;
        flows.push(PlainFlow {
            sfid: 257 + u32::from(number),
            sid: 400 - number,
            priority: (rank / 8) as u8,
            rate: 0,
            backlog: 64 * rank + 11,
            since: 100 - u32::from(rank % 8),
        })?;
    }
    Ok(flows)
}

/// Returns whether the schedule of some flows is the plain one in each of these frames.
fn are_as_plain(
    alloc: Global,
    flows: &[PlainFlow],
    frames: &[PlainFrame],
) -> Result<bool, AllocError> {
    for frame in frames {
        if !is_as_plain(alloc, flows, frame)? {
            return Ok(false);
        }
    }
    Ok(true)
}

#[test]
fn schedules_are_the_plain_ones(rt: HostRuntime) -> Result<(), AllocError> {
    let frames = [FRAME, WIDE, BY_BACKLOG, BY_AGE];
    let equal = equal_flows(rt.alloc())?;
    let ranked = ranked_flows(rt.alloc())?;
    for flows in [&[], equal.as_slice(), ranked.as_slice()] {
        assert!(rt; are_as_plain(rt.alloc(), flows, &frames)?);
    }
    Ok(())
}
