//! A snapshot that is typed by hand, the same under another number, and numbers that are refused.

use frame_numbers::{RenumberFault, renumber};
use param_sets::Units;
use plant::{Backoffs, Channel, Classes, Consts, ConstsFields};
use snapshot_format::{Snapshot, read_snapshot, write_snapshot};
use std::alloc::Global;
use std::test::Fail;
use transactions::Timers;

/// A snapshot shortly before the last frame number. The backlog of the first flow waits since frame 11. The second flow is due in
/// each tenth frame, and started 23 frames ago.
const BEFORE: &str = "melfjits-snapshot 1 0\n\
---\n\
frame 4294967000 1\n\
operator A 2 1 1\n\
slice 0 72 24\n\
next =4294967003 0 36 12\n\
flow 3 020000000001 =5 - =2,1,0,0,0,0,0,0,0,0,0,0 =2,1,0,0,0,0,0,0,0,0,0,0 - 10 30 11\n\
flow 8 020000000002 =6 - =6,0,0,0,0,0,0,0,64,20000,800,1 =6,0,0,0,0,0,0,0,64,20000,800,1 - 4294966977 0 4294966999\n\
response 020000000001 7 dsd 2 held 40 0 -\n\
request 020000000001 5 9\n\
end 10 2982564354\n";

/// The same before frame 1,048,280.
const AFTER: &str = "melfjits-snapshot 1 0\n\
---\n\
frame 1048280 1\n\
operator A 2 1 1\n\
slice 0 72 24\n\
next =1048283 0 36 12\n\
flow 3 020000000001 =5 - =2,1,0,0,0,0,0,0,0,0,0,0 =2,1,0,0,0,0,0,0,0,0,0,0 - 1048280 30 1048025\n\
flow 8 020000000002 =6 - =6,0,0,0,0,0,0,0,64,20000,800,1 =6,0,0,0,0,0,0,0,64,20000,800,1 - 1048277 0 1048279\n\
response 020000000001 7 dsd 2 held 40 0 -\n\
request 020000000001 5 9\n\
end 10 4219228512\n";

/// Returns a channel of frames of 2 ms and 4,096 minislots: each 1,048,576 frames have 2^32 minislots.
fn channel_of_long_frames(alloc: Global) -> Consts {
    Consts::new(ConstsFields {
        channel: Channel {
            frame_minislots: 4096,
            head: 8,
            id: 1,
            ucd_count: 1,
            backoffs: Backoffs {
                ranging_start: 0,
                ranging_end: 0,
                data_start: 0,
                data_end: 0,
            },
            first_frame: 0,
        },
        units: Units::new(2000, 16),
        short_max: 4,
        timers: Timers::new(150, 3, 1500),
        classes: Classes::from_vec(Vec::new(alloc)),
    })
}

/// Returns whether the typed snapshot becomes the other one.
fn becomes_the_other(alloc: Global, consts: &Consts, saved: &Snapshot) -> Result<bool, Fail> {
    let other = renumber(alloc, consts, saved, 1_048_280)?;
    let mut written = Vec::new(alloc);
    write_snapshot(alloc, &mut written, &other)?;
    Ok(written.as_slice() == AFTER.as_bytes())
}

/// Returns whether a snapshot does not get a number, for this cause.
fn is_refused(
    alloc: Global,
    consts: &Consts,
    saved: &Snapshot,
    number: u32,
    cause: RenumberFault,
) -> bool {
    renumber(alloc, consts, saved, number).err() == Some(cause)
}

/// Frame numbers of the typed snapshot, those that it cannot get, and their causes.
const REFUSED: &[(u32, u32, RenumberFault)] = &[
    (4_294_967_000, 1_048_281, RenumberFault::TimeSteps),
    (1_048_476, 4_294_967_196, RenumberFault::TooHigh),
    (1_048_578, 2, RenumberFault::TooLow),
];

/// The typed snapshot becomes the other one, and each number that cannot be is refused for its cause.
#[test]
fn frames_get_other_numbers(rt: HostRuntime) -> Result<(), Fail> {
    let consts = channel_of_long_frames(rt.alloc());
    let mut saved = read_snapshot(rt.alloc(), BEFORE.as_bytes())?;
    assert!(rt; becomes_the_other(rt.alloc(), &consts, &saved)?);
    for (frame, number, cause) in REFUSED {
        saved.frame = *frame;
        assert!(rt; is_refused(rt.alloc(), &consts, &saved, *number, *cause));
    }
    Ok(())
}
