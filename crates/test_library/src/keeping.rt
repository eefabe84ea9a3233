//! Transactions that are begun and acknowledged, and those that are refused.

use dsx_messages::{Kind, Modem};
use std::alloc::{AllocError, Global};
use std::process::Abort;
use tlv24::Bytes;
use transactions::{Kept, KeptFault, Timers};

/// A call on a table of transactions, and its expected result.
#[derive(Clone, Copy, Debug, PartialEq, Eq)]
enum TableCall {
    /// Begins an addition of a modem, with its transaction ID and its SFID.
    Begin(Modem, u16, u32, Result<(), KeptFault>),
    /// Acknowledges a transaction of a modem, of some kind: the result is its SFID.
    Acked(Modem, u16, Kind, Option<u32>),
}

const ONE: Modem = Modem([2, 0, 0, 0, 0, 1]);

const TWO: Modem = Modem([2, 0, 0, 0, 0, 2]);

/// Begins an addition that waits for its acknowledgement, and returns the result.
fn begins(
    alloc: Global,
    kept: &mut Kept,
    modem: Modem,
    tid: u16,
    sfid: u32,
) -> Result<Result<(), KeptFault>, AllocError> {
    let reply = Bytes::from_slice(alloc, &[16, 0, 1, 0])?;
    Ok(kept.begin(modem, tid, Kind::Dsa, reply, sfid, true))
}

/// Makes a call, and returns whether the result is as expected.
fn is_as_expected(alloc: Global, kept: &mut Kept, call: TableCall) -> Result<bool, AllocError> {
    match call {
        TableCall::Begin(modem, tid, sfid, wanted) => {
            Ok(begins(alloc, kept, modem, tid, sfid)? == wanted)
        }
        TableCall::Acked(modem, tid, kind, wanted) => Ok(kept.acked(modem, tid, kind) == wanted),
    }
}

/// Makes calls on a table of so many transactions, and returns whether each result is as expected.
fn are_as_expected(alloc: Global, capacity: u32, calls: &[TableCall]) -> Result<bool, AllocError> {
    let mut kept = Kept::new(alloc, capacity, Timers::new(150, 3, 1500))?;
    for call in calls {
        if !is_as_expected(alloc, &mut kept, *call)? {
            return Ok(false);
        }
    }
    Ok(true)
}

/// A table of one transaction. `Full` comes before `Live`.
const FULL: &[TableCall] = &[
    TableCall::Begin(ONE, 1, 257, Ok(())),
    TableCall::Begin(ONE, 2, 258, Err(KeptFault::Full)),
    TableCall::Begin(ONE, 1, 258, Err(KeptFault::Full)),
];

/// A table of two. A modem has one transaction under an ID, and another modem may use the same ID.
const LIVE: &[TableCall] = &[
    TableCall::Begin(ONE, 1, 257, Ok(())),
    TableCall::Begin(ONE, 1, 258, Err(KeptFault::Live)),
    TableCall::Begin(TWO, 1, 259, Ok(())),
];

/// A transaction takes one acknowledgement, of its own kind, ID and modem. Others change nothing.
const ACKNOWLEDGED: &[TableCall] = &[
    TableCall::Begin(ONE, 1, 257, Ok(())),
    TableCall::Acked(ONE, 1, Kind::Dsc, None),
    TableCall::Acked(ONE, 1, Kind::Dsd, None),
    TableCall::Acked(ONE, 2, Kind::Dsa, None),
    TableCall::Acked(TWO, 1, Kind::Dsa, None),
    TableCall::Acked(ONE, 1, Kind::Dsa, Some(257)),
    TableCall::Acked(ONE, 1, Kind::Dsa, None),
];

#[test]
fn transactions_are_begun_and_acknowledged_once(rt: HostRuntime) -> Result<(), AllocError> {
    for (capacity, calls) in [(1, FULL), (2, LIVE), (2, ACKNOWLEDGED)] {
        assert!(rt; are_as_expected(rt.alloc(), capacity, calls)?);
    }
    Ok(())
}
