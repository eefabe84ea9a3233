//! Ledgers, cached responses, and plant files.

use crate::want_of_memory::again::{again, are};
use admission::{Budget, Ledger};
use dsx_messages::{Kind, Modem};
use plant::Plant;
use slice_table::{PlantFault, read_plant};
use std::alloc::{AllocError, Global};
use std::process::Abort;
use test_plants::CLASSED;
use tlv24::Bytes;
use transactions::{Kept, KeptEntry, Timers};

const ONE: Modem = Modem([2, 0, 0, 0, 0, 1]);

const THREE: Modem = Modem([2, 0, 0, 0, 0, 3]);

/// Returns whether a ledger takes a flow's row.
fn takes(ledger: &mut Ledger, sfid: u32) -> bool {
    let budget = Budget {
        minislots: 5,
        elements: 2,
    };
    ledger.add(sfid, budget).is_ok()
}

/// Returns whether a ledger of two rows is made, and takes two.
fn two_are_taken(alloc: Global) -> bool {
    match &mut again!(Ledger::new(alloc, 2)) {
        Ok(ledger) => takes(ledger, 257) && takes(ledger, 258),
        Err(_) => false,
    }
}

/// Returns a table of two responses that are retransmitted at the first tick and abandoned at the
/// second, empty yet.
fn response_table(alloc: Global) -> Result<Kept, AllocError> {
    again!(Kept::new(alloc, 2, Timers::new(1, 1, 5)))
}

/// Returns whether a transaction with a reply of four bytes is begun.
fn begins(
    alloc: Global,
    kept: &mut Kept,
    modem: Modem,
    kind: Kind,
    reply: [u8; 4],
) -> Result<bool, AllocError> {
    let reply = Bytes::from_slice(alloc, &reply)?;
    Ok(kept.begin(modem, 1, kind, reply, 257, true).is_ok())
}

/// Returns whether both are begun.
fn both_begin(alloc: Global, kept: &mut Kept) -> Result<bool, AllocError> {
    let first = begins(alloc, kept, ONE, Kind::Dsa, [16, 0, 1, 0])?;
    let second = begins(alloc, kept, THREE, Kind::Dsc, [13, 0, 1, 0])?;
    Ok(first && second)
}

/// Returns whether a tick sends so many responses again, and abandons so many.
fn ticks(alloc: Global, kept: &mut Kept, resent: usize, given_up: usize) -> bool {
    match &again!(kept.tick(alloc)) {
        Ok(told) => {
            told.resend.as_slice().len() == resent && told.given_up.as_slice().len() == given_up
        }
        Err(_) => false,
    }
}

/// Returns whether both are retransmitted, and then abandoned.
fn run_out(alloc: Global, kept: &mut Kept) -> bool {
    ticks(alloc, kept, 2, 0) && ticks(alloc, kept, 0, 2) && kept.is_empty()
}

/// Returns whether a tick would send two responses again.
fn two_would_be_sent(alloc: Global, kept: &Kept) -> bool {
    match &again!(kept.due(alloc)) {
        Ok(due) => due.resend.as_slice().len() == 2,
        Err(_) => false,
    }
}

/// Returns whether an entry is copied, with the first reply.
fn is_copied(alloc: Global, entry: &KeptEntry) -> bool {
    match &again!(entry.copy(alloc)) {
        Ok(copied) => are(copied.reply.as_slice(), &[16, 0, 1, 0]),
        Err(_) => false,
    }
}

/// Returns whether the first entry is copied.
fn first_is_copied(alloc: Global, kept: &Kept) -> bool {
    match kept.entries() {
        [first, ..] => is_copied(alloc, first),
        [] => false,
    }
}

/// Returns whether both are begun, copied, retransmitted and abandoned. A tick that is refused counts
/// no timer on.
fn both_go_their_way(alloc: Global, kept: &mut Kept) -> Result<bool, AllocError> {
    let begun = both_begin(alloc, kept)?;
    Ok(
        begun
            && two_would_be_sent(alloc, kept)
            && first_is_copied(alloc, kept)
            && run_out(alloc, kept),
    )
}

/// Returns the same of a table that is empty yet.
fn kept_go_their_way(alloc: Global) -> Result<bool, AllocError> {
    let mut kept = response_table(alloc)?;
    both_go_their_way(alloc, &mut kept)
}

/// Returns whether a plant is the one of the text.
fn is_the_plant(plant: &Plant) -> bool {
    plant.operator_of(ONE) == Some(0)
        && plant.operator_of(THREE) == Some(1)
        && plant.rows().len() == 2
        && plant.consts().get_fields().classes.as_slice().len() == 1
}

/// Returns the plant of the text, and once more where that finds no memory.
fn plant_again(alloc: Global) -> Result<Plant, PlantFault> {
    again!(read_plant(alloc, CLASSED), PlantFault::NoMemory)
}

/// Returns the plant of the text.
pub(crate) fn plant(alloc: Global) -> Result<Plant, AllocError> {
    match plant_again(alloc) {
        Ok(plant) => Ok(plant),
        Err(_) => Err(AllocError),
    }
}

/// Returns whether the plant of the text is read.
fn plant_is_read(alloc: Global) -> Result<bool, AllocError> {
    let plant = plant(alloc)?;
    Ok(is_the_plant(&plant))
}

#[test]
fn ledgers_kept_responses_and_plants(rt: HostRuntime) -> Result<(), AllocError> {
    assert!(rt; two_are_taken(rt.alloc()));
    assert!(rt; kept_go_their_way(rt.alloc())?);
    assert!(rt; plant_is_read(rt.alloc())?);
    Ok(())
}
