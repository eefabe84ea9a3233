//! What a tick retransmits, abandons and forgets.

ghost use Rattle.std.specs.Prelude.{◌≡◌, ◌≢◌, [], IfOk, OnErr};
ghost use Rattle.std.specs.Vec.{vec_capacity};
ghost use Rattle.transactions.specs.Timers.{resent_in, given_up_in, kept_after};

use crate::entry::KeptEntry;
use crate::timers::Timers;
use dsx_messages::{Kind, Modem};
use lists::Listed;
use std::alloc::{AllocError, Global};
use tlv24::Bytes;

/// A response that is retransmitted.
#[derive(Debug, Drop)]
pub struct Resend {
    /// The modem that it is sent to.
    pub modem: Modem,
    /// Its bytes.
    pub reply: Bytes,
}

/// A transaction whose response was never acknowledged.
#[derive(Clone, Copy, Debug, PartialEq, Eq)]
pub struct GivenUp {
    /// What it did: after a `Dsa` its flow goes, after a `Dsc` its flow stays.
    pub kind: Kind,
    /// The SFID of its flow.
    pub sfid: u32,
}

/// The responses that a tick retransmits, in the order in which their transactions began.
pub type Resends = Listed<Resend>;

/// The transactions that a tick abandons, in the order in which they began.
pub type GivenUps = Listed<GivenUp>;

/// What a tick reports: retransmissions and abandoned transactions.
#[derive(Debug, Drop)]
pub struct Ticked {
    /// What is retransmitted.
    pub resend: Resends,
    /// What is abandoned.
    pub given_up: GivenUps,
}

/// Returns what the next tick retransmits, as copies, and what it abandons, in one walk. Takes no memory where there is neither.
#[tactic(auto, using(crate::proofs::ListLemmas::told_there))]
pub(crate) fn due_in(alloc: Global, entries: &[KeptEntry]) -> Result<Ticked, AllocError>
    ensures resend { IfOk result (λ told. told.resend ≡ resent_in entries.now) }
    ensures given_up { IfOk result (λ told. told.given_up ≡ given_up_in entries.now) }
    ensures err { OnErr result (resent_in entries.now ≡ [] → given_up_in entries.now ≢ []) }
{
    let mut resends = Vec::new(alloc);
    let mut given_ups = Vec::new(alloc);
    for entry in entries {
        if entry.is_resent() {
            let reply = entry.reply.copy(alloc)?;
            resends.push(Resend {
                modem: entry.modem,
                reply,
            })?;
        }
        if entry.is_given_up() {
            given_ups.push(GivenUp {
                kind: entry.kind,
                sfid: entry.sfid,
            })?;
        }
    }
    Ok(Ticked {
        resend: Listed::from_vec(resends),
        given_up: Listed::from_vec(given_ups),
    })
}

/// Forgets entries whose time ends, and counts the others one tick down.
pub(crate) fn count_down(entries: &mut Vec<KeptEntry>, timers: Timers)
    ensures items { entries.new.items ≡ kept_after timers entries.old.items }
    ensures capacity { vec_capacity entries.new ≡ vec_capacity entries.old }
{
    entries.retain_mut(move |entry| entry.tick(timers));
}
