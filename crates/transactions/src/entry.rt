//! What is kept of one transaction.

ghost use Rattle.std.specs.Prelude.{◌≡◌, not, IfOk};
ghost use Rattle.transactions.specs.Entry.{is_of, waits_for};
ghost use Rattle.transactions.specs.Timers.{is_response_due, is_resent, is_given_up, is_forgotten, entry_after_tick};
ghost use Rattle.transactions.specs.Keeping.{begun_entry, held_entry};

use crate::timers::Timers;
use dsx_messages::{Kind, Modem};
use std::alloc::{AllocError, Global};
use tlv24::Bytes;

/// Whether a response waits for its acknowledgement.
#[derive(Clone, Copy, Debug, PartialEq, Eq)]
pub enum ResponseState {
    /// It waits, and is retransmitted in the meantime.
    Waiting,
    /// It waits for nothing, and is held for a request that is repeated.
    Held,
}

/// What is kept of one transaction: its response, and the state of its timer.
#[derive(Debug, Drop)]
pub struct KeptEntry {
    /// The modem that asked.
    pub modem: Modem,
    /// The transaction ID of its request.
    pub tid: u16,
    /// What the transaction does.
    pub kind: Kind,
    /// The bytes of the response.
    pub reply: Bytes,
    /// The SFID of the flow that the transaction is about.
    pub sfid: u32,
    /// Whether the response waits for its acknowledgement.
    pub standing: ResponseState,
    /// How many ticks are left until the timer acts.
    pub ticks_left: u16,
    /// How often the response may still be retransmitted.
    pub resends_left: u8,
}

impl KeptEntry {
    /// Returns an entry that begins: it waits for an acknowledgement, or is only held.
    pub(crate) fn begin(
        timers: Timers,
        modem: Modem,
        tid: u16,
        kind: Kind,
        reply: Bytes,
        sfid: u32,
        waits: bool,
    ) -> KeptEntry
        ensures { result ≡ begun_entry timers modem tid kind reply sfid waits }
    {
        let (standing, ticks_left, resends_left) = if waits {
            (
                ResponseState::Waiting,
                timers.get_ack_wait(),
                timers.get_resends(),
            )
        } else {
            (ResponseState::Held, timers.get_hold(), 0)
        };
        KeptEntry {
            modem,
            tid,
            kind,
            reply,
            sfid,
            standing,
            ticks_left,
            resends_left,
        }
    }

    /// Returns an equal value with bytes of its own.
    pub fn copy(&self, alloc: Global) -> Result<KeptEntry, AllocError>
        ensures { IfOk result (λ entry. entry ≡ self.now) }
    {
        Ok(KeptEntry {
            modem: self.modem,
            tid: self.tid,
            kind: self.kind,
            reply: self.reply.copy(alloc)?,
            sfid: self.sfid,
            standing: self.standing,
            ticks_left: self.ticks_left,
            resends_left: self.resends_left,
        })
    }

    /// Returns whether it is the entry of this modem and transaction ID.
    pub(crate) fn is_of(&self, modem: Modem, tid: u16) -> bool
        ensures { result ≡ is_of modem tid self.now }
    {
        self.tid == tid && self.modem == modem
    }

    /// Returns whether it waits for an acknowledgement of this kind, from this modem and under this
    /// transaction ID.
    pub(crate) fn waits_for(&self, modem: Modem, tid: u16, kind: Kind) -> bool
        ensures { result ≡ waits_for modem tid kind self.now }
    {
        self.is_of(modem, tid) && self.standing == ResponseState::Waiting && self.kind == kind
    }

    /// Returns whether the next tick ends its time.
    pub(crate) fn is_response_due(&self) -> bool
        ensures { result ≡ is_response_due self.now }
    {
        self.ticks_left == 1
    }

    /// Returns whether the next tick retransmits its response.
    pub(crate) fn is_resent(&self) -> bool
        ensures { result ≡ is_resent self.now }
    {
        self.is_response_due() && self.standing == ResponseState::Waiting && self.resends_left > 0
    }

    /// Returns whether the next tick abandons it.
    pub(crate) fn is_given_up(&self) -> bool
        ensures { result ≡ is_given_up self.now }
    {
        self.is_response_due() && self.standing == ResponseState::Waiting && self.resends_left == 0
    }

    /// Returns whether the next tick forgets it: it is abandoned, or its last tick as a held entry
    /// ends.
    pub(crate) fn is_forgotten(&self) -> bool
        ensures { result ≡ is_forgotten self.now }
    {
        self.is_given_up() || self.is_response_due() && self.standing == ResponseState::Held
    }

    /// Counts one tick down, and where the response is retransmitted, begins the next wait. Returns
    /// whether the entry stays.
    pub(crate) fn tick(&mut self, timers: Timers) -> bool
        ensures stays { result ≡ not (is_forgotten self.old) }
        ensures after { self.new ≡ entry_after_tick timers self.old }
    {
        let stays = !self.is_forgotten();
        if self.is_resent() {
            self.ticks_left = timers.get_ack_wait();
            self.resends_left -= 1;
        } else {
            self.ticks_left = self.ticks_left.saturating_sub(1);
        }
        stays
    }

    /// Ends the wait: from now on it is only held.
    pub(crate) fn hold(&mut self, timers: Timers)
        ensures { self.new ≡ held_entry timers self.old }
    {
        self.standing = ResponseState::Held;
        self.ticks_left = timers.get_hold();
        self.resends_left = 0;
    }
}
