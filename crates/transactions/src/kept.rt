//! The cached responses of all transactions.

ghost use Rattle.std.specs.Prelude.{◌≡◌, ℕ, ◌≢◌, ◌≤◌, ◌<◌, ◌↔◌, [], ◌∷◌, ◌++◌, length, All, find, position, map, count_by, option_map, IsTrue, IsSome, IsNone, IfSome, IfNone, IsOk, IfOk, OnOk, OnErr};
ghost use Rattle.std.specs.Option.{option_copied};
ghost use Rattle.transactions.specs.Waits.{IsLasting};
ghost use Rattle.transactions.specs.Entry.{is_of, waits_for};
ghost use Rattle.transactions.specs.Timers.{is_resent, resent_in, given_up_in, kept_after};
ghost use Rattle.transactions.specs.Keeping.{begun_entry, entry_after_ack, OneEach, HasTicks, IsHeldUnsent};

use crate::entry::KeptEntry;
use crate::tick::{Ticked, count_down, due_in};
use crate::timers::Timers;
use dsx_messages::{Kind, Modem};
use std::alloc::{AllocError, Global};
use std::marker::Model;
use tlv24::Bytes;

/// Why a transaction was not begun.
#[derive(Clone, Copy, Debug, PartialEq, Eq)]
pub enum KeptFault {
    /// There is no room for more entries.
    Full,
    /// An entry of this modem and transaction ID exists.
    Live,
}

/// The cached responses of all transactions, in the order in which they began, one for each modem
/// and transaction ID.
#[derive(Debug, Drop)]
pub struct Kept {
    capacity: u32,
    timers: Timers,
    entries: Vec<KeptEntry>,
}

impl Model for Kept {
    ghost use Rattle.std.specs.Vec.{vec_capacity};
    ghost use Rattle.transactions.specs.Keeping.{Keeping, IsKept};

    ghost Value = { Keeping };

    ghost view = { λ kept. record { capacity = kept.capacity; waits = kept.timers; entries = kept.entries.items } };

    ghost invariant = { λ kept. IsKept kept.capacity kept.timers kept.entries.items (vec_capacity kept.entries) };
}

impl Kept {
    /// Creates an empty cache with room for `capacity` responses. Of the other calls only `tick` and `due`
    /// take memory.
    pub fn new(alloc: Global, capacity: u32, timers: Timers) -> Result<Kept, AllocError>
        ensures { IfOk result (λ kept. kept ≡ record { capacity = capacity; waits = timers; entries = [] }) }
    {
        // For the proof: what always holds of `timers`.
        timers.always();
        Ok(Kept {
            capacity,
            timers,
            entries: Vec::with_capacity(alloc, capacity as usize)?,
        })
    }

    /// Returns the entry of a modem and transaction ID.
    pub fn find(&self, modem: Modem, tid: u16) -> Option<&KeptEntry>
        ensures { option_copied result ≡ find (is_of modem tid) self.now.entries }
    {
        self.entries.iter().find(|entry| entry.is_of(modem, tid))
    }

    /// Begins an entry for a response. Where it `waits` for an acknowledgement, it is retransmitted
    /// until that comes; else it is held to answer a repeated request.
    ///
    /// Faults, in this order: `Full`, `Live`. Each leaves all as it was.
    pub fn begin(
        &mut self,
        modem: Modem,
        tid: u16,
        kind: Kind,
        reply: Bytes,
        sfid: u32,
        waits: bool,
    ) -> Result<(), KeptFault>
        // The entry is added after the others.
        ensures ok { OnOk result (self.new
            ≡ record self.old {
              entries = self.old.entries
                  ++ begun_entry self.old.waits modem tid kind reply sfid waits ∷ [];
            }) }
        // There was room, and no entry of this modem and transaction ID.
        ensures was_free { OnOk result ((length self.old.entries < self.old.capacity)
            × IsNone (find (is_of modem tid) self.old.entries)) }

        ensures full { (result ≡ Err KeptFault.Full) ↔ (length self.old.entries ≡ self.old.capacity) }
        // Refused so exactly if there is room, and an entry of this modem and transaction ID exists.
        ensures live { (result ≡ Err KeptFault.Live)
            ↔ ((length self.old.entries < self.old.capacity) × IsSome (find (is_of modem tid) self.old.entries)) }
        ensures err { OnErr result (self.new ≡ self.old) }
    {
        // For the proof: what the type keeps, which is known where a field is read.
        let _ = &self.capacity;
        if self.is_full() {
            return Err(KeptFault::Full);
        }
        if self.find(modem, tid).is_some() {
            return Err(KeptFault::Live);
        }
        self.begin_new(modem, tid, kind, reply, sfid, waits);
        Ok(())
    }

    /// Begins an entry as `begin` does, for a caller who knows that there is room and that no entry
    /// of this modem and transaction ID exists. Looks at no other entry.
    pub fn begin_new(
        &mut self,
        modem: Modem,
        tid: u16,
        kind: Kind,
        reply: Bytes,
        sfid: u32,
        waits: bool,
    )
        requires room { length self.old.entries < self.old.capacity }
        requires free { IsNone (find (is_of modem tid) self.old.entries) }
        // The entry that `begin` adds is added.
        ensures { self.new ≡ record self.old {
          entries = self.old.entries ++ begun_entry self.old.waits modem tid kind reply sfid waits ∷ [];
        } }
    {
        let entry = KeptEntry::begin(self.timers, modem, tid, kind, reply, sfid, waits);
        self.entries.push_reserved(entry);
    }

    /// Puts back an entry that was kept before, after those that exist: its timer goes on from the
    /// ticks that are left. The caller knows that there is room, that no entry of its modem and transaction ID
    /// exists, that its time has not ended, and that no retransmission is left where it is held.
    pub fn put_back(&mut self, saved: KeptEntry)
        requires room { length self.old.entries < self.old.capacity }
        requires free { IsNone (find (is_of saved.modem saved.tid) self.old.entries) }
        requires ticking { HasTicks saved }
        requires held { IsHeldUnsent saved }
        ensures { self.new ≡ record self.old { entries = self.old.entries ++ saved ∷ [] } }
    {
        self.entries.push_reserved(saved);
    }

    /// Takes an acknowledgement: the SFID of the entry that waited for it, which is only held from now on. `None` where no
    /// entry of this modem and transaction ID waits, or one of another kind; then all is as it was.
    pub fn acked(&mut self, modem: Modem, tid: u16, kind: Kind) -> Option<u32>
        ensures sfid { result ≡ option_map (λ e. e.sfid) (find (waits_for modem tid kind) self.old.entries) }
        // The entry that waited for it is held from now on; no other entry changes.
        ensures state { self.new ≡ record self.old
            { entries = map (entry_after_ack self.old.waits modem tid kind) self.old.entries } }
        ensures none { result ≡ None → self.new ≡ self.old }
    {
        let place = self.waiting_place(modem, tid, kind)?;
        Some(self.acked_at(place))
    }

    /// Returns where the entry is that waits for this acknowledgement, counted from 0.
    pub fn waiting_place(&self, modem: Modem, tid: u16, kind: Kind) -> Option<usize>
        ensures place { result ≡ position (waits_for modem tid kind) self.now.entries }
        ensures within { IfSome result (λ place. place < length self.now.entries) }
        ensures found { IfSome result (λ _. IsSome (find (waits_for modem tid kind) self.now.entries)) }
        ensures none { IfNone result (find (waits_for modem tid kind) self.now.entries ≡ None) }
    {
        place_waiting_for(self.entries.as_slice(), modem, tid, kind)
    }

    /// Takes the acknowledgement for which the entry at `place` waits, as `acked` does, and returns
    /// the entry's SFID. Looks at no other entry: the caller has the place from `waiting_place`.
    pub fn acked_at(&mut self, place: usize) -> u32
        requires { place < length self.old.entries }
        ensures sfid { (modem : Modem) (tid : ℕ) (kind : Kind) → position (waits_for modem tid kind) self.old.entries ≡ Some place
            → Some result ≡ option_map (λ e. e.sfid) (find (waits_for modem tid kind) self.old.entries) }
        ensures state { (modem : Modem) (tid : ℕ) (kind : Kind) → position (waits_for modem tid kind) self.old.entries ≡ Some place
            → self.new ≡ record self.old { entries = map (entry_after_ack self.old.waits modem tid kind) self.old.entries } }
        ensures capacity { self.new.capacity ≡ self.old.capacity }
        ensures waits { self.new.waits ≡ self.old.waits }
    {
        let timers = self.timers;
        let entry = &mut self.entries[place];
        entry.hold(timers);
        entry.sfid
    }

    /// Counts one tick: retransmits responses, abandons those that were never acknowledged, and
    /// forgets these and the entries that were held for their time.
    ///
    /// At `AllocError` nothing has changed. A tick that sends nothing again and gives nothing up
    /// takes no memory.
    pub fn tick(&mut self, alloc: Global) -> Result<Ticked, AllocError>
        ensures state { OnOk result (self.new
            ≡ record self.old { entries = kept_after self.old.waits self.old.entries }) }
        ensures resend { IfOk result (λ told. told.resend ≡ resent_in self.old.entries) }
        ensures given_up { IfOk result (λ told. told.given_up ≡ given_up_in self.old.entries) }
        // If there is nothing to retransmit or abandon, it succeeds.
        ensures quiet { resent_in self.old.entries ≡ [] → given_up_in self.old.entries ≡ [] → IsOk result }
        // If memory runs out nothing changes.
        ensures err { OnErr result (self.new ≡ self.old) }
    {
        let ticked = self.due(alloc)?;
        self.count_down();
        Ok(ticked)
    }

    /// Returns what `tick` would report, for a caller that wants it before anything changes. Takes no
    /// memory if a tick sends nothing again and gives nothing up.
    pub fn due(&self, alloc: Global) -> Result<Ticked, AllocError>
        ensures resend { IfOk result (λ told. told.resend ≡ resent_in self.now.entries) }
        ensures given_up { IfOk result (λ told. told.given_up ≡ given_up_in self.now.entries) }
        ensures quiet { resent_in self.now.entries ≡ [] → given_up_in self.now.entries ≡ [] → IsOk result }
    {
        due_in(alloc, self.entries.as_slice())
    }

    /// Counts one tick, for a caller that has what `due` returns. Takes no memory.
    pub fn count_down(&mut self)
        ensures { self.new ≡ record self.old { entries = kept_after self.old.waits self.old.entries } }
    {
        count_down(&mut self.entries, self.timers);
    }

    /// Returns how many responses the next tick retransmits.
    pub fn resend_count(&self) -> usize
        ensures value { result ≡ length (resent_in self.now.entries) }
        ensures few { result ≤ self.now.capacity }
    {
        resent_count(&self.entries)
    }

    /// Returns the number of entries.
    pub fn len(&self) -> usize
        ensures { result ≡ length self.now.entries }
    {
        self.entries.len()
    }

    /// Returns whether there is no entry.
    pub fn is_empty(&self) -> bool
        ensures { IsTrue result ↔ (self.now.entries ≡ []) }
    {
        self.entries.is_empty()
    }

    /// Returns whether there is no room for more entries.
    pub fn is_full(&self) -> bool
        ensures { IsTrue result ↔ (length self.now.entries ≡ self.now.capacity) }
    {
        self.len() == self.capacity as usize
    }

    /// Returns the entries, in the order in which they began.
    pub fn entries(&self) -> &[KeptEntry]
        ensures value { result.now ≡ self.now.entries }
        ensures lasting { IsLasting self.now.waits }
        ensures within { length self.now.entries ≤ self.now.capacity }
        ensures ticking { All HasTicks self.now.entries }
        ensures held { All IsHeldUnsent self.now.entries }
        ensures one_each { OneEach self.now.entries }
    {
        self.entries.as_slice()
    }
}

/// Returns where the entry is that waits for this acknowledgement, counted from 0.
fn place_waiting_for(entries: &[KeptEntry], modem: Modem, tid: u16, kind: Kind) -> Option<usize>
    ensures { result ≡ position (waits_for modem tid kind) entries.now }
{
    entries
        .iter()
        .position(|entry| entry.waits_for(modem, tid, kind))
}

/// Returns how many of these entries the next tick retransmits.
fn resent_count(entries: &[KeptEntry]) -> usize
    ensures value { result ≡ count_by is_resent entries.now }
    ensures few { result ≤ length entries.now }
{
    entries.iter().filter(|entry| entry.is_resent()).count()
}
