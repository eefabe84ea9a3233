//! The flows of one operator.

ghost use Rattle.std.specs.Prelude.{◌≡◌, ◌==◌, ◌+◌, ◌<◌, ◌≤◌, ◌↔◌, if◌then◌else◌, nat_le, None, [], length, IsOk, IsSome, IsNone, IfOk, IfSome, OnOk, OnErr, Some};
ghost use Rattle.std.specs.List.Sorted.{IsStrictlySortedBy};
ghost use Rattle.std.specs.Option.{option_copied};
ghost use Rattle.std.specs.Ordering.{nat_cmp};
ghost use Rattle.std.specs.Map.{keys_of, lookup, remove_entry};
ghost use Rattle.std.specs.BTreeMap.{insert_entry, is_at};
ghost use Rattle.admission.specs.Free.{IsLeastFree, least_free_of};
ghost use Rattle.flow_table.specs.Table.{flow_at, flow_with, sid_if, sfids_of, sids_of, with_flow, committed_minislots, committed_elements, HasRoomFor, HaveOwnSids, flowing_in};
ghost use Rattle.flow_table.specs.Flow.{flow_after_ack, taken_back, flow_after_request, flow_after_grant};
ghost use Rattle.flow_table.specs.Gap.{gap_from};
ghost use Rattle.flow_table.specs.Index.{flows_of, with_sid_of, without_sid_of};
ghost use Rattle.flow_table.specs.Moved.{change_at, told_of, asker_of};

use crate::flow::{Asker, Flow};
use crate::rows::FlowRows;
use admission::{Budget, IdRange, Ledger, Over};
use param_sets::Units;
use slice_scheduler::Flowing;
use std::alloc::{AllocError, Global};
use std::collections::BTreeMap;
use std::collections::btree_map::Entry;
use std::marker::Model;

/// The flows of one operator: found by SFID, and by SID through an index that is kept equal to them, with what all of them
/// have committed. Contracts see a `FlowTable`.
#[derive(Drop)]
pub struct Flows {
    capacity: u32,
    units: Units,
    by_sfid: FlowRows,
    by_sid: BTreeMap<u16, u32>,
    ledger: Ledger,
}

impl Model for Flows {
    ghost use Rattle.flow_table.specs.Table.{FlowTable};
    ghost use Rattle.flow_table.specs.Index.{IsFlowTable};

    ghost Value = { FlowTable };

    ghost view = { λ f. record { capacity = f.capacity; units = f.units; flows = f.by_sfid } };

    ghost invariant = { λ f. IsFlowTable f.capacity f.units f.by_sfid f.by_sid.entries f.ledger };
}

impl Flows {
    /// Creates an empty table with room for `capacity` flows.
    pub fn new(alloc: Global, capacity: u32, units: Units) -> Result<Flows, AllocError>
        ensures { IfOk result (λ flows. flows ≡ record { capacity = capacity; units = units; flows = [] }) }
    {
        let ledger = Ledger::new(alloc, capacity)?;
        Ok(Flows {
            capacity,
            units,
            by_sfid: FlowRows::new(alloc),
            by_sid: BTreeMap::new(alloc),
            ledger,
        })
    }

    /// Returns how many flows there are.
    pub fn len(&self) -> usize
        ensures { result ≡ length self.now.flows }
    {
        self.by_sfid.len()
    }

    /// Returns the flow of an SFID. Takes no memory.
    pub fn get(&self, sfid: u32) -> Option<&Flow>
        ensures { option_copied result ≡ flow_at sfid self.now.flows }
    {
        self.by_sfid.get(sfid)
    }

    /// Returns the flow that has this SID, with its SFID. Takes no memory.
    pub fn with_sid(&self, sid: u16) -> Option<(u32, Flow)>
        ensures value { result ≡ flow_with sid self.now.flows }
        ensures there { IfSome result (λ entry. flow_at entry.0 self.now.flows ≡ Some entry.1) }
    {
        let sfid = self.by_sid.get(&sid).copied()?;
        let flow = self.get(sfid).copied()?;
        Some((sfid, flow))
    }

    /// Returns whose the flow is that has this SID, and whether it may ask. Takes no memory, and
    /// copies no flow.
    pub fn asker(&self, sid: u16) -> Option<Asker>
        ensures value { result ≡ asker_of (flow_with sid self.now.flows) }
        ensures there { IfSome (flow_with sid self.now.flows) (λ entry. flow_at entry.0 self.now.flows ≡ Some entry.1) }
    {
        let sfid = self.by_sid.get(&sid).copied()?;
        let flow = self.get(sfid)?;
        Some(Asker {
            sfid,
            modem: flow.modem,
            may_ask: flow.asks_for_grants(),
        })
    }

    /// Returns the least SFID of a range that no flow has. Takes no memory.
    pub fn free_sfid(&self, range: &IdRange) -> Option<u32>
        ensures exact { result ≡ least_free_of range.now (sfids_of self.now.flows) }
        ensures found { IfSome result (IsLeastFree range.now (sfids_of self.now.flows)) }
    {
        self.by_sfid.least_free(range)
    }

    /// Returns the least SID of a range that no flow has. Takes no memory.
    pub fn free_sid(&self, range: &IdRange) -> Option<u32>
        ensures exact { result ≡ least_free_of range.now (sids_of self.now.flows) }
        ensures found { IfSome result (IsLeastFree range.now (sids_of self.now.flows)) }
    {
        least_free_sid(&self.by_sid, range)
    }

    /// Returns whether the totals of what is committed, with this flow under this SFID, stay within
    /// a limit; elements are tried first. Takes no memory.
    pub fn fits(&self, limit: Budget, sfid: u32, flow: &Flow) -> Result<(), Over>
        // Refused so exactly if more elements would be committed than the limit.
        ensures elements { (result ≡ Err Over.Elements)
            ↔ (limit.elements < committed_elements self.now.units (with_flow sfid flow.now self.now.flows)) }
        // Refused so exactly if more minislots would be committed than the limit.
        ensures minislots { (result ≡ Err Over.Minislots)
            ↔ ((committed_elements self.now.units (with_flow sfid flow.now self.now.flows) ≤ limit.elements)
            × (limit.minislots < committed_minislots self.now.units (with_flow sfid flow.now self.now.flows))) }
        ensures ok { IsOk result ↔ ((committed_elements self.now.units (with_flow sfid flow.now self.now.flows) ≤
            limit.elements) × (committed_minislots self.now.units (with_flow sfid flow.now self.now.flows) ≤
            limit.minislots)) }
    {
        self.ledger.fits(limit, sfid, flow.committed(self.units))
    }

    /// Returns what all flows have committed, in minislots of a frame.
    pub fn committed_minislots(&self) -> u64
        ensures { result ≡ committed_minislots self.now.units self.now.flows }
    {
        self.ledger.total_minislots()
    }

    /// Puts a flow under an SFID, in place of the one that is there. At `AllocError` nothing has changed.
    #[inline(always)]
    pub fn put_flow(&mut self, sfid: u32, flow: Box<Flow>) -> Result<(), AllocError>
        requires { HasRoomFor self.old sfid flow.value }
        ensures ok { OnOk result (self.new ≡ record self.old { flows = with_flow sfid flow.value self.old.flows }) }
        ensures err { OnErr result (self.new ≡ self.old) }
    {
        let committed = flow.committed(self.units);
        let has = flow.sid;
        let had = self.by_sfid.put(&mut self.by_sid, sfid, flow)?;
        free(&mut self.by_sid, had, has);
        commit(&mut self.ledger, sfid, committed);
        Ok(())
    }

    /// Acknowledges in a frame what waits of the flow of an SFID, if there is one, in place. Takes no memory.
    pub fn acknowledge(&mut self, sfid: u32, frame: u32)
        ensures { self.new ≡ record self.old { flows = change_at sfid (flow_after_ack frame) self.old.flows } }
    {
        if let Some(moved) = self.by_sfid.acknowledge(self.units, sfid, frame) {
            free(&mut self.by_sid, moved.had, moved.has);
            commit(&mut self.ledger, sfid, moved.committed);
        }
    }

    /// Takes back what waits of the flow of an SFID, if there is one, in place. Takes no memory.
    pub fn take_back(&mut self, sfid: u32)
        ensures { self.new ≡ record self.old { flows = change_at sfid taken_back self.old.flows } }
    {
        if let Some(moved) = self.by_sfid.take_back(self.units, sfid) {
            free(&mut self.by_sid, moved.had, moved.has);
            commit(&mut self.ledger, sfid, moved.committed);
        }
    }

    /// Takes the minislots that the modem requests in this frame as the backlog. It waits since
    /// this frame if there was none before.
    pub fn request(&mut self, sfid: u32, minislots: u16, frame: u32)
        // Only the flow of this SFID changes.
        ensures { self.new ≡ record self.old { flows = change_at sfid (flow_after_request minislots frame) self.old.flows } }
    {
        self.by_sfid.request(sfid, minislots, frame);
    }

    /// Takes so many granted minislots of this frame off the backlog. The rest waits since the next
    /// frame.
    pub fn grant(&mut self, sfid: u32, minislots: u16, frame: u32)
        requires { frame < 4294967295 }
        // Only the flow of this SFID changes.
        ensures { self.new ≡ record self.old { flows = change_at sfid (flow_after_grant minislots frame) self.old.flows } }
    {
        self.by_sfid.grant(sfid, minislots, frame);
    }

    /// Removes the flow of an SFID, if there is one. Takes no memory.
    #[inline(always)]
    pub fn remove(&mut self, sfid: u32)
        ensures { self.new ≡ record self.old { flows = remove_entry (is_at (nat_cmp sfid)) self.old.flows } }
    {
        let had = self.by_sfid.remove(sfid);
        free(&mut self.by_sid, had, None);
        release(&mut self.ledger, sfid);
    }

    /// Puts the flows that have an active set in place of what is in `flowing`, ascending by SFID, as
    /// they are scheduled. Looks at these flows alone. Takes memory only where the list has too little.
    pub fn flowing_into(&self, flowing: &mut Vec<Flowing>) -> Result<(), AllocError>
        ensures { OnOk result (flowing.new.items ≡ flowing_in self.now.flows) }
    {
        self.by_sfid.flowing_into(flowing)
    }

    /// Returns the flows under their SFIDs, ascending: a copy.
    pub fn to_vec(&self, alloc: Global) -> Result<Vec<(u32, Flow)>, AllocError>
        ensures { IfOk result (λ flows. flows.items ≡ self.now.flows) }
    {
        self.by_sfid.to_vec(alloc)
    }

    /// States what every table keeps, for a caller's proof. Does nothing.
    pub fn always(&self)
        ensures ascending { IsStrictlySortedBy nat_cmp (keys_of self.now.flows) }
        ensures within { length self.now.flows ≤ self.now.capacity }
        ensures own_sids { HaveOwnSids self.now.flows }
    {
        // For the proof: what the type keeps, which is known where a field is read.
        let _ = &self.capacity;
    }
}

/// Returns a number from the first of a range on, where it is one of the range.
pub(crate) fn within(number: u64, range: &IdRange) -> Option<u32>
    requires { range.now.first ≤ number }
    ensures { result ≡ if nat_le number range.now.last then Some number else None }
{
    if number <= u64::from(range.get_last()) {
        Some(number as u32)
    } else {
        None
    }
}

/// Returns the least number of a range that is not a SID, by one walk over the SIDs in their order.
#[tactic(auto, using(crate::proofs::GapLemmas::gap_answer_here, crate::proofs::GapLemmas::gap_answer_end, crate::proofs::GapLemmas::gap_answer))]
fn least_free_sid(index: &BTreeMap<u16, u32>, range: &IdRange) -> Option<u32>
    requires { IsStrictlySortedBy nat_cmp (keys_of index.now.entries) }
    ensures { result ≡ least_free_of range.now (keys_of index.now.entries) }
{
    if let Some(end) = end_of_packed_sids(index, range.get_first()) {
        return within(end, range);
    }
    let mut next = u64::from(range.get_first());
    for (sid, _sfid) in index {
        let sid = u64::from(*sid);
        if sid > next {
            return within(next, range);
        }
        if sid == next {
            next += 1;
        }
    }
    within(next, range)
}

/// Returns the number after all SIDs, where they are the numbers from `first` on with none left
/// out. Looks at the ends alone.
#[tactic(auto, using(crate::proofs::GapLemmas::packed_keys))]
fn end_of_packed_sids(index: &BTreeMap<u16, u32>, first: u32) -> Option<u64>
    requires { IsStrictlySortedBy nat_cmp (keys_of index.now.entries) }
    ensures gap { IfSome result (λ end. end ≡ gap_from first (keys_of index.now.entries)) }
    ensures from { IfSome result (λ end. first ≤ end) }
{
    let (least, _sfid) = index.first_key_value()?;
    let (greatest, _sfid) = index.last_key_value()?;
    let least = u32::from(*least);
    let greatest = u32::from(*greatest);
    if first > least || first > greatest {
        return None;
    }
    if (greatest - first) as usize + 1 == index.len() {
        Some(u64::from(greatest) + 1)
    } else {
        None
    }
}

/// Puts an SFID under a SID, where there is one.
#[inline(always)]
pub(crate) fn list(
    by_sid: &mut BTreeMap<u16, u32>,
    sid: Option<u16>,
    sfid: u32,
) -> Result<(), AllocError>
    ensures ok { OnOk result (by_sid.new.entries ≡ with_sid_of sid sfid by_sid.old.entries) }
    ensures err { OnErr result (by_sid.new.entries ≡ by_sid.old.entries) }
{
    if let Some(sid) = sid {
        let _old = by_sid.insert(sid, sfid)?;
    }
    Ok(())
}

/// Removes the SID that a flow had, where it has it no more.
#[inline(always)]
fn free(by_sid: &mut BTreeMap<u16, u32>, had: Option<u16>, has: Option<u16>)
    ensures { by_sid.new.entries ≡ without_sid_of had has by_sid.old.entries }
{
    if let Some(sid) = had {
        if has != Some(sid) {
            let _sfid = by_sid.remove(&sid);
        }
    }
}

/// Puts the row of a flow, in place of the one that is there.
#[inline(always)]
fn commit(ledger: &mut Ledger, sfid: u32, budget: Budget)
    requires { length (insert_entry nat_cmp ledger.old.rows sfid budget) ≤ ledger.old.room }
    ensures { ledger.new ≡ record ledger.old { rows = insert_entry nat_cmp ledger.old.rows sfid budget } }
{
    match ledger.change(sfid, budget) {
        Ok(()) => {}
        Err(_) => add(ledger, sfid, budget),
    }
}

/// Adds the row of a flow that has none.
#[inline(always)]
fn add(ledger: &mut Ledger, sfid: u32, budget: Budget)
    requires room { length ledger.old.rows < ledger.old.room }
    requires absent { IsNone (lookup (is_at (nat_cmp sfid)) ledger.old.rows) }
    ensures { ledger.new ≡ record ledger.old { rows = insert_entry nat_cmp ledger.old.rows sfid budget } }
{
    match ledger.add(sfid, budget) {
        Ok(()) => {}
        Err(_) => unreachable!(),
    }
}

/// Removes the row of a flow, if there is one.
fn release(ledger: &mut Ledger, sfid: u32)
    ensures { ledger.new ≡ record ledger.old { rows = remove_entry (is_at (nat_cmp sfid)) ledger.old.rows } }
{
    match ledger.remove(sfid) {
        Ok(()) => {}
        // No row exists.
        Err(_) => {}
    }
}
