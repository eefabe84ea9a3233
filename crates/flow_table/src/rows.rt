//! The flows of one operator by SFID, and which of them have an active set.

ghost use Rattle.std.specs.Prelude.{◌≡◌, ℕ, ◌+◌, ◌<◌, ◌≤◌, [], length, IfOk, IfSome, OnOk, OnErr, Some, vec_len, vec_capacity};
ghost use Rattle.std.specs.List.{insert};
ghost use Rattle.std.specs.Option.{option_copied};
ghost use Rattle.std.specs.List.Sorted.{IsStrictlySortedBy};
ghost use Rattle.std.specs.Ordering.{nat_cmp};
ghost use Rattle.std.specs.Map.{keys_of, lookup, remove_entry};
ghost use Rattle.std.specs.BTreeMap.{is_at};
ghost use Rattle.admission.specs.Free.{least_free_of};
ghost use Rattle.flow_table.specs.Table.{flow_at, sid_if, sfids_of, with_flow, flowing_in, flowing_of_set};
ghost use Rattle.flow_table.specs.Flow.{flow_after_ack, taken_back, flow_after_request, flow_after_grant};
ghost use Rattle.flow_table.specs.Gap.{gap_from};
ghost use Rattle.flow_table.specs.Index.{flow_in, place_at, with_place, IsChangedAt, with_sid_of, with_activity};
ghost use Rattle.flow_table.specs.Moved.{change_at, told_of, scheduled_if};

use crate::flow::{Activity, Flow};
use crate::flows::{list, within};
use admission::{Budget, IdRange, place_of};
use param_sets::Units;
use slab::Slab;
use slice_scheduler::Flowing;
use std::alloc::{AllocError, Global};
use std::collections::BTreeMap;
use std::collections::btree_map::Entry;
use std::marker::Model;

/// What the indexes and the ledger have to know of a flow that was changed in place.
#[derive(Clone, Copy, Debug, PartialEq, Eq)]
pub(crate) struct Moved {
    /// The SID that it had.
    pub had: Option<u16>,
    /// The SID that it has.
    pub has: Option<u16>,
    /// Whether it has an active set.
    pub activity: Activity,
    /// What it has committed.
    pub committed: Budget,
}

/// Flows by SFID: an ordered map has the place of each, so that no node of the map moves a flow of 320
/// bytes. The SFIDs and the places of those that have an active set are in a list, ascending, so
/// that a tick looks at these alone, with no search. There is always room in it for each flow.
/// Contracts see the flows.
#[derive(Drop)]
pub(crate) struct FlowRows {
    places: BTreeMap<u32, usize>,
    flows: Slab<Box<Flow>>,
    active: Vec<(u32, usize)>,
}

impl Model for FlowRows {
    ghost use Rattle.std.specs.Prelude.{List, ℕ, vec_capacity};
    ghost use Rattle.flow_table.specs.declared.flow.Flow.{Flow};
    ghost use Rattle.flow_table.specs.Index.{flow_in, flows_of, IsFlowRows};

    ghost Value = { List (ℕ × Flow) };

    ghost view = { λ f. flows_of f.flows f.places.entries };

    ghost invariant = { λ f. IsFlowRows (flow_in f.flows) f.places.entries f.active.items (vec_capacity f.active) };
}

impl FlowRows {
    /// Creates an empty map of flows. Takes no memory.
    pub(crate) fn new(alloc: Global) -> FlowRows
        ensures { result ≡ [] }
    {
        FlowRows {
            places: BTreeMap::new(alloc),
            flows: Slab::new(alloc),
            active: Vec::new(alloc),
        }
    }

    /// Returns how many flows there are.
    pub(crate) fn len(&self) -> usize
        ensures { result ≡ length self.now }
    {
        self.places.len()
    }

    /// Returns the flow of an SFID. Takes no memory.
    pub(crate) fn get(&self, sfid: u32) -> Option<&Flow>
        ensures { option_copied result ≡ flow_at sfid self.now }
    {
        let place = self.places.get(&sfid).copied()?;
        let flow = self.flows.get(place)?;
        Some(flow.as_ref())
    }

    /// Returns the least SFID of a range that no flow has. Takes no memory.
    pub(crate) fn least_free(&self, range: &IdRange) -> Option<u32>
        ensures { result ≡ least_free_of range.now (sfids_of self.now) }
    {
        least_free_sfid(&self.places, range)
    }

    /// Puts a flow under its SFID and, where it has a SID, its SFID under that: both or neither.
    /// Returns the SID that the flow had that was there.
    #[inline(always)]
    pub(crate) fn put(
        &mut self,
        by_sid: &mut BTreeMap<u16, u32>,
        sfid: u32,
        flow: Box<Flow>,
    ) -> Result<Option<u16>, AllocError>
        ensures had { IfOk result (λ had. had ≡ sid_if (flow_at sfid self.old)) }
        ensures flows { OnOk result (self.new ≡ with_flow sfid flow.value self.old) }
        ensures index { OnOk result (by_sid.new.entries ≡ with_sid_of flow.value.sid sfid by_sid.old.entries) }
        ensures err { OnErr result ((self.new ≡ self.old) × (by_sid.new.entries ≡ by_sid.old.entries)) }
    {
        make_room(&mut self.active, self.places.len() + 1)?;
        self.flows.reserve(1)?;
        let (activity, sid) = (flow.activity(), flow.sid);
        let free = self.flows.vacant_key();
        match grow(&mut self.places, by_sid, sfid, free, sid)? {
            Some(place) => {
                let had = replace_at(&mut self.flows, place, flow);
                mark(&mut self.active, sfid, place, activity);
                Ok(had)
            }
            None => {
                let place = self.flows.insert_reserved(flow);
                mark(&mut self.active, sfid, place, activity);
                Ok(None)
            }
        }
    }

    /// Acknowledges in a frame what waits of the flow of an SFID, where there is one.
    pub(crate) fn acknowledge(&mut self, units: Units, sfid: u32, frame: u32) -> Option<Moved>
        ensures flows { self.new ≡ change_at sfid (flow_after_ack frame) self.old }
        ensures told { result ≡ told_of units (flow_after_ack frame) (flow_at sfid self.old) }
    {
        let place = self.places.get(&sfid).copied()?;
        let moved = acknowledge_in(&mut self.flows, units, place, frame)?;
        mark(&mut self.active, sfid, place, moved.activity);
        Some(moved)
    }

    /// Takes back what waits of the flow of an SFID, where there is one.
    pub(crate) fn take_back(&mut self, units: Units, sfid: u32) -> Option<Moved>
        ensures flows { self.new ≡ change_at sfid taken_back self.old }
        ensures told { result ≡ told_of units taken_back (flow_at sfid self.old) }
    {
        let place = self.places.get(&sfid).copied()?;
        take_back_in(&mut self.flows, units, place)
    }

    /// Makes so many minislots the backlog of the flow of an SFID, where there is one.
    pub(crate) fn request(&mut self, sfid: u32, minislots: u16, frame: u32)
        ensures { self.new ≡ change_at sfid (flow_after_request minislots frame) self.old }
    {
        if let Some(place) = self.places.get(&sfid).copied() {
            request_in(&mut self.flows, place, minislots, frame);
        }
    }

    /// Takes so many granted minislots off the backlog of the flow of an SFID, if there is one.
    pub(crate) fn grant(&mut self, sfid: u32, minislots: u16, frame: u32)
        requires { frame < 4294967295 }
        ensures { self.new ≡ change_at sfid (flow_after_grant minislots frame) self.old }
    {
        if let Some(place) = self.places.get(&sfid).copied() {
            grant_in(&mut self.flows, place, minislots, frame);
        }
    }

    /// Removes the flow of an SFID, if there is one, and returns the SID that it had.
    #[inline(always)]
    pub(crate) fn remove(&mut self, sfid: u32) -> Option<u16>
        ensures flows { self.new ≡ remove_entry (is_at (nat_cmp sfid)) self.old }
        ensures had { result ≡ sid_if (flow_at sfid self.old) }
    {
        let place = self.places.remove(&sfid)?;
        mark(&mut self.active, sfid, place, Activity::Idle);
        let flow = self.flows.try_remove(place)?;
        flow.sid
    }

    /// Puts the flows that have an active set in place of what is in `flowing`, ascending by SFID, as
    /// they are scheduled. Looks at these flows alone. Takes memory only where the list has too little.
    pub(crate) fn flowing_into(&self, flowing: &mut Vec<Flowing>) -> Result<(), AllocError>
        ensures { OnOk result (flowing.new.items ≡ flowing_in self.now) }
    {
        flowing.clear();
        flowing.reserve(self.active.len())?;
        for (sfid, place) in &self.active {
            if let Some(scheduled) = scheduled_at(&self.flows, *sfid, *place) {
                flowing.push_reserved(scheduled);
            }
        }
        Ok(())
    }

    /// Returns the flows under their SFIDs, ascending: a copy.
    pub(crate) fn to_vec(&self, alloc: Global) -> Result<Vec<(u32, Flow)>, AllocError>
        ensures { IfOk result (λ flows. flows.items ≡ self.now) }
    {
        let mut flows = Vec::with_capacity(alloc, self.places.len())?;
        for (sfid, place) in &self.places {
            if let Some(flow) = self.flows.get(*place) {
                let flow = flow.as_ref();
                // Read before the copy, so that the check knows the type of this part of the flow.
                let _pending = flow.pending;
                flows.push((*sfid, *flow))?;
            }
        }
        Ok(flows)
    }
}

/// Gives an SFID a place unless it has one and, where its flow has a SID, puts the SFID under that:
/// both or neither. Returns the place that the SFID had.
#[inline(always)]
fn grow(
    places: &mut BTreeMap<u32, usize>,
    by_sid: &mut BTreeMap<u16, u32>,
    sfid: u32,
    place: usize,
    sid: Option<u16>,
) -> Result<Option<usize>, AllocError>
    ensures had { IfOk result (λ had. had ≡ place_at sfid places.old.entries) }
    ensures places { IfOk result (λ had. places.new.entries ≡ with_place sfid place had places.old.entries) }
    ensures index { OnOk result (by_sid.new.entries ≡ with_sid_of sid sfid by_sid.old.entries) }
    ensures err { OnErr result ((places.new.entries ≡ places.old.entries)
        × (by_sid.new.entries ≡ by_sid.old.entries)) }
{
    match places.entry(sfid)? {
        Entry::Vacant(entry) => {
            list(by_sid, sid, sfid)?;
            let _place = entry.insert(place);
            Ok(None)
        }
        Entry::Occupied(entry) => {
            let place = *entry.get();
            list(by_sid, sid, sfid)?;
            Ok(Some(place))
        }
    }
}

/// Puts a flow at a place, and returns the SID that the flow had that was there.
fn replace_at(flows: &mut Slab<Box<Flow>>, place: usize, flow: Box<Flow>) -> Option<u16>
    ensures flows { IsChangedAt place (λ _. flow.value) (flow_in flows.old) (flow_in flows.new) }
    ensures had { result ≡ sid_if (flow_in flows.old place) }
{
    let there = flows.get_mut(place)?;
    let had = there.sid;
    *there = flow;
    had
}

/// Acknowledges what waits of the flow at a place, where there is one.
fn acknowledge_in(
    flows: &mut Slab<Box<Flow>>,
    units: Units,
    place: usize,
    frame: u32,
) -> Option<Moved>
    ensures flows { IsChangedAt place (flow_after_ack frame) (flow_in flows.old) (flow_in flows.new) }
    ensures told { result ≡ told_of units (flow_after_ack frame) (flow_in flows.old place) }
{
    let flow = flows.get_mut(place)?.as_mut();
    let had = flow.sid;
    flow.acknowledge(frame);
    let (has, activity, committed) = (flow.sid, flow.activity(), flow.committed(units));
    Some(Moved {
        had,
        has,
        activity,
        committed,
    })
}

/// Takes back what waits of the flow at a place, where there is one.
fn take_back_in(flows: &mut Slab<Box<Flow>>, units: Units, place: usize) -> Option<Moved>
    ensures flows { IsChangedAt place taken_back (flow_in flows.old) (flow_in flows.new) }
    ensures told { result ≡ told_of units taken_back (flow_in flows.old place) }
{
    let flow = flows.get_mut(place)?.as_mut();
    let had = flow.sid;
    flow.take_back();
    let (has, activity, committed) = (flow.sid, flow.activity(), flow.committed(units));
    Some(Moved {
        had,
        has,
        activity,
        committed,
    })
}

/// Makes so many minislots the backlog of the flow at a place, where there is one.
fn request_in(flows: &mut Slab<Box<Flow>>, place: usize, minislots: u16, frame: u32)
    ensures { IsChangedAt place (flow_after_request minislots frame) (flow_in flows.old) (flow_in flows.new) }
{
    if let Some(flow) = flows.get_mut(place) {
        flow.request(minislots, frame);
    }
}

/// Takes so many granted minislots off the backlog of the flow at a place, if there is one.
fn grant_in(flows: &mut Slab<Box<Flow>>, place: usize, minislots: u16, frame: u32)
    requires { frame < 4294967295 }
    ensures { IsChangedAt place (flow_after_grant minislots frame) (flow_in flows.old) (flow_in flows.new) }
{
    if let Some(flow) = flows.get_mut(place) {
        flow.grant(minislots, frame);
    }
}

/// Makes room for so many rows in all. At `AllocError` the room stays.
fn make_room(active: &mut Vec<(u32, usize)>, rows: usize) -> Result<(), AllocError>
    ensures items { active.new.items ≡ active.old.items }
    ensures ok { OnOk result (rows ≤ vec_capacity active.new) }
    ensures grows { vec_capacity active.old ≤ vec_capacity active.new }
{
    active.reserve(rows.saturating_sub(active.len()))
}

/// Puts a row for an SFID where its flow has an active set, and removes it where it has none.
fn mark(active: &mut Vec<(u32, usize)>, sfid: u32, place: usize, activity: Activity)
    requires ascending { IsStrictlySortedBy nat_cmp (keys_of active.old.items) }
    requires same { (p : ℕ) → lookup (is_at (nat_cmp sfid)) active.old.items ≡ Some p → p ≡ place }
    requires room { length (with_activity sfid place activity active.old.items) ≤ vec_capacity active.old }
    ensures items { active.new.items ≡ with_activity sfid place activity active.old.items }
    ensures capacity { vec_capacity active.new ≡ vec_capacity active.old }
{
    match activity {
        Activity::Active => {
            if let Err(row) = place_of(active, sfid) {
                insert_row(active, row, (sfid, place));
            }
        }
        Activity::Idle => {
            if let Ok(row) = place_of(active, sfid) {
                let _row = active.remove(row);
            }
        }
    }
}

/// Puts a row into a list, into room that is there.
fn insert_row(rows: &mut Vec<(u32, usize)>, at: usize, row: (u32, usize))
    requires in_range { at ≤ vec_len rows.old }
    requires room { vec_len rows.old < vec_capacity rows.old }
    ensures items { rows.new.items ≡ insert rows.old.items at row }
    ensures capacity { vec_capacity rows.new ≡ vec_capacity rows.old }
{
    match rows.insert(at, row) {
        Ok(()) => {}
        Err(_) => unreachable!(),
    }
}

/// Returns the least number of a range that is not a SFID, by one walk over the SFIDs in their
/// order.
#[tactic(auto, using(crate::proofs::GapLemmas::gap_answer_here, crate::proofs::GapLemmas::gap_answer_end, crate::proofs::GapLemmas::gap_answer))]
fn least_free_sfid(places: &BTreeMap<u32, usize>, range: &IdRange) -> Option<u32>
    requires { IsStrictlySortedBy nat_cmp (keys_of places.now.entries) }
    ensures { result ≡ least_free_of range.now (keys_of places.now.entries) }
{
    if let Some(end) = end_of_packed(places, range.get_first()) {
        return within(end, range);
    }
    let mut next = u64::from(range.get_first());
    for (sfid, _place) in places {
        let sfid = u64::from(*sfid);
        if sfid > next {
            return within(next, range);
        }
        if sfid == next {
            next += 1;
        }
    }
    within(next, range)
}

/// Returns the number after all SFIDs, where they are the numbers from `first` on with none left
/// out. Looks at the ends alone.
#[tactic(auto, using(crate::proofs::GapLemmas::packed_keys))]
fn end_of_packed(places: &BTreeMap<u32, usize>, first: u32) -> Option<u64>
    requires { IsStrictlySortedBy nat_cmp (keys_of places.now.entries) }
    ensures gap { IfSome result (λ end. end ≡ gap_from first (keys_of places.now.entries)) }
    ensures from { IfSome result (λ end. first ≤ end) }
{
    let (least, _place) = places.first_key_value()?;
    let (greatest, _place) = places.last_key_value()?;
    if first > *least || first > *greatest {
        return None;
    }
    if (*greatest - first) as usize + 1 == places.len() {
        Some(u64::from(*greatest) + 1)
    } else {
        None
    }
}

/// Returns the flow at a place as it is scheduled, where it has an active set.
#[inline(always)]
fn scheduled_at(flows: &Slab<Box<Flow>>, sfid: u32, place: usize) -> Option<Flowing>
    ensures { result ≡ scheduled_if sfid (flow_in flows.now place) }
{
    let flow = flows.get(place)?;
    flowing_of(sfid, flow.as_ref())
}

/// Returns a flow as it is scheduled, where it has an active set.
#[inline(always)]
fn flowing_of(sfid: u32, flow: &Flow) -> Option<Flowing>
    ensures { result ≡ flowing_of_set sfid flow.now flow.now.sets.active }
{
    let set = flow.sets.get_active()?;
    Some(Flowing {
        sfid,
        sid: flow.sid.unwrap_or(0),
        set,
        start: flow.start,
        backlog: flow.backlog,
        since: flow.since,
    })
}
