//! Laws of a table of flows, for the layers above.

ghost use Rattle.std.specs.Prelude.{◌≡◌, ◌≢◌, ℕ, ◌<◌, ◌≤◌, ◌↔◌, List, length, Some, IsSome, IfSome};
ghost use Rattle.std.specs.List.Sorted.{IsStrictlySortedBy};
ghost use Rattle.std.specs.Ordering.{nat_cmp};
ghost use Rattle.std.specs.Map.{keys_of};
ghost use Rattle.admission.specs.Free.{Numbers, least_free_of};
ghost use Rattle.flow_table.specs.declared.flow.Flow.{Flow};
ghost use Rattle.flow_table.specs.Table.{FlowTable, HasRoomFor, HaveOwnSids, flow_at, flow_with, sid_if, sids_of, with_flow};

/// States that where there is room for one more flow, it may be under any SFID with the least free
/// SID, or with none.
pub fn new_flow_may_stand()
    ensures { (table : FlowTable) (sids : Numbers) (sfid : ℕ) (flow : Flow)
        → length table.flows < table.capacity
        → IfSome flow.sid (λ sid. least_free_of sids (sids_of table.flows) ≡ Some sid)
        → HasRoomFor table sfid flow }
{}

/// States that a flow may be in place of another with the SID of that one, or with none.
#[tactic(auto, using(crate::proofs::StandLemmas::known_may_stand))]
pub fn known_flow_may_stand()
    ensures { (table : FlowTable) (sfid : ℕ) (flow : Flow)
        → IsStrictlySortedBy nat_cmp (keys_of table.flows)
        → length table.flows ≤ table.capacity
        → IsSome (flow_at sfid table.flows)
        → IfSome flow.sid (λ sid. sid_if (flow_at sfid table.flows) ≡ Some sid)
        → HasRoomFor table sfid flow }
{}

/// States that a flow may be in place of another with the least free SID, or with none.
pub fn known_flow_may_stand_anew()
    ensures { (table : FlowTable) (sids : Numbers) (sfid : ℕ) (flow : Flow)
        → IsStrictlySortedBy nat_cmp (keys_of table.flows)
        → length table.flows ≤ table.capacity
        → IsSome (flow_at sfid table.flows)
        → IfSome flow.sid (λ sid. least_free_of sids (sids_of table.flows) ≡ Some sid)
        → HasRoomFor table sfid flow }
{}

/// States that a flow that is put under an SFID is the flow there, and the flows of the other SFIDs
/// stay.
#[tactic(auto, using(crate::proofs::StandLemmas::flow_put, crate::proofs::StandLemmas::flow_elsewhere))]
pub fn put_flow_is_there()
    ensures there { (flows : List (ℕ × Flow)) (sfid : ℕ) (flow : Flow)
        → flow_at sfid (with_flow sfid flow flows) ≡ Some flow }
    ensures others { (flows : List (ℕ × Flow)) (sfid : ℕ) (flow : Flow) (other : ℕ) → other ≢ sfid
        → flow_at other (with_flow sfid flow flows) ≡ flow_at other flows }
{}

/// States that what is found by a SID is the flow that has this SID, with its SFID.
pub fn sid_finds_its_flow()
    ensures { (flows : List (ℕ × Flow)) (sid sfid : ℕ) (flow : Flow)
        → IsStrictlySortedBy nat_cmp (keys_of flows)
        → HaveOwnSids flows
        → (flow_with sid flows ≡ Some (sfid, flow)) ↔ ((flow_at sfid flows ≡ Some flow) × (flow.sid ≡ Some sid)) }
{}
