//! Laws of grants.

ghost use Rattle.std.specs.Prelude.{◌≡◌, ◌+◌, ◌≤◌, ◌⊎◌, nat_lt, All, List, length, map, filter};
ghost use Rattle.std.specs.List.{Contains};
ghost use Rattle.grant_policy.specs.declared.policy.Policy.{Policy};
ghost use Rattle.slice_scheduler.specs.declared.flowing.AtFields.{AtFields};
ghost use Rattle.slice_scheduler.specs.declared.flowing.Flowing.{Flowing};
ghost use Rattle.slice_scheduler.specs.Awards.{grant_of};
ghost use Rattle.slice_scheduler.specs.Claims.{base_of};
ghost use Rattle.slice_scheduler.specs.Schedule.{elements_of, granted_of};
ghost use Rattle.slice_scheduler.specs.Servable.{SfidsAscend, IsOfItsKind, AsksWhereItMay, total_need, elements_needed};
ghost use Rattle.slice_scheduler.specs.Tiles.{IsTiled};

/// States that no flow is granted more than it asks.
pub fn grant_is_within_backlog()
    ensures { (policy : Policy) (at : AtFields) (flows : List Flowing) (f : Flowing)
        → grant_of policy at flows f ≤ f.backlog }
{}

/// States that each flow is granted what its reserved rate covers of its backlog.
pub fn base_is_granted()
    ensures { (policy : Policy) (at : AtFields) (flows : List Flowing) (f : Flowing)
        → base_of at f ≤ grant_of policy at flows f }
{}

/// States that the grants that a schedule reports are those of its flows, each SFID with its flow's
/// grant, in the flows' order.
#[tactic(auto, using(crate::proofs::GrantedLemmas::granted_is))]
pub fn granted_by_flow()
    ensures { (policy : Policy) (at : AtFields) (flows : List Flowing)
        → granted_of policy at flows ≡ map
        (λ f. (f.sfid, grant_of policy at flows f)) (filter (λ f. nat_lt 0 (grant_of policy at flows f)) flows) }
{}

/// States that the spans of a schedule are the minislots of the slice, each in exactly one, where
/// the flows are sorted by SFID and what their parameter sets need fits the slice.
pub fn elements_are_tiled()
    ensures { (policy : Policy) (at : AtFields) (flows : List Flowing) → SfidsAscend flows
        → total_need at flows ≤ at.slice.length → All IsOfItsKind flows → IsTiled (elements_of policy at flows) }
{}

/// States that each span is a flow's, by its SID, or nobody's, by SID 0; each SID that is pending
/// is a flow's.
pub fn elements_name_flows()
    ensures spans { (policy : Policy) (at : AtFields) (flows : List Flowing)
        → All (λ span. (span.sid ≡ 0) ⊎ Contains (map
        (λ f. f.sid) flows) span.sid) (elements_of policy at flows).spans }
    ensures pending { (policy : Policy) (at : AtFields) (flows : List Flowing)
        → All (Contains (map (λ f. f.sid) flows)) (elements_of policy at flows).pending }
{}

/// States that a schedule has no more elements than the flows' parameter sets need, and one for
/// what is left of the slice.
pub fn elements_are_few()
    ensures { (policy : Policy) (at : AtFields) (flows : List Flowing) → All AsksWhereItMay flows
        → length (elements_of policy at flows).spans + length (elements_of policy at flows).pending ≤ elements_needed at flows + 1 }
{}
