//! The schedule of one operator's slice of a frame.

ghost use Rattle.std.specs.Prelude.{◌≡◌, ◌≤◌, nat_lt, All, IfOk, OnOk, map, filter};
ghost use Rattle.std.specs.List.Sorted.{IsPermutation, IsNonDecreasingBy};
ghost use Rattle.slice_scheduler.specs.Schedule.{elements_of, granted_of};
ghost use Rattle.slice_scheduler.specs.Busy.{LeavesNothingIdle};
ghost use Rattle.slice_scheduler.specs.Servable.{SfidsAscend, IsPast, total_need};

use crate::award::Award;
use crate::elements::{Elements, ElementsFields};
use crate::emptying::empty_for;
use crate::flowing::{At, Flowing};
use crate::packing::{pack, push_awards};
use crate::scheduler::Scheduler;
use crate::separating::separate;
use crate::served::Served;
use grant_policy::Ranks;
use lists::Listed;
use std::alloc::{AllocError, Global};
use std::mem::replace;

/// Fills a list with the SIDs of those that asked for more than they are granted. Takes no memory
/// if there is none.
fn pending(sids: &mut Vec<u16>, awards: &[Award]) -> Result<(), AllocError>
    ensures { OnOk result (sids.new.items ≡ map (λ a. a.sid) (filter (λ a. nat_lt a.grant a.backlog) awards.now)) }
{
    sids.clear();
    for award in awards {
        if award.grant < award.backlog {
            sids.push(award.sid)?;
        }
    }
    Ok(())
}

/// Fills a list with the SFID and the minislots of each award that is more than none, by SFID
/// ascending.
fn grants_of_awards(grants: &mut Vec<(u32, u16)>, awards: &[Award]) -> Result<(), AllocError>
    ensures all { OnOk result (IsPermutation (map (λ a. (a.sfid, a.grant)) (filter (λ a. nat_lt 0 a.grant) awards.now))
        grants.new.items) }
    ensures sorted { OnOk result (IsNonDecreasingBy (λ grant. grant.0) grants.new.items) }
{
    empty_for(grants, awards.len())?;
    for award in awards {
        if 0 < award.grant {
            grants.push((award.sfid, award.grant))?;
        }
    }
    grants.sort_unstable();
    Ok(())
}

impl Scheduler {
    /// Schedules a frame as `schedule` does, in the memory of the frames before it.
    pub fn schedule<R: Ranks>(
        &mut self,
        alloc: Global,
        flows: &[Flowing],
        at: &At,
        ranking: &R,
    ) -> Result<Served, AllocError>
        requires ascending { SfidsAscend flows.now }
        requires past { All (IsPast at.now.frame) flows.now }
        requires within { total_need at.now flows.now ≤ at.now.slice.length }
        // Due grants come whole and first, then each flow's base, then the rest by rank and SFID.
        ensures elements { IfOk result (λ served. served.elements ≡ elements_of (R.policy ranking.now) at.now flows.now) }
        // No minislot is idle while a backlog is not fully granted.
        ensures busy { IfOk result (λ _. All (LeavesNothingIdle (R.policy ranking.now) at.now flows.now) flows.now) }
        // What is granted to backlogs is the defined list, by the policy of what ranks the flows.
        ensures granted { IfOk result (λ served. served.granted ≡ granted_of (R.policy ranking.now) at.now flows.now) }
    {
        let slice = at.get_slice();
        let room = separate(
            &mut self.pieces,
            &mut self.buckets,
            alloc,
            flows,
            at,
            ranking,
        )?;
        self.buckets.serve(&mut self.awards, room)?;
        let mut granted = replace(&mut self.granted, Vec::new(alloc));
        grants_of_awards(&mut granted, self.awards.as_slice())?;
        push_awards(&mut self.pieces, self.awards.as_slice(), at)?;
        let mut spans = replace(&mut self.spans, Vec::new(alloc));
        pack(&mut spans, &slice, self.pieces.as_slice())?;
        let mut sids = replace(&mut self.pending, Vec::new(alloc));
        pending(&mut sids, self.awards.as_slice())?;
        Ok(Served {
            elements: Elements::new(ElementsFields {
                slice,
                spans: Listed::from_vec(spans),
                pending: Listed::from_vec(sids),
            }),
            granted: Listed::from_vec(granted),
        })
    }
}

/// Schedules a frame: returns who is granted which minislots of a slice in a frame
/// (CM-SP-MULPIv3.1, 7.2: the order and the sums are implementation-specific).
///
/// Each flow that is due has its unsolicited grants or one minislot to ask in. Of each backlog as
/// much is granted as the flow's reserved rate covers, and what is left of the slice goes to the
/// flows by rank: no minislot is idle while a backlog is not all granted. The caller knows that the
/// flows are sorted by SFID, that none is of a later frame, and that what their parameter sets need
/// fits the slice.
pub fn schedule<R: Ranks>(
    alloc: Global,
    flows: &[Flowing],
    at: &At,
    ranking: &R,
) -> Result<Served, AllocError>
    requires ascending { SfidsAscend flows.now }
    requires past { All (IsPast at.now.frame) flows.now }
    requires within { total_need at.now flows.now ≤ at.now.slice.length }
    // Due grants come whole and first, then each flow's base, then the rest by rank and SFID.
    ensures elements { IfOk result (λ served. served.elements ≡ elements_of (R.policy ranking.now) at.now flows.now) }
    // No minislot is idle while a backlog is not fully granted.
    ensures busy { IfOk result (λ _. All (LeavesNothingIdle (R.policy ranking.now) at.now flows.now) flows.now) }
    // What is granted to backlogs is the defined list, by the policy of what ranks the flows.
    ensures granted { IfOk result (λ served. served.granted ≡ granted_of (R.policy ranking.now) at.now flows.now) }
{
    Scheduler::new(alloc).schedule(alloc, flows, at, ranking)
}
