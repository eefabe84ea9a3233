//! What flows claim for their backlogs.

ghost use Rattle.std.specs.Prelude.{◌≡◌, ◌≤◌};
ghost use Rattle.slice_scheduler.specs.Claims.{base_of, claim_of, taken_of};
ghost use Rattle.slice_scheduler.specs.Servable.{IsPast, need_at};
ghost use Rattle.slice_scheduler.specs.Wanted.{IsClaim};

use crate::claim::Claim;
use crate::flowing::{At, Flowing};
use grant_policy::{RankInput, Ranks, rank_at_most_63};

/// Returns the minislots of a flow's backlog that its reserved rate covers.
fn base(at: &At, flow: &Flowing) -> u16
    ensures value { result ≡ base_of at.now flow.now }
    ensures most { result ≤ flow.now.backlog }
{
    if flow.backlog == 0 {
        return 0;
    }
    let reserve = at.get_units().reserve(flow.set.get_min_reserved_rate());
    u32::from(flow.backlog).min(reserve) as u16
}

/// Returns what a flow claims.
pub(crate) fn claim<R: Ranks>(flow: &Flowing, at: &At, ranking: &R) -> Claim
    requires { IsPast at.now.frame flow.now }
    ensures value { result ≡ claim_of (R.policy ranking.now) at.now flow.now }
    ensures sound { IsClaim result }
{
    let age = (at.get_frame() - flow.since).min(255) as u8;
    let input = RankInput::new(flow.set.get_priority(), age, flow.backlog);
    let base = base(at, flow);
    Claim {
        sfid: flow.sfid,
        sid: flow.sid,
        rank: ranking.rank(&input),
        base,
        left: flow.backlog - base,
    }
}

/// States that what a flow claims has the numbers of a claim, whether it asks or not. Does nothing.
pub(crate) fn always_claims<R: Ranks>(flow: &Flowing, at: &At, ranking: &R)
    requires { IsPast at.now.frame flow.now }
    ensures { IsClaim (claim_of (R.policy ranking.now) at.now flow.now) }
{
    // For the proof: no policy ranks above 63.
    rank_at_most_63();
    let _priority = flow.set.get_priority();
    let _backlog = flow.backlog;
    let _frame = at.get_frame();
    let _policy = ranking.policy();
}

/// States that what a flow has before the rest is shared is no more than its parameter set needs.
/// Does nothing.
pub(crate) fn always_within(flow: &Flowing, at: &At)
    requires { IsPast at.now.frame flow.now }
    ensures { taken_of at.now flow.now ≤ need_at at.now flow.now }
{
    // For the proof: what the types of these numbers keep.
    let _fields = flow.set.get_fields();
    let _backlog = flow.backlog;
    let _units = at.get_units();
}
