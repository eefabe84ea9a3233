//! Ranks, by each policy.

use grant_policy::{Policy, RankInput, Ranking, rank_by};
use std::alloc::{AllocError, Global};
use std::process::Abort;

/// Returns whether a ranking whose closure calls `rank_by` gives an input this rank, and reports
/// its policy.
fn ranking_gives(
    alloc: Global,
    policy: Policy,
    input: RankInput,
    wanted: u8,
) -> Result<bool, AllocError> {
    let ranking = Ranking::new(
        policy,
        Box::new(alloc, move |input: RankInput| -> u8 {
            rank_by(policy, &input)
        })?,
    );
    Ok(ranking.rank(&input) == wanted && ranking.policy() == policy)
}

/// Returns whether a policy gives an input this rank, reported by `rank_by` and by a ranking.
fn gives(alloc: Global, policy: Policy, input: RankInput, wanted: u8) -> Result<bool, AllocError> {
    Ok(rank_by(policy, &input) == wanted && ranking_gives(alloc, policy, input, wanted)?)
}

/// A policy, if it is one; a priority, an age and a backlog; and the rank that it gives them.
type RankRow = (Option<Policy>, (u8, u8, u16), u8);

/// Returns whether the policy gives that rank.
fn holds(alloc: Global, row: RankRow) -> Result<bool, AllocError> {
    let (policy, (priority, age, backlog), wanted) = row;
    match policy {
        Some(policy) if priority <= 7 => {
            gives(
                alloc,
                policy,
                RankInput::new(priority, age, backlog),
                wanted,
            )
        }
        _ => Ok(false),
    }
}

#[test]
fn ranks_follow_the_policy(rt: HostRuntime) -> Result<(), AllocError> {
    for row in [
        (Some(Policy::Strict), (7, 0, 0), 56),
        (Policy::aged(5), (3, 12, 0), 26),
        (Policy::aged(5), (3, 255, 0), 63),
        (Some(Policy::Short), (0, 0, 100), 62),
        (Some(Policy::Short), (0, 0, 4096), 0),
    ] {
        assert!(rt; holds(rt.alloc(), row)?);
    }
    Ok(())
}
