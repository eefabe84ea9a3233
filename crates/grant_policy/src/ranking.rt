ghost use Rattle.std.specs.Prelude.{◌≡◌, ℕ, ◌≤◌};
ghost use Rattle.grant_policy.specs.Rank.{rank_of};
ghost use Rattle.grant_policy.specs.RankFacts.{RankFacts, IsRankInput};

use crate::{Policy, RankInput};

/// A closure that ranks a flow, 0 to 63; it is made by the program that calls `Ranking::new`.
pub type Ranker = Box<dyn Fn(RankInput) -> u8 + Send>;

/// What ranks the flows of an operator: a policy, or a ranking with a closure of the caller's. Code
/// that is generic over it says what it does by the policy alone.
pub trait Ranks: Drop {
    ghost use Rattle.grant_policy.specs.declared.policy.Policy.{Policy};

    /// The policy that the ranks follow.
    ghost policy: { Self → Policy };

    /// Returns the policy that the ranks follow.
    fn policy(&self) -> Policy
        ensures { result ≡ policy self.now };

    /// Returns the rank of a flow, 0 to 63: the greater goes first.
    fn rank(&self, input: &RankInput) -> u8
        ensures value { result ≡ rank_of (policy self.now) input.now }
        ensures bound { result ≤ 63 };
}

impl Ranks for Policy {
    ghost policy = { λ policy. policy };

    fn policy(&self) -> Policy {
        *self
    }

    fn rank(&self, input: &RankInput) -> u8 {
        rank_by(*self, input)
    }
}

impl Ranks for Ranking {
    ghost policy = { λ ranking. ranking.policy };

    fn policy(&self) -> Policy {
        Ranking::policy(self)
    }

    fn rank(&self, input: &RankInput) -> u8 {
        Ranking::rank(self, input)
    }
}

/// A policy with the closure that ranks flows by it: whatever the closure is, it answers this
/// policy's ranks.
#[derive(Drop)]
pub struct Ranking {
    /// The policy that the ranks follow: what contracts say of a ranking, they say of this field.
    pub policy: Policy,
    rank: Ranker,
    ghost callable: { (i : _) → IsRankInput i → Ranker.pre rank i },
    ghost answers: { (i : _) (n : ℕ) → IsRankInput i → Ranker.post rank i n → n ≡ rank_of policy i },
}

impl Ranking {
    /// Returns the ranking by this policy, over a closure that may be called on every input and
    /// answers the policy's rank.
    pub fn new(policy: Policy, rank: Ranker) -> Self
        requires callable { (i : _) → IsRankInput i → Ranker.pre rank i }
        requires answers { (i : _) (n : ℕ) → IsRankInput i → Ranker.post rank i n → n ≡ rank_of policy i }
        ensures { result.policy ≡ policy }
    {
        Ranking { policy, rank }
    }

    /// Returns the policy that the ranks follow.
    pub fn policy(&self) -> Policy
        ensures { result ≡ self.now.policy }
    {
        self.policy
    }

    /// Returns the rank of a flow, 0 to 63: the greater goes first.
    pub fn rank(&self, input: &RankInput) -> u8
        ensures value { result ≡ rank_of self.now.policy input.now }
        ensures bound { result ≤ 63 }
    {
        // For the proof: the ranges that every input keeps.
        input.ranges();
        (self.rank)(*input)
    }
}

/// Returns the rank that a policy gives an input, 0 to 63: what a closure for `Ranking::new` has to
/// answer.
pub fn rank_by(policy: Policy, input: &RankInput) -> u8
    ensures value { result ≡ rank_of policy input.now }
    ensures bound { result ≤ 63 }
{
    let raised = 8 * input.get_priority();
    match policy {
        Policy::Strict => raised,
        Policy::Aged { step } => raised.saturating_add(input.get_age() / step.get()).min(63),
        Policy::Short => 63 - (input.get_backlog() / 64).min(63) as u8,
    }
}

/// States that no policy ranks above 63.
pub fn rank_at_most_63()
    ensures { (policy : Policy) (facts : RankFacts) → facts.priority ≤ 7 → rank_of policy facts ≤ 63 }
{}
