ghost use Rattle.std.specs.Prelude.{◌≡◌, ◌≤◌};
ghost use Rattle.grant_policy.specs.RankFacts.{IsRankInput};

use std::marker::Model;

/// What a flow's rank is computed from. Contracts see its facts: `priority`, `age` and `backlog`.
#[derive(Clone, Copy, Debug, PartialEq, Eq)]
pub struct RankInput {
    priority: u8,
    age: u8,
    backlog: u16,
}

impl Model for RankInput {
    ghost use Rattle.std.specs.Prelude.{◌≤◌};
    ghost use Rattle.grant_policy.specs.RankFacts.{RankFacts};

    ghost Value = { RankFacts };

    ghost view = { λ i. record { priority = i.priority; age = i.age; backlog = i.backlog } };

    ghost invariant = { λ i. i.priority ≤ 7 };

    ghost inverse = { λ facts. record { priority = facts.priority; age = facts.age; backlog = facts.backlog } };
}

impl RankInput {
    /// Returns the facts of a flow: its traffic priority of 0 to 7, the frames that it has waited
    /// (255 means all longer waits), and the minislots asked for and not yet granted.
    pub fn new(priority: u8, age: u8, backlog: u16) -> Self
        requires { priority ≤ 7 }
        ensures { result ≡ record { priority = priority; age = age; backlog = backlog } }
    {
        RankInput {
            priority,
            age,
            backlog,
        }
    }

    /// Returns the traffic priority, 0 to 7.
    pub fn get_priority(&self) -> u8
        ensures value { result ≡ self.now.priority }
        ensures at_most_seven { self.now.priority ≤ 7 }
    {
        self.priority
    }

    /// Returns the frames waited, held at 255.
    pub fn get_age(&self) -> u8
        ensures { result ≡ self.now.age }
    {
        self.age
    }

    /// Returns the minislots asked for and not yet granted.
    pub fn get_backlog(&self) -> u16
        ensures { result ≡ self.now.backlog }
    {
        self.backlog
    }

    /// States the ranges that every input keeps: a priority of at most 7, an age of one byte, a
    /// backlog of two.
    pub(crate) fn ranges(&self)
        ensures { IsRankInput self.now }
    {
        let RankInput {
            priority: _priority,
            age: _age,
            backlog: _backlog,
        } = *self;
    }
}
