//! How long responses are kept.

ghost use Rattle.std.specs.Prelude.{◌≡◌, ◌≤◌, ◌<◌, ◌^◌};
ghost use Rattle.transactions.specs.Waits.{IsLasting};

use std::marker::Model;

/// How long a response waits for its acknowledgement, how often it is retransmitted, and how long
/// an answered transaction is held, in ticks.
#[derive(Clone, Copy, Debug, PartialEq, Eq)]
pub struct Timers {
    ack_wait: u16,
    resends: u8,
    hold: u16,
}

impl Model for Timers {
    ghost use Rattle.std.specs.Prelude.{◌≤◌};
    ghost use Rattle.transactions.specs.Waits.{Waits};

    ghost Value = { Waits };

    ghost view = { λ t. record { ack_wait = t.ack_wait; resends = t.resends; hold = t.hold } };

    ghost invariant = { λ t. (1 ≤ t.ack_wait) × (1 ≤ t.hold) };

    ghost inverse = { λ w. record { ack_wait = w.ack_wait; resends = w.resends; hold = w.hold } };
}

impl Timers {
    /// Returns timers of these numbers: `ack_wait` and `hold` are 1 to 65,535 ticks, `resends` is 0
    /// to 255.
    pub fn new(ack_wait: u16, resends: u8, hold: u16) -> Timers
        requires ack_wait { 1 ≤ ack_wait }
        requires hold { 1 ≤ hold }
        ensures { result ≡ record { ack_wait = ack_wait; resends = resends; hold = hold } }
    {
        Timers {
            ack_wait,
            resends,
            hold,
        }
    }

    /// States both waits are at least one tick: for a caller's proof. Does nothing.
    pub fn always(&self)
        ensures { IsLasting self.now }
    {
        // For the proof: what the type keeps, which is known where a field is read.
        let _ = &self.ack_wait;
    }

    /// Returns how many ticks a response waits for its acknowledgement before it is retransmitted
    /// or abandoned: 1 to 65,535.
    pub fn get_ack_wait(&self) -> u16
        ensures value { result ≡ self.now.ack_wait }
        ensures range { (1 ≤ result) × (result < 2 ^ 16) }
    {
        self.ack_wait
    }

    /// Returns how often a response is retransmitted: 0 to 255 times.
    pub fn get_resends(&self) -> u8
        ensures value { result ≡ self.now.resends }
        ensures range { result < 2 ^ 8 }
    {
        self.resends
    }

    /// Returns how many ticks an answered transaction is held: 1 to 65,535.
    pub fn get_hold(&self) -> u16
        ensures value { result ≡ self.now.hold }
        ensures range { (1 ≤ result) × (result < 2 ^ 16) }
    {
        self.hold
    }
}
