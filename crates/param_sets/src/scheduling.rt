//! Kinds of scheduling.

ghost use Rattle.std.specs.Prelude.{◌≡◌};
ghost use Rattle.param_sets.specs.Scheduling.{scheduling_number, scheduling_of};

/// Service Flow Scheduling Type (CM-SP-MULPIv3.1, Annex C, subtype 15): the kinds that this profile takes.
#[derive(Clone, Copy, Debug, PartialEq, Eq)]
pub enum Scheduling {
    /// 2, best effort.
    BestEffort,
    /// 3, non-real-time polling service.
    NonRealTimePolling,
    /// 4, real-time polling service.
    RealTimePolling,
    /// 6, unsolicited grant service.
    UnsolicitedGrant,
}

impl Scheduling {
    /// Returns the number on the wire.
    pub fn number(self) -> u8
        ensures { result ≡ scheduling_number self }
    {
        match self {
            Scheduling::BestEffort => 2,
            Scheduling::NonRealTimePolling => 3,
            Scheduling::RealTimePolling => 4,
            Scheduling::UnsolicitedGrant => 6,
        }
    }

    /// Returns the kind that a message states: best effort where it states none; None where it
    /// states another number.
    pub fn from_stated_number(number: Option<u8>) -> Option<Scheduling>
        ensures { result ≡ scheduling_of number }
    {
        match number {
            None | Some(2) => Some(Scheduling::BestEffort),
            Some(3) => Some(Scheduling::NonRealTimePolling),
            Some(4) => Some(Scheduling::RealTimePolling),
            Some(6) => Some(Scheduling::UnsolicitedGrant),
            Some(_) => None,
        }
    }
}
