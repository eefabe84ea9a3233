//! A service flow.

ghost use Rattle.std.specs.Prelude.{◌≡◌, ◌==◌, ◌+◌, ◌<◌, if◌then◌else◌, is_some, IfSome, Some, None};
ghost use Rattle.flow_table.specs.Flow.{committed_of, asks_for_grants, flow_after_ack, taken_back, flow_after_request, flow_after_grant, activity_of};

use admission::Budget;
use dsx_messages::Modem;
use param_sets::{ParamSet, Scheduling, Sets, Units, need_if};

/// What a request asked for, from its answer to its acknowledgement.
#[derive(Clone, Copy, Debug, PartialEq, Eq)]
pub struct Pending {
    /// The sets that the flow has once the answer is acknowledged.
    pub sets: Sets,
    /// Whether the request gave the flow its SID: then the flow loses it where the answer is not acknowledged.
    pub sid_is_new: bool,
}

/// A service flow of an operator (CM-SP-MULPIv3.1, 7.5), kept under its SFID.
#[derive(Clone, Copy, Debug, PartialEq, Eq)]
pub struct Flow {
    /// Whose flow it is.
    pub modem: Modem,
    /// The Service Identifier that its grants name: none where no set is admitted or about to be.
    pub sid: Option<u16>,
    /// Its parameter sets.
    pub sets: Sets,
    /// What waits for an acknowledgement.
    pub pending: Option<Pending>,
    /// The frame number from which its intervals count.
    pub start: u32,
    /// The minislots asked for and not yet granted.
    pub backlog: u16,
    /// The frame number since which the backlog waits.
    pub since: u32,
}

/// Whose the flow of a SID is, and whether it may ask for grants.
#[derive(Clone, Copy, Debug, PartialEq, Eq)]
pub struct Asker {
    /// The service flow identifier.
    pub sfid: u32,
    /// Whose flow it is.
    pub modem: Modem,
    /// Whether it may ask for grants.
    pub may_ask: bool,
}

/// Whether a flow has an active set.
#[derive(Clone, Copy, Debug, PartialEq, Eq)]
pub(crate) enum Activity {
    /// It has none, and is not scheduled.
    Idle,
    /// It has one.
    Active,
}

/// Returns whether a flow with this active set asks for its grants: it has one, and its grants are
/// not unsolicited.
fn asks_for_grants(active: Option<ParamSet>) -> bool
    ensures { result ≡ asks_for_grants active }
{
    match active {
        None => false,
        Some(set) => set.get_scheduling() != Scheduling::UnsolicitedGrant,
    }
}

impl Flow {
    /// Returns what it has committed: of minislots and of elements the greater of what its admitted
    /// set needs and of what the one that is pending needs.
    #[inline(always)]
    pub fn committed(&self, units: Units) -> Budget
        ensures { result ≡ committed_of units self.now }
    {
        let admitted = need_if(units, self.sets.get_admitted());
        let pending = match self.pending {
            None => Budget::NOTHING,
            Some(pending) => need_if(units, pending.sets.get_admitted()),
        };
        Budget {
            minislots: admitted.minislots.max(pending.minislots),
            elements: admitted.elements.max(pending.elements),
        }
    }

    /// Returns whether it may ask for grants: it has an active set, and its grants are not
    /// unsolicited.
    pub fn asks_for_grants(&self) -> bool
        ensures { result ≡ asks_for_grants self.now.sets.active }
    {
        asks_for_grants(self.sets.get_active())
    }

    /// Returns whether it has an active set.
    pub(crate) fn activity(&self) -> Activity
        ensures { result ≡ activity_of self.now }
    {
        match self.sets.get_active() {
            None => Activity::Idle,
            Some(_) => Activity::Active,
        }
    }

    /// Makes the pending sets the flow's, acknowledged in this frame: its intervals count from this frame, its SID is free
    /// where none is admitted, and its backlog is cleared where it may not ask.
    pub fn acknowledge(&mut self, frame: u32)
        ensures value { self.new ≡ flow_after_ack frame self.old }
        ensures sid { IfSome self.new.sid (λ sid. self.old.sid ≡ Some sid) }
    {
        if let Some(pending) = &self.pending {
            self.sid = sid_under(&pending.sets, self.sid);
            self.backlog = backlog_under(&pending.sets, self.backlog);
            self.sets = pending.sets;
            self.start = frame;
            self.pending = None;
        }
    }

    /// Takes the pending sets back, and the SID where it came with them.
    pub fn take_back(&mut self)
        ensures value { self.new ≡ taken_back self.old }
        ensures sid { IfSome self.new.sid (λ sid. self.old.sid ≡ Some sid) }
    {
        if let Some(pending) = &self.pending {
            self.sid = sid_without(pending, self.sid);
            self.pending = None;
        }
    }

    /// Takes the minislots that the modem requests in this frame as the backlog. It waits since
    /// this frame if there was none before.
    pub fn request(&mut self, minislots: u16, frame: u32)
        ensures value { self.new ≡ flow_after_request minislots frame self.old }
        ensures sid { self.new.sid ≡ self.old.sid }
    {
        self.since = since_asked(self.backlog, self.since, frame);
        self.backlog = minislots;
    }

    /// Takes so many granted minislots of this frame off the backlog. The rest waits since the next
    /// frame.
    pub fn grant(&mut self, minislots: u16, frame: u32)
        requires { frame < 4294967295 }
        ensures value { self.new ≡ flow_after_grant minislots frame self.old }
        ensures sid { self.new.sid ≡ self.old.sid }
    {
        let left = self.backlog.saturating_sub(minislots);
        self.since = since_granted(left, self.since, frame);
        self.backlog = left;
    }
}

/// Returns the SID of a flow whose sets these become: none where none is admitted.
fn sid_under(sets: &Sets, sid: Option<u16>) -> Option<u16>
    ensures { result ≡ if is_some sets.now.admitted then sid else None }
{
    if sets.get_admitted().is_some() {
        sid
    } else {
        None
    }
}

/// Returns the backlog of a flow whose sets these become: none where it may not ask.
fn backlog_under(sets: &Sets, backlog: u16) -> u16
    ensures { result ≡ if asks_for_grants sets.now.active then backlog else 0 }
{
    if asks_for_grants(sets.get_active()) {
        backlog
    } else {
        0
    }
}

/// Returns the SID of a flow of which this is taken back.
fn sid_without(pending: &Pending, sid: Option<u16>) -> Option<u16>
    ensures { result ≡ if pending.now.sid_is_new then None else sid }
{
    if pending.sid_is_new { None } else { sid }
}

/// Returns the frame since which a backlog waits that was requested in this frame.
fn since_asked(backlog: u16, since: u32, frame: u32) -> u32
    ensures { result ≡ if backlog == 0 then frame else since }
{
    if backlog == 0 { frame } else { since }
}

/// Returns the frame since which the rest of a backlog waits after a grant of this frame.
fn since_granted(left: u16, since: u32, frame: u32) -> u32
    requires { frame < 4294967295 }
    ensures { result ≡ if left == 0 then since else frame + 1 }
{
    if left == 0 { since } else { frame + 1 }
}
