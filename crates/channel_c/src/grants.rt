//! The grants of a frame in the caller's buffer.

ghost use Rattle.std.specs.Prelude.{◌≡◌, ◌≤◌, ◌+◌, ◌++◌, length, map, take, drop};
ghost use Rattle.channel_c.specs.Grants.{granted_as, pending_as};

use slice_scheduler::Span;

/// A grant of minislots to a SID, or a grant pending, which has IUC 0 and no minislots.
#[repr(C)]
#[derive(Clone, Copy)]
pub struct Grant {
    /// To whom: 0 is nobody.
    pub sid: u16,
    /// The Interval Usage Code (CM-SP-MULPIv3.1, 6.4.4): 1, 5 or 6; 0 for a grant pending.
    pub iuc: u16,
    /// The first minislot.
    pub start: u16,
    /// How many minislots.
    pub length: u16,
}

/// Writes spans at the beginning of a buffer, which has room for them.
pub fn put_granted(granted: &[Span], room: &mut [Grant])
    requires { length granted.now ≤ length room.old }
    ensures written { take (length granted.now) room.new ≡ map granted_as granted.now }
    ensures room { length room.new ≡ length room.old }
{
    for (place, span) in granted.iter().enumerate() {
        room[place] = Grant {
            sid: span.sid,
            iuc: u16::from(span.iuc.number()),
            start: span.start,
            length: span.len,
        };
    }
}

/// Writes grants pending at the beginning of a buffer, which has room for them.
pub fn put_pending(pending: &[u16], room: &mut [Grant])
    requires { length pending.now ≤ length room.old }
    ensures written { take (length pending.now) room.new ≡ map pending_as pending.now }
    ensures room { length room.new ≡ length room.old }
{
    for (place, sid) in pending.iter().enumerate() {
        room[place] = Grant {
            sid: *sid,
            iuc: 0,
            start: 0,
            length: 0,
        };
    }
}
