//! Spans of minislots.

ghost use Rattle.std.specs.Prelude.{◌≡◌};
ghost use Rattle.slice_scheduler.specs.Iuc.{iuc_number};

use lists::Listed;

/// Interval Usage Codes (CM-SP-MULPIv3.1, 6.4.4): those that this scheduler uses.
#[derive(Clone, Copy, Debug, PartialEq, Eq)]
pub enum Iuc {
    /// 1, a region for requests.
    Request,
    /// 5, a grant of few minislots.
    Short,
    /// 6, a grant of more.
    Long,
}

impl Iuc {
    /// Returns the number on the wire.
    pub fn number(self) -> u8
        ensures { result ≡ iuc_number self }
    {
        match self {
            Iuc::Request => 1,
            Iuc::Short => 5,
            Iuc::Long => 6,
        }
    }
}

/// Minislots granted to a SID. Idle ones have SID 0 and `Iuc::Long`.
#[derive(Clone, Copy, Debug, PartialEq, Eq)]
pub struct Span {
    /// To whom: 0 is nobody.
    pub sid: u16,
    /// For what use.
    pub iuc: Iuc,
    /// The first minislot.
    pub start: u16,
    /// How many minislots.
    pub len: u16,
}

/// Spans one after the other.
pub type Spans = Listed<Span>;
