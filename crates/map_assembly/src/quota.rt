//! What an operator may put into a MAP.

ghost use Rattle.std.specs.Prelude.{◌≡◌};
ghost use Rattle.std.specs.List.{list_all};
ghost use Rattle.map_assembly.specs.Part.{quota_of, is_mine, is_slice, is_fitting};

use crate::wire::NOBODYS_SID;
use admission::IdRange;
use plant::OperatorRow;
use slice_scheduler::{Elements, Slice, Span};

/// What an operator may put into a MAP.
#[derive(Clone, Copy, Debug, PartialEq, Eq)]
pub struct Quota {
    /// Its SIDs: 1 to 8,191.
    pub sids: IdRange,
    /// How many elements, next to the one for what is idle.
    pub elements: u16,
}

impl Quota {
    /// Returns the quota of a row's operator.
    pub(crate) fn of(row: &OperatorRow) -> Quota
        ensures { result ≡ quota_of row.now }
    {
        let fields = row.get_fields();
        Quota {
            sids: fields.sids,
            elements: fields.elements,
        }
    }

    /// Returns whether a SID is nobody's or the operator's own.
    fn is_mine(&self, sid: u16) -> bool
        ensures { result ≡ is_mine self.now.sids sid }
    {
        sid == NOBODYS_SID
            || self.sids.get_first() <= sid as u32 && sid as u32 <= self.sids.get_last()
    }

    /// Returns whether each span's SID is nobody's or the operator's own.
    fn has_own_spans(&self, spans: &[Span]) -> bool
        ensures { result ≡ list_all (λ span. is_mine self.now.sids span.sid) spans.now }
    {
        spans.iter().all(|span| self.is_mine(span.sid))
    }

    /// Returns whether each of these SIDs is nobody's or the operator's own.
    fn has_own_sids(&self, sids: &[u16]) -> bool
        ensures { result ≡ list_all (λ sid. is_mine self.now.sids sid) sids.now }
    {
        sids.iter().all(|sid| self.is_mine(*sid))
    }

    /// Returns whether these elements are of the slice, with SIDs that are nobody's or the
    /// operator's own, and are no more than its quota and one.
    pub(crate) fn fits(&self, slice: Slice, part: &Elements) -> bool
        ensures { result ≡ is_fitting self.now slice part.now }
    {
        let spans = part.get_spans();
        let pending = part.get_pending();
        is_slice(part.get_slice(), slice)
            && self.has_own_spans(spans)
            && self.has_own_sids(pending)
            && spans.len() + pending.len() <= self.elements as usize + 1
    }
}

/// Returns whether two slices are the same.
fn is_slice(slice: Slice, other: Slice) -> bool
    ensures { result ≡ is_slice slice other }
{
    slice.get_start() == other.get_start() && slice.get_length() == other.get_length()
}
