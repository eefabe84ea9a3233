//! What a schedule returns: the elements and the grants.

use crate::elements::Elements;
use lists::Listed;

/// Minislots granted to the backlogs of flows: SFIDs and minislots.
pub type Grants = Listed<(u32, u16)>;

/// What a schedule returns: the elements and the grants.
#[derive(Debug, Drop)]
pub struct Served {
    /// The elements of the operator's part of the MAP.
    pub elements: Elements,
    /// The minislots granted to backlogs, each more than none, by SFID ascending. Grants that a flow has whatever it asks,
    /// polls and unsolicited ones, are not among them.
    pub granted: Grants,
}
