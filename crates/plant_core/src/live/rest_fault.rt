//! Why a core does not rest before a frame.

use plant::Op;

/// Why a core does not rest before a frame. Judged operator by operator, of which the least is
/// named, in the order in which the reasons are listed.
#[derive(Clone, Copy, Debug, PartialEq, Eq)]
pub enum RestFault {
    /// A frame of this operator waits to be collected.
    FrameWaits { op: Op },
    /// The next frame of this operator is another one than that of the first operator.
    NotAtFrame { op: Op },
}
