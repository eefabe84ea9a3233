//! The calls that are made on the file of a journal.

/// Says which call was made on the file, and whether it succeeded (implementation-specific). A call that is not made, since an
/// earlier one failed, is one that did not succeed.
#[derive(Clone, Copy, Debug, PartialEq, Eq)]
pub enum FileCall {
    /// The file and its folder were synced, and then the file was read whole.
    Open,
    /// A read was refused, since an earlier call had failed.
    RefuseRead,
    /// Bytes were written at an offset.
    Write { at: usize, done: bool },
    /// The file was cut to a length.
    Truncate { len: usize, done: bool },
    /// The file was forced onto the disk.
    Sync { done: bool },
    /// A file of these bytes was written next to the file, synced and renamed over it, and the folder was synced.
    Replace { done: bool },
}
