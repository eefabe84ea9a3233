//! The folder that the file is in.
use std::alloc::Global;
use std::fs::{File, OpenOptions, rename};
use std::io;
use std::os::unix::fs::{FileExt, OpenOptionsExt};

/// Holds the folder of a journal, with its lock.
#[derive(Drop)]
pub(crate) struct JournalFolder {
    pub(crate) rt: HostRuntime,
    pub(crate) folder: File,
    /// The lock is on a file of its own, since another file takes the place of the journal's.
    pub(crate) lock: File,
    pub(crate) journal_path: String,
    pub(crate) new_path: String,
}

impl JournalFolder {
    /// Writes a file of these bytes next to the journal's, syncs it, renames it over the journal's, and syncs the folder.
    /// Returns the new file.
    pub(crate) fn replace_file(&self, bytes: &[u8]) -> io::Result<File> {
        let file = OpenOptions::new()
            .read(true)
            .write(true)
            .create(true)
            .truncate(true)
            .mode(0o600)
            .open(&self.rt, self.new_path.as_str())?;
        file.write_all_at(bytes, 0)?;
        file.sync_all()?;
        rename(&self.rt, self.new_path.as_str(), self.journal_path.as_str())?;
        self.folder.sync_all()?;
        Ok(file)
    }
}
