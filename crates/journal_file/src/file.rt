//! The file of a journal, as a device.
ghost use Rattle.std.specs.Prelude.{◌≡◌, length};
ghost use Rattle.journal_file.specs.Disk.{file_content, MayLeave, MightLeave, failures};

use crate::calls::FileCall;
use crate::folder::JournalFolder;
use crate::mirror::overwrite;
use http_server::Log;
use line_journal::{Device, DeviceError};
use std::alloc::Global;
use std::fs::File;
use std::os::unix::fs::FileExt;

/// Holds the open file of a journal, the bytes that a read returns, and a record of the calls that were made.
#[derive(Drop)]
pub struct JournalFile {
    pub(crate) alloc: Global,
    pub(crate) folder: JournalFolder,
    pub(crate) file: File,
    pub(crate) bytes: Vec<u8>,
    /// Whether no call has failed. After one has, the file may have other bytes than these.
    pub(crate) usable: bool,
    pub(crate) log: Log<FileCall, Vec<u8>>,
    pub(crate) ghost same: { bytes.items ≡ file_content log.items },
}

impl Device for JournalFile {
    ghost use Rattle.journal_file.specs.Events.{counts_now, only_now};

    ghost seen = { λ f. f.bytes.items };

    ghost may_leave = { λ f c. MayLeave f.log.items c };

    ghost moment = { λ f. length f.log.items };

    ghost left_since = { λ f t c. MightLeave f.log.items t c };

    ghost faults = { λ f. failures f.log.items };

    ghost counts_now = { λ f t c le left. counts_now f.log.items t c le left };

    ghost only_now = { λ f c might. only_now f.log.items c might };

    fn read(&mut self, alloc: Global) -> Result<Vec<u8>, DeviceError> {
        if !self.usable {
            self.log = self.log.and(&FileCall::RefuseRead, &Vec::new(self.alloc));
            return Err(DeviceError::Failed);
        }
        Ok(self.bytes.to_vec(alloc)?)
    }

    fn write_at(&mut self, at: usize, bytes: &[u8]) -> Result<(), DeviceError> {
        let given = bytes.to_vec(self.alloc)?;
        overwrite(&mut self.bytes, at, bytes)?;
        let done = self.usable && self.file.write_all_at(bytes, at as u64).is_ok();
        self.log = self.log.and(&FileCall::Write { at, done }, &given);
        self.usable = done;
        if done {
            Ok(())
        } else {
            Err(DeviceError::Failed)
        }
    }

    fn truncate(&mut self, len: usize) -> Result<(), DeviceError> {
        let done = self.usable && self.file.set_len(len as u64).is_ok();
        self.bytes.truncate(len);
        self.log = self
            .log
            .and(&FileCall::Truncate { len, done }, &Vec::new(self.alloc));
        self.usable = done;
        if done {
            Ok(())
        } else {
            Err(DeviceError::Failed)
        }
    }

    fn sync(&mut self) -> Result<(), DeviceError> {
        let done = self.usable && self.file.sync_data().is_ok();
        self.log = self
            .log
            .and(&FileCall::Sync { done }, &Vec::new(self.alloc));
        self.usable = done;
        if done {
            Ok(())
        } else {
            Err(DeviceError::Failed)
        }
    }

    fn replace(&mut self, bytes: &[u8]) -> Result<(), DeviceError> {
        let next = bytes.to_vec(self.alloc)?;
        let file = if self.usable {
            self.folder.replace_file(bytes).ok()
        } else {
            None
        };
        let Some(file) = file else {
            self.log = self.log.and(&FileCall::Replace { done: false }, &next);
            self.usable = false;
            return Err(DeviceError::Failed);
        };
        self.file = file;
        self.log = self.log.and(&FileCall::Replace { done: true }, &next);
        self.bytes = next;
        Ok(())
    }
}
