//! Opening the file of a journal in its folder.
ghost use Rattle.std.specs.Prelude.{◌≡◌, IfOk};
ghost use Rattle.line_journal.specs.Device.{Only};
ghost use Rattle.journal_file.specs.Disk.{MayLeave};
ghost use Rattle.journal_file.specs.declared.opening.JournalOpenFault.TheVariants as opening_faults;
ghost use Rattle.journal_file.specs.File.{seen_bytes, calls_made, calls_at_opening};

use crate::calls::FileCall;
use crate::file::JournalFile;
use crate::folder::JournalFolder;
use http_server::Log;
use std::alloc::{AllocError, Global};
use std::fs::{File, OpenOptions, TryLockError, metadata};
use std::io;
use std::io::Read;
use std::os::unix::fs::OpenOptionsExt;

/// Says why the file of a journal was not opened.
#[derive(Clone, Copy, Debug)]
pub enum JournalOpenFault {
    /// There is no folder of this name.
    NotAFolder,
    /// A call of the system failed on this.
    Io { part: JournalPart, error: io::Error },
    /// Another process, or another part of this one, has the folder's lock.
    InUse,
    NoMemory,
}

/// Says what a call of the system failed on.
#[derive(Clone, Copy, Debug, PartialEq, Eq)]
pub enum JournalPart {
    Folder,
    Lock,
    Journal,
}

impl From<AllocError> for JournalOpenFault {
    ghost from_gives = { λ _ e. e ≡ opening_faults.NoMemory };

    fn from(_: AllocError) -> Self {
        JournalOpenFault::NoMemory
    }
}

/// Returns why a file was not opened, where a call failed on this part.
fn open_fault(part: JournalPart, error: io::Error) -> JournalOpenFault {
    match error.kind() {
        io::ErrorKind::OutOfMemory => JournalOpenFault::NoMemory,
        _ => JournalOpenFault::Io { part, error },
    }
}

/// Opens a file for reading and writing, and makes it if it is missing.
fn open_or_make(rt: &HostRuntime, path: &str) -> io::Result<File> {
    OpenOptions::new()
        .read(true)
        .write(true)
        .create(true)
        .mode(0o600)
        .open(rt, path)
}

/// Takes the lock of a folder, without waiting for it.
fn take_lock(rt: &HostRuntime, path: &str) -> Result<File, JournalOpenFault> {
    let part = JournalPart::Lock;
    let lock = open_or_make(rt, path).map_err(|error| open_fault(part, error))?;
    match lock.try_lock() {
        Ok(()) => Ok(lock),
        Err(TryLockError::WouldBlock) => Err(JournalOpenFault::InUse),
        Err(TryLockError::Error(error)) => Err(JournalOpenFault::Io { part, error }),
    }
}

/// Opens a folder whose lock no one has, and takes that.
fn open_folder(rt: &HostRuntime, folder: &str) -> Result<JournalFolder, JournalOpenFault> {
    let alloc = rt.alloc();
    let part = JournalPart::Folder;
    match metadata(rt, folder) {
        Ok(found) if found.is_dir() => {}
        _ => return Err(JournalOpenFault::NotAFolder),
    }
    let handle = File::open(rt, folder).map_err(|error| open_fault(part, error))?;
    let lock = take_lock(rt, format!(in alloc; "{folder}/lock")?.as_str())?;
    Ok(JournalFolder {
        rt: rt.clone()?,
        folder: handle,
        lock,
        journal_path: format!(in alloc; "{folder}/journal")?,
        new_path: format!(in alloc; "{folder}/journal.new")?,
    })
}

/// Reads the file in a folder, and makes it, empty, if it is missing.
fn read_journal(folder: &JournalFolder, alloc: Global) -> io::Result<Vec<u8>> {
    let mut file = open_or_make(&folder.rt, folder.journal_path.as_str())?;
    let mut bytes = Vec::new(alloc);
    file.read_to_end(&mut bytes)?;
    Ok(bytes)
}

impl JournalFile {
    /// Opens the file of a journal in a folder, and makes it, empty, if it is missing. It stays locked until it is dropped:
    /// until then another opening returns `InUse`.
    ///
    /// What was read is written anew, to a file that takes its place: a sync of an earlier process that failed may have left the
    /// system's copy of the file other than the disk has it.
    pub fn open(rt: &HostRuntime, folder: &str) -> Result<JournalFile, JournalOpenFault>
        // This was read of the file, which was then written anew and synced. No clause says which fault is returned, or
        // that the folder is the one that was given.
        ensures opened { IfOk result (λ f. calls_made f ≡ calls_at_opening f) }
        // So a crash leaves what was read.
        ensures durable { IfOk result (λ f. Only (seen_bytes f) (MayLeave (calls_made f))) }
    {
        let alloc = rt.alloc();
        let part = JournalPart::Journal;
        let folder = open_folder(rt, folder)?;
        let bytes = read_journal(&folder, alloc).map_err(|error| open_fault(part, error))?;
        let file = folder
            .replace_file(&bytes)
            .map_err(|error| open_fault(part, error))?;
        let log = Log::new().and(&FileCall::Open, &bytes);
        Ok(JournalFile {
            alloc,
            folder,
            file,
            bytes,
            usable: true,
            log,
        })
    }
}
