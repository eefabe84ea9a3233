//! A file that is read in place of standard input.

use std::alloc::{AllocError, Global};
use std::io::Read;
use std::rt::Files;
use std::{fs, io};

/// What failed of a file.
#[derive(Clone, Copy, Debug, PartialEq, Eq)]
enum Attempt {
    /// To open it.
    Open,
    /// To read it.
    Read,
}

/// A file that is opened when the first byte is read. The first error is noted.
#[derive(Drop)]
pub(crate) struct FileInput<'a, H: Files> {
    rt: &'a H,
    path: &'a str,
    file: Option<H::File>,
    failed: Option<(Attempt, io::Error)>,
}

impl<'a, H: Files> FileInput<'a, H> {
    /// Returns a file that is not open yet.
    pub(crate) fn new(rt: &'a H, path: &'a str) -> FileInput<'a, H> {
        FileInput {
            rt,
            path,
            file: None,
            failed: None,
        }
    }

    /// Notes an error, and returns one of its kind.
    fn note(&mut self, attempt: Attempt, error: io::Error) -> io::Error {
        let kind = error.kind();
        self.failed = Some((attempt, error));
        io::Error::from(kind)
    }

    /// Returns what failed, where something did.
    pub(crate) fn reason(&self, alloc: Global) -> Option<Result<String, AllocError>> {
        let path = self.path;
        match &self.failed {
            None => None,
            Some((Attempt::Open, error)) => Some(format!(in alloc;
                "the file {path} cannot be opened: {error}; check its name and its permissions\n"
            )),
            Some((Attempt::Read, error)) => Some(format!(in alloc;
                "the file {path} cannot be read: {error}; name a file that has a plant file or messages\n"
            )),
        }
    }

    /// Opens the file, if that was not done.
    fn open(&mut self) -> io::Result<()> {
        if self.file.is_some() {
            return Ok(());
        }
        match fs::open(self.rt, self.path) {
            Ok(file) => {
                self.file = Some(file);
                Ok(())
            }
            Err(error) => Err(self.note(Attempt::Open, error)),
        }
    }
}

impl<H: Files> Read for FileInput<'_, H> {
    fn read(&mut self, buf: &mut [u8]) -> io::Result<usize> {
        self.open()?;
        let outcome = match &mut self.file {
            Some(file) => file.read(buf),
            None => Ok(0),
        };
        match outcome {
            Ok(count) => Ok(count),
            Err(error) => Err(self.note(Attempt::Read, error)),
        }
    }
}
