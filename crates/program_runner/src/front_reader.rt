//! A reader that keeps the plant file of what is read.

ghost use Rattle.std.specs.Prelude.{◌≡◌};

use line_service::read_plant_text;
use std::alloc::Global;
use std::io;
use std::io::Read;

/// A reader that keeps what is read of another one, up to the line of three dashes.
#[derive(Drop)]
pub(crate) struct FrontReader<'a, R> {
    reader: &'a mut R,
    /// What was read up to that line. It is shorter if memory ran out.
    front: Vec<u8>,
}

impl<'a, R: Read> FrontReader<'a, R> {
    /// Returns a reader of which nothing was read.
    pub(crate) fn new(alloc: Global, reader: &'a mut R) -> FrontReader<'a, R>
        ensures { result.reader ≡ reader.entry }
    {
        FrontReader {
            reader,
            front: Vec::new(alloc),
        }
    }

    /// Returns the plant file that was read, or nothing if memory runs out.
    pub(crate) fn plant_file(&self, alloc: Global) -> Option<Vec<u8>> {
        let mut front = self.front.as_slice();
        read_plant_text(alloc, &mut front).ok()
    }
}

/// Returns whether bytes end with the line of three dashes.
fn has_bar(front: &[u8]) -> bool {
    front == b"---\n".as_slice() || front.ends_with(b"\n---\n")
}

impl<R: Read> Read for FrontReader<'_, R> {
    ghost remaining = { λ r. R.remaining r.reader.now };

    fn read(&mut self, buf: &mut [u8]) -> io::Result<usize> {
        let count = self.reader.read(buf)?;
        if !has_bar(self.front.as_slice()) {
            let _shorter = self.front.extend_from_slice(&buf[..count]);
        }
        Ok(count)
    }
}
