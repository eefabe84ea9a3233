//! Reading the input, at most so much of it.

ghost use Rattle.std.specs.Prelude.{◌≡◌, ◌⊎◌, ◌↔◌, ◌<◌, ◌≤◌, length, true, false, Err, IsErr, IfOk, IfSome};
ghost use Rattle.std.specs.Io.{ReadsAtMost};
ghost use Rattle.std.specs.Io.KnownBytes.{ReadConsumes};
ghost use Rattle.plant_script.specs.One.{is_readable};
ghost use Rattle.plant_script.specs.declared.input.AnswerFault.TheVariants.{Memory};

use simdutf8::compat::from_utf8;
use std::alloc::{AllocError, AllocFailed, Global};
use std::io;
use std::io::Read;

/// The most bytes that an input has.
pub const LIMIT: usize = 1_048_576;

/// Why there is no answer.
#[derive(Clone, Copy, Debug, PartialEq, Eq)]
pub enum AnswerFault {
    /// Memory ran out before any effect.
    Memory,
    /// A read failed, or the input is too long or no UTF-8.
    Io,
}

impl From<AllocError> for AnswerFault {
    ghost from_gives = { λ _ fault. fault ≡ Memory };

    fn from(_error: AllocError) -> AnswerFault {
        AnswerFault::Memory
    }
}

impl<T: Drop> From<AllocFailed<T>> for AnswerFault {
    ghost from_gives = { λ _ fault. fault ≡ Memory };

    fn from(_error: AllocFailed<T>) -> AnswerFault {
        AnswerFault::Memory
    }
}

/// Reads the next bytes of a reader into the chunk. Whether the read failed is noted, and none
/// is tried after one that failed.
fn read_chunk<R: Read>(reader: &mut R, chunk: &mut [u8], failed: &mut bool) -> io::Result<usize>
    requires untried { failed.old ≡ false }
    ensures bound { ReadsAtMost result chunk.new }
    ensures bytes { ReadConsumes (R.remaining reader.old) (R.remaining reader.new) result chunk.new }
    ensures failed { IsErr result ↔ (failed.new ≡ true) }
{
    let told = reader.read(chunk);
    *failed = told.is_err();
    told
}

/// Returns all bytes of a reader, which are at most the limit. It reads at most once more than the
/// limit has bytes.
#[tactic(auto, using(crate::proofs::Unreadable::too_long))]
fn read_bytes<R: Read>(
    alloc: Global,
    reader: &mut R,
    failed: &mut bool,
) -> Result<Vec<u8>, AnswerFault>
    requires untried { failed.old ≡ false }
    ensures fits { IfOk result (λ input. length input.items ≤ 1048576) }
    ensures all { IfOk result (λ input. IfSome (R.remaining reader.old) (λ bytes. input.items ≡ bytes)) }
    ensures io { (result ≡ Err AnswerFault.Io)
        → (failed.new ≡ true) ⊎ IfSome (R.remaining reader.old) (λ bytes. 1048576 < length bytes) }
{
    let mut input = Vec::new(alloc);
    let mut chunk = [0u8; 4096];
    for _ in 0..LIMIT + 1 {
        let Ok(count) = read_chunk(reader, &mut chunk, failed) else {
            return Err(AnswerFault::Io);
        };
        if count == 0 {
            return Ok(input);
        }
        input.extend_from_slice(&chunk[..count])?;
        if input.len() > LIMIT {
            return Err(AnswerFault::Io);
        }
    }
    unreachable!()
}

/// Returns the whole input, where it can be read. `AnswerFault::Io` comes only where a read has failed,
/// which is noted, or where the input is too long or no UTF-8; of the latter it is noted how many
/// bytes are.
#[tactic(auto, using(crate::proofs::Unreadable::unreadable_long, crate::proofs::Unreadable::unreadable_text))]
pub fn read_input<R: Read>(
    alloc: Global,
    reader: &mut R,
    failed: &mut bool,
    valid: &mut Option<usize>,
) -> Result<Vec<u8>, AnswerFault>
    requires untried { failed.old ≡ false }
    ensures read { IfOk result (λ input. (is_readable input.items ≡ true)
        × IfSome (R.remaining reader.old) (λ bytes. input.items ≡ bytes)) }
    ensures io { (result ≡ Err AnswerFault.Io)
        → (failed.new ≡ true) ⊎ IfSome (R.remaining reader.old) (λ bytes. is_readable bytes ≡ false) }
{
    let input = read_bytes(alloc, reader, failed)?;
    match from_utf8(input.as_slice()) {
        Ok(_text) => Ok(input),
        Err(error) => {
            *valid = Some(error.valid_up_to());
            Err(AnswerFault::Io)
        }
    }
}
