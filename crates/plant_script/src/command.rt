//! Between the program and its surroundings: the words after its name, and the status with which it
//! ends.

ghost use Rattle.std.specs.Prelude.{◌≡◌, ◌≢◌, drop, IfOk, IfErr};
ghost use Rattle.std.specs.IoError.{error_kind};
ghost use Rattle.std.specs.Process.{exit_status};
ghost use Rattle.std.specs.declared.io.ErrorKind.TheVariants.{OutOfMemory};

use crate::status::Status;
use std::io;
use std::process::ExitCode;

/// Returns the words after the program's own name, which is first.
pub fn behind_name<'a>(words: &'a [&'a str]) -> &'a [&'a str]
    ensures { result.now ≡ drop 1 words.entry.now }
{
    match words {
        [] => words,
        [_name, behind @ ..] => behind,
    }
}

/// Returns how the program ends: with the status that it answered; where its surroundings let it
/// result in none, with 5 for out of memory, else with 6.
pub fn exit_code(outcome: io::Result<u8>) -> ExitCode
    ensures answered { IfOk outcome (λ status. exit_status result ≡ status) }
    ensures memory { IfErr outcome (λ error. error_kind error ≡ OutOfMemory → exit_status result ≡ 5) }
    ensures other { IfErr outcome (λ error. error_kind error ≢ OutOfMemory → exit_status result ≡ 6) }
{
    match outcome {
        Ok(status) => ExitCode::from(status),
        Err(error) if error.kind() == io::ErrorKind::OutOfMemory => ExitCode::from(
            Status::OutOfMemory.code(),
        ),
        Err(_error) => ExitCode::from(Status::IoError.code()),
    }
}
