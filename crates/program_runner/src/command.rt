//! A command that is performed, with what it needs besides its streams.

ghost use Rattle.std.specs.Prelude.{◌≡◌};
ghost use Rattle.clap.specs.Walk.{texts};
ghost use Rattle.command_line.specs.Order.{asked_of};
ghost use Rattle.program_runner.specs.Answered.{IsWordAnswer};

use crate::restoring::run_restore;
use crate::resuming::run_resume;
use crate::snapshot_command::run_snapshot;
use command_line::{CommandWord, ServiceWord, UnknownKeyHandling};
use plant_script::{Ending, run_program_with_reasons};
use std::alloc::Global;
use std::io::{BufRead, Write};
use std::sync::Wait;
use std::thread::Threads;

/// A command that is performed, with what it needs besides its streams.
#[derive(Drop)]
pub(crate) struct Command<'a, H> {
    pub(crate) rt: &'a H,
    /// The system, of which journals are opened.
    pub(crate) host: &'a HostRuntime,
    pub(crate) alloc: Global,
    pub(crate) word: CommandWord<'a>,
    /// Words of the command without its options.
    pub(crate) words: &'a [&'a str],
    pub(crate) unknown_keys: UnknownKeyHandling,
    pub(crate) ending: Ending,
}

impl<H: Threads + Wait + Sync> Command<'_, H> {
    /// Performs the command without its options, `run` as on a plant file. Returns the status.
    pub(crate) fn run<R: BufRead, W: Write, E: Write>(
        &self,
        reader: &mut R,
        writer: &mut W,
        reasons: &mut E,
    ) -> u8
        ensures { IsWordAnswer (asked_of self.now.word) (texts self.now.words.now) (R.remaining reader.old) result
            (W.contents writer.old) (W.contents writer.new) }
    {
        match self.word {
            CommandWord::Service(ServiceWord::Resume) => run_resume(
                self.alloc, reader, writer, reasons,
            ),
            CommandWord::Service(ServiceWord::Restore) => run_restore(
                self.alloc, reader, writer, reasons,
            ),
            CommandWord::Service(ServiceWord::Snapshot) => run_snapshot(
                self.alloc, reader, writer, reasons,
            ),
            CommandWord::Order(_word) => run_program_with_reasons(
                self.rt,
                self.alloc,
                self.words,
                reader,
                writer,
                reasons,
                self.ending,
            ),
        }
    }
}
