//! The program over any source and sink, and its exit status.

ghost use Rattle.std.specs.Prelude.{◌≡◌, drop, false, map, string_bytes, Err};
ghost use Rattle.program_io.specs.declared.arguments.LineFault.{LineFault};
ghost use Rattle.shell_main.specs.declared.program.ProgramFault.TheVariants.{Line};
ghost use Rattle.shell_main.specs.Program.{EndsShell, status_of, told_apart};

use crate::ShellFault;
use crate::arguments::{Ask, read_arguments};
use crate::serving::shell_by;
use program_io::{LineFault, Sink, Source, write_whole};
use std::alloc::Global;
use std::sync::Wait;
use std::thread::Threads;
use thiserror::Error;

/// Why the program did not do what was requested.
#[derive(Clone, Copy, Debug, PartialEq, Eq, Error)]
pub enum ProgramFault {
    /// The command line requests nothing.
    #[error(transparent)]
    Line(LineFault),
    /// The shell, or writing the help text, ended early.
    #[error(transparent)]
    Shell(ShellFault),
    /// The file that the command line names can't be opened.
    #[error("open failed")]
    Open,
    /// A write failed since nobody reads the pipe on standard output any more.
    #[error("closed pipe")]
    ClosedPipe,
}

/// Does what the arguments request; the first is the program's name. Answers each line before it
/// reads on, or writes the help text or the version. The reader is over the file that the arguments
/// name (`input_file`), or over standard input.
///
/// # Errors
///
/// `Line` if the arguments request nothing; reader and writer are then unchanged. `Shell` with the
/// fault of the shell, or with `Write` if the help text or the version was not written completely.
pub fn run_program<R: Threads + Wait + Sync, S: Source, W: Sink>(
    rt: &R,
    alloc: Global,
    args: &[String],
    reader: &mut S,
    writer: &mut W,
) -> Result<(), ProgramFault>
    requires reader { S.is_failed reader.old ≡ false }
    requires writer { W.is_failed writer.old ≡ false }
    ensures ran { EndsShell (map string_bytes (drop 1 args.now))
        (S.left reader.old)
        (record { left = S.left reader.new; failed = S.is_failed reader.new }) (W.taken writer.old)
        (record { taken = W.taken writer.new; failed = W.is_failed writer.new; flushed = W.is_flushed writer.new })
        result }
    ensures bad_line { (f : LineFault) → result ≡ Err (Line f)
        → (reader.new ≡ reader.old) × (writer.new ≡ writer.old) }
{
    match read_arguments(alloc, args) {
        Ok(Ask::Serve { options, .. }) => {
            match shell_by(rt, alloc, options, reader, writer) {
                Ok(_) => Ok(()),
                Err(fault) => Err(ProgramFault::Shell(fault)),
            }
        }
        Ok(Ask::Help(text) | Ask::Version(text)) => {
            match write_whole(writer, text.as_str().as_bytes()) {
                Ok(()) => Ok(()),
                Err(_) => Err(ProgramFault::Shell(ShellFault::Write)),
            }
        }
        Err(fault) => Err(ProgramFault::Line(fault)),
    }
}

/// The outcome, with a failed write to a pipe that is closed as a fault of its own.
pub fn with_closed_pipe(
    outcome: Result<(), ProgramFault>,
    is_closed: bool,
) -> Result<(), ProgramFault>
    ensures { result ≡ told_apart is_closed outcome }
{
    match outcome {
        Err(ProgramFault::Shell(ShellFault::Write)) if is_closed => Err(ProgramFault::ClosedPipe),
        other => other,
    }
}

/// The exit status of the program. The text of a fault is its message.
pub fn exit_status(outcome: Result<(), ProgramFault>) -> u8
    ensures { result ≡ status_of outcome }
{
    match outcome {
        Ok(()) => 0,
        Err(ProgramFault::Line(LineFault::Bad)) => 2,
        Err(ProgramFault::ClosedPipe) => 141,
        Err(
            ProgramFault::Line(LineFault::OutOfMemory)
            | ProgramFault::Shell(_)
            | ProgramFault::Open,
        ) => 1,
    }
}
