//! The program over any source and sink, and its exit status.

ghost use Rattle.std.specs.Prelude.{◌≡◌, ◌≢◌, ◌≤◌, drop, true, false, map, string_bytes, Err};
ghost use Rattle.program_io.specs.declared.arguments.LineFault.{LineFault};
ghost use Rattle.replay_main.specs.declared.fault.ReplayFault.TheVariants.{Close};
ghost use Rattle.replay_main.specs.declared.program.ProgramFault.TheVariants.{Line};
ghost use Rattle.replay_main.specs.ReplayProgram.{EndsReplay, status_of};
ghost use Rattle.replay_main.specs.Replayed.{Replayed};

use crate::arguments::{Ask, read_arguments};
use crate::{ReplayFault, Sink, Source, Summary, rehearse_trace, replay};
use program_io::{DeviceFault, LineFault, write_whole};
use std::alloc::Global;
use std::sync::Wait;
use std::thread::Threads;
use thiserror::Error;

/// Why the program failed.
#[derive(Clone, Copy, Debug, PartialEq, Eq, Error)]
pub enum ProgramFault {
    /// The command line could not be read.
    #[error(transparent)]
    Line(LineFault),
    /// The replay, the rehearsal, or writing the help text failed.
    #[error(transparent)]
    Replay(ReplayFault),
}

/// Does what the arguments ask for; the first is the program's name. Replays the trace, rehearses
/// it, or writes the help text.
///
/// # Errors
///
/// `Line` if the arguments are bad, or memory ran out while they were read. Reader and writer are
/// unchanged then. `Replay` with the fault of the replay or the rehearsal, or with `Write` if the
/// help text was not written completely.
pub fn run_program<R: Threads + Wait + Sync, S: Source, W: Sink>(
    rt: &R,
    alloc: Global,
    args: &[String],
    reader: &mut S,
    writer: &mut W,
) -> Result<(), ProgramFault>
    requires reader { S.is_failed reader.old ≡ false }
    requires writer { W.is_failed writer.old ≡ false }
    ensures ran { EndsReplay (map string_bytes (drop 1 args.now))
        (S.left reader.old) (S.left reader.new) (S.is_failed reader.new)
        (W.taken writer.old) (W.taken writer.new) (W.is_failed writer.new) (W.is_flushed writer.new)
        result }
    ensures bad_line { (f : LineFault) → result ≡ Err (Line f)
        → (reader.new ≡ reader.old) × (writer.new ≡ writer.old) }
{
    match read_arguments(alloc, args) {
        Ok(Ask::Run { workers, rehearse }) => {
            match answer_trace(rt, alloc, workers, rehearse, reader, writer) {
                Ok(_) => Ok(()),
                Err(fault) => Err(ProgramFault::Replay(fault)),
            }
        }
        Ok(Ask::Help(text)) => match write_whole(writer, text.as_str().as_bytes()) {
            Ok(()) => Ok(()),
            Err(DeviceFault) => Err(ProgramFault::Replay(ReplayFault::Write)),
        },
        Err(fault) => Err(ProgramFault::Line(fault)),
    }
}

/// Answers the trace, by a rehearsal or with this many workers.
fn answer_trace<R: Threads + Wait + Sync, S: Source, W: Sink>(
    rt: &R,
    alloc: Global,
    workers: u8,
    rehearse: bool,
    reader: &mut S,
    writer: &mut W,
) -> Result<Summary, ReplayFault>
    requires workers { (1 ≤ workers) × (workers ≤ 8) }
    requires reader { S.is_failed reader.old ≡ false }
    requires writer { W.is_failed writer.old ≡ false }
    ensures replayed { Replayed (S.left reader.old) (S.is_failed reader.new)
        (W.taken writer.old) (W.taken writer.new) (W.is_failed writer.new) (W.is_flushed writer.new)
        result }
    ensures never_close { rehearse ≡ true → result ≢ Err Close }
    ensures one_worker { workers ≡ 1 → result ≢ Err Close }
{
    if rehearse {
        return rehearse_trace(rt, alloc, reader, writer);
    }
    replay(rt, alloc, reader, writer, workers)
}

/// The program's exit status. A fault's message is its text.
pub fn exit_status(outcome: Result<(), ProgramFault>) -> u8
    ensures { result ≡ status_of outcome }
{
    match outcome {
        Ok(()) => 0,
        Err(ProgramFault::Line(LineFault::Bad)) => 2,
        Err(ProgramFault::Line(LineFault::OutOfMemory) | ProgramFault::Replay(_)) => 1,
    }
}
