//! The ways to answer a trace, over devices.

ghost use Rattle.std.specs.Prelude.{◌≡◌, false};

use replay_main::{ReplayFault, Sink, Source, Summary, rehearse_trace, replay};
use shell_main::{Options, ShellFault, shell_by};
use std::alloc::{AllocError, Global};
use std::sync::Wait;
use std::thread::Threads;
use test_devices::{Limits, Narrow, Pieces};
use thiserror::Error;

/// How a trace is answered.
#[derive(Clone, Copy, PartialEq, Eq)]
pub(crate) enum Way {
    /// By one worker, or by 2 to 8.
    Workers(u8),
    Rehearsal,
    Shell(Options),
}

/// Why it was not answered.
#[derive(Clone, Copy, Debug, PartialEq, Eq, Error)]
pub(crate) enum Fault {
    #[error(transparent)]
    Replay(ReplayFault),
    #[error(transparent)]
    Shell(ShellFault),
}

/// The counts of the answers, or the fault.
pub(crate) type Answer = Result<Summary, Fault>;

/// A shell with these options.
fn by_shell(is_strict: bool, keeps_history: bool) -> Way {
    Way::Shell(Options {
        is_strict,
        keeps_history,
    })
}

/// A shell as it is by default.
pub(crate) const SHELL: Way = Way::Shell(Options {
    is_strict: false,
    keeps_history: true,
});

/// The way that a word names.
pub(crate) fn way_of(word: &[u8]) -> Option<Way> {
    match word {
        [digit @ b'1'..=b'8'] => Some(Way::Workers(*digit - b'0')),
        b"rehearsed" => Some(Way::Rehearsal),
        b"shell" => Some(SHELL),
        b"strict" => Some(by_shell(true, true)),
        b"forgetful" => Some(by_shell(false, false)),
        b"strict_forgetful" => Some(by_shell(true, false)),
        _ => None,
    }
}

/// Answers a trace.
pub(crate) fn answer<R: Threads + Wait + Sync, S: Source, W: Sink>(
    rt: &R,
    alloc: Global,
    way: Way,
    source: &mut S,
    sink: &mut W,
) -> Answer
    requires reader { S.is_failed source.old ≡ false }
    requires writer { W.is_failed sink.old ≡ false }
{
    let outcome = match way {
        Way::Workers(workers @ 1..=8) => replay(rt, alloc, source, sink, workers),
        Way::Workers(_) | Way::Rehearsal => rehearse_trace(rt, alloc, source, sink),
        Way::Shell(options) => {
            return match shell_by(rt, alloc, options, source, sink) {
                Ok(summary) => Ok(summary),
                Err(fault) => Err(Fault::Shell(fault)),
            };
        }
    };
    match outcome {
        Ok(summary) => Ok(summary),
        Err(fault) => Err(Fault::Replay(fault)),
    }
}

/// Whether memory ran out.
pub(crate) fn is_out_of_memory(answer: Answer) -> bool {
    matches!(
        answer,
        Err(Fault::Replay(ReplayFault::OutOfMemory) | Fault::Shell(ShellFault::OutOfMemory))
    )
}

/// The devices of a run.
#[derive(Clone, Copy)]
pub(crate) struct Devices {
    /// A read gives at most this many bytes.
    pub(crate) piece: usize,
    /// The source ends, and doesn't fail.
    pub(crate) ends: bool,
    /// What the sink takes.
    pub(crate) limits: Limits,
}

/// Devices without faults, for reads and writes of at most this number of bytes.
pub(crate) const fn sound(piece: usize, size: usize) -> Devices {
    Devices {
        piece,
        ends: true,
        limits: Limits {
            size,
            room: usize::MAX,
            flushes: usize::MAX,
            takes_none: false,
        },
    }
}

/// Answers a trace over devices.
pub(crate) fn run_over<R: Threads + Wait + Sync>(
    rt: &R,
    alloc: Global,
    way: Way,
    trace: &[u8],
    devices: Devices,
) -> Result<(Answer, Narrow), AllocError> {
    let mut source = if devices.ends {
        Pieces::new(trace, devices.piece)
    } else {
        Pieces::failing(trace, devices.piece)
    };
    let mut sink = Narrow::new(alloc, devices.limits)?;
    let answer = answer(rt, alloc, way, &mut source, &mut sink);
    Ok((answer, sink))
}
