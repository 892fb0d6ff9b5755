//! From the bytes of a trace to the bytes of its answers.

ghost use Rattle.std.specs.Prelude.{◌≡◌, ◌≢◌, ◌≤◌, length, false, Err, IfOk, IfErr};
ghost use Rattle.flat_model.specs.Trace.{trace_max};
ghost use Rattle.replay_main.specs.declared.fault.ReplayFault.TheVariants.{Close};
ghost use Rattle.replay_main.specs.Replayed.{EndsWork, IsAnswered, Replayed};

use crate::input::read_whole;
use crate::one_pass::answer_in_one_pass;
use crate::reading::{read_scripts, sizes};
use crate::texts::{all_logged, answers_of, count_all_refused, join};
use crate::turns::run_commands;
use crate::{ReplayFault, Sink, Source, Summary};
use pids_charge::{Gate, OpenGate};
use program_io::write_whole;
use std::alloc::Global;
use std::sync::Wait;
use std::thread::Threads;

/// The answers to a trace.
#[derive(Drop)]
pub(crate) struct Answered {
    pub(crate) bytes: Vec<u8>,
    pub(crate) summary: Summary,
}

/// Answers each line of a trace.
fn answer<R: Threads + Wait + Sync, G: Gate>(
    rt: &R,
    alloc: Global,
    gate: &G,
    trace: &[u8],
    workers: u8,
) -> Result<Answered, ReplayFault>
    requires workers { (1 ≤ workers) × (workers ≤ 8) }
    requires trace { length trace.now ≤ trace_max }
    ensures ok { IfOk result (λ a. IsAnswered trace.now a.bytes.items a.summary) }
    ensures fault { IfErr result EndsWork }
    ensures never_close { workers ≡ 1 → result ≢ Err Close }
{
    if workers > 1 {
        return answer_at_a_desk(rt, alloc, gate, trace, workers);
    }
    gate.pass(1);
    gate.pass(2);
    gate.pass(3);
    match answer_in_one_pass(alloc, trace) {
        Ok(answered) => Ok(answered),
        Err(_) => Err(ReplayFault::OutOfMemory),
    }
}

/// Answers each line of a trace at a desk, with one session per worker.
fn answer_at_a_desk<R: Threads + Wait + Sync, G: Gate>(
    rt: &R,
    alloc: Global,
    gate: &G,
    trace: &[u8],
    workers: u8,
) -> Result<Answered, ReplayFault>
    requires workers { (1 ≤ workers) × (workers ≤ 8) }
    requires trace { length trace.now ≤ trace_max }
    ensures ok { IfOk result (λ a. IsAnswered trace.now a.bytes.items a.summary) }
    ensures fault { IfErr result EndsWork }
{
    let Ok(read) = read_scripts(rt, alloc, gate, workers, trace) else {
        return Err(ReplayFault::OutOfMemory);
    };
    let scripts = read.as_slice();
    let log = run_commands(rt, alloc, gate, scripts)?;
    let (lines, commands) = sizes(scripts);
    if log.len() != commands {
        return Err(ReplayFault::Close);
    }
    let Ok(parts) = answers_of(rt, alloc, gate, scripts, log.as_slice()) else {
        return Err(ReplayFault::OutOfMemory);
    };
    if !all_logged(parts.as_slice()) {
        return Err(ReplayFault::Close);
    }
    let summary = Summary {
        commands: lines as u64,
        refused: count_all_refused(parts.as_slice()),
    };
    match join(alloc, parts) {
        Ok(bytes) => Ok(Answered { bytes, summary }),
        Err(_) => Err(ReplayFault::OutOfMemory),
    }
}

/// Reads a trace to its end, answers every line, writes the answers and flushes them.
///
/// The whole trace is read before anything is answered, and every line is answered before anything
/// is written. A trace has at most `TRACE_MAX` bytes. The call may wait for its devices. It costs
/// what the engine costs for each command, plus time and memory linear in the trace and its
/// answers.
///
/// One worker answers line by line in one pass on the calling thread, and starts no thread. Two to
/// eight workers run three phases: the lines are read; the commands run at a desk, the i-th by
/// session i mod `workers` at turn i; the replies become bytes. The calling thread does the work of
/// worker 0, and of each worker whose thread can't be started. The answers are the same for every
/// number of workers.
///
/// # Errors
///
/// `Read` if a read failed; `InputTooLong` above `TRACE_MAX` bytes; `OutOfMemory`; and, with two or
/// more workers, `Close` if the desk could not be closed, or its log differs from the commands of
/// the trace or their sessions. After these, nothing was written. `Write` if a write or the flush
/// failed, or a write took no bytes. A prefix of the answers was written then.
pub fn replay<R: Threads + Wait + Sync, S: Source, W: Sink>(
    rt: &R,
    alloc: Global,
    reader: &mut S,
    writer: &mut W,
    workers: u8,
) -> Result<Summary, ReplayFault>
    requires workers { (1 ≤ workers) × (workers ≤ 8) }
    requires reader { S.is_failed reader.old ≡ false }
    requires writer { W.is_failed writer.old ≡ false }
    ensures replayed { Replayed (S.left reader.old) (S.is_failed reader.new)
        (W.taken writer.old) (W.taken writer.new) (W.is_failed writer.new) (W.is_flushed writer.new)
        result }
    ensures never_close { workers ≡ 1 → result ≢ Err Close }
{
    replay_gated(rt, alloc, &OpenGate, reader, writer, workers)
}

/// `replay` with a test hook. At the start of phase p, the thread that does the work of worker w
/// passes part `p * workers + w + 1`; p and w count from 0. One worker passes parts 1, 2 and 3
/// before its pass. The hook may block.
///
/// # Errors
///
/// As for `replay`.
pub fn replay_gated<R: Threads + Wait + Sync, S: Source, W: Sink>(
    rt: &R,
    alloc: Global,
    gate: &(dyn Gate + Sync),
    reader: &mut S,
    writer: &mut W,
    workers: u8,
) -> Result<Summary, ReplayFault>
    requires workers { (1 ≤ workers) × (workers ≤ 8) }
    requires reader { S.is_failed reader.old ≡ false }
    requires writer { W.is_failed writer.old ≡ false }
    ensures replayed { Replayed (S.left reader.old) (S.is_failed reader.new)
        (W.taken writer.old) (W.taken writer.new) (W.is_failed writer.new) (W.is_flushed writer.new)
        result }
    ensures never_close { workers ≡ 1 → result ≢ Err Close }
{
    let trace = read_whole(alloc, reader)?;
    let answered = answer(rt, alloc, &gate, trace.as_slice(), workers)?;
    match write_whole(writer, answered.bytes.as_slice()) {
        Ok(()) => Ok(answered.summary),
        Err(_) => Err(ReplayFault::Write),
    }
}
