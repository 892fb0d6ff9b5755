//! A trace answered by a rehearsal.

ghost use Rattle.std.specs.Prelude.{◌≡◌, ◌≢◌, ◌≤◌, length, map, false, Err, IfOk};
ghost use Rattle.std.specs.List.{count_by};
ghost use Rattle.flat_model.specs.Trace.{trace_max};
ghost use Rattle.undo_journal.specs.CommandMeaning.{reply_of};
ghost use Rattle.replay_main.specs.declared.fault.ReplayFault.TheVariants.{Close};
ghost use Rattle.replay_main.specs.Rehearsed.{answers_at_hand, is_refusal};
ghost use Rattle.replay_main.specs.Replayed.{IsAnswered, Replayed};
ghost use Rattle.replay_main.specs.Script.{place_of};

use crate::input::read_whole;
use crate::reading::{NumberedLine, count_faults, read_lines};
use crate::trace::Answered;
use crate::{ReplayFault, Sink, Source, Summary};
use bumpalo::Bump;
use pids_charge::PlainMeter;
use program_io::write_whole;
use std::alloc::{AllocError, Global};
use std::sync::Wait;
use std::thread::Threads;
use trace_lines::{is_refused, put_fault, put_reply};
use undo_journal::{Engine, Reply};

/// Reads a trace to its end, answers every line by a rehearsal on a fresh engine, writes the
/// answers and flushes them. It writes the bytes that `replay` writes.
///
/// The commands run on a copy of the engine in an arena, which is freed before the answers are
/// made. No thread is started. It costs what `replay` costs with one worker, plus the memory that
/// the arena doesn't reuse.
///
/// # Errors
///
/// As for `replay`, but never `Close`.
pub fn rehearse_trace<R: Threads + Wait + Sync, S: Source, W: Sink>(
    rt: &R,
    alloc: Global,
    reader: &mut S,
    writer: &mut W,
) -> Result<Summary, ReplayFault>
    requires reader { S.is_failed reader.old ≡ false }
    requires writer { W.is_failed writer.old ≡ false }
    ensures replayed { Replayed (S.left reader.old) (S.is_failed reader.new)
        (W.taken writer.old) (W.taken writer.new) (W.is_failed writer.new) (W.is_flushed writer.new)
        result }
    ensures never_close { result ≢ Err Close }
{
    let trace = read_whole(alloc, reader)?;
    let Ok(answered) = rehearsed(rt, alloc, trace.as_slice()) else {
        return Err(ReplayFault::OutOfMemory);
    };
    match write_whole(writer, answered.bytes.as_slice()) {
        Ok(()) => Ok(answered.summary),
        Err(_) => Err(ReplayFault::Write),
    }
}

/// Answers each line of a trace by a rehearsal.
fn rehearsed<R: Threads + Wait + Sync>(
    rt: &R,
    alloc: Global,
    trace: &[u8],
) -> Result<Answered, AllocError>
    requires { length trace.now ≤ trace_max }
    ensures { IfOk result (λ a. IsAnswered trace.now a.bytes.items a.summary) }
{
    let script = read_lines(alloc, trace)?;
    let engine = Engine::new(alloc, PlainMeter::new(alloc)?)?;
    let arena = Bump::new(alloc);
    let replies = engine.rehearse(rt, alloc, &arena, script.commands.as_slice())?;
    drop(arena);
    let places = script.places.as_slice();
    let said = replies.as_slice();
    let bytes = put_answers(alloc, places, said)?;
    let summary = Summary {
        commands: places.len() as u64,
        refused: count_faults(places) as u64 + count_refusals(said),
    };
    Ok(Answered { bytes, summary })
}

/// The answers to the lines with a number, by the replies to the commands among them.
fn put_answers(
    alloc: Global,
    places: &[NumberedLine],
    replies: &[Reply<Global>],
) -> Result<Vec<u8>, AllocError>
    ensures { IfOk result (λ v. v.items
        ≡ answers_at_hand 1 (map place_of places.now) (map reply_of replies.now)) }
{
    let mut bytes = Vec::new(alloc);
    let mut number = 0u64;
    let mut at = 0;
    for place in places {
        number += 1;
        match place {
            NumberedLine::Fault(fault) => put_fault(&mut bytes, number, *fault)?,
            NumberedLine::Command => {
                if at == replies.len() {
                    return Ok(bytes);
                }
                put_reply(alloc, &mut bytes, number, &replies[at])?;
                at += 1;
            }
        }
    }
    Ok(bytes)
}

/// How many replies are refusals.
fn count_refusals(replies: &[Reply<Global>]) -> u64
    ensures count { result ≡ count_by is_refusal (map reply_of replies.now) }
    ensures bound { result ≤ length replies.now }
{
    let mut refusals = 0u64;
    for reply in replies {
        if is_refusal(reply) {
            refusals += 1;
        }
    }
    refusals
}

/// Whether a reply is a refusal.
fn is_refusal(reply: &Reply<Global>) -> bool
    ensures { result ≡ is_refusal (reply_of reply.now) }
{
    !matches!(reply, Reply::OutOfMemory) && is_refused(reply)
}
