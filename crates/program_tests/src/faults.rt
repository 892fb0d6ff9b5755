//! Devices that fail, end or are long.

use crate::texts::{put_answer, put_output};
use crate::ways::{Answer, Devices, Fault, SHELL, Way, answer, run_over, sound};
use replay_main::{MemorySink, MemorySource, ReplayFault, StreamSink, StreamSource, TRACE_MAX};
use std::alloc::Global;
use std::sync::Wait;
use std::sync::atomic::AtomicU64;
use std::thread::Threads;
use test_devices::{Asker, Limits, Listener, Narrow, Repeated, Stuck};
use test_support::{Case, CaseFault};

/// The ways whose reads and writes fail in turn.
const WAYS: [Way; 4] = [
    Way::Workers(1),
    Way::Workers(2),
    Way::Workers(8),
    Way::Rehearsal,
];

/// The first number of bytes after which a failing read has another result than the fault and no output.
fn first_read<R: Threads + Wait + Sync>(
    rt: &R,
    alloc: Global,
    way: Way,
    trace: &[u8],
) -> Result<Option<usize>, CaseFault> {
    let mut devices = sound(1, 3);
    devices.ends = false;
    for count in 0..=trace.len() {
        let text = trace.get(..count).unwrap_or(trace);
        let (answer, sink) = run_over(rt, alloc, way, text, devices)?;
        if answer != Err(Fault::Replay(ReplayFault::Read)) || !sink.bytes().is_empty() {
            return Ok(Some(count));
        }
    }
    Ok(None)
}

/// Whether the output is that of a sink with so much room: flushed if there is room for all, and else a prefix and the fault.
fn is_prefix(answer: Answer, sink: &Narrow, whole: &[u8], room: usize) -> bool {
    let is_right = if room >= whole.len() {
        answer.is_ok() && sink.is_flushed()
    } else {
        answer == Err(Fault::Replay(ReplayFault::Write)) && !sink.is_flushed()
    };
    is_right && Some(sink.bytes()) == whole.get(..room)
}

/// The first room with another result than a prefix of the output and the fault.
fn first_write<R: Threads + Wait + Sync>(
    rt: &R,
    alloc: Global,
    way: Way,
    trace: &[u8],
    whole: &[u8],
) -> Result<Option<usize>, CaseFault> {
    let mut devices = sound(1, 3);
    devices.limits.flushes = 1;
    for room in 0..=whole.len() {
        devices.limits.room = room;
        let (answer, sink) = run_over(rt, alloc, way, trace, devices)?;
        if !is_prefix(answer, &sink, whole, room) {
            return Ok(Some(room));
        }
    }
    Ok(None)
}

/// `fail TRACE`: each read and each write fails in turn, with 1, 2 and 8 workers and in a rehearsal. After a failed read
/// nothing was written, and after a failed write a prefix of the output. Says the output without a fault. In `fail_alone` the
/// writes of 2 and 8 workers don't fail.
pub(crate) fn fail_each<R: Threads + Wait + Sync>(
    rt: &R,
    alloc: Global,
    is_alone: bool,
    trace: &[u8],
    said: &mut String,
) -> Result<(), CaseFault> {
    let (answer, sink) = run_over(rt, alloc, Way::Workers(1), trace, sound(1, 3))?;
    for way in WAYS {
        if let Some(count) = first_read(rt, alloc, way, trace)? {
            write!(said, "wrong after {count} bytes were read: ")?;
        }
        if is_alone && matches!(way, Way::Workers(2..=8)) {
            continue;
        }
        if let Some(room) = first_write(rt, alloc, way, trace, sink.bytes())? {
            write!(said, "wrong after {room} bytes were written: ")?;
        }
    }
    put_answer(said, answer, sink.bytes())
}

/// The number that a word is; the greatest if it is `all`.
fn most(case: &Case, at: usize) -> Result<usize, CaseFault> {
    match case.word(at) {
        b"all" => Ok(usize::MAX),
        _ => Ok(case.number(at)? as usize),
    }
}

/// The limits that two words give: the room, and how many flushes succeed. A write without room fails.
pub(crate) fn limits(case: &Case, at: usize) -> Result<Limits, CaseFault> {
    Ok(Limits {
        size: 3,
        room: most(case, at)?,
        flushes: most(case, at.saturating_add(1))?,
        takes_none: false,
    })
}

/// `over WAY PIECE READ ROOM FLUSHES TRACE`: a read gives at most PIECE bytes and fails after READ bytes, and the sink has so
/// much room and this number of flushes. `full` is the same with a sink that takes no bytes where it has no room.
pub(crate) fn play_over<R: Threads + Wait + Sync>(
    rt: &R,
    alloc: Global,
    case: &Case,
    way: Way,
    trace: &[u8],
    said: &mut String,
) -> Result<(), CaseFault> {
    let (piece, read) = (most(case, 2)?, most(case, 3)?);
    let mut limits = limits(case, 4)?;
    limits.takes_none = case.word(0) == b"full".as_slice();
    let devices = Devices {
        piece,
        ends: read > trace.len(),
        limits,
    };
    let text = trace.get(..read).unwrap_or(trace);
    let (answer, sink) = run_over(rt, alloc, way, text, devices)?;
    put_answer(said, answer, sink.bytes())
}

/// `long WAY BYTES`: a comment of BYTES bytes, or endless. A trace that is too long is read no further than the read that
/// exceeds the limit.
pub(crate) fn play_long<R: Threads + Wait + Sync>(
    rt: &R,
    alloc: Global,
    way: Way,
    left: Option<usize>,
    said: &mut String,
) -> Result<(), CaseFault> {
    let mut source = Repeated::new(b'#', left);
    let mut sink = MemorySink::new(alloc);
    let answer = answer(rt, alloc, way, &mut source, &mut sink);
    put_answer(said, answer, sink.bytes())?;
    if source.before() > TRACE_MAX {
        said.push_str(", and read on")?;
    }
    Ok(())
}

/// `stream TRACE`: the trace comes from a reader of std. `stuck` is the same with a writer of std whose flush fails.
pub(crate) fn play_streams<R: Threads + Wait + Sync>(
    rt: &R,
    alloc: Global,
    is_stuck: bool,
    trace: &[u8],
    said: &mut String,
) -> Result<(), CaseFault> {
    let mut source = StreamSource::new(trace);
    if is_stuck {
        let mut sink = StreamSink::new(Stuck);
        let answer = answer(rt, alloc, Way::Workers(1), &mut source, &mut sink);
        return put_answer(said, answer, b"");
    }
    let mut sink = MemorySink::new(alloc);
    let answer = answer(rt, alloc, Way::Workers(1), &mut source, &mut sink);
    put_answer(said, answer, sink.bytes())
}

/// `memory WAY TRACE`: the trace and the output are in memory.
pub(crate) fn play_in_memory<R: Threads + Wait + Sync>(
    rt: &R,
    alloc: Global,
    way: Way,
    trace: &[u8],
    said: &mut String,
) -> Result<(), CaseFault> {
    let mut source = MemorySource::new(trace);
    let mut sink = MemorySink::new(alloc);
    let answer = answer(rt, alloc, way, &mut source, &mut sink);
    put_answer(said, answer, sink.bytes())
}

/// `talk TEXT^TEXT ..`: the shell reads the texts one after another. Says the output, with a `^` where it was flushed before
/// a read.
pub(crate) fn talk<R: Threads + Wait + Sync>(
    rt: &R,
    alloc: Global,
    text: &[u8],
    said: &mut String,
) -> Result<(), CaseFault> {
    let Ok(text) = str::from_utf8(text) else {
        return Err(CaseFault::Malformed);
    };
    let flushed = AtomicU64::new(0);
    let mut source = Asker::new(alloc, text, &flushed);
    let mut sink = Listener::new(alloc, &flushed);
    let answer = answer(rt, alloc, SHELL, &mut source, &mut sink);
    let mut rest = sink.bytes();
    let mut at = 0u64;
    for seen in source.seen() {
        let count = seen.saturating_sub(at) as usize;
        let (before, after) = rest.split_at(count.min(rest.len()));
        put_output(said, before)?;
        said.push('^')?;
        rest = after;
        at = *seen;
    }
    put_output(said, rest)?;
    if let Err(fault) = answer {
        write!(said, "{fault}")?;
    }
    Ok(())
}
