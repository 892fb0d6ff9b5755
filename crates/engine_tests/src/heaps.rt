//! Engines in heaps of several sizes, and what memory they take.

use crate::commands::{command, with_number};
use linked_list_allocator::LocalHeap;
use pids_charge::PlainMeter;
use std::alloc::{AllocError, Global};
use std::sync::Wait;
use std::thread::Threads;
use test_support::{BLOCK_SIZE, CaseFault, Outcome};
use undo_journal::{Engine, Refusal, Reply};

/// An engine in a heap, with its meter elsewhere.
type InHeap<'a> = Engine<&'a LocalHeap, PlainMeter<Global>>;

/// An engine in a heap with its meter.
type Full<'a> = Engine<&'a LocalHeap, PlainMeter<&'a LocalHeap>>;

/// The bytes of the heap that forks fill, half of which a meter takes.
const FULL_SIZE: usize = 262_144;

/// The bytes of the heap in which long and short names are compared.
const SHARED_SIZE: usize = 65_536;

/// Process 1 forks these. They are on one page of the table of processes.
const FIRST: u64 = 2;

const LAST: u64 = 41;

/// Whether an engine can be made in a heap of that size.
fn is_made_in(alloc: Global, size: usize) -> Result<bool, AllocError> {
    let heap = LocalHeap::new(alloc, size)?;
    let made: Result<InHeap<'_>, AllocError> = Engine::new(&heap, PlainMeter::new(alloc)?);
    match made {
        Err(AllocError) => Ok(false),
        Ok(engine) => Ok(engine.depth() == 0),
    }
}

/// Makes an engine in heaps that are larger by a block each time, until one is large enough.
pub(crate) fn makes_in_small_heaps(alloc: Global, said: &mut String) -> Result<Outcome, CaseFault> {
    for blocks in 2..900usize {
        if is_made_in(alloc, blocks * BLOCK_SIZE)? {
            said.push_str(if blocks > 2 {
                "made after refusals"
            } else {
                "made at once"
            })?;
            return Ok(Outcome::Answered);
        }
    }
    Ok(Outcome::Refused)
}

/// Process 1 forks 2, 3 and so on, until it is out of memory. Returns the process that was refused.
fn first_refused<R: Threads + Wait + Sync>(
    rt: &R,
    alloc: Global,
    engine: &mut Full<'_>,
) -> Result<u64, CaseFault> {
    for number in 2..262_146u64 {
        let line = with_number(alloc, b"fork 1 #", number)?;
        let command = command(alloc, line.as_slice())?;
        match engine.apply(rt, 0, &command) {
            Reply::Done => {}
            Reply::OutOfMemory => return Ok(number),
            _ => break,
        }
    }
    Err(CaseFault::Malformed)
}

/// Whether the engine replies that there is no process with this number.
fn is_absent<R: Threads + Wait + Sync>(
    rt: &R,
    alloc: Global,
    engine: &mut Full<'_>,
    number: u64,
) -> Result<bool, CaseFault> {
    let line = with_number(alloc, b"where #", number)?;
    let command = command(alloc, line.as_slice())?;
    let reply = engine.apply(rt, 0, &command);
    Ok(matches!(&reply, Reply::Refused(Refusal::NoProcess(_))))
}

/// Whether each fork before the refused one is recorded and undone, and the refused one left neither a process nor a record.
fn is_filled<R: Threads + Wait + Sync>(
    rt: &R,
    alloc: Global,
    heap: &LocalHeap,
) -> Result<bool, CaseFault> {
    let mut engine = Engine::new(heap, PlainMeter::new(heap)?)?;
    let refused = first_refused(rt, alloc, &mut engine)?;
    let depth = engine.depth();
    let is_absent = is_absent(rt, alloc, &mut engine, refused)?;
    let undone = engine.undo_all(rt, 0);
    let are_recorded = depth > 0 && refused == (depth as u64).saturating_add(2);
    Ok(is_absent && are_recorded && undone == Ok(depth))
}

/// Forks until the heap is full.
pub(crate) fn forks_until_full<R: Threads + Wait + Sync>(
    rt: &R,
    alloc: Global,
    said: &mut String,
) -> Result<Outcome, CaseFault> {
    let heap = LocalHeap::new(alloc, FULL_SIZE)?;
    if is_filled(rt, alloc, &heap)? {
        said.push_str("all but the refused one are recorded and undone")?;
    }
    if heap.used() == 0 {
        said.push_str(", and the heap is empty")?;
    }
    Ok(Outcome::Answered)
}

/// The path of the groups `a` to `d`, down to this depth, each name of `letters` equal letters.
fn path_of(alloc: Global, letters: usize, depth: usize) -> Result<Vec<u8>, AllocError> {
    let mut path = Vec::new(alloc);
    for letter in [b'a', b'b', b'c', b'd'].iter().take(depth) {
        path.push(b'/')?;
        for _ in 0..letters {
            path.push(*letter)?;
        }
    }
    Ok(path)
}

/// Whether the command of a line, with the path between its two parts, is done.
fn is_done(
    alloc: Global,
    engine: &mut InHeap<'_>,
    front: &[u8],
    path: &[u8],
    back: &[u8],
) -> Result<bool, CaseFault> {
    let mut line = Vec::from_slice(alloc, front)?;
    line.extend_from_slice(path)?;
    line.extend_from_slice(back)?;
    let command = command(alloc, line.as_slice())?;
    let reply = engine.apply_alone(0, &command);
    Ok(matches!(&reply, Reply::Done | Reply::Undone(_)))
}

/// Whether the line is done for each of the processes that process 1 forks.
fn are_done(alloc: Global, engine: &mut InHeap<'_>, line: &[u8]) -> Result<bool, CaseFault> {
    let mut are_done = true;
    for number in FIRST..=LAST {
        let line = with_number(alloc, line, number)?;
        are_done &= is_done(alloc, engine, line.as_slice(), b"", b"")?;
    }
    Ok(are_done)
}

/// Makes the groups, and moves process 1 to the last one. Returns whether all is done.
fn are_made(alloc: Global, engine: &mut InHeap<'_>, letters: usize) -> Result<bool, CaseFault> {
    let mut are_made = true;
    for depth in 1..5usize {
        let path = path_of(alloc, letters, depth)?;
        are_made &= is_done(alloc, engine, b"mkdir ", path.as_slice(), b"")?;
    }
    let path = path_of(alloc, letters, 4)?;
    Ok(
        is_done(
            alloc,
            engine,
            b"write ",
            path.as_slice(),
            b" cgroup.procs 1",
        )? && are_made,
    )
}

/// A stage of an engine's life: the groups are made, process 1 forks, the others exit, their exits are undone, all are
/// killed, and the kill is undone. Returns whether all is done.
fn is_reached(
    alloc: Global,
    engine: &mut InHeap<'_>,
    letters: usize,
    stage: usize,
) -> Result<bool, CaseFault> {
    match stage {
        0 => are_made(alloc, engine, letters),
        1 => are_done(alloc, engine, b"fork 1 #"),
        2 => are_done(alloc, engine, b"exit #"),
        3 => are_done(alloc, engine, b"undo"),
        4 => {
            let path = path_of(alloc, letters, 4)?;
            is_done(alloc, engine, b"write ", path.as_slice(), b" cgroup.kill 1")
        }
        _ => is_done(alloc, engine, b"undo", b"", b""),
    }
}

/// The bytes in use after each stage.
fn used_after_each(
    alloc: Global,
    heap: &LocalHeap,
    letters: usize,
) -> Result<[usize; 6], CaseFault> {
    let mut engine = Engine::new(heap, PlainMeter::new(alloc)?)?;
    let mut used = [0usize; 6];
    for stage in 0..6usize {
        if !is_reached(alloc, &mut engine, letters, stage)? {
            return Err(CaseFault::Malformed);
        }
        used[stage] = heap.used();
    }
    Ok(used)
}

/// How many texts of the longest path fit into this number of bytes.
fn in_texts(bytes: usize) -> &'static str {
    match bytes {
        0 => "none",
        1..=327 => "less than 2",
        328..=2623 => "2 to 16",
        _ => "more than 16",
    }
}

/// How many texts of 164 bytes long names take more than short ones: when made, and after each other stage beside those.
pub(crate) fn shares_paths(alloc: Global, said: &mut String) -> Result<Outcome, CaseFault> {
    let heap = LocalHeap::new(alloc, SHARED_SIZE)?;
    let short = used_after_each(alloc, &heap, 1)?;
    let long = used_after_each(alloc, &heap, 40)?;
    let made = long[0].saturating_sub(short[0]);
    said.push_str(in_texts(made))?;
    for stage in 1..6usize {
        let more = long[stage].saturating_sub(short[stage]);
        let beside = in_texts(more.abs_diff(made));
        write!(said, ", {beside}")?;
    }
    if heap.used() == 0 {
        said.push_str(", and the heap is empty")?;
    }
    Ok(Outcome::Answered)
}
