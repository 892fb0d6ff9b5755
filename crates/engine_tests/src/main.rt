//! Cases of the engine and of the files of groups: the calls that the case files in `data/` make, and their answers.
//!
//! A call is a line of a trace, and its answer the engine's reply as in a trace without its number (`ok`, `ok\n| 1`, `refused
//! pidsmax /a`). The other calls:
//!
//! - `alone LINE`, `gated LINE` (the parts that pass the test hook come first), `undo_newest`, `undo_newest_alone`, `show P FILE`:
//!   the same by other functions of the engine.
//! - `each FIRST LAST LINE`: the line for each number in place of `#`. The answer is the reply that all have.
//! - `records`, `newest`, `undo_all`, `forget`, `listed P FIRST LAST`: what the engine keeps.
//! - `rehearsed LINE` and the calls of `rehearsals`: replies of a rehearsal.
//! - `copy LINE`, `text LINE`, `copy_reply` (of the last line), `render P FILE`, `home PID`: copies and texts in the memory of
//!   the subject.
//! - `fill BLOCKS`, `free`: all memory is taken but BLOCKS blocks of sixteen bytes, and freed.
//! - The calls of `values` and of `heaps`, which need no subject.
//!
//! Kinds of subjects: an engine that lives in the heap; `copies`, an engine elsewhere whose copies and texts are in the heap;
//! `small`, an engine that lives in a heap in which no allocation is refused but those that a case refuses.
#![tactic(auto)]

mod commands;
mod copies;
mod engine;
mod heaps;
mod records;
mod rehearsals;
mod values;

use crate::engine::Tested;
use linked_list_allocator::LocalHeap;
use std::alloc::{AllocError, Allocator, Global};
use std::process::ExitCode;
use std::sync::Wait;
use std::thread::Threads;
use test_support::{Group, Suite, Tally, Twins, run_ample, run_refused, run_suite, see_empty};

/// Engines over plain meters.
struct Engines;

/// Makes the calls on the engine, in whose heap allocations are refused, and on one elsewhere, and drops both.
fn run_beside_ample<E: Allocator + Clone, A: Allocator + Clone, R: Threads + Wait + Sync>(
    rt: &R,
    alloc: Global,
    heap: &LocalHeap,
    tested: Tested<E, A>,
    group: &Group,
    tally: &mut Tally,
) -> Result<(), AllocError> {
    let ample = Tested::new(alloc, alloc, alloc)?;
    let mut twins = Twins {
        in_heap: tested,
        ample,
    };
    run_refused(rt, alloc, heap, &mut twins, group, tally)
}

/// Makes the calls on an engine in this heap, and drops it. No allocation is refused but those that a case refuses.
fn run_small<R: Threads + Wait + Sync>(
    rt: &R,
    alloc: Global,
    heap: &LocalHeap,
    group: &Group,
    tally: &mut Tally,
) -> Result<(), AllocError> {
    let mut tested = Tested::new(alloc, heap, heap)?;
    run_ample(rt, alloc, &mut tested, group, tally)
}

/// Makes the calls on an engine elsewhere whose copies and texts are in this heap, and drops it.
fn run_copies<R: Threads + Wait + Sync>(
    rt: &R,
    alloc: Global,
    heap: &LocalHeap,
    group: &Group,
    tally: &mut Tally,
) -> Result<(), AllocError> {
    let tested = Tested::new(alloc, alloc, heap)?;
    run_beside_ample(rt, alloc, heap, tested, group, tally)
}

/// Makes the calls on an engine in this heap, and drops it.
fn run_in<R: Threads + Wait + Sync>(
    rt: &R,
    alloc: Global,
    heap: &LocalHeap,
    group: &Group,
    tally: &mut Tally,
) -> Result<(), AllocError> {
    let tested = Tested::new(alloc, heap, heap)?;
    run_beside_ample(rt, alloc, heap, tested, group, tally)
}

/// Makes the calls on the subject of the group, and drops it.
fn run_group<R: Threads + Wait + Sync>(
    rt: &R,
    alloc: Global,
    heap: &LocalHeap,
    group: &Group,
    tally: &mut Tally,
) -> Result<(), AllocError> {
    match group.subject.as_str() {
        "small" => run_small(rt, alloc, heap, group, tally),
        "copies" => run_copies(rt, alloc, heap, group, tally),
        _ => run_in(rt, alloc, heap, group, tally),
    }
}

impl Suite for Engines {
    fn run<R: Threads + Wait + Sync>(
        &self,
        rt: &R,
        alloc: Global,
        group: &Group,
        tally: &mut Tally,
    ) -> Result<(), AllocError> {
        let Some(size) = group.heap else {
            let mut tested = Tested::new(alloc, alloc, alloc)?;
            return run_ample(rt, alloc, &mut tested, group, tally);
        };
        let heap = LocalHeap::new(alloc, size)?;
        run_group(rt, alloc, &heap, group, tally)?;
        see_empty(&heap, group, tally)
    }
}

fn main(rt: HostRuntime) -> ExitCode {
    run_suite(&rt, &Engines)
}
