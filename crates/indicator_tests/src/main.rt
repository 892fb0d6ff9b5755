//! Tests of the indicator: `data/*.cases`, in the form that `test_support` describes.
//!
//! They test what no contract says: that calls succeed if there is memory, what is left if an allocation is refused, how many
//! steps a call takes when no other hand acts, that the results hold while threads run concurrently, and worked examples
//! whose answers were written by hand. They don't test again what a contract says of every input.
//!
//! - `cores`: a core, and the calls on it; `events` reads their words; `refused` refuses each allocation of a replay.
//! - `hands`: a board with one slot, and the calls by its main hand and a helper.
//! - `threads`: a board on four threads.
//!
//! Kinds of subjects: `core`; `small`, a core in a heap in which no allocation is refused; `board7` and `board15`, a board
//! whose slot has so many nodes.
#![tactic(auto)]

mod cores;
mod events;
mod hands;
mod refused;
mod threads;

use crate::cores::Cores;
use crate::hands::Boards;
use linked_list_allocator::LocalHeap;
use std::alloc::{AllocError, Global};
use std::process::ExitCode;
use std::sync::Wait;
use std::thread::Threads;
use test_support::{Group, Suite, Tally, Twins, run_ample, run_refused, run_suite, see_empty};

/// The subjects: cores and boards.
struct Indicators;

/// Makes the calls on a core, or on two of which one lives in a heap, and drops it.
fn run_cores<R: Threads + Wait + Sync>(
    rt: &R,
    alloc: Global,
    group: &Group,
    tally: &mut Tally,
) -> Result<(), AllocError> {
    let Some(size) = group.heap else {
        return run_ample(rt, alloc, &mut Cores::new(alloc), group, tally);
    };
    let heap = LocalHeap::new(alloc, size)?;
    let mut twins = Twins {
        in_heap: Cores::new(&heap),
        ample: Cores::new(alloc),
    };
    if group.subject.as_str() == "small" {
        run_ample(rt, alloc, &mut twins.in_heap, group, tally)?;
    } else {
        run_refused(rt, alloc, &heap, &mut twins, group, tally)?;
    }
    drop(twins);
    see_empty(&heap, group, tally)
}

impl Suite for Indicators {
    fn run<R: Threads + Wait + Sync>(
        &self,
        rt: &R,
        alloc: Global,
        group: &Group,
        tally: &mut Tally,
    ) -> Result<(), AllocError> {
        match group.subject.as_str() {
            "board7" => {
                let mut board = Boards::<7, 4>::new(alloc)?;
                run_ample(rt, alloc, &mut board, group, tally)
            }
            "board15" => {
                let mut board = Boards::<15, 8>::new(alloc)?;
                run_ample(rt, alloc, &mut board, group, tally)
            }
            _ => run_cores(rt, alloc, group, tally),
        }
    }
}

fn main(rt: HostRuntime) -> ExitCode {
    run_suite(&rt, &Indicators)
}
