//! Tests of stripes, of the table of processes and of charges: `data/*.cases`, in the form that `test_support` describes.
//!
//! They test what no contract says: that calls succeed if there is memory, that a call whose allocation is refused changes
//! nothing that can be read, and worked examples whose answers were written by hand.
//!
//! - `charged`: charges, and the calls on them: `asked` reads their words, `changes` makes those that change charges, `said`
//!   writes their answers, and `shown` all that can be read of charges.
//! - `homed`: a table of processes, and the calls on it; `random`, many calls compared with a plain list.
//! - `values`: stripes, pids, and what is made in a heap that is too small.
#![tactic(auto)]

mod asked;
mod changes;
mod charged;
mod homed;
mod random;
mod said;
mod shown;
mod values;

use charged::Charged;
use homed::Homed;
use linked_list_allocator::LocalHeap;
use std::alloc::{AllocError, Global};
use std::process::ExitCode;
use std::sync::Wait;
use std::thread::Threads;
use test_support::{Group, Suite, Tally, Twins, run_ample, run_refused, run_suite, see_empty};
use values::Values;

/// The subjects: a table of processes, values, or charges.
struct Subjects;

fn run_table<R: Threads + Wait + Sync>(
    rt: &R,
    alloc: Global,
    group: &Group,
    tally: &mut Tally,
) -> Result<(), AllocError> {
    let mut ample = Homed::new(alloc, alloc)?;
    let Some(size) = group.heap else {
        return run_ample(rt, alloc, &mut ample, group, tally);
    };
    let heap = LocalHeap::new(alloc, size)?;
    let in_heap = Homed::new(alloc, &heap)?;
    let mut twins = Twins { in_heap, ample };
    run_refused(rt, alloc, &heap, &mut twins, group, tally)?;
    drop(twins);
    see_empty(&heap, group, tally)
}

fn run_charges<R: Threads + Wait + Sync>(
    rt: &R,
    alloc: Global,
    group: &Group,
    tally: &mut Tally,
) -> Result<(), AllocError> {
    let mut ample = Charged::new(alloc, alloc)?;
    let Some(size) = group.heap else {
        return run_ample(rt, alloc, &mut ample, group, tally);
    };
    let heap = LocalHeap::new(alloc, size)?;
    let in_heap = Charged::new(alloc, &heap)?;
    let mut twins = Twins { in_heap, ample };
    run_refused(rt, alloc, &heap, &mut twins, group, tally)?;
    drop(twins);
    see_empty(&heap, group, tally)
}

impl Suite for Subjects {
    fn run<R: Threads + Wait + Sync>(
        &self,
        rt: &R,
        alloc: Global,
        group: &Group,
        tally: &mut Tally,
    ) -> Result<(), AllocError> {
        match group.subject.as_str() {
            "table" => run_table(rt, alloc, group, tally),
            "values" => run_ample(rt, alloc, &mut Values::new(), group, tally),
            _ => run_charges(rt, alloc, group, tally),
        }
    }
}

fn main(rt: HostRuntime) -> ExitCode {
    run_suite(&rt, &Subjects)
}
