//! Tests of paths and of the tree, as case files. The crate is a program so that a case needs no proof.
//!
//! The cases test what no contract says: that calls succeed if there is memory, what a refused allocation leaves, and that
//! the definitions mean what the grammar and the kernel's guide mean, by worked examples whose answers were written by hand.
//! They don't test again what a contract says of every input.
//!
//! - `path_calls`: paths as the subject of cases, and the calls on them.
//! - `trees`: a tree and its copy as the subject of cases; `tree_calls`: the calls on one tree.
//! - `attributes`, `answers`, `listing`: attributes, answers and whole trees as text.
//! - `arena`: a tree in an arena, which isn't freed before the tree.
//! - `words`: the words of a call, with long runs of one byte written short.
//!
//! The head of each case file says what its calls do. `test_support` reads the files, makes the calls in a small heap with
//! each allocation refused, and reports.
#![tactic(auto)]

mod answers;
mod arena;
mod attributes;
mod listing;
mod path_calls;
mod tree_calls;
mod trees;
mod words;

use linked_list_allocator::LocalHeap;
use path_calls::Paths;
use std::alloc::{AllocError, Global};
use std::process::ExitCode;
use std::sync::Wait;
use std::thread::Threads;
use test_support::{Group, Suite, Tally, Twins, run_ample, run_refused, run_suite, see_empty};
use trees::Trees;

struct Hierarchy;

impl Suite for Hierarchy {
    fn run<R: Threads + Wait + Sync>(
        &self,
        rt: &R,
        alloc: Global,
        group: &Group,
        tally: &mut Tally,
    ) -> Result<(), AllocError> {
        match group.subject.as_str() {
            "path" => run_paths(rt, alloc, group, tally),
            _ => run_trees(rt, alloc, group, tally),
        }
    }
}

/// Makes the calls on paths.
fn run_paths<R: Threads + Wait + Sync>(
    rt: &R,
    alloc: Global,
    group: &Group,
    tally: &mut Tally,
) -> Result<(), AllocError> {
    let mut ample = Paths::new(alloc, alloc)?;
    let Some(size) = group.heap else {
        return run_ample(rt, alloc, &mut ample, group, tally);
    };
    let heap = LocalHeap::new(alloc, size)?;
    let in_heap = Paths::new(alloc, &heap)?;
    let mut twins = Twins { in_heap, ample };
    run_refused(rt, alloc, &heap, &mut twins, group, tally)?;
    drop(twins);
    see_empty(&heap, group, tally)
}

/// Makes the calls on a tree.
fn run_trees<R: Threads + Wait + Sync>(
    rt: &R,
    alloc: Global,
    group: &Group,
    tally: &mut Tally,
) -> Result<(), AllocError> {
    let mut ample = Trees::new(alloc)?;
    let Some(size) = group.heap else {
        return run_ample(rt, alloc, &mut ample, group, tally);
    };
    let heap = LocalHeap::new(alloc, size)?;
    let in_heap = Trees::new(&heap)?;
    let mut twins = Twins { in_heap, ample };
    run_refused(rt, alloc, &heap, &mut twins, group, tally)?;
    drop(twins);
    see_empty(&heap, group, tally)
}

fn main(rt: HostRuntime) -> ExitCode {
    run_suite(&rt, &Hierarchy)
}
