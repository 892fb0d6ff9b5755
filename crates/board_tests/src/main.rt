//! Tests of the meter over a board of atomic words, and of an engine over it: `data/*.cases`, in the form that `test_support`
//! describes.
//!
//! They test what no contract says: that `new` succeeds if there is memory, and that the parts of a settlement, of a kill and
//! of its undo run at the same time. The law of `Meter` implies that both meters agree; tables of calls and lines show it on
//! the machine too, with replies that were written by hand.
//!
//! - `meters`: a plain meter and one over a board, side by side; `swap` removes the charges of one list from a meter and adds
//!   those of another, `drawn` makes lists from a generator of numbers.
//! - `engines`: an engine over a board, and lines that users issue.
//! - `meeting`: a test hook where the parts of a settlement wait for one another.
//!
//! Kinds of subjects: `meters`; an engine; `five`, an engine on which the calls are made, and then again on a new one, five
//! times in all.
#![tactic(auto)]

mod drawn;
mod engines;
mod meeting;
mod meters;
mod swap;

use crate::engines::BoardEngine;
use crate::meters::Meters;
use std::alloc::{AllocError, Global};
use std::process::ExitCode;
use std::sync::Wait;
use std::thread::Threads;
use test_support::{Group, Suite, Tally, run_ample, run_suite};

/// Meters, and engines over boards.
struct Boards;

/// Makes the calls on a new engine.
fn run_engine<R: Threads + Wait + Sync>(
    rt: &R,
    alloc: Global,
    group: &Group,
    tally: &mut Tally,
) -> Result<(), AllocError> {
    let mut engine = BoardEngine::new(alloc)?;
    run_ample(rt, alloc, &mut engine, group, tally)
}

impl Suite for Boards {
    fn run<R: Threads + Wait + Sync>(
        &self,
        rt: &R,
        alloc: Global,
        group: &Group,
        tally: &mut Tally,
    ) -> Result<(), AllocError> {
        match group.subject.as_str() {
            "meters" => {
                let mut meters = Meters::new(alloc)?;
                run_ample(rt, alloc, &mut meters, group, tally)
            }
            "five" => {
                for _ in 0..5 {
                    run_engine(rt, alloc, group, tally)?;
                }
                Ok(())
            }
            _ => run_engine(rt, alloc, group, tally),
        }
    }
}

fn main(rt: HostRuntime) -> ExitCode {
    run_suite(&rt, &Boards)
}
