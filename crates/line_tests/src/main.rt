//! Cases of lines: cut from a trace, answered into a buffer, and what a buffer that is too small leaves. The calls of the case
//! files in `data/`, and their answers:
//!
//! - `answer SIZE LINE`: the line, in a buffer of SIZE bytes, as the first, second .. that has output. The answer is the code
//!   and the output, `needs N`, or `skipped`.
//! - `children SIZE P`, `groups SIZE`, `subtree SIZE P`, `history SIZE FROM`: how many entries there are, and the entries.
//! - `has P`, `current P`, `populated P`, `peak P`, `limit P`: what is at the path.
//! - `records`, `forget`; `copy`, after which the copy is called, and `exchange`, after which the other one is.
//! - `trace TEXT`: the answers of a new engine to the lines of a text.
//! - `each_byte FIRST LAST TEXT`: the answers to the text and each of these bytes, which are alike. `long LETTERS TEXT`: those to
//!   the text and the letters.
//! - `one_line LINE`: the line is answered, or is out of memory and leaves no record. So the program can be run with each
//!   allocation refused.
#![tactic(auto)]

mod lines;
mod listings;

use crate::lines::Tested;
use std::alloc::{AllocError, Global};
use std::process::ExitCode;
use std::sync::Wait;
use std::thread::Threads;
use test_support::{Group, Suite, Tally, run_ample, run_suite};

/// Engines that answer lines.
struct LineEngines;

impl Suite for LineEngines {
    fn run<R: Threads + Wait + Sync>(
        &self,
        rt: &R,
        alloc: Global,
        group: &Group,
        tally: &mut Tally,
    ) -> Result<(), AllocError> {
        let mut tested = Tested::new(alloc)?;
        run_ample(rt, alloc, &mut tested, group, tally)
    }
}

fn main(rt: HostRuntime) -> ExitCode {
    run_suite(&rt, &LineEngines)
}
