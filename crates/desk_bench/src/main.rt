//! Several threads call one engine, at a desk or in a mutex. `evidence/bench/bench --desk` times it.
//!
//! `desk_bench WAY WORKLOAD THREADS CALLS` starts THREADS threads, each of which makes CALLS calls. It prints how many of
//! them were answered by `Done`. A thread whose process cannot be made makes no calls.
//!
//! - WAY is `desk` (a session for each thread), `board` (an engine over a `BoardMeter` in a mutex) or `plain` (an engine
//!   over a `PlainMeter` in a mutex).
//! - WORKLOAD is `own` (a group for each thread) or `one` (one group).
//! - THREADS is 1 to 8.
#![tactic(auto)]

ghost use Rattle.std.specs.Prelude.{ℕ, ◌*◌, ◌<◌, ◌≤◌, length, IfOk};
ghost use Rattle.std.specs.List.{All};

mod case;
mod target;

use board_meter::BoardMeter;
use case::{Case, Way, case_of};
use pids_charge::PlainMeter;
use sessions::Desk;
use std::alloc::{AllocError, Global};
use std::sync::{Arc, Mutex, Wait};
use std::thread::{Threads, map_vec};
use std::{env, io};
use target::{Target, settled};
use undo_journal::Engine;

/// The group of each thread, if each has its own.
const GROUPS: [&str; 8] = ["/a", "/b", "/c", "/d", "/e", "/f", "/g", "/h"];

/// How many calls of all threads were answered by `Done`.
fn count_done<R: Threads + Wait + Sync>(
    rt: &R,
    alloc: Global,
    case: Case,
) -> Result<u64, AllocError>
    requires { (1 ≤ case.threads) × (case.threads ≤ 8) }
    ensures { IfOk result (λ n. n ≤ case.threads * case.calls) }
{
    match case.way {
        Way::Desk => {
            let desk = Desk::new(alloc, case.threads)?;
            serve(
                rt,
                alloc,
                case,
                &|number| Ok(Target::Desk(desk.session(number)?)),
            )
        }
        Way::Board => {
            let engine = Engine::new(alloc, BoardMeter::new(alloc)?)?;
            let shared = Arc::new(alloc, Mutex::new(engine))?;
            serve(
                rt,
                alloc,
                case,
                &|_| Ok(Target::Board(Arc::try_clone(&shared)?)),
            )
        }
        Way::Plain => {
            let engine = Engine::new(alloc, PlainMeter::new(alloc)?)?;
            let shared = Arc::new(alloc, Mutex::new(engine))?;
            serve(
                rt,
                alloc,
                case,
                &|_| Ok(Target::Plain(Arc::try_clone(&shared)?)),
            )
        }
    }
}

/// Makes the group and the process of each thread, and then all calls, with a thread for each target.
fn serve<R: Threads + Wait + Sync, F: Fn(u8) -> Result<Target, AllocError>>(
    rt: &R,
    alloc: Global,
    case: Case,
    target: &F,
) -> Result<u64, AllocError>
    requires threads { case.threads ≤ 8 }
    requires accepts { (number : ℕ) → number < case.threads → F.pre target.now number }
    ensures { IfOk result (λ n. n ≤ case.threads * case.calls) }
{
    let mut workers = Vec::with_capacity(alloc, usize::from(case.threads))?;
    for number in 0..case.threads {
        let group = if case.is_apart {
            usize::from(number)
        } else {
            0
        };
        workers.push(settled(rt, alloc, target(number)?, GROUPS[group], number))?;
    }
    let calls = case.calls;
    let counts = map_vec(rt, workers, &|worker| worker.work(rt, calls))?;
    Ok(sum(counts.as_slice(), calls))
}

/// The sum of these counts, none of which is more than `most`.
fn sum(counts: &[u32], most: u32) -> u64
    requires { All (λ n. n ≤ most) counts.now }
    ensures { result ≤ length counts.now * most }
{
    let mut sum = 0u64;
    for count in counts {
        sum = sum.saturating_add(u64::from(*count));
    }
    sum
}

fn main(rt: HostRuntime) -> io::Result<()> {
    let alloc: Global = rt.alloc();
    let words: Vec<String> = env::args(&rt)?.collect(alloc)?;
    let Some(case) = case_of(words.as_slice()) else {
        return println!(rt; "usage: desk_bench desk|board|plain own|one THREADS CALLS");
    };
    let done = count_done(&rt, alloc, case)?;
    println!(rt; "{done} calls done")
}
