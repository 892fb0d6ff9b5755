//! Times an arrival and its departure on the board, next to an atomic counter and a mutex.
//!
//! `board_bench ROUNDS` prints a line for each of 1, 2 and 4 threads: the nanoseconds that each thread takes for one arrival
//! and its departure, or for adding and subtracting one. Each figure is the best of five runs.
#![tactic(auto)]

ghost use Rattle.std.specs.Prelude.{◌≡◌, ◌+◌, ◌<◌, ◌≤◌, IfOk, vec_len};
ghost use Rattle.snzi_core.specs.Caps.{helper_cap};
ghost use Rattle.snzi_core.specs.Holding.{held, out};
ghost use Rattle.snzi_tree.specs.Hands.{IsHandOf, holds, IsMain};

use snzi_tree::{Board, Hand, Token};
use std::alloc::{AllocError, Global};
use std::sync::atomic::{AtomicU64, Ordering};
use std::sync::{Mutex, Wait};
use std::thread::{Threads, map_indices, map_vec};
use std::time::{Clock, Instant};
use std::{env, io};

// The runs, of which the best counts.
const RUNS: u32 = 5;

// The slot has four leaves.
const LEAVES: u8 = 4;

// How many threads work, and how many rounds each does.
#[derive(Clone, Copy)]
struct Load {
    threads: u8,
    rounds: u32,
}

// Where the hands of a run arrive.
#[derive(Clone, Copy)]
enum Arrival {
    // Each at a leaf of its own, where main has a token, so that no arrival climbs to the root.
    OwnHeldLeaf,
    // All at one leaf, on an empty board.
    OneEmptyLeaf,
}

// A helper, with the leaf at which it arrives and departs.
#[derive(Drop)]
struct Visitor<'a> {
    board: &'a Board<1, 7, 4>,
    hand: Hand,
    leaf: u8,
    ghost here: { IsHandOf board.now hand },
    ghost place: { leaf < 4 },
    ghost empty: { held (holds hand) ≡ 0 },
}

// A helper that holds nothing, for a leaf.
fn send<'a>(board: &'a Board<1, 7, 4>, main: &mut Hand, leaf: u8) -> Visitor<'a>
    requires here { IsHandOf board.now main.old × IsMain main.old }
    requires leaf { leaf < 4 }
    requires room { out (holds main.old).role < helper_cap }
    ensures main { IsHandOf board.now main.new × IsMain main.new }
    ensures out { out (holds main.new).role ≡ out (holds main.old).role + 1 }
    ensures leaf { result.leaf ≡ leaf }
{
    let hand = board.split(main, &[]);
    Visitor { board, hand, leaf }
}

// Arrives and departs this number of times.
fn visit_rounds(board: &Board<1, 7, 4>, hand: &mut Hand, leaf: u8, rounds: u32)
    requires here { IsHandOf board.now hand.old }
    requires leaf { leaf < 4 }
    requires empty { held (holds hand.old) ≡ 0 }
{
    let token = Token { slot: 0, leaf };
    for _ in 0..rounds {
        board.arrive(hand, token);
        board.depart(hand, token);
    }
}

fn visit(visitor: Visitor<'_>, rounds: u32) {
    let Visitor {
        board,
        mut hand,
        leaf,
    } = visitor;
    visit_rounds(board, &mut hand, leaf, rounds);
}

// Adds and subtracts one on the word, this number of times.
fn count_rounds(counter: &AtomicU64, rounds: u32) {
    for _ in 0..rounds {
        counter.fetch_add(1, Ordering::SeqCst);
        counter.fetch_sub(1, Ordering::SeqCst);
    }
}

// Adds and subtracts one under the lock, this number of times.
fn lock_rounds<R: Wait>(rt: &R, number: &Mutex<u64>, rounds: u32) {
    for _ in 0..rounds {
        let mut more = number.lock(rt);
        *more = more.wrapping_add(1);
        drop(more);
        let mut less = number.lock(rt);
        *less = less.wrapping_sub(1);
        drop(less);
    }
}

// Main's tokens, one at each leaf.
fn hold_leaves(board: &Board<1, 7, 4>, main: &mut Hand)
    requires here { IsHandOf board.now main.old × IsMain main.old }
    requires alone { (held (holds main.old) ≡ 0) × (out (holds main.old).role ≡ 0) }
    ensures main { IsHandOf board.now main.new × IsMain main.new }
    ensures alone { out (holds main.new).role ≡ 0 }
    ensures held { held (holds main.new) ≡ 4 }
{
    for leaf in 0..LEAVES {
        board.arrive(main, Token { slot: 0, leaf });
    }
}

// A helper for each thread.
fn send_all<'a>(
    board: &'a Board<1, 7, 4>,
    main: &mut Hand,
    alloc: Global,
    place: Arrival,
    threads: u8,
) -> Result<Vec<Visitor<'a>>, AllocError>
    requires here { IsHandOf board.now main.old × IsMain main.old }
    requires few { (threads ≤ 4) × (out (holds main.old).role ≡ 0) }
    ensures { IfOk result (λ v. vec_len v ≡ threads) }
{
    let mut visitors = Vec::with_capacity(alloc, usize::from(threads))?;
    for number in 0..threads {
        let leaf = match place {
            Arrival::OwnHeldLeaf => number,
            Arrival::OneEmptyLeaf => 0,
        };
        visitors.push(send(board, main, leaf))?;
    }
    Ok(visitors)
}

// The nanoseconds of a run on the board.
fn board_time<R: Threads + Clock + Sync>(
    rt: &R,
    alloc: Global,
    place: Arrival,
    load: Load,
) -> io::Result<u128>
    requires { load.threads ≤ 4 }
{
    let (board, mut main) = Board::<1, 7, 4>::new(alloc)?;
    if matches!(place, Arrival::OwnHeldLeaf) {
        hold_leaves(&board, &mut main);
    }
    let visitors = send_all(&board, &mut main, alloc, place, load.threads)?;
    let start = Instant::now(rt)?;
    map_vec(rt, visitors, &|visitor| visit(visitor, load.rounds))?;
    Ok(start.elapsed(rt)?.as_nanos())
}

// The nanoseconds of a run on an atomic counter.
fn atomic_time<R: Threads + Clock + Sync>(rt: &R, alloc: Global, load: Load) -> io::Result<u128> {
    let threads = usize::from(load.threads);
    let counter = AtomicU64::new(0);
    let start = Instant::now(rt)?;
    map_indices(rt, alloc, threads, &|_| count_rounds(&counter, load.rounds))?;
    Ok(start.elapsed(rt)?.as_nanos())
}

// The nanoseconds of a run on a number under a mutex.
fn mutex_time<R: Threads + Wait + Clock + Sync>(
    rt: &R,
    alloc: Global,
    load: Load,
) -> io::Result<u128> {
    let threads = usize::from(load.threads);
    let number = Mutex::new(0u64);
    let start = Instant::now(rt)?;
    map_indices(
        rt,
        alloc,
        threads,
        &|_| lock_rounds(rt, &number, load.rounds),
    )?;
    Ok(start.elapsed(rt)?.as_nanos())
}

// Prints the times of some threads.
fn show<R: Threads + Wait + Clock + Print + Sync>(
    rt: &R,
    alloc: Global,
    load: Load,
) -> io::Result<()>
    requires { (load.threads ≤ 4) × (0 < load.rounds) }
{
    let mut own = u128::MAX;
    let mut one = u128::MAX;
    let mut atomic = u128::MAX;
    let mut mutex = u128::MAX;
    for _ in 0..RUNS {
        own = own.min(board_time(rt, alloc, Arrival::OwnHeldLeaf, load)?);
        one = one.min(board_time(rt, alloc, Arrival::OneEmptyLeaf, load)?);
        atomic = atomic.min(atomic_time(rt, alloc, load)?);
        mutex = mutex.min(mutex_time(rt, alloc, load)?);
    }
    println!(rt;
        "{} threads: own held leaf {} ns, one empty leaf {} ns, atomic {} ns, mutex {} ns",
        load.threads,
        own / u128::from(load.rounds),
        one / u128::from(load.rounds),
        atomic / u128::from(load.rounds),
        mutex / u128::from(load.rounds)
    )
}

fn main(rt: HostRuntime) -> io::Result<()> {
    let alloc: Global = rt.alloc();
    let words: Vec<String> = env::args(&rt)?.collect(alloc)?;
    let rounds = match words.as_slice() {
        [_, word] => word.parse::<u32>().unwrap_or(0),
        _ => 0,
    };
    if rounds == 0 {
        return println!(rt; "usage: board_bench ROUNDS (1000000 for steady figures)");
    }
    for threads in [1u8, 2, 4] {
        show(&rt, alloc, Load { threads, rounds })?;
    }
    Ok(())
}
