//! A board on four threads.
//!
//! `threads LEAVES END`: four helpers on a new board, each in a thread of its own. LEAVES is `apart`, with a leaf and a stripe for
//! each helper, or `same`, with the first for all. Each does 10,000 rounds: it arrives, queries, adds 1, departs and takes 1.
//! If END is `keep`, it then arrives and adds once more; if it is `leave`, it doesn't. Main joins the helpers, queries and sums.
ghost use Rattle.std.specs.Prelude.{◌≡◌, ◌+◌, ◌<◌, ◌≤◌};
ghost use Rattle.std.specs.Thread.{IsSync};
ghost use Rattle.snzi_core.specs.Caps.{helper_cap};
ghost use Rattle.snzi_core.specs.Holding.{held, out};
ghost use Rattle.snzi_tree.specs.Hands.{IsHandOf, IsMain, holds};
ghost use Rattle.indicator_tests.specs.Works.{Works, IsFresh, IsBack};

use snzi_tree::{Board, HELD_MAX, Hand, Token};
use std::alloc::{AllocError, Global};
use std::sync::Wait;
use std::thread::{Threads, join};
use test_support::{Case, CaseFault};

// The rounds of one thread.
const ROUNDS: u32 = 10_000;

// A leaf and stripe of its own for each hand, or the first for all.
#[derive(Clone, Copy)]
struct Layout {
    apart: bool,
    keep: bool,
}

// The result of a run: whether each query was true, and what main finds after the joins.
#[derive(Drop)]
struct Found {
    each: bool,
    query: bool,
    sum: u64,
    held: u64,
    ended: bool,
}

// Arrives, queries, adds, departs and takes. Returns whether the query was true.
fn round(board: &Board<1, 7, 4>, hand: &mut Hand, leaf: u8) -> bool
    requires here { IsHandOf board.now hand.old × (leaf < 4) }
    requires room { held (holds hand.old) < HELD_MAX }
    ensures works { Works hand.old hand.new × (held (holds hand.new) ≡ held (holds hand.old)) }
{
    let token = Token { slot: 0, leaf };
    board.arrive(hand, token);
    let answer = board.query(hand, 0);
    board.add(hand, 0, leaf, 1);
    board.depart(hand, token);
    board.take(hand, 0, leaf, 1);
    answer
}

// Many rounds. If `keep`, a last token and amount stay.
fn work(board: &Board<1, 7, 4>, mut hand: Hand, leaf: u8, keep: bool) -> (Hand, bool)
    requires here { IsFresh board.now hand × (leaf < 4) }
    ensures { IsBack board.now result.0 }
{
    let mut each = true;
    for _ in 0..ROUNDS {
        let answer = round(board, &mut hand, leaf);
        each = each & answer;
    }
    if keep {
        board.arrive(&mut hand, Token { slot: 0, leaf });
        board.add(&mut hand, 0, leaf, 1);
    }
    (hand, each)
}

// The leaf of a hand.
fn leaf_of(apart: bool, number: u8) -> u8
    requires { number < 4 }
    ensures { result < 4 }
{
    if apart { number } else { 0 }
}

// A helper that holds nothing.
fn split_one(board: &Board<1, 7, 4>, main: &mut Hand) -> Hand
    requires here { IsHandOf board.now main.old × IsMain main.old }
    requires room { out (holds main.old).role < helper_cap }
    ensures main { IsHandOf board.now main.new × IsMain main.new × (held (holds main.new) ≡ held (holds main.old)) }
    ensures out { out (holds main.new).role ≡ out (holds main.old).role + 1 }
    ensures helper { IsFresh board.now result }
{
    board.split(main, &[])
}

// Main joins a helper that holds at most one token.
fn join_one(board: &Board<1, 7, 4>, main: &mut Hand, helper: Hand)
    requires here { IsHandOf board.now main.old × IsMain main.old }
    requires helper { IsBack board.now helper }
    requires room { held (holds main.old) < HELD_MAX }
    ensures main { IsHandOf board.now main.new × IsMain main.new × (held (holds main.new) ≤ held (holds main.old) + 1) }
{
    board.join(main, helper);
}

// Two hands at work, each in a thread of its own.
fn two<R: Threads + Sync>(
    rt: &R,
    board: &Board<1, 7, 4>,
    place: Layout,
    first: u8,
    a: Hand,
    b: Hand,
) -> (Hand, Hand, bool)
    requires here { IsFresh board.now a }
    requires there { IsFresh board.now b }
    requires leaf { first < 3 }
    ensures a { IsBack board.now result.0 }
    ensures b { IsBack board.now result.1 }
{
    let one = leaf_of(place.apart, first);
    let other = leaf_of(place.apart, first + 1);
    let keep = place.keep;
    let (x, y) = join(
        rt,
        || work(board, a, one, keep),
        || work(board, b, other, keep),
    );
    (x.0, y.0, x.1 & y.1)
}

/// Ends the board if no helper is out. Returns whether it did.
pub(crate) fn ends<const W: usize, const L: usize>(board: Board<1, W, L>, main: Hand) -> bool
    requires here { IsHandOf board main }
    requires main { IsMain main }
{
    if main.helpers_out() > 0 {
        return false;
    }
    board.close(main);
    true
}

// Four helpers at work, each in a thread of its own, and then joined; the board ends with the run of all five hands.
fn four<R: Threads + Sync>(rt: &R, alloc: Global, place: Layout) -> Result<Found, AllocError> {
    let (board, mut main) = Board::<1, 7, 4>::new(alloc)?;
    let a = split_one(&board, &mut main);
    let b = split_one(&board, &mut main);
    let c = split_one(&board, &mut main);
    let d = split_one(&board, &mut main);
    let shared = &board;
    let (x, y) = join(
        rt,
        || -> (Hand, Hand, bool)
            requires { IsFresh shared.now a × IsFresh shared.now b × IsSync R.row }
            ensures { IsBack shared.entry.now result.0 × IsBack shared.entry.now result.1 }
        { two(rt, shared, place, 0, a, b) },
        || -> (Hand, Hand, bool)
            requires { IsFresh shared.now c × IsFresh shared.now d × IsSync R.row }
            ensures { IsBack shared.entry.now result.0 × IsBack shared.entry.now result.1 }
        { two(rt, shared, place, 2, c, d) },
    );
    join_one(&board, &mut main, x.0);
    join_one(&board, &mut main, x.1);
    join_one(&board, &mut main, y.0);
    join_one(&board, &mut main, y.1);
    let query = board.query(&mut main, 0);
    let sum = board.sum(&mut main, 0);
    let held = main.held();
    Ok(Found {
        each: x.2 & y.2,
        query,
        sum,
        held,
        ended: ends(board, main),
    })
}

/// Says what the four helpers leave.
pub(crate) fn put_threads<R: Threads + Wait + Sync>(
    rt: &R,
    alloc: Global,
    case: &Case,
    said: &mut String,
) -> Result<(), CaseFault>
    requires { IsSync R.row }
{
    let place = Layout {
        apart: matches!(case.word(1), b"apart"),
        keep: matches!(case.word(2), b"keep"),
    };
    let found = four(rt, alloc, place)?;
    let (each, query, sum) = (found.each, found.query, found.sum);
    let (held, ended) = (found.held, found.ended);
    write!(
        said,
        "each query {each}; then query {query}, sum {sum}, held {held}, closed {ended}"
    )?;
    Ok(())
}
