//! A settlement in parts, each on a thread and with a hand of its own.
ghost use Rattle.std.specs.Prelude.{◌-◌, ◌<◌, ◌≤◌, ◌≡◌};
ghost use Rattle.snzi_tree.specs.Contents.{AtLeaves};
ghost use Rattle.snzi_tree.specs.Hands.{IsHandOf, holds, SameHand};
ghost use Rattle.board_meter.specs.Held.{CanSettle, HasRoomForHelpers, Settled};
ghost use denote.Param.Send.{IsSync};

use crate::hands::{hand_out, join_back};
use crate::part::{Exchange, do_part, do_part_by_value};
use core::thread::Stack;
use pids_charge::{Gate, Token, last_run};
use snzi_tree::{Board, Hand};
use std::snapshot::Snapshot;
use std::sync::Wait;
use std::thread;
use std::thread::{Promise, Scope, Threads};

/// The bytes of the stack of a thread that does a part. The C library keeps the stacks of joined
/// threads for later ones, but at most 40 MB. Seven stacks of the default size, 8 MB, are more than
/// that, so that each settlement would unmap some, which interrupts all processors.
const PART_STACK: usize = 256 * 1024;

/// The promise of a thread that does a part: it returns its hand, after these charges are settled.
#[derive(Drop)]
struct PartDone<'a, const W: usize, const L: usize> {
    leaving: &'a [Token],
    arriving: &'a [Token],
    before: Snapshot<Hand>,
}

impl<'a, const W: usize, const L: usize> Promise<Hand> for PartDone<'a, W, L> {
    ghost use Rattle.snzi_tree.specs.Hands.{holds, SameHand};
    ghost use Rattle.board_meter.specs.Held.{Settled};

    ghost kept_by = { λ p hand. SameHand p.before.value hand × Settled W L p.leaving.now p.arriving.now (holds p.before.value) (holds hand) };
}

/// Does the parts 1 to `parts`, or part 1 if that is 0. The last part runs on a thread of its own
/// with a hand of its own. The others run beside it, in the same way, before it is joined. Part 1
/// runs here, with main. If a thread cannot be started, the thread that would have started it does
/// its part as well.
pub(crate) fn settle_parts<
    R: Threads + Wait,
    A: Gate,
    const G: usize,
    const W: usize,
    const L: usize,
>(rt: &R, board: &Board<G, W, L>, main: &mut Hand, gate: &A, parts: u8, exchange: &Exchange)
    requires here { IsHandOf board.now main.old }
    requires few { parts ≤ 24 }
    requires can { CanSettle G W L exchange.now.stripe exchange.now.leaving.now exchange.now.arriving.now (holds main.old) }
    requires main { HasRoomForHelpers parts (holds main.old) }
    requires at_leaves { AtLeaves W L (holds main.old) }
    ensures hand { SameHand main.old main.new }
    ensures settled { Settled W L exchange.now.leaving.now exchange.now.arriving.now (holds main.old) (holds main.new) }
{
    let Exchange {
        stripe,
        leaving,
        arriving,
    } = *exchange;
    let main = thread::scope(
        thread::scope_env(),
        rt,
        move |scope| -> &mut Hand
            requires { IsSync A.row × IsHandOf board.now main.now × (parts ≤ 24)
                × CanSettle G W L stripe leaving.now arriving.now (holds main.now)
                × HasRoomForHelpers parts (holds main.now) × AtLeaves W L (holds main.now) }
            ensures { (result.ghost_name ≡ main.entry.ghost_name) × SameHand main.entry.now result.now
                × Settled W L leaving.entry.now arriving.entry.now (holds main.entry.now) (holds result.now) }
        {
            let exchange = Exchange {
                stripe,
                leaving,
                arriving,
            };
            settle_in(rt, scope, board, main, gate, parts, exchange);
            main
        },
    );
    take_back(main);
}

/// Does the parts as `settle_parts` does, with threads of this scope. The runtime may not wait, so
/// no part can take a lock.
fn settle_in<'s, E, R: Threads, A: Gate, const G: usize, const W: usize, const L: usize>(
    rt: &R,
    scope: &Scope<'s, E>,
    board: &'s Board<G, W, L>,
    main: &mut Hand,
    gate: &'s A,
    parts: u8,
    exchange: Exchange<'s>,
)
    requires here { IsHandOf board.now main.old }
    requires few { parts ≤ 24 }
    requires can { CanSettle G W L exchange.stripe exchange.leaving.now exchange.arriving.now (holds main.old) }
    requires main { HasRoomForHelpers parts (holds main.old) }
    requires at_leaves { AtLeaves W L (holds main.old) }
    ensures hand { SameHand main.old main.new }
    ensures settled { Settled W L exchange.entry.leaving.now exchange.entry.arriving.now (holds main.old) (holds main.new) }
{
    if parts <= 1 {
        do_part(board, main, gate, 1, &exchange);
        return;
    }
    let stripe = exchange.stripe;
    let (rest_leaving, leaving) = last_run(exchange.leaving, parts);
    let (rest_arriving, arriving) = last_run(exchange.arriving, parts);
    let rest = Exchange {
        stripe,
        leaving: rest_leaving,
        arriving: rest_arriving,
    };
    let helper = hand_out(board, main, leaving);
    let promise = PartDone::<W, L> {
        leaving,
        arriving,
        before: Snapshot::of(&helper),
    };
    let do_last = move || -> Hand
        requires { IsHandOf board.now helper × CanSettle G W L stripe leaving.now arriving.now (holds helper) × (1 < parts) × (parts ≤ 24) }
        ensures { SameHand helper result × Settled W L leaving.entry.now arriving.entry.now (holds helper) (holds result) }
    {
        let last = Exchange {
            stripe,
            leaving,
            arriving,
        };
        do_part_by_value(board, helper, gate, parts, &last)
    };
    let started = Stack::new()
        .stack_size(PART_STACK)
        .spawn_scoped_with(scope, promise, do_last);
    settle_in(rt, scope, board, main, gate, parts - 1, rest);
    let helper = match started {
        Ok(last) => last.join(rt),
        Err(refused) => (refused.value)(),
    };
    join_back(board, main, helper);
}

/// Does nothing. The use of a reference that a call has returned tells the borrow checker that the
/// caller has it back.
fn take_back(main: &mut Hand)
    ensures { main.new ≡ main.old }
{}
