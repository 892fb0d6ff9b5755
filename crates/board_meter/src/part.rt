//! One part of a settlement, with one hand.
ghost use Rattle.std.specs.Prelude.{◌≡◌, ℕ, ◌+◌, ◌<◌, ◌≤◌, length};
ghost use Rattle.snzi_core.specs.Holding.{held};
ghost use Rattle.snzi_tree.specs.Contents.{content_of};
ghost use Rattle.snzi_tree.specs.Hands.{IsHandOf, holds, SameHand};
ghost use Rattle.snzi_tokens.specs.Listed.{IsWithin, listed_at};
ghost use Rattle.board_meter.specs.Held.{CanSettle, InStep, Settled};

use crate::charges::{charge, uncharge};
use pids_charge::{Gate, HELD_MAX, Token};
use snzi_tree::{Board, Hand};

// Removes the charges in order.
fn uncharge_all<const G: usize, const W: usize, const L: usize>(
    board: &Board<G, W, L>,
    hand: &mut Hand,
    stripe: u8,
    leaving: &[Token],
)
    requires here { IsHandOf board.now hand.old }
    requires place { IsWithin G L leaving.now × (stripe < L) }
    requires charged { (s j : ℕ) → listed_at leaving.now s j ≤ content_of W L (holds hand.old) s j }
    ensures hand { SameHand hand.old hand.new }
    ensures content { (s j : ℕ) → content_of W L (holds hand.new) s j + listed_at leaving.now s j ≡ content_of W L (holds hand.old) s j }
    ensures held { held (holds hand.new) + length leaving.now ≡ held (holds hand.old) }
    ensures in_step { InStep W L (holds hand.old) (holds hand.new) }
{
    for token in leaving {
        uncharge(board, hand, *token, stripe);
    }
}

// Adds the charges in order.
fn charge_all<const G: usize, const W: usize, const L: usize>(
    board: &Board<G, W, L>,
    hand: &mut Hand,
    arriving: &[Token],
)
    requires here { IsHandOf board.now hand.old }
    requires place { IsWithin G L arriving.now }
    requires room { held (holds hand.old) + length arriving.now ≤ HELD_MAX }
    ensures hand { SameHand hand.old hand.new }
    ensures content { (s j : ℕ) → content_of W L (holds hand.new) s j ≡ content_of W L (holds hand.old) s j + listed_at arriving.now s j }
    ensures held { held (holds hand.new) ≡ held (holds hand.old) + length arriving.now }
    ensures in_step { InStep W L (holds hand.old) (holds hand.new) }
{
    for token in arriving {
        charge(board, hand, *token);
    }
}

/// The charges to be removed, from this stripe, and those to be added.
#[derive(Clone, Copy)]
pub(crate) struct Exchange<'a> {
    pub(crate) stripe: u8,
    pub(crate) leaving: &'a [Token],
    pub(crate) arriving: &'a [Token],
}

/// Calls the test hook, then removes the leaving charges, then adds the arriving ones.
pub(crate) fn do_part<const G: usize, const W: usize, const L: usize, A: Gate>(
    board: &Board<G, W, L>,
    hand: &mut Hand,
    gate: &A,
    part: u8,
    exchange: &Exchange,
)
    requires here { IsHandOf board.now hand.old }
    requires part { (1 ≤ part) × (part ≤ 24) }
    requires can { CanSettle G W L exchange.now.stripe exchange.now.leaving.now exchange.now.arriving.now (holds hand.old) }
    ensures hand { SameHand hand.old hand.new }
    ensures settled { Settled W L exchange.now.leaving.now exchange.now.arriving.now (holds hand.old) (holds hand.new) }
{
    gate.pass(part);
    uncharge_all(board, hand, exchange.stripe, exchange.leaving);
    charge_all(board, hand, exchange.arriving);
}

/// As `do_part`, with a hand that is taken and handed back.
pub(crate) fn do_part_by_value<const G: usize, const W: usize, const L: usize, A: Gate>(
    board: &Board<G, W, L>,
    mut hand: Hand,
    gate: &A,
    part: u8,
    exchange: &Exchange,
) -> Hand
    requires here { IsHandOf board.now hand }
    requires part { (1 ≤ part) × (part ≤ 24) }
    requires can { CanSettle G W L exchange.now.stripe exchange.now.leaving.now exchange.now.arriving.now (holds hand) }
    ensures hand { SameHand hand result }
    ensures settled { Settled W L exchange.now.leaving.now exchange.now.arriving.now (holds hand) (holds result) }
{
    do_part(board, &mut hand, gate, part, exchange);
    hand
}
