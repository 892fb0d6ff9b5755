//! Adding or removing one charge of a hand: a token at a leaf, and 1 in a stripe of its slot.
ghost use Rattle.std.specs.Prelude.{◌≡◌, ℕ, ◌+◌, ◌<◌};
ghost use Rattle.snzi_core.specs.Holding.{held};
ghost use Rattle.snzi_tree.specs.Contents.{content_of};
ghost use Rattle.snzi_tree.specs.Hands.{IsHandOf, holds, SameHand};
ghost use Rattle.snzi_tokens.specs.Listed.{one_at};
ghost use Rattle.board_meter.specs.Held.{InStep};

use pids_charge::{HELD_MAX, Token};
use snzi_tree::{Board, Hand};

/// Adds a token at the leaf, and 1 in the stripe of that leaf.
pub(crate) fn charge<const G: usize, const W: usize, const L: usize>(
    board: &Board<G, W, L>,
    hand: &mut Hand,
    token: Token,
)
    requires here { IsHandOf board.now hand.old }
    requires place { (token.slot < G) × (token.leaf < L) }
    requires room { held (holds hand.old) < HELD_MAX }
    ensures hand { SameHand hand.old hand.new }
    ensures content { (s j : ℕ) → content_of W L (holds hand.new) s j ≡ content_of W L (holds hand.old) s j + one_at token.slot token.leaf s j }
    ensures held { held (holds hand.new) ≡ held (holds hand.old) + 1 }
    ensures in_step { InStep W L (holds hand.old) (holds hand.new) }
{
    board.arrive(hand, token);
    board.add(hand, token.slot, token.leaf, 1);
}

/// Removes a token at the leaf, and subtracts 1 in this stripe of its slot.
pub(crate) fn uncharge<const G: usize, const W: usize, const L: usize>(
    board: &Board<G, W, L>,
    hand: &mut Hand,
    token: Token,
    stripe: u8,
)
    requires here { IsHandOf board.now hand.old }
    requires place { (token.slot < G) × (token.leaf < L) × (stripe < L) }
    requires charged { 0 < content_of W L (holds hand.old) token.slot token.leaf }
    ensures hand { SameHand hand.old hand.new }
    ensures content { (s j : ℕ) → content_of W L (holds hand.new) s j + one_at token.slot token.leaf s j ≡ content_of W L (holds hand.old) s j }
    ensures held { held (holds hand.new) + 1 ≡ held (holds hand.old) }
    ensures in_step { InStep W L (holds hand.old) (holds hand.new) }
{
    board.depart(hand, token);
    board.take(hand, token.slot, stripe, 1);
}
