//! Arrivals and departures: loops over the atomic steps, parent first.
ghost use Rattle.std.specs.Prelude.{◌≡◌, ◌≢◌, ℕ, ◌+◌, ◌-◌, ◌*◌, ◌/◌, ◌<◌, ◌≤◌, IsTrue, IsFalse};
ghost use Rattle.snzi_core.specs.Caps.{token_cap};
ghost use Rattle.snzi_core.specs.Changes.{Gains, Loses, Moves};
ghost use Rattle.snzi_core.specs.Holding.{held, gain, tokens_at};
ghost use Rattle.snzi_core.specs.Shape.{node_word};
ghost use Rattle.snzi_tokens.specs.Listed.{one_at};
ghost use Rattle.snzi_tree.specs.Contents.{token_word, content_of, AtLeaves};
ghost use Rattle.snzi_tree.specs.Depths.{halved, OnPath, depth, leaf_depth, arrive_steps, depart_steps};
ghost use Rattle.snzi_tree.specs.Hands.{IsHandOf, holds, joined_events, counted, IsNodeWord, SameHand};

use crate::board::{Board, Hand};
use snzi_core::{TOKEN_CAP, Token};

/// A hand that holds this many tokens in all may not arrive.
pub const HELD_MAX: u64 = TOKEN_CAP - 8;

impl<const G: usize, const W: usize, const L: usize> Board<G, W, L> {
    // Departs from a node, and from its parent if the node becomes zero.
    fn depart_at(&self, hand: &mut Hand, slot: usize, node: usize)
        requires here { IsHandOf self.now hand.old }
        requires place { (slot < G) × (node < W) }
        requires token { 0 < tokens_at (node_word W L slot node) (holds hand.old) }
        ensures steps { hand.new.steps ≤ hand.old.steps + depart_steps (depth node) }
        ensures counts { counted hand.old.steps 1 ≤ hand.new.steps }
        ensures hand { SameHand hand.old hand.new }
        ensures joined { joined_events hand.new ≡ joined_events hand.old }
        ensures token { Loses (node_word W L slot node) (holds hand.old) (holds hand.new) }
    {
        let mut at = node;
        'up: loop {
            let word = self.node(slot, at);
            if !self.leave(hand, word, at == 0) {
                return;
            }
            at = (at - 1) / 2;
        }
    }

    // Adds to a node that is not zero, with one attempt.
    fn try_fast(&self, hand: &mut Hand, word: usize) -> bool
        requires here { IsHandOf self.now hand.old × (word < self.now.table.shared.table_id.words) }
        requires node { IsNodeWord W L word }
        requires room { held (holds hand.old) < token_cap }
        ensures steps { hand.new.steps ≤ hand.old.steps + 2 }
        ensures counts { counted hand.old.steps 1 ≤ hand.new.steps }
        ensures hand { SameHand hand.old hand.new }
        ensures joined { joined_events hand.new ≡ joined_events hand.old }
        ensures won { IsTrue result → holds hand.new ≡ gain (holds hand.old) word }
        ensures lost { IsFalse result → holds hand.new ≡ holds hand.old }
    {
        let seen = self.look(hand, word);
        if seen == 0 {
            return false;
        }
        self.fast_add(hand, word, seen)
    }

    // Climbs from a node until an arrival succeeds, and returns the node of that arrival.
    fn climb(&self, hand: &mut Hand, slot: usize, node: usize) -> usize
        requires here { IsHandOf self.now hand.old }
        requires place { (slot < G) × (node < W) }
        requires room { held (holds hand.old) < token_cap }
        ensures steps { hand.new.steps ≤ hand.old.steps + (2 * depth node + 1) }
        ensures counts { counted hand.old.steps 1 ≤ hand.new.steps }
        ensures hand { SameHand hand.old hand.new }
        ensures joined { joined_events hand.new ≡ joined_events hand.old }
        ensures above { (result ≤ node) × OnPath node result }
        ensures token { Gains (node_word W L slot result) (holds hand.old) (holds hand.new) }
    {
        let mut at = node;
        'up: loop {
            let word = self.node(slot, at);
            if at == 0 {
                self.root_add(hand, word);
                return 0;
            }
            if self.try_fast(hand, word) {
                return at;
            }
            at = (at - 1) / 2;
        }
    }

    // The node on the way from `node` up to `top` that is a child of `top`.
    fn toward(&self, node: usize, top: usize) -> usize
        requires { OnPath node top × (node ≢ top) }
        ensures { (halved result ≡ top) × (0 < result) × (result ≤ node) × OnPath node result }
    {
        let mut at = node;
        'up: loop {
            let parent = (at - 1) / 2;
            if parent == top {
                return at;
            }
            at = parent;
        }
    }

    // Arrives at a node. If the node may be zero, arrives at its parent first.
    fn arrive_at(&self, hand: &mut Hand, slot: usize, node: usize)
        requires here { IsHandOf self.now hand.old }
        requires place { (slot < G) × (node < W) }
        requires room { held (holds hand.old) + 2 ≤ token_cap }
        ensures steps { hand.new.steps ≤ hand.old.steps + arrive_steps (depth node) }
        ensures counts { counted hand.old.steps 1 ≤ hand.new.steps }
        ensures hand { SameHand hand.old hand.new }
        ensures joined { joined_events hand.new ≡ joined_events hand.old }
        ensures token { Gains (node_word W L slot node) (holds hand.old) (holds hand.new) }
    {
        let mut at = self.climb(hand, slot, node);
        'down: while at != node {
            let next = self.toward(node, at);
            self.descend(hand, slot, next);
            at = next;
        }
    }

    // Moves an arrival from a node's parent to the node.
    fn descend(&self, hand: &mut Hand, slot: usize, node: usize)
        requires here { IsHandOf self.now hand.old }
        requires place { (slot < G) × (0 < node) × (node < W) }
        requires token { 0 < tokens_at (node_word W L slot (halved node)) (holds hand.old) }
        requires room { held (holds hand.old) < token_cap }
        ensures steps { hand.new.steps ≤ hand.old.steps + depart_steps (depth node) }
        ensures counts { counted hand.old.steps 1 ≤ hand.new.steps }
        ensures hand { SameHand hand.old hand.new }
        ensures joined { joined_events hand.new ≡ joined_events hand.old }
        ensures token { Moves (node_word W L slot (halved node)) (node_word W L slot node) (holds hand.old) (holds hand.new) }
    {
        let word = self.node(slot, node);
        if self.child_add(hand, word) {
            self.depart_at(hand, slot, (node - 1) / 2);
        }
    }

    /// Adds one token at the leaf of `t`. Takes at most 1 + 3d + d(d+1)/2 steps at a leaf of depth
    /// d, whatever other threads do: 10 with seven nodes, 16 with fifteen.
    pub fn arrive(&self, hand: &mut Hand, t: Token)
        requires here { IsHandOf self.now hand.old }
        requires place { (t.slot < G) × (t.leaf < L) }
        requires room { held (holds hand.old) < HELD_MAX }
        ensures steps { hand.new.steps ≤ hand.old.steps + arrive_steps (leaf_depth W t.leaf) }
        ensures counts { counted hand.old.steps 1 ≤ hand.new.steps }
        ensures hand { SameHand hand.old hand.new }
        ensures joined { joined_events hand.new ≡ joined_events hand.old }
        ensures token { Gains (token_word W L t) (holds hand.old) (holds hand.new) }
        ensures content { (s j : ℕ) → content_of W L (holds hand.new) s j ≡ content_of W L (holds hand.old) s j + one_at t.slot t.leaf s j }
        ensures at_leaves { AtLeaves W L (holds hand.old) → AtLeaves W L (holds hand.new) }
    {
        self.arrive_at(hand, t.slot as usize, (W - 1) / 2 + t.leaf as usize);
    }

    /// Removes one token at the leaf of `t`. Takes at most d + 1 steps at a leaf of depth d: 3 with
    /// seven nodes, 4 with fifteen.
    pub fn depart(&self, hand: &mut Hand, t: Token)
        requires here { IsHandOf self.now hand.old }
        requires place { (t.slot < G) × (t.leaf < L) }
        requires token { 0 < content_of W L (holds hand.old) t.slot t.leaf }
        ensures steps { hand.new.steps ≤ hand.old.steps + depart_steps (leaf_depth W t.leaf) }
        ensures counts { counted hand.old.steps 1 ≤ hand.new.steps }
        ensures hand { SameHand hand.old hand.new }
        ensures joined { joined_events hand.new ≡ joined_events hand.old }
        ensures token { Loses (token_word W L t) (holds hand.old) (holds hand.new) }
        ensures content { (s j : ℕ) → content_of W L (holds hand.new) s j + one_at t.slot t.leaf s j ≡ content_of W L (holds hand.old) s j }
        ensures at_leaves { AtLeaves W L (holds hand.old) → AtLeaves W L (holds hand.new) }
    {
        self.depart_at(hand, t.slot as usize, (W - 1) / 2 + t.leaf as usize);
    }
}
