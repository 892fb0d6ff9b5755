//! Reading a core: words, the indicator and the sum of a slot.
ghost use Rattle.std.specs.Prelude.{◌≡◌, ℕ, ◌+◌, ◌-◌, ◌*◌, ◌/◌, ◌%◌, ◌^◌, ◌<◌, ◌≤◌, ◌↔◌, IsTrue, length, slice_index};
ghost use Rattle.snzi_core.specs.Shape.{leaves};
ghost use Rattle.snzi_core.specs.Balance.{Present};
ghost use Rattle.snzi_core.specs.CoreState.{span, node_of, parent_of, stripe_of, token_of, above};
ghost use Rattle.snzi_core.specs.Effect.{slot_amounts};

use crate::event::At;
use crate::machine::Core;
use snzi_tokens::Token;
use std::alloc::Allocator;

impl<A: Allocator + Clone> Core<A> {
    /// The word of a node.
    pub fn word(&self, at: At) -> u64
        requires { (at.slot < self.now.slots) × (at.node < self.now.nodes) }
        ensures { result ≡ slice_index self.now.words (node_of self.now at) }
    {
        self.words[self.node_word(at)]
    }

    /// Whether some hand has a token at the node or below it. Reads only the node's word.
    pub fn query(&self, at: At) -> bool
        requires { (at.slot < self.now.slots) × (at.node < self.now.nodes) }
        ensures { IsTrue result ↔ Present (above self.now) self.now.hands (node_of self.now at) }
    {
        let _ = &self.words;
        self.word(at) > 0
    }

    /// The hands' amounts in all stripes of a slot, modulo 2^64. Reads each stripe once.
    pub fn sum(&self, slot: u16) -> u64
        requires { slot < self.now.slots }
        ensures { result ≡ slot_amounts self.now slot (leaves self.now.nodes) % 2 ^ 64 }
    {
        let mut all: u64 = 0;
        for stripe in 0..self.leaves() {
            all = all.wrapping_add(self.words[self.stripe_word(slot, stripe)]);
        }
        all
    }

    // The number of leaves, and of stripes, of a slot.
    pub(crate) fn leaves(&self) -> u8
        ensures { result ≡ leaves self.now.nodes }
    {
        ((u16::from(self.nodes) + 1) / 2) as u8
    }

    // The number of words of a slot.
    pub(crate) fn span(&self) -> u16
        ensures value { result ≡ span self.now }
        ensures bounds { (0 < result) × (result ≤ 383) }
    {
        u16::from(self.nodes) + u16::from(self.leaves())
    }

    // The number of the k-th word of a slot.
    pub(crate) fn word_number(&self, slot: u16, k: u16) -> usize
        ensures value { result ≡ slot * span self.now + k }
        ensures inside { slot < self.now.slots → k < span self.now → result < length self.now.words }
    {
        let _ = &self.words;
        slot as usize * self.span() as usize + k as usize
    }

    pub(crate) fn node_word(&self, at: At) -> usize
        ensures value { result ≡ node_of self.now at }
        ensures inside { at.slot < self.now.slots → at.node < self.now.nodes → result < length self.now.words }
    {
        self.word_number(at.slot, u16::from(at.node))
    }

    pub(crate) fn stripe_word(&self, slot: u16, stripe: u8) -> usize
        ensures value { result ≡ stripe_of self.now slot stripe }
        ensures inside { slot < self.now.slots → stripe < leaves self.now.nodes → result < length self.now.words }
    {
        self.word_number(slot, u16::from(self.nodes) + u16::from(stripe))
    }

    pub(crate) fn token_word(&self, token: Token) -> usize
        ensures value { result ≡ token_of self.now token }
        ensures inside { token.slot < self.now.slots → token.leaf < leaves self.now.nodes → result < length self.now.words }
    {
        self.word_number(
            token.slot,
            (u16::from(self.nodes) - 1) / 2 + u16::from(token.leaf),
        )
    }

    // The parent's word; a root is its own parent.
    pub(crate) fn parent_word(&self, at: At) -> usize
        ensures value { result ≡ parent_of self.now at }
    {
        self.word_number(at.slot, (u16::from(at.node).saturating_sub(1)) / 2)
    }
}
