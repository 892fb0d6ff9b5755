//! The tests that decide whether an event is lawful.
ghost use Rattle.std.specs.Prelude.{◌≡◌, ℕ, ◌+◌, ◌-◌, ◌*◌, ◌/◌, ◌%◌, ◌^◌, ◌<◌, ◌≤◌, length, slice_index, nat_lt};
ghost use Rattle.std.specs.List.{list_all};
ghost use Rattle.snzi_core.specs.Caps.{token_cap};
ghost use Rattle.snzi_core.specs.Holding.{tokens_at, out};
ghost use Rattle.snzi_core.specs.CoreState.{span, node_of, parent_of, root_of, stripe_of, token_of, hand_of, kind_of};
ghost use Rattle.snzi_core.specs.Lawful.{has_node, has_word, has_stripe, has_token, is_live, helps, is_zero, is_at_cap, lacks, passes_up};
ghost use Rattle.snzi_core.specs.Lawful.{count_at, main_covers, main_has, is_crowded, is_inner, overflows, stays, some_word};

use crate::caps::{HELPER_CAP, TOKEN_CAP};
use crate::event::At;
use crate::holding::Role;
use crate::machine::Core;
use snzi_tokens::Token;
use std::alloc::Allocator;

impl<A: Allocator + Clone> Core<A> {
    pub(crate) fn has_node(&self, at: At) -> bool
        ensures { result ≡ has_node self.now at }
    {
        at.slot < self.slots && at.node < self.nodes
    }

    pub(crate) fn has_word(&self, slot: u16, word: u8) -> bool
        ensures { result ≡ has_word self.now slot word }
    {
        slot < self.slots && u16::from(word) < self.span()
    }

    pub(crate) fn has_stripe(&self, slot: u16, stripe: u8) -> bool
        ensures { result ≡ has_stripe self.now slot stripe }
    {
        slot < self.slots && stripe < self.leaves()
    }

    pub(crate) fn has_token(&self, token: Token) -> bool
        ensures { result ≡ has_token self.now token }
    {
        token.slot < self.slots && token.leaf < self.leaves()
    }

    pub(crate) fn has_slot(&self, slot: u16) -> bool
        ensures { result ≡ nat_lt slot self.now.slots }
    {
        slot < self.slots
    }

    // The role of a hand; a number that was never made is spent.
    pub(crate) fn role(&self, hand: u32) -> Role
        ensures { result ≡ (hand_of self.now hand).role }
    {
        match self.hands.get(hand as usize) {
            Some(holder) => holder.role(),
            None => Role::Spent,
        }
    }

    pub(crate) fn is_live(&self, hand: u32) -> bool
        ensures { result ≡ is_live self.now hand }
    {
        match self.role(hand) {
            Role::Main(_) => true,
            Role::Helper => true,
            Role::Spent => false,
        }
    }

    pub(crate) fn is_helper(&self, hand: u32) -> bool
        ensures { result ≡ helps (hand_of self.now hand).role }
    {
        match self.role(hand) {
            Role::Main(_) => false,
            Role::Helper => true,
            Role::Spent => false,
        }
    }

    pub(crate) fn helpers_out(&self) -> u64
        ensures { result ≡ out (hand_of self.now 0).role }
    {
        match self.role(0) {
            Role::Main(n) => n,
            Role::Helper => 0,
            Role::Spent => 0,
        }
    }

    pub(crate) fn tokens(&self, hand: u32, word: usize) -> u64
        ensures value { result ≡ tokens_at word (hand_of self.now hand) }
        ensures cap { result ≤ token_cap }
    {
        match self.hands.get(hand as usize) {
            Some(holder) => holder.tokens_at(word),
            None => 0,
        }
    }

    pub(crate) fn is_zero(&self, word: usize) -> bool
        requires { word < length self.now.words }
        ensures { result ≡ is_zero self.now word }
    {
        self.words[word] == 0
    }

    // Whether a leave moves a token to the parent.
    pub(crate) fn passes_up(&self, at: At) -> bool
        requires { (at.slot < self.now.slots) × (at.node < self.now.nodes) }
        ensures { result ≡ passes_up self.now at }
    {
        self.word(at) == 1 && at.node != 0
    }

    pub(crate) fn is_at_cap(&self, hand: u32, word: usize) -> bool
        ensures { result ≡ is_at_cap self.now hand word }
    {
        TOKEN_CAP <= self.tokens(hand, word)
    }

    pub(crate) fn lacks(&self, hand: u32, word: usize) -> bool
        ensures { result ≡ lacks self.now hand word }
    {
        self.tokens(hand, word) == 0
    }

    // How many tokens of a share are at a word.
    pub(crate) fn count(&self, share: &[Token], word: usize) -> usize
        ensures { result ≡ count_at self.now share.now word }
    {
        share
            .iter()
            .filter(|token| self.token_word(**token) == word)
            .count()
    }

    pub(crate) fn has_tokens(&self, share: &[Token]) -> bool
        ensures { result ≡ list_all (has_token self.now) share.now }
    {
        share.iter().all(|token| self.has_token(*token))
    }

    // Whether main has at least as many tokens at a leaf as a share.
    pub(crate) fn main_covers(&self, share: &[Token], token: Token) -> bool
        ensures { result ≡ main_covers self.now share.now token }
    {
        let word = self.token_word(token);
        self.count(share, word) as u64 <= self.tokens(0, word)
    }

    // Whether main has these tokens.
    pub(crate) fn main_has(&self, share: &[Token]) -> bool
        ensures { result ≡ main_has self.now share.now }
    {
        share.iter().all(|token| self.main_covers(share, *token))
    }

    // Whether no more helpers may be out, or no more hands may be made.
    pub(crate) fn is_crowded(&self) -> bool
        ensures { result ≡ is_crowded self.now }
    {
        HELPER_CAP <= self.helpers_out() || u32::MAX as usize <= self.hands.len()
    }

    // Whether main and a helper together have too many tokens at some word.
    pub(crate) fn overflows(&self, helper: u32) -> bool
        ensures { result ≡ some_word self.now (overflows self.now helper) }
    {
        (0..self.words.len()).any(|word| TOKEN_CAP
            < self.tokens(0, word) + self.tokens(helper, word))
    }

    // Whether a word is a node that is not a leaf.
    pub(crate) fn is_inner(&self, word: usize) -> bool
        ensures { result ≡ is_inner (kind_of self.now word) }
    {
        let k = word % self.span() as usize;
        k + k + 2 < self.nodes as usize
    }

    // Whether a hand has a token at a node that is not a leaf.
    pub(crate) fn stays(&self, hand: u32) -> bool
        ensures { result ≡ some_word self.now (stays self.now hand) }
    {
        (0..self.words.len()).any(|word| self.is_inner(word) && 0 < self.tokens(hand, word))
    }
}
