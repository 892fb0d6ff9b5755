//! Which refusal an event meets first, apart from out of memory.
ghost use Rattle.std.specs.Prelude.{◌≡◌};
ghost use Rattle.snzi_core.specs.Lawful.{refuses_split, refuses_stripe_add, refusal};
ghost use Rattle.snzi_core.specs.Kept.{IsCore};

use crate::event::{At, Event};
use crate::machine::Core;
use crate::unlawful::Unlawful;
use snzi_tokens::Token;
use std::alloc::Allocator;

impl<A: Allocator + Clone> Core<A> {
    fn refuses_load(&self, hand: u32, slot: u16, word: u8) -> Option<Unlawful>
        ensures { result ≡ refusal self.now (Event.Load hand slot word) }
    {
        if !self.has_word(slot, word) {
            return Some(Unlawful::NoNode);
        }
        if !self.is_live(hand) {
            return Some(Unlawful::NoHand);
        }
        None
    }

    fn refuses_fast_add(&self, hand: u32, at: At) -> Option<Unlawful>
        ensures { result ≡ refusal self.now (Event.FastAdd hand at) }
    {
        if !self.has_node(at) {
            return Some(Unlawful::NoNode);
        }
        if !self.is_live(hand) {
            return Some(Unlawful::NoHand);
        }
        let word = self.node_word(at);
        if self.is_zero(word) {
            return Some(Unlawful::ZeroNode);
        }
        if self.is_at_cap(hand, word) {
            return Some(Unlawful::Cap);
        }
        None
    }

    fn refuses_root_add(&self, hand: u32, slot: u16) -> Option<Unlawful>
        ensures { result ≡ refusal self.now (Event.RootAdd hand slot) }
    {
        if !self.has_slot(slot) {
            return Some(Unlawful::NoNode);
        }
        if !self.is_live(hand) {
            return Some(Unlawful::NoHand);
        }
        if self.is_at_cap(hand, self.node_word(At { slot, node: 0 })) {
            return Some(Unlawful::Cap);
        }
        None
    }

    fn refuses_child_add(&self, hand: u32, at: At) -> Option<Unlawful>
        ensures { result ≡ refusal self.now (Event.ChildAdd hand at) }
    {
        if !self.has_node(at) || at.node == 0 {
            return Some(Unlawful::NoNode);
        }
        if !self.is_live(hand) {
            return Some(Unlawful::NoHand);
        }
        if self.lacks(hand, self.parent_word(at)) {
            return Some(Unlawful::NoToken);
        }
        if self.is_at_cap(hand, self.node_word(at)) {
            return Some(Unlawful::Cap);
        }
        None
    }

    fn refuses_leave(&self, hand: u32, at: At) -> Option<Unlawful>
        ensures { result ≡ refusal self.now (Event.Leave hand at) }
    {
        if !self.has_node(at) {
            return Some(Unlawful::NoNode);
        }
        if !self.is_live(hand) {
            return Some(Unlawful::NoHand);
        }
        if self.lacks(hand, self.node_word(at)) {
            return Some(Unlawful::NoToken);
        }
        if self.passes_up(at) && self.is_at_cap(hand, self.parent_word(at)) {
            return Some(Unlawful::Cap);
        }
        None
    }

    fn refuses_stripe_add(&self, hand: u32, slot: u16, stripe: u8) -> Option<Unlawful>
        ensures { result ≡ refuses_stripe_add self.now hand slot stripe }
    {
        if !self.has_stripe(slot, stripe) {
            return Some(Unlawful::NoNode);
        }
        if !self.is_live(hand) {
            return Some(Unlawful::NoHand);
        }
        None
    }

    fn refuses_split(&self, share: &[Token]) -> Option<Unlawful>
        ensures { result ≡ refuses_split self.now share.now }
    {
        if !self.has_tokens(share) {
            return Some(Unlawful::NoNode);
        }
        if !self.main_has(share) {
            return Some(Unlawful::NoToken);
        }
        if self.is_crowded() {
            return Some(Unlawful::Cap);
        }
        None
    }

    fn refuses_join(&self, helper: u32) -> Option<Unlawful>
        ensures { result ≡ refusal self.now (Event.Join helper) }
    {
        if !self.is_helper(helper) {
            return Some(Unlawful::NoHand);
        }
        if self.overflows(helper) {
            return Some(Unlawful::Cap);
        }
        if self.stays(helper) {
            return Some(Unlawful::StillHolding);
        }
        None
    }

    // The refusal that an event meets first, or None if it is lawful within the caps.
    pub(crate) fn refusal(&self, event: &Event<'_>) -> Option<Unlawful>
        ensures value { result ≡ refusal self.now event.now }
        ensures core { IsCore self.now }
    {
        let _ = &self.words;
        match *event {
            Event::Load { hand, slot, word } => self.refuses_load(hand, slot, word),
            Event::FastAdd { hand, at } => self.refuses_fast_add(hand, at),
            Event::RootAdd { hand, slot } => self.refuses_root_add(hand, slot),
            Event::ChildAdd { hand, at } => self.refuses_child_add(hand, at),
            Event::Leave { hand, at } => self.refuses_leave(hand, at),
            Event::StripeAdd {
                hand,
                slot,
                stripe,
                ..
            } => self.refuses_stripe_add(hand, slot, stripe),
            Event::Split { share } => self.refuses_split(share),
            Event::Join { helper } => self.refuses_join(helper),
        }
    }
}
