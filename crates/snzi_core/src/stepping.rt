//! One event, and a list of events.
ghost use Rattle.std.specs.Prelude.{◌≡◌, ◌≢◌, ℕ, ◌+◌, ◌-◌, ◌*◌, ◌/◌, ◌%◌, ◌^◌, ◌<◌, ◌≤◌, length, None, OnOk, IfErr, MatchResult};
ghost use Rattle.snzi_core.specs.CoreState.{IsRuled, SameShape};
ghost use Rattle.snzi_core.specs.Lawful.{refusal};
ghost use Rattle.snzi_core.specs.Effect.{after, Refuses, Runs, Stops};

use crate::event::{At, Event};
use crate::machine::Core;
use crate::unlawful::Unlawful;
use std::alloc::Allocator;

impl<A: Allocator + Clone> Core<A> {
    fn fast_add(&mut self, hand: u32, at: At)
        requires { refusal self.old (Event.FastAdd hand at) ≡ None }
        ensures { self.new ≡ after self.old (Event.FastAdd hand at) }
    {
        let _ = &self.words;
        let word = self.node_word(at);
        self.arrive(hand, word);
    }

    fn root_add(&mut self, hand: u32, slot: u16)
        requires { refusal self.old (Event.RootAdd hand slot) ≡ None }
        ensures { self.new ≡ after self.old (Event.RootAdd hand slot) }
    {
        let _ = &self.words;
        let word = self.node_word(At { slot, node: 0 });
        self.arrive(hand, word);
    }

    fn child_add(&mut self, hand: u32, at: At)
        requires { refusal self.old (Event.ChildAdd hand at) ≡ None }
        ensures { self.new ≡ after self.old (Event.ChildAdd hand at) }
    {
        let _ = &self.words;
        let word = self.node_word(at);
        if self.is_zero(word) {
            let parent = self.parent_word(at);
            self.descend(hand, parent, word);
        } else {
            self.arrive(hand, word);
        }
    }

    fn leave(&mut self, hand: u32, at: At)
        requires { refusal self.old (Event.Leave hand at) ≡ None }
        ensures { self.new ≡ after self.old (Event.Leave hand at) }
    {
        let _ = &self.words;
        let word = self.node_word(at);
        if self.passes_up(at) {
            let parent = self.parent_word(at);
            self.ascend(hand, parent, word);
        } else {
            self.depart(hand, word);
        }
    }

    fn stripe_add(&mut self, hand: u32, slot: u16, stripe: u8, n: u64)
        requires { refusal self.old (Event.StripeAdd hand slot stripe n) ≡ None }
        ensures { self.new ≡ after self.old (Event.StripeAdd hand slot stripe n) }
    {
        let _ = &self.words;
        let word = self.stripe_word(slot, stripe);
        self.add(hand, word, n);
    }

    // Does a lawful event. Only a split can be out of memory; then nothing has changed.
    fn apply(&mut self, event: &Event<'_>) -> Result<(), Unlawful>
        requires { refusal self.old event.now ≡ None }
        ensures ok { OnOk result (self.new ≡ after self.old event.now) }
        ensures err { IfErr result (λ u. Refuses u self.old event.now × (self.new ≡ self.old)) }
    {
        match *event {
            Event::Load { .. } => {}
            Event::FastAdd { hand, at } => self.fast_add(hand, at),
            Event::RootAdd { hand, slot } => self.root_add(hand, slot),
            Event::ChildAdd { hand, at } => self.child_add(hand, at),
            Event::Leave { hand, at } => self.leave(hand, at),
            Event::StripeAdd {
                hand,
                slot,
                stripe,
                n,
            } => self.stripe_add(hand, slot, stripe, n),
            Event::Split { share } => {
                if self.split(share).is_err() {
                    return Err(Unlawful::OutOfMemory);
                }
            }
            Event::Join { helper } => self.join(helper),
        }
        Ok(())
    }

    /// Does one event if it is lawful within the caps. Otherwise returns the first refusal and
    /// changes nothing.
    ///
    /// Only a split allocates: two numbers for each word. It also compares every two tokens of its
    /// share. A join reads each word's number of both hands. Every other event costs the same
    /// however many words and hands there are.
    ///
    /// # Errors
    ///
    /// The first refusal that applies, in the order that `Unlawful` gives.
    pub fn step(&mut self, event: &Event<'_>) -> Result<(), Unlawful>
        ensures ok { OnOk result ((refusal self.old event.now ≡ None) × (self.new ≡ after self.old event.now)) }
        ensures err { IfErr result (λ u. Refuses u self.old event.now × (self.new ≡ self.old)) }
        ensures rule { IsRuled self.old × IsRuled self.new }
        ensures shape { SameShape self.old self.new }
    {
        match self.refusal(event) {
            Some(unlawful) => Err(unlawful),
            None => self.apply(event),
        }
    }

    /// Does events in order, up to the first that is refused, and returns the index of that event.
    /// The earlier events remain done.
    ///
    /// # Errors
    ///
    /// The index of the first event that was refused, counted from 0, and its refusal.
    pub fn replay(&mut self, events: &[Event<'_>]) -> Result<(), (usize, Unlawful)>
        ensures runs { MatchResult result (λ _. Runs self.old events.now self.new) (λ stop. Stops self.old events.now stop.0 stop.1 self.new) }
        ensures shape { SameShape self.old self.new }
    {
        for (place, event) in events.iter().enumerate() {
            if let Err(unlawful) = self.step(event) {
                return Err((place, unlawful));
            }
        }
        Ok(())
    }
}
