//! How a step changes a word and a hand.
ghost use Rattle.std.specs.Prelude.{◌≡◌, ◌≢◌, ℕ, ◌+◌, ◌-◌, ◌*◌, ◌/◌, ◌%◌, ◌^◌, ◌<◌, ◌≤◌, length, slice_index, true};
ghost use Rattle.snzi_core.specs.Caps.{token_cap};
ghost use Rattle.snzi_core.specs.Holding.{tokens_at};
ghost use Rattle.snzi_core.specs.CoreState.{hand_of};
ghost use Rattle.snzi_core.specs.Lawful.{is_live};
ghost use Rattle.snzi_core.specs.Effect.{arrived, descended, departed, ascended, summed};
ghost use Rattle.snzi_core.specs.Kept.{IsCore};

use crate::machine::Core;
use std::alloc::Allocator;

impl<A: Allocator + Clone> Core<A> {
    // An arrival: the word rises by one, and the hand gets a token there.
    pub(crate) fn arrive(&mut self, hand: u32, word: usize)
        requires place { word < length self.old.words }
        requires live { is_live self.old hand ≡ true }
        requires room { (slice_index self.old.words word < 2 ^ 64 - 1) × (tokens_at word (hand_of self.old hand) < token_cap) }
        requires kept { IsCore (arrived self.old hand word) }
        ensures { self.new ≡ arrived self.old hand word }
    {
        self.words[word] += 1;
        self.hands[hand as usize].gain(word);
    }

    // The word rises by one, and the hand's token moves there from the parent.
    pub(crate) fn descend(&mut self, hand: u32, parent: usize, word: usize)
        requires place { (parent < length self.old.words) × (word < length self.old.words) × (parent ≢ word) }
        requires live { is_live self.old hand ≡ true }
        requires room { (slice_index self.old.words word < 2 ^ 64 - 1) × (tokens_at word (hand_of self.old hand) < token_cap) }
        requires token { 0 < tokens_at parent (hand_of self.old hand) }
        requires kept { IsCore (descended self.old hand parent word) }
        ensures { self.new ≡ descended self.old hand parent word }
    {
        self.words[word] += 1;
        self.hands[hand as usize].descend(parent, word);
    }

    // A departure: the word falls by one, and the hand loses a token there.
    pub(crate) fn depart(&mut self, hand: u32, word: usize)
        requires place { word < length self.old.words }
        requires live { is_live self.old hand ≡ true }
        requires token { (0 < slice_index self.old.words word) × (0 < tokens_at word (hand_of self.old hand)) }
        requires kept { IsCore (departed self.old hand word) }
        ensures { self.new ≡ departed self.old hand word }
    {
        self.words[word] -= 1;
        self.hands[hand as usize].lose(word);
    }

    // One less at a word, and a token at the parent instead of the one at the word.
    pub(crate) fn ascend(&mut self, hand: u32, parent: usize, word: usize)
        requires place { (parent < length self.old.words) × (word < length self.old.words) × (parent ≢ word) }
        requires live { is_live self.old hand ≡ true }
        requires token { (0 < slice_index self.old.words word) × (0 < tokens_at word (hand_of self.old hand)) }
        requires room { tokens_at parent (hand_of self.old hand) < token_cap }
        requires kept { IsCore (ascended self.old hand parent word) }
        ensures { self.new ≡ ascended self.old hand parent word }
    {
        self.words[word] -= 1;
        self.hands[hand as usize].ascend(parent, word);
    }

    // More in a stripe, counted for the hand.
    pub(crate) fn add(&mut self, hand: u32, word: usize, n: u64)
        requires place { word < length self.old.words }
        requires live { is_live self.old hand ≡ true }
        requires kept { IsCore (summed self.old hand word n) }
        ensures { self.new ≡ summed self.old hand word n }
    {
        self.words[word] = self.words[word].wrapping_add(n);
        self.hands[hand as usize].raise(word, n);
    }
}
